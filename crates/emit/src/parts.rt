// Parts of a payload: each is emitted into what is left of the output, where the last part ended.

ghost use Rattle.std.specs.Prelude.{List, ℕ, ◌≤◌, length, is_some};
ghost use Rattle.emit.specs.Emit.{output_limit, Emitted};
ghost use Rattle.emit.specs.Expected.{bytes_of};
ghost use Rattle.emit.specs.Emits.{Emits};

use crate::Emitter;

// What emits bytes of its own.
pub trait Part {
    ghost bytes: { Self → List ℕ };

    fn emit(&self, emitter: &mut Emitter)
        ensures { Emits emitter.old emitter.new (bytes self.now) };
}

// Emits a part from the output's start on, and returns the place after it.
pub fn emit_part<P: Part>(out: &mut [u8], expected: Option<&[u8]>, part: &P) -> usize
    requires { length out.old ≤ output_limit (is_some expected) }
    ensures { Emitted (is_some expected.entry) (bytes_of expected.entry) out.old out.new 0 result (P.bytes part.now) }
{
    let mut emitter = Emitter {
        out,
        at: 0,
        expected,
    };
    part.emit(&mut emitter);
    // taken apart, so that its end is known to be the output's
    let Emitter { out: _out, at, .. } = emitter;
    at
}
