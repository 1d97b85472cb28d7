// Values and chunks of a payload, read into lent tables.
#![tactic(auto)]

mod rows;
mod sources;
mod values;

ghost use Rattle.read_values.specs.Outer.{OuterRead};
ghost use Rattle.read_values.specs.Did.{Fits};
ghost use Rattle.read_values.specs.State.{start_at};

use payload::Program;
use refusal::Refusal;
pub use sources::Source;
use values::Decoder;

// The next unread byte, and the rows and spans used.
#[derive(Clone, Copy)]
pub struct State {
    pub at: usize,
    pub rows: usize,
    pub spans: usize,
}

// The outer chunk at `at`, into tables of which nothing is used. A refusal leaves zeros in both.
pub fn read_outer(
    source: &Source<'_>,
    rows: &mut [u64],
    spans: &mut [u64],
    at: usize,
) -> Result<State, Refusal>
    requires { Fits source.now rows.old spans.old (start_at at) }
    ensures { OuterRead source.now rows.old rows.new spans.old spans.new at result }
{
    let mut decoder = Decoder {
        source: *source,
        rows,
        spans,
        state: State {
            at,
            rows: 0,
            spans: 0,
        },
    };
    match decoder.read_chunk(Program::DEPTH) {
        Ok(()) => Ok(decoder.state),
        Err(refusal) => {
            rows.fill(0);
            spans.fill(0);
            Err(refusal)
        }
    }
}
