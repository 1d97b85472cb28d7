// A chunk's code, and its spans as maximal runs.
#![tactic(auto)]

ghost use Rattle.std.specs.Prelude.{◌≡◌, ◌+◌, ◌^◌, ◌<◌, ◌≤◌, true, [], ◌∷◌, ◌++◌, length, pos, ◌-ℤ◌, if◌then◌else◌, IfSome, IfNone};
ghost use Rattle.varint.specs.Uleb128.{uleb128};
ghost use Rattle.signed.specs.Signed.{zigzag_of};
ghost use Rattle.payload.specs.Spans.{same_span, write_delta, runs_of, write_runs};
ghost use Rattle.payload.specs.Sound.{spans_of};
ghost use Rattle.emit.specs.Emits.{Emits};
ghost use Rattle.write_code.specs.Runs.{Positions, span, leading_trues, repeated};

use emit::Emitter;
use emit::parts::Part;

// A chunk's code, with its length.
#[derive(Clone, Copy)]
pub struct Code<'a> {
    pub code: &'a [u8],
}

impl Part for Code<'_> {
    ghost bytes = { λ c. uleb128 (length c.code.now) ++ c.code.now };

    fn emit(&self, emitter: &mut Emitter) {
        emitter.varint(self.code.len() as u64);
        emitter.body(self.code);
    }
}

// A position of a sound program.
#[derive(Clone, Copy)]
pub struct Position {
    pub offset: u64,
    pub ghost small: { offset < 2 ^ 63 },
}

impl From<u32> for Position {
    ghost from_gives = { λ n p. p.offset ≡ n };

    fn from(n: u32) -> Position {
        Position {
            offset: u64::from(n),
        }
    }
}

impl Position {
    // The signed difference to another position, by zigzag.
    fn delta_to(self, new: Position) -> u64
        ensures { result ≡ zigzag_of (pos new.offset -ℤ pos self.offset) }
    {
        signed::zigzag(new.offset as i64 - self.offset as i64)
    }

    fn delta_width(self, new: Position) -> usize
        ensures { (result ≡ length (write_delta self.offset new.offset)) × (result ≤ 10) }
    {
        width(self.delta_to(new))
    }

    // Whether a delta is from -64 to 63: it has one byte then.
    fn is_near(self, new: Position) -> bool
        ensures { result ≡ true → length (write_delta self.offset new.offset) ≡ 1 }
    {
        std::num::wrapping_sub_u64(new.offset + 64, self.offset) < 128
    }
}

pub fn write_delta(emitter: &mut Emitter, old: Position, new: Position)
    ensures { Emits emitter.old emitter.new (write_delta old.offset new.offset) }
{
    emitter.varint(old.delta_to(new));
}

#[derive(Clone, Copy)]
struct Span {
    start: Position,
    end: Position,
}

impl Span {
    // From here the first span's deltas are taken.
    fn origin() -> Span
        ensures { (result.start.offset ≡ 0) × (result.end.offset ≡ 0) }
    {
        let zero = Position::from(0);
        Span {
            start: zero,
            end: zero,
        }
    }

    // Whether these are its words. Both are compared, so that there is no branch between them.
    fn has(self, start: u64, end: u64) -> bool
        ensures { result ≡ same_span (span self.start.offset self.end.offset) (span start end) }
    {
        (self.start.offset == start) & (self.end.offset == end)
    }
}

// A span, and how often it stands there.
#[derive(Clone, Copy)]
struct Run {
    span: Span,
    count: u64,
}

// The three numbers of a run, after a run of the last span.
fn write_run(emitter: &mut Emitter, last: Span, run: Run)
    ensures { Emits emitter.old emitter.new
        ((write_delta last.start.offset run.span.start.offset ++ write_delta last.end.offset run.span.end.offset) ++ uleb128 run.count) }
{
    emitter.three_varints(
        last.start.delta_to(run.span.start),
        last.end.delta_to(run.span.end),
        run.count,
    );
}

// How many of four tests are true before the first that is false. A sum, so that there is no branch on a test.
fn leading_trues(p: bool, q: bool, r: bool, s: bool) -> usize
    ensures trues { result ≡ leading_trues (p ∷ q ∷ r ∷ s ∷ []) }
    ensures bound { result ≤ 4 }
{
    usize::from(p) + usize::from(p & q) + usize::from((p & q) & r) + usize::from(((p & q) & r) & s)
}

// How many bytes the ULEB128 of a number has.
fn width(n: u64) -> usize
    ensures { (result ≡ length (uleb128 n)) × (result ≤ 10) }
{
    varint::uvarint_width(n)
}

// Where a run of n times the last span ends and the next begins: how many bytes the count of the one and the deltas of the other have. Most have one each,
// and then there is no branch on whether a run ends.
fn boundary_width(ends: bool, n: u64, last: Span, next: Span) -> usize
    ensures { (result ≡ (if ends then length (uleb128 n) + (length (write_delta last.start.offset next.start.offset) + length (write_delta last.end.offset next.end.offset)) else 0))
        × (result ≤ 30) }
{
    if (last.start.is_near(next.start) & last.end.is_near(next.end)) & (n < 128) {
        return 3 * usize::from(ends);
    }
    if ends {
        return width(n) + (last.start.delta_width(next.start) + last.end.delta_width(next.end));
    }
    0
}

// The runs of a chunk's spans. A span has two words, which are positions.
#[derive(Clone, Copy)]
pub struct Runs<'a> {
    pub spans: &'a [u64],
    pub ghost positions: { Positions spans.now },
}

impl<'a> Runs<'a> {
    // The first span, and the spans after it.
    fn split_first(self) -> Option<(Span, Runs<'a>)>
        ensures some { IfSome result (λ r. spans_of self.entry.spans.now ≡ span r.0.start.offset r.0.end.offset ∷ spans_of r.1.spans.now) }
        ensures none { IfNone result (spans_of self.entry.spans.now ≡ []) }
    {
        let [start, end, after @ ..] = self.spans else {
            return None;
        };
        let first = Span {
            start: Position { offset: *start },
            end: Position { offset: *end },
        };
        Some((first, Runs { spans: after }))
    }

    // How many spans at the front are this one. The first four are compared without a branch, as their outcome cannot be foreseen; only where all four are, the spans
    // after them are walked one by one.
    fn repeats(self, s: Span) -> usize
        ensures { result ≡ repeated (span s.start.offset s.end.offset) (spans_of self.entry.spans.now) }
    {
        let words = self.spans;
        let mut n: usize = 0;
        if let [a, b, c, d, e, f, g, h, ..] = words {
            n = leading_trues(s.has(*a, *b), s.has(*c, *d), s.has(*e, *f), s.has(*g, *h));
            if n < 4 {
                return n;
            }
        }
        let count = words.len() / 2;
        for k in n..count {
            if !s.has(words[2 * k], words[2 * k + 1]) {
                return k;
            }
        }
        count
    }

    // The first run, and the spans after it.
    #[tactic(auto, using(crate::specs::Laws::Runs::repeated_words))]
    fn split_run(self) -> Option<(Run, Runs<'a>)>
        ensures some { IfSome result (λ r. runs_of (spans_of self.entry.spans.now)
            ≡ record { span = span r.0.span.start.offset r.0.span.end.offset; count = r.0.count } ∷ runs_of (spans_of r.1.spans.now)) }
        ensures none { IfNone result (spans_of self.entry.spans.now ≡ []) }
    {
        let (span, after) = self.split_first()?;
        let more = after.repeats(span);
        let run = Run {
            span,
            count: 1 + more as u64,
        };
        let after_run = Runs {
            spans: &after.spans[2 * more..],
        };
        Some((run, after_run))
    }

    // Counts a run for each span that differs from the next, and one for the last span.
    fn count(self) -> usize
        ensures { result ≡ length (runs_of (spans_of self.entry.spans.now)) }
    {
        let Some((mut last, mut rest)) = self.split_first() else {
            return 0;
        };
        let mut n: usize = 1;
        // One span after another: what is left knows that its words are positions, which the chunks of a slice do not tell.
        while let Some((next, after)) = rest.split_first() {
            if !last.has(next.start.offset, next.end.offset) {
                n += 1;
            }
            last = next;
            rest = after;
        }
        n
    }

    // How many bytes the run count and the runs have, in one pass over the spans: `n` is how often the last span has stood in its run so far.
    fn length(self) -> usize
        ensures { result ≡ length (write_runs (spans_of self.entry.spans.now)) }
    {
        let Some((mut last, mut rest)) = self.split_first() else {
            return 1;
        };
        let mut runs: usize = 1;
        let mut n: usize = 1;
        let origin = Span::origin();
        let mut length = origin.start.delta_width(last.start) + origin.end.delta_width(last.end);
        // As in `count`.
        while let Some((next, after)) = rest.split_first() {
            let ends = !last.has(next.start.offset, next.end.offset);
            length += boundary_width(ends, n as u64, last, next);
            runs += usize::from(ends);
            n = if ends { 1 } else { n + 1 };
            last = next;
            rest = after;
        }
        width(runs as u64) + (length + width(n as u64))
    }
}

impl Part for Runs<'_> {
    ghost bytes = { λ r. write_runs (spans_of r.spans.now) };

    // The run count and the runs. Where they are only measured their length is enough.
    fn emit(&self, emitter: &mut Emitter) {
        if emitter.only_measures() {
            return emitter.advance(self.length());
        }
        emitter.varint(self.count() as u64);
        let mut last = Span::origin();
        let mut rest = *self;
        // Where the next run begins is found with each.
        while let Some((run, after)) = rest.split_run() {
            write_run(emitter, last, run);
            last = run.span;
            rest = after;
        }
    }
}
