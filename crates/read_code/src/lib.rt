// Code and its spans, read from a payload against the definition; the spans go into a lent table.
#![tactic(auto)]

ghost use Rattle.std.specs.Prelude.{true, [], ◌∷◌, ◌≡◌, ◌+◌, ◌*◌, ◌≤◌, ◌<◌, get_or, length, replicate};
ghost use Rattle.slices.specs.Put.{put};
ghost use Rattle.payload.specs.Tables.{span_words};
ghost use Rattle.payload.specs.Spans.{read_position};
ghost use Rattle.cursor.specs.Reads.{Reads};
ghost use Rattle.cursor.specs.Advances.{Advances, answer_of};
ghost use Rattle.read_code.specs.CodeRead.{CodeFilled, CodeRead};
ghost use Rattle.read_code.specs.Runs.{RunsPassed, RunsRead, ShortRun, run_after, run_of, span_of};

use cursor::Cursor;
use payload::Extent;
use read_items::positions;
use refusal::{Reason, Refusal};

// A run: its positions, which those of the run after it are counted from, and how many spans it gives.
#[derive(Clone, Copy)]
struct Run {
    start: i64,
    end: i64,
    count: u64,
}

// A span, as the table has it.
#[derive(Clone, Copy)]
struct Span {
    start: u64,
    end: u64,
}

impl Run {
    // The span that it gives, as often as it counts.
    fn span(self) -> Span
        ensures { span_of result ≡ (run_of self).span }
    {
        Span {
            start: signed::to_word(self.start),
            end: signed::to_word(self.end),
        }
    }
}

// The run after one.
fn read_run_long(cursor: &mut Cursor<'_>, before: Run) -> Result<Run, Refusal>
    ensures { Advances cursor.old cursor.new (run_after before) (answer_of result cursor.new.at) }
{
    let start = positions::read_position(cursor, before.start)?;
    let end = positions::read_position(cursor, before.end)?;
    let count = cursor.uvarint()?;
    Ok(Run { start, end, count })
}

// Whether a run of three bytes stands here: all its numbers have one byte. They are tested at once, by `&`, since a branch for each is slower.
fn is_short_run(cursor: &Cursor<'_>) -> bool
    ensures { result ≡ true → ShortRun cursor.now.payload.now cursor.now.at }
{
    let [start, end, count, ..] = &cursor.payload[cursor.at..] else {
        return false;
    };
    (*start < 128) & (*end < 128) & (*count < 128)
}

// The position that a delta of one byte leads to from an old one.
fn short_position(payload: &[u8], at: usize, old: i64) -> Result<i64, Refusal>
    requires { (at < length payload.now) × (get_or payload.now at 0 < 128) }
    ensures { Reads payload.now at (read_position old) (answer_of result (at + 1)) }
{
    let delta = signed::unzigzag(u64::from(payload[at]));
    signed::add_delta(old, delta).ok_or(Reason::PositionOutOfRange.at(at))
}

fn read_short_run(cursor: &mut Cursor<'_>, before: Run) -> Result<Run, Refusal>
    requires { ShortRun cursor.old.payload.now cursor.old.at }
    ensures { Advances cursor.old cursor.new (run_after before) (answer_of result cursor.new.at) }
{
    let start = short_position(cursor.payload, cursor.at, before.start)?;
    let end = short_position(cursor.payload, cursor.at + 1, before.end)?;
    let count = u64::from(cursor.payload[cursor.at + 2]);
    cursor.at += 3;
    Ok(Run { start, end, count })
}

// Most numbers have one byte: the short run is inlined into the loop over the runs, and any other is a call. The call has a cursor of its own, so that the loop's is not
// kept in memory, where every short run would have to store it.
fn read_run(cursor: &mut Cursor<'_>, before: Run) -> Result<Run, Refusal>
    ensures { Advances cursor.old cursor.new (run_after before) (answer_of result cursor.new.at) }
{
    if is_short_run(cursor) {
        return read_short_run(cursor, before);
    }
    let mut here = *cursor;
    let run = read_run_long(&mut here, before)?;
    cursor.at = here.at;
    Ok(run)
}

// Stores a span as span number k.
fn store_span(spans: &mut [u64], k: usize, span: Span)
    requires { 2 * (k + 1) ≤ length spans.old }
    ensures { spans.new ≡ put spans.old (2 * k) (span_words (span_of span ∷ [])) }
{
    spans[2 * k] = span.start;
    spans[2 * k + 1] = span.end;
}

// Stores a span one to four times. How many spans a run has cannot be foreseen, and a branch on it costs more than the stores: so there are always four,
// and those past the last span store it again.
fn fill_up_to_four(spans: &mut [u64], from: usize, n: usize, span: Span)
    requires { (1 ≤ n) × (n ≤ 4) × (2 * (from + n) ≤ length spans.old) }
    ensures { spans.new ≡ put spans.old (2 * from) (span_words (replicate n (span_of span))) }
{
    let last = from + n - 1;
    store_span(spans, from, span);
    store_span(spans, last.min(from + 1), span);
    store_span(spans, last.min(from + 2), span);
    store_span(spans, last, span);
}

// Stores a span n times, from span number `from` on.
fn fill(spans: &mut [u64], from: usize, n: usize, span: Span)
    requires { 2 * (from + n) ≤ length spans.old }
    ensures { spans.new ≡ put spans.old (2 * from) (span_words (replicate n (span_of span))) }
{
    if matches!(n, 1..=4) {
        return fill_up_to_four(spans, from, n, span);
    }
    for k in 0..n {
        store_span(spans, from + k, span);
    }
}

// The runs that are left once their counts have passed the code's length: they are read to the last, so that a refusal of theirs comes first.
fn pass_runs(cursor: &mut Cursor<'_>, count: u64, before: Run) -> Result<(), Refusal>
    ensures { RunsPassed cursor.old cursor.new count before result }
{
    let mut run = before;
    for _ in 0..count {
        run = read_run_long(cursor, run)?;
    }
    Ok(())
}

// The runs of a code of `size` bytes, whose spans go into the table from span number `used` on.
fn read_runs(
    cursor: &mut Cursor<'_>,
    spans: &mut [u64],
    used: usize,
    size: usize,
    count: u64,
) -> Result<(), Refusal>
    requires { 2 * (used + size) ≤ length spans.old }
    ensures { RunsRead cursor.old cursor.new spans.old spans.new used size count result }
{
    let stop = used + size;
    let mut here = *cursor;
    let mut from = used;
    let mut run = Run {
        start: 0,
        end: 0,
        count: 0,
    };
    for k in 0..count {
        run = read_run(&mut here, run)?;
        if ((stop - from) as u64) < run.count {
            let mut rest = here;
            pass_runs(&mut rest, count - (k + 1), run)?;
            return Err(Reason::WrongRunCounts.at(rest.at));
        }
        let n = run.count as usize;
        fill(spans, from, n, run.span());
        from += n;
    }
    if from < stop {
        return Err(Reason::WrongRunCounts.at(here.at));
    }
    cursor.at = here.at;
    Ok(())
}

// The code that stands here, its spans into the table, of which `used` of at most `most` spans are used. A refusal leaves in it spans of the runs before.
fn fill_spans(
    cursor: &mut Cursor<'_>,
    spans: &mut [u64],
    used: usize,
    most: usize,
) -> Result<Extent, Refusal>
    requires { (used ≤ most) × (2 * most ≤ length spans.old) }
    ensures { CodeFilled cursor.old cursor.new spans.old spans.new used most result }
{
    let length = cursor.uvarint()? as usize;
    let offset = cursor.at;
    cursor.take(length)?;
    if most - used < length {
        return Err(Reason::SpansFull.at(cursor.at));
    }
    let count = cursor.uvarint()?;
    read_runs(cursor, spans, used, length, count)?;
    Ok(Extent { offset, length })
}

// Reads the code that stands here, and stores its spans in the table, of which `used` of at most `most` spans are used. A refusal leaves zeros in the table.
pub fn read_code(
    cursor: &mut Cursor<'_>,
    spans: &mut [u64],
    used: usize,
    most: usize,
) -> Result<Extent, Refusal>
    requires { (used ≤ most) × (2 * most ≤ length spans.old) }
    ensures { CodeRead cursor.old cursor.new spans.old spans.new used most result }
{
    let code = fill_spans(cursor, spans, used, most);
    if code.is_err() {
        spans.fill(0);
    }
    code
}
