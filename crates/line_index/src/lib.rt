// The line index of a text: where each line starts, and the line and column of an offset.
#![tactic(auto)]

ghost use Rattle.std.specs.Prelude.{◌≡◌, true, ◌+◌, ◌≤◌, ◌<◌, length, take};
ghost use Rattle.slices.specs.Zeros.{pad_to};
ghost use Rattle.refusal.specs.Answer.{answer_of};
ghost use Rattle.line_index.specs.LineIndex.{capacity, line_index, count_of, kept};
ghost use Rattle.line_index.specs.LineCol.{rising_prefix, not_above, line_col};
ghost use Rattle.line_index.specs.Rises.{Rises};

use payload::Program;
use refusal::{Reason, Refusal};

// The starts of a text's lines, in a table: how many words of it they take.
#[derive(Clone, Copy, Debug, PartialEq, Eq)]
pub struct LineIndex {
    pub count: usize,
}

// A place in a text: line and column, both from 1.
#[derive(Clone, Copy, Debug, PartialEq, Eq)]
pub struct LineCol {
    pub line: usize,
    pub column: u64,
}

impl LineIndex {
    // The starts of the lines of text go to the front of `starts`, and zeros behind them; a refusal leaves zeros alone.
    pub fn new(text: &[u8], starts: &mut [u32]) -> Result<LineIndex, Refusal>
        ensures value { answer_of result ≡ line_index text.now (length starts.old) }
        ensures starts_after { starts.new ≡ pad_to (length starts.old) (kept (answer_of result) text.now) }
    {
        let index = line_starts(text, starts);
        let used = index.map_or(0, |made| made.count);
        starts[used..].fill(0);
        index
    }
}

// How many starts a table of so many words takes.
fn room(words: usize) -> usize
    ensures { result ≡ capacity words }
{
    payload::start_capacity(words)
}

// Writes the starts to the front of the table. What it leaves behind them, and after a refusal, is for the caller to clear.
fn line_starts(text: &[u8], starts: &mut [u32]) -> Result<LineIndex, Refusal>
    ensures value { answer_of result ≡ line_index text.now (length starts.old) }
    ensures starts_after { (take (count_of (answer_of result)) starts.new ≡ kept (answer_of result) text.now) × (count_of (answer_of result) ≤ length starts.old) }
{
    if Program::SIZE < text.len() {
        return Err(Reason::TooLarge.at(0));
    }
    let most = room(starts.len());
    if most == 0 {
        return Err(Reason::StartsFull.at(0));
    }
    starts[0] = 0;
    let mut count = 1;
    for i in 0..text.len() {
        if text[i] == b'\n' {
            if count == most {
                return Err(Reason::StartsFull.at(i));
            }
            starts[count] = (i + 1) as u32;
            count += 1;
        }
    }
    Ok(LineIndex { count })
}

// Whether each of the 32 starts from i on is below the next. Without an exit, so that it is compiled to vectors.
fn block_rises(starts: &[u32], i: usize) -> bool
    requires { i + 32 < length starts.now }
    ensures { result ≡ true → Rises starts.now i (i + 32) }
{
    let mut rises = true;
    for k in i..i + 32 {
        rises = rises & (starts[k] < starts[k + 1]);
    }
    rises
}

// An index up to which the starts rise, found by blocks.
fn rising_blocks(starts: &[u32]) -> usize
    requires { 0 < length starts.now }
    ensures upper_bound { result < length starts.now }
    ensures rises { Rises starts.now 0 result }
{
    // Where the steps end is the answer: a `for` by `step_by(32)` would say it inside the loop and behind it.
    let mut i = 0;
    while 32 < starts.len() - i && block_rises(starts, i) {
        i += 32;
    }
    i
}

// The index of the first start that is not above its predecessor, or the length.
fn rising_prefix(starts: &[u32]) -> usize
    ensures { result ≡ rising_prefix starts.now }
{
    if starts.is_empty() {
        return 0;
    }
    for i in rising_blocks(starts) + 1..starts.len() {
        if starts[i] <= starts[i - 1] {
            return i;
        }
    }
    starts.len()
}

// How many starts are not above o. It reads them all, since that is compiled to vectors.
fn not_above(starts: &[u32], o: u32) -> usize
    ensures { result ≡ not_above o starts.now }
{
    let mut count = 0;
    for start in starts {
        if *start <= o {
            count += 1;
        }
    }
    count
}

// The line and column of an offset, which counts modulo 2^32.
pub fn line_col(starts: &[u32], offset: u64) -> Result<LineCol, Refusal>
    ensures { answer_of result ≡ line_col starts.now offset }
{
    let rising = rising_prefix(starts);
    if rising < starts.len() {
        return Err(Reason::StartsNotRising.at(rising));
    }
    let o = (offset % 0x1_0000_0000) as u32;
    let line = not_above(starts, o).max(1);
    let start = starts.get(line - 1).copied().unwrap_or(0);
    let column = u64::from(o.saturating_sub(start)) + 1;
    Ok(LineCol { line, column })
}
