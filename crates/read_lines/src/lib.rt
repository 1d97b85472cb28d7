// The line index of a payload, read against the definition; its starts go into a lent table.
#![tactic(auto)]

ghost use Rattle.std.specs.Prelude.{◌≤◌, length};
ghost use Rattle.payload.specs.Reading.{read_flagged, read_line_index};
ghost use Rattle.read_items.specs.Over.{ReadsOver};
ghost use Rattle.read_lines.specs.LinesRead.{FillsOver, LinesRead};
ghost use Rattle.read_lines.specs.Starts.{StartsRead};

use cursor::Cursor;
use payload::Extent;
use read_items::items::Items;
use read_items::positions;
use refusal::{Reason, Refusal};

// A line index that was read: its name and the count of its starts. Without a name there is none, and the line flag is 0.
#[derive(Clone, Copy)]
pub struct Lines {
    pub name: Option<Extent>,
    pub starts: usize,
}

// The starts, of which the table holds as many as it has words. Their sum is kept uncut; a start is stored modulo 2^32.
fn read_starts(cursor: &mut Cursor<'_>, starts: &mut [u32], count: usize) -> Result<usize, Refusal>
    ensures { StartsRead cursor.old cursor.new starts.old starts.new (length starts.old) count result }
{
    let most = starts.len();
    let mut sum: i64 = 0;
    for k in 0..count {
        if most <= k {
            return Err(Reason::StartsFull.at(cursor.at));
        }
        sum = positions::read_position(cursor, sum)?;
        starts[k] = (signed::to_word(sum) % 0x1_0000_0000) as u32;
    }
    Ok(count)
}

// What stands after a flag of 1: the name and the starts.
fn read_flagged(items: &mut Items<'_>, starts: &mut [u32]) -> Result<Lines, Refusal>
    ensures { FillsOver items.old items.new starts.old starts.new (λ e. read_flagged e 1) result }
{
    let name = items.string()?;
    let count = items.cursor.uvarint()? as usize;
    Ok(Lines {
        name: Some(name),
        starts: read_starts(&mut items.cursor, starts, count)?,
    })
}

// The line index, its starts into the table from its begin on. A refusal leaves in it the starts before.
fn fill_starts(items: &mut Items<'_>, starts: &mut [u32]) -> Result<Lines, Refusal>
    ensures { FillsOver items.old items.new starts.old starts.new read_line_index result }
{
    let at = items.cursor.at;
    match items.cursor.byte()? {
        0 => Ok(Lines {
            name: None,
            starts: 0,
        }),
        1 => read_flagged(items, starts),
        _ => Err(Reason::WrongLineFlag.at(at)),
    }
}

// Reads the line index, whose starts go into a table that holds at most `most`. A refusal leaves zeros in the table.
pub fn read_line_index(
    items: &mut Items<'_>,
    starts: &mut [u32],
    most: usize,
) -> Result<Lines, Refusal>
    requires { most ≤ length starts.old }
    ensures { ReadsOver items.old items.new (λ c c' pool. LinesRead c c' pool starts.old starts.new most result) }
{
    let lines = fill_starts(items, &mut starts[..most]);
    if lines.is_err() {
        starts.fill(0);
    }
    lines
}
