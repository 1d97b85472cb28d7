// The pool of a payload, read against the definition; the offset and length of each string go into a lent table.
#![tactic(auto)]

ghost use Rattle.std.specs.Prelude.{◌*◌, ◌/◌, ◌≤◌, length};
ghost use Rattle.read_pool.specs.PoolRead.{PoolFilled, PoolRead};
ghost use Rattle.read_pool.specs.Strings.{ReadsString, StringsRead};

use cursor::Cursor;
use payload::Extent;
use refusal::{Reason, Refusal};

fn read_string(cursor: &mut Cursor<'_>) -> Result<Extent, Refusal>
    ensures { ReadsString cursor.old cursor.new result }
{
    let length = cursor.uvarint()? as usize;
    let offset = cursor.at;
    if utf8::is_utf8(cursor.take(length)?) {
        return Ok(Extent { offset, length });
    }
    Err(Reason::NotUtf8.at(offset))
}

// The strings, of which the table holds as many as it has pairs of words.
fn read_strings(cursor: &mut Cursor<'_>, pool: &mut [u64], count: usize) -> Result<usize, Refusal>
    ensures { StringsRead cursor.old cursor.new pool.old pool.new (length pool.old / 2) count result }
{
    let most = pool.len() / 2;
    for k in 0..count {
        if most <= k {
            return Err(Reason::PoolFull.at(cursor.at));
        }
        let string = read_string(cursor)?;
        pool[2 * k] = string.offset as u64;
        pool[2 * k + 1] = string.length as u64;
    }
    Ok(count)
}

// The count and the strings, into the table from its begin on. A refusal leaves in it the strings before.
fn fill_pool(cursor: &mut Cursor<'_>, pool: &mut [u64]) -> Result<usize, Refusal>
    ensures { PoolFilled cursor.old cursor.new pool.old pool.new (length pool.old / 2) result }
{
    let count = cursor.uvarint()? as usize;
    read_strings(cursor, pool, count)
}

// Reads the pool. A refusal leaves zeros in the table.
pub fn read_pool(cursor: &mut Cursor<'_>, pool: &mut [u64], most: usize) -> Result<usize, Refusal>
    requires { 2 * most ≤ length pool.old }
    ensures { PoolRead cursor.old cursor.new pool.old pool.new most result }
{
    let count = fill_pool(cursor, &mut pool[..2 * most]);
    if count.is_err() {
        pool.fill(0);
    }
    count
}
