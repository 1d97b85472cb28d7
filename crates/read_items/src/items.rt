// A pool index, and the string that it names.
ghost use Rattle.read_items.specs.Context.{PoolFits, ReadsIndex};

use crate::HINT_BASE;
use cursor::Cursor;
use payload::Extent;
use refusal::{Reason, Refusal};

// A pool index: the number of an entry. It is cut to 32 bits, and then tested.
pub fn read_index(cursor: &mut Cursor<'_>, pool: &[u64]) -> Result<usize, Refusal>
    ensures { ReadsIndex cursor.old cursor.new pool.now result }
{
    let at = cursor.at;
    let i = (cursor.uvarint()? % 0x1_0000_0000) as usize;
    if i < pool.len() / 2 {
        return Ok(i);
    }
    Err(Reason::IndexAbovePool.at(at))
}

// A payload whose pool was read: the cursor in it, and the pool table, whose strings lie in the payload.
#[derive(Clone, Copy)]
pub struct Items<'a> {
    pub cursor: Cursor<'a>,
    pub pool: &'a [u64],
    pub ghost pool_fits: { PoolFits cursor.payload.now pool.now },
}

impl Items<'_> {
    ghost use Rattle.read_items.specs.Context.{ReadsPart};
    ghost use Rattle.read_items.specs.Over.{ReadsOver};

    // The string that a pool index names.
    pub fn string(&mut self) -> Result<Extent, Refusal>
        ensures { ReadsOver self.old self.new (λ c c' pool. ReadsPart c c' pool result) }
    {
        let k = 2 * read_index(&mut self.cursor, self.pool)?;
        Ok(Extent {
            offset: (self.pool[k] % HINT_BASE) as usize,
            length: (self.pool[k + 1] % HINT_BASE) as usize,
        })
    }
}
