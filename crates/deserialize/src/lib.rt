// A payload, read into tables that the caller lends.
#![tactic(auto)]

ghost use Rattle.std.specs.Prelude.{◌≡◌, length};
ghost use Rattle.refusal.specs.Answer.{answer_of};
ghost use Rattle.payload.specs.Tables.{Leaves, capacities_of, reading};
ghost use Rattle.read_items.specs.Context.{PoolFits, plain_words};
ghost use Rattle.deserialize.specs.Tables.{ReadsScript};

mod hints;
mod script_tables;

use cursor::Cursor;
use hints::Strings;
use payload::{Capacities, Counts, Program};
use read_items::items::Items;
use refusal::{Reason, Refusal};
use script_tables::ScriptTables;

// What stands after the pool, read with hints in the pool table where they are worth their cost. The caller lends a part of its table. A record that held the part would have the
// ghost field that the strings fit, but a proof would not know what the part holds at the end, so the fact is asked.
fn read_hinted(
    cursor: Cursor<'_>,
    names: &[u8],
    pool: &mut [u64],
    tables: &mut ScriptTables<'_>,
) -> Result<Counts, Refusal>
    requires pool_fits { PoolFits cursor.payload.now pool.old }
    requires pool_value { plain_words pool.old ≡ pool.old }
    ensures reads_script { ReadsScript tables.old tables.new cursor.entry pool.old names.now result }
    ensures pool_unchanged { pool.new ≡ pool.old }
{
    if !hints::pay(names, cursor, pool) {
        return tables.read(Items { cursor, pool }, names);
    }
    let mut strings = Strings {
        bytes: cursor.payload,
        pool: &mut *pool,
    };
    strings.add_hints(names);
    let counts = tables.read(Items { cursor, pool }, names);
    hints::take_away(pool);
    counts
}

// Reads a payload: rows, spans, starts and pool strings go into the lent tables, with zeros behind them; a refusal leaves zeros alone.
pub fn deserialize_payload(
    bytes: &[u8],
    names: &[u8],
    rows: &mut [u64],
    spans: &mut [u64],
    starts: &mut [u32],
    pool: &mut [u64],
) -> Result<Counts, Refusal>
    ensures { Leaves (reading (capacities_of (length rows.old) (length spans.old) (length starts.old) (length pool.old))
        names.now bytes.now)
        rows.old spans.old starts.old pool.old rows.new spans.new starts.new pool.new (answer_of result) }
{
    let capacities = Capacities::of(rows.len(), spans.len(), starts.len(), pool.len());
    let mut tables = ScriptTables {
        rows,
        spans,
        starts,
        capacities,
    };
    if Program::SIZE < bytes.len() {
        tables.clear();
        pool.fill(0);
        return Err(Reason::TooLarge.at(0));
    }
    let mut cursor = Cursor::new(bytes, 0);
    let end = match read_pool::read_pool(&mut cursor, pool, capacities.strings) {
        Ok(count) => 2 * count,
        Err(refusal) => {
            tables.clear();
            return Err(refusal);
        }
    };
    let counts = read_hinted(cursor, names, &mut pool[..end], &mut tables);
    let used = if counts.is_ok() { end } else { 0 };
    slices::zero_from(pool, used);
    counts
}
