// Tests of a pool that was read: whether its strings are first used in its order, and whether they differ.
#![tactic(auto)]

ghost use Rattle.std.specs.Prelude.{◌≡◌, ◌++◌, ◌*◌, ◌/◌, ◌≤◌, length, drop};
ghost use Rattle.payload.specs.Rows.{row_width};
ghost use Rattle.pool_index.specs.Strings.{pool_strings, distinct};
ghost use Rattle.gather.specs.Gather.{row_parts, rows_parts, name_parts};
ghost use Rattle.gather.specs.Places.{parts_of};
ghost use Rattle.pool_check.specs.Order.{Meets};
ghost use Rattle.pool_check.specs.Distinct.{PartsIn, LinkedFirst};

use gather::Place;
use payload::{Program, Tables};
use row_layout::row::Row;
use std::cmp::Ordering;

// ---- the order of first use: how many entries are met, or none where one comes too early

// After the string at a place, where there is one: it is the next entry, or one that was met, or a later one. Offsets rise in a pool that was read, and a string that was
// read stands at an entry's offset, so that the offset alone tells.
fn meet_string(at: Option<Place>, store: &[u8], pool: &[u64], met: usize) -> Option<usize>
    requires { met ≤ length pool.now / 2 }
    ensures { Meets pool.now met (parts_of store.now at) result }
{
    let Some(at) = at else {
        return Some(met);
    };
    if met == pool.len() / 2 {
        return Some(met);
    }
    let offset = pool_index::cut(at.offset, store.len()) as u64;
    match offset.cmp(&pool[2 * met]) {
        Ordering::Less => Some(met),
        Ordering::Equal => Some(met + 1),
        Ordering::Greater => None,
    }
}

// After a row.
fn meet_row(store: &[u8], row: Row<'_>, pool: &[u64], met: usize) -> Option<usize>
    requires { met ≤ length pool.now / 2 }
    ensures { Meets pool.now met (row_parts store.now (drop (row_width * row.entry.number) row.entry.table.now)) result }
{
    let places = gather::row_places(row);
    let first = meet_string(places.first, store, pool, met)?;
    meet_string(places.second, store, pool, first)
}

// After all rows.
fn meet_rows(store: &[u8], rows: &[u64], pool: &[u64]) -> Option<usize>
    ensures { Meets pool.now 0 (rows_parts store.now (length rows.now / row_width) rows.now) result }
{
    let mut met: usize = 0;
    for i in 0..rows.len() / Program::ROW_WIDTH {
        let row = Row {
            table: rows,
            number: i,
        };
        met = meet_row(store, row, pool, met)?;
    }
    Some(met)
}

// How many entries of the pool the gathered strings of a program meet in the pool's order; none where one comes too early.
pub fn strings_met(tables: &Tables<'_>, pool: &[u64]) -> Option<usize>
    ensures { Meets pool.now 0
        (rows_parts tables.now.store.now (length tables.now.rows.now / row_width) tables.now.rows.now
        ++ name_parts tables.now.store.now tables.now.flag tables.now.name_o tables.now.name_n) result }
{
    let met = meet_rows(tables.store, tables.rows, pool)?;
    meet_string(gather::name_place(tables), tables.store, pool, met)
}

// ---- strings that differ

// Links the entries one after the other, up to the first whose string stands before it: how many are linked.
fn link_distinct(store: &[u8], pool: &mut [u64]) -> usize
    requires { PartsIn store.now pool.old }
    ensures { LinkedFirst store.now pool.old pool.new result }
{
    let count = pool.len() / 2;
    for k in 0..count {
        let at = Place {
            offset: pool[2 * k],
            size: pool[2 * k + 1],
        };
        if !gather::intern_next(k, pool, store, at) {
            return k;
        }
    }
    count
}

// Whether no string of the pool stands twice. Each is looked for among those before it by links in the pool table, which are taken away again.
pub fn are_distinct(store: &[u8], pool: &mut [u64]) -> bool
    requires { PartsIn store.now pool.old }
    ensures value { result ≡ distinct (pool_strings store.now pool.old) }
    ensures pool_unchanged { pool.new ≡ pool.old }
{
    let linked = link_distinct(store, pool);
    gather::unlink(pool, linked);
    linked == pool.len() / 2
}
