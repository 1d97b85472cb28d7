// Payloads read and checked, with every word of the tables lent. A record: lengths u16 of payload and names list, words lent u16 of rows, spans, starts
// and pool; payload, names list; the nine fields u64 each; the used words of rows, spans and pool u64 each, and the used starts u32 each. All other
// lent words are 0 after the call, whatever stood there before.
use crate::{LentTables, u16_at, words_end};
use payload::{Counts, Program};
use recorded::{numbers_in, part};
use refusal::Refusal;

// The payload of a record.
fn payload_of(records: &[u8]) -> &[u8] {
    part(records, 12, u16_at(records, 0))
}

// The names list of a record.
fn names_of(records: &[u8]) -> &[u8] {
    part(records, 12 + u16_at(records, 0), u16_at(records, 2))
}

// The answer to the payload of a record that is read.
pub(crate) fn read(records: &[u8], tables: &mut LentTables<'_>) -> Result<Counts, Refusal> {
    deserialize::deserialize_payload(
        payload_of(records),
        names_of(records),
        tables.rows,
        tables.spans,
        tables.starts,
        tables.pool,
    )
}

// The answer to the payload of a record that is checked.
pub(crate) fn checked(records: &[u8], tables: &mut LentTables<'_>) -> Result<Counts, Refusal> {
    house::house_check(
        payload_of(records),
        names_of(records),
        tables.rows,
        tables.spans,
        tables.starts,
        tables.pool,
    )
}

// The end of the record, or `None` where it differs from the answer and the tables.
pub(crate) fn agreed(
    records: &[u8],
    answer: Result<Counts, Refusal>,
    tables: &mut LentTables<'_>,
) -> Option<usize> {
    let from = 12 + u16_at(records, 0) + u16_at(records, 2);
    let row_bytes = 8 * Program::ROW_WIDTH * u16_at(records, from + 16);
    let span_bytes = 16 * u16_at(records, from + 24);
    let start_bytes = 4 * u16_at(records, from + 32);
    let pool_bytes = 16 * u16_at(records, from + 40);
    let mut fields = payload::read_fields(answer);
    let rows_from = words_end(records, from, 72, &mut fields)?;
    let spans_from = words_end(records, rows_from, row_bytes, tables.rows)?;
    let pool_from = words_end(records, spans_from, span_bytes, tables.spans)?;
    let starts_from = words_end(records, pool_from, pool_bytes, tables.pool)?;
    let agrees = numbers_in(part(records, starts_from, start_bytes), tables.starts);
    agrees.then_some(starts_from + start_bytes)
}
