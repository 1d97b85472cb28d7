// Programs written, with every word of the pool table and every byte of the output. A record: length u16 of the store, words u16 of rows and spans,
// starts u16, words lent u16 for the pool, bytes lent u16 for the output; the program record u64 each; store; rows and spans u64 each, starts u32
// each; number and length or place u64 each; every word of the pool table u64 each; the bytes written, none at a refusal.
ghost use Rattle.std.specs.Prelude.{◌<◌};

use crate::{LentTables, OUTPUT, output_agrees, u16_at, words_end};
use payload::Program;
use recorded::{number_at, numbers_in, part};
use refusal::Refusal;

// What stands in the output before.
const BEFORE: u8 = 170;

// The program record.
fn program_at(records: &[u8]) -> Program {
    let mut words = [0u64; 6];
    numbers_in(part(records, 12, 48), &mut words);
    Program::of_words(&words)
}

// Whether an answer is what is recorded: number, and length or place.
fn answer_agrees(answer: Result<usize, Refusal>, number: u64, length: u64) -> bool {
    match answer {
        Ok(n) => number == 0 && length == n as u64,
        Err(refusal) => number == u64::from(refusal.reason) && length == refusal.place as u64,
    }
}

// The end of the record, or `None` where it differs from the answer, the pool table and the output. The answer is recorded at `from`.
fn agreed(
    records: &[u8],
    from: usize,
    answer: Result<usize, Refusal>,
    pool: &mut [u64],
    out: &[u8],
) -> Option<usize>
    requires { from < 0x30_0000 }
{
    let number = number_at(records, from, 8);
    let length = number_at(records, from + 8, 8);
    let out_from = words_end(records, from + 16, 8 * u16_at(records, 8), pool)?;
    let size = if number == 0 { length as usize } else { 0 };
    if OUTPUT < size {
        return None;
    }
    let agrees = answer_agrees(answer, number, length)
        && output_agrees(out, part(records, out_from, size), BEFORE);
    agrees.then_some(out_from + size)
}

// Puts the rows, spans and starts of a record into lent tables, as many as they have, and replays the writing.
pub(crate) fn written(records: &[u8], tables: LentTables<'_>) -> Option<usize> {
    let LentTables {
        rows,
        spans,
        starts,
        pool,
    } = tables;
    let mut out = [BEFORE; OUTPUT];
    let out = out.get_mut(..u16_at(records, 10))?;
    let rows_from = 60 + u16_at(records, 0);
    let spans_from = rows_from + 8 * u16_at(records, 2);
    let starts_from = spans_from + 8 * u16_at(records, 4);
    let from = starts_from + 4 * u16_at(records, 6);
    numbers_in(part(records, rows_from, records.len()), rows);
    numbers_in(part(records, spans_from, records.len()), spans);
    numbers_in(part(records, starts_from, records.len()), starts);
    let store = part(records, 60, u16_at(records, 0));
    let program = program_at(records);
    let answer = serialize::serialize_payload(store, program, rows, spans, starts, pool, out);
    agreed(records, from, answer, pool, out)
}
