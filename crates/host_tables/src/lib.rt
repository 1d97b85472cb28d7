// The calls on lent tables for a Rust host. Each gives the refusal's number or 0, and puts its fields into the answer's first words.
#![tactic(auto)]

mod write;

ghost use Rattle.std.specs.Prelude.{length};
ghost use Rattle.refusal.specs.Answer.{answer_of};
ghost use Rattle.payload.specs.House.{house};
ghost use Rattle.payload.specs.Tables.{capacities_of, reading};
ghost use Rattle.host_tables.specs.HostTables.{HostRead, PutRead};

use payload::Counts;
use refusal::Refusal;

// Puts the fields of a read or a check into the answer, and gives its number.
fn put_read(read: Result<Counts, Refusal>, answer: &mut [u64]) -> u64
    ensures { PutRead (answer_of read) answer.old answer.new result }
{
    let fields = payload::read_fields(read);
    answer::put_fields(answer, &fields);
    fields[0]
}

// Reads a payload into lent tables. The fields: number, bytes consumed (or a refusal's place), rows, spans, starts, strings, line flag,
// the name's offset and length.
#[unsafe(no_mangle)]
pub extern "C" fn rlc2_deserialize(
    bytes: &[u8],
    names: &[u8],
    rows: &mut [u64],
    spans: &mut [u64],
    starts: &mut [u32],
    pool: &mut [u64],
    answer: &mut [u64],
) -> u64
    ensures { HostRead (reading (capacities_of (length rows.old) (length spans.old) (length starts.old) (length pool.old)) names.now bytes.now)
        rows.old spans.old starts.old pool.old answer.old rows.new spans.new starts.new pool.new answer.new result }
{
    let read = deserialize::deserialize_payload(bytes, names, rows, spans, starts, pool);
    put_read(read, answer)
}

// Reads a payload into lent tables and passes it where it is house-written. The fields are those of `rlc2_deserialize`.
#[unsafe(no_mangle)]
pub extern "C" fn rlc2_house_check_tables(
    payload: &[u8],
    names: &[u8],
    rows: &mut [u64],
    spans: &mut [u64],
    starts: &mut [u32],
    pool: &mut [u64],
    answer: &mut [u64],
) -> u64
    ensures { HostRead (house (capacities_of (length rows.old) (length spans.old) (length starts.old) (length pool.old)) names.now payload.now)
        rows.old spans.old starts.old pool.old answer.old rows.new spans.new starts.new pool.new answer.new result }
{
    let read = house::house_check(payload, names, rows, spans, starts, pool);
    put_read(read, answer)
}
