// Replays the answers that are recorded in the files that its arguments name: varints, UTF-8 and lines by the Rust, payloads and programs by document
// 01 and the Rust. What the replayed calls promise, and what a field or a table of a record says, is in the contracts of their own crates.
#![tactic(auto)]

ghost use Rattle.std.specs.Prelude.{◌+◌, ◌≤◌, ◌<◌, length};
ghost use Rattle.std.specs.Option.{IfSome};

mod leaves;
mod payloads;
mod programs;

use payload::Program;
use std::env::FillError;
use std::rt::{Env, Files};
use std::{fs, io, str};

// A record lends at most so many words of each table, and so many bytes for an output.
const ROWS: usize = 512 * Program::ROW_WIDTH;

const SPANS: usize = 2048;

const STARTS: usize = 512;

const POOL: usize = 512;

const OUTPUT: usize = 4096;

// A length in a record.
fn u16_at(bytes: &[u8], at: usize) -> usize
    ensures { result < 0x1_0000 }
{
    recorded::number_at(bytes, at, 2) as usize
}

// Where the recorded words end that stand in a table, with zeros behind them; `None` where others stand there. The table holds what is recorded
// afterwards.
fn words_end(records: &[u8], at: usize, size: usize, table: &mut [u64]) -> Option<usize>
    requires { (at < 0x1000_0000) × (size < 0x100_0000) }
    ensures { IfSome result (λ end. end ≤ at + size) }
{
    let agrees = recorded::numbers_in(recorded::part(records, at, size), table);
    agrees.then_some(at + size)
}

// Whether an output holds the recorded bytes, and nothing but this one behind them.
fn output_agrees(out: &[u8], recorded: &[u8], rest: u8) -> bool {
    let room = out.len();
    if OUTPUT < room {
        return false;
    }
    if room < recorded.len() {
        return false;
    }
    let mut expected = [rest; OUTPUT];
    slices::copy_part(&mut expected, 0, recorded);
    slices::equal(out, &expected[..room])
}

// The tables that a record lends.
#[derive(Drop)]
struct LentTables<'a> {
    rows: &'a mut [u64],
    spans: &'a mut [u64],
    starts: &'a mut [u32],
    pool: &'a mut [u64],
}

// What is done with the lent tables.
#[derive(Clone, Copy)]
enum Call {
    Read,
    Check,
    Write,
}

// A program written, or a payload read or checked.
fn called(call: Call, records: &[u8], mut tables: LentTables<'_>) -> Option<usize> {
    let answer = match call {
        Call::Read => payloads::read(records, &mut tables),
        Call::Check => payloads::checked(records, &mut tables),
        Call::Write => return programs::written(records, tables),
    };
    payloads::agreed(records, answer, &mut tables)
}

// Lends the front of each table, as many words as the record says in the fields from `at` on. Ones stand in them, so that a word which a call should
// clear and does not is seen.
fn lent(call: Call, records: &[u8], at: usize) -> Option<usize>
    requires { at < 8 }
{
    let r = u16_at(records, at);
    let s = u16_at(records, at + 2);
    let t = u16_at(records, at + 4);
    let p = u16_at(records, at + 6);
    let mut rows = [1u64; ROWS];
    let mut spans = [1u64; SPANS];
    let mut starts = [1u32; STARTS];
    let mut pool = [1u64; POOL];
    let tables = LentTables {
        rows: rows.get_mut(..r)?,
        spans: spans.get_mut(..s)?,
        starts: starts.get_mut(..t)?,
        pool: pool.get_mut(..p)?,
    };
    called(call, records, tables)
}

// The length of the first record, or `None` where our answer is another. What a record that is cut short lacks counts as zeros. What the records are of
// is told by the first and the fifth letter of the file's name.
fn first(name: &[u8], records: &[u8]) -> Option<usize> {
    match name {
        [b'u', _, _, _, b'i', ..] => leaves::varint_read(records, false),
        [b'u', _, _, _, b't', ..] => leaves::varint_written(records),
        [b'u', ..] => leaves::utf8_tested(records),
        [b'i', ..] => leaves::varint_read(records, true),
        [b'l', _, _, _, b's', ..] => leaves::line_starts(records),
        [b'l', ..] => leaves::line_col(records),
        [b'w', ..] => lent(Call::Write, records, 2),
        [b'c', ..] => lent(Call::Check, records, 4),
        _ => lent(Call::Read, records, 4),
    }
}

// The same, and `None` too where the record is cut short.
fn first_whole(name: &[u8], records: &[u8]) -> Option<usize>
    ensures { IfSome result (λ used. (0 < used) × (used ≤ length records.now)) }
{
    let used = first(name, records)?;
    if 0 < used && used <= records.len() {
        Some(used)
    } else {
        None
    }
}

// Where the records end that agree, and how many they are.
#[derive(Clone, Copy)]
struct Agreed {
    end: usize,
    count: u64,
}

// Goes on to the first record that does not agree or is cut short.
fn agreed_records(name: &[u8], records: &[u8]) -> Agreed {
    let mut end = 0;
    let mut count: u64 = 0;
    // Each record tells where the next begins.
    while let Some(used) = first_whole(name, &records[end..]) {
        end += used;
        count += 1;
    }
    Agreed { end, count }
}

// Writes how many records of a file agree. Where one does not, what is written is not what the file `stdout` has, and so the run is refused.
fn report(rt: &impl Print, name: &str, all: bool, count: u64) -> io::Result<()> {
    if all {
        return println!(rt; "{name} {count}");
    }
    println!(rt; "{name} differs after {count}")
}

// A file that fills the buffer may be longer, so it counts as one that cannot be read.
fn replay<R: Files + Print + Eprint>(rt: &R, name: &str) -> io::Result<()> {
    let mut file = match fs::open(rt, name) {
        Ok(file) => file,
        Err(error) => return eprintln!(rt; "{name}: {error}"),
    };
    let mut buffer = [0u8; 65536];
    let n = input::read_full(&mut file, &mut buffer)?;
    if 65535 < n {
        return Ok(());
    }
    let found = agreed_records(name.as_bytes(), &buffer[..n]);
    report(rt, name, found.end == n, found.count)
}

// An argument that is no text, or longer than the buffer, names no file.
fn main(rt: HostRuntime) -> io::Result<()> {
    let mut name = [0u8; 16];
    for i in 1..usize::MAX {
        match rt.arg(i, &mut name) {
            Ok(n) => replay(&rt, str::from_utf8(&name[..n]).unwrap_or(""))?,
            Err(FillError::TooLong) => replay(&rt, "")?,
            Err(FillError::NotPresent) => return Ok(()),
        }
    }
    Ok(())
}
