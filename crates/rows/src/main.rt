// Reads a payload from standard input, and prints its rows and the answer of its reading.
#![tactic(auto)]

ghost use Rattle.std.specs.Prelude.{◌≡◌, length};
ghost use Rattle.std.specs.Counts.{IsPrefixLen};
ghost use Rattle.slices.specs.Put.{put};
ghost use Rattle.rows.specs.Listed.{listed};

use payload::Program;
use refusal::Reason;
use std::io;

// The most bytes of a payload that is listed.
const PAYLOAD: usize = 4096;

// What its tables hold.
const ROWS: usize = 512;

const SPANS: usize = 1024;

const STARTS: usize = 512;

const STRINGS: usize = 256;

// The text of the listing, put into the buffer, and its length: a line of at most 127 bytes for each row, and one of 43.
fn list_payload(bytes: &[u8], out: &mut [u8; 65536]) -> usize
    ensures value { result ≡ length (listed bytes.now) }
    ensures out_after { out.new ≡ put out.old 0 (listed bytes.now) }
    ensures prefix_len { IsPrefixLen result out.new }
{
    let mut rows = [0u64; Program::ROW_WIDTH * ROWS];
    if PAYLOAD < bytes.len() {
        return listing::put_listing(Err(Reason::TooLarge.at(0)), &rows, out);
    }
    let mut spans = [0u64; 2 * SPANS];
    let mut starts = [0u32; STARTS];
    let mut pool = [0u64; 2 * STRINGS];
    let answer = deserialize::deserialize_payload(
        bytes,
        b"",
        &mut rows,
        &mut spans,
        &mut starts,
        &mut pool,
    );
    listing::put_listing(answer, &rows, out)
}

// One byte more than a payload may have is read, so that a longer one is seen.
fn main(rt: HostRuntime) -> io::Result<()> {
    let mut bytes = [0u8; PAYLOAD + 1];
    let n = input::read_full(&mut rt.stdin(), &mut bytes)?;
    let mut text = [0u8; 65536];
    let size = list_payload(&bytes[..n], &mut text);
    rt.write_all(&text[..size])
}
