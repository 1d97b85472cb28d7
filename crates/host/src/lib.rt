// The calls that are exported for the Rust player, where a slice is a pointer and a length.
#![tactic(auto)]

ghost use Rattle.std.specs.Prelude.{◌≡◌, ◌≤◌, length};
ghost use Rattle.slices.specs.Put.{put};
ghost use Rattle.slices.specs.LittleEndian.{to_le_bytes};
ghost use Rattle.varint.specs.Varint.{varint_of};
ghost use Rattle.utf8.specs.Utf8.{is_utf8};
ghost use Rattle.payload.specs.House.{house};
ghost use Rattle.payload.specs.Answers.{read_number};
ghost use Rattle.payload.specs.Tables.{read_answer};
ghost use Rattle.host.specs.Host.{flag, used_of, number_after, check_capacities};

use payload::Program;

// 1 where the bytes are UTF-8, else 0.
#[unsafe(no_mangle)]
pub extern "C" fn rlc2_is_utf8(bytes: &[u8]) -> u64
    ensures { result ≡ flag (is_utf8 bytes.now) }
{
    u64::from(utf8::is_utf8(bytes))
}

// Writes the eight bytes of n to the front of out, the lowest first.
fn put_word(out: &mut [u8], n: u64)
    requires { 8 ≤ length out.old }
    ensures { out.new ≡ put out.old 0 (to_le_bytes 8 n) }
{
    out[..8].copy_from_slice(&n.to_le_bytes());
}

// Reads the varint at the front of the bytes: gives how many it has, and puts its number into the first eight bytes of `number`.
// Gives 0 and writes nothing where the read is refused, or where `number` is shorter.
#[unsafe(no_mangle)]
pub extern "C" fn rlc2_uvarint(bytes: &[u8], number: &mut [u8]) -> usize
    ensures value { result ≡ used_of (varint_of bytes.now 0) number.old }
    ensures number_after { number.new ≡ number_after (varint_of bytes.now 0) number.old }
{
    if number.len() < 8 {
        return 0;
    }
    let Ok((n, used)) = varint::uvarint(bytes, 0) else {
        return 0;
    };
    put_word(number, n);
    used
}

// The house check with tables of its own: 512 rows of five words, 1,024 spans and 256 strings of two, 512 starts. Gives 0 where the payload passes, or the
// refusal's number.
#[unsafe(no_mangle)]
pub extern "C" fn rlc2_house_check(payload: &[u8], names: &[u8]) -> u64
    ensures { result ≡ read_number (read_answer (house check_capacities names.now payload.now)) }
{
    let mut rows = [0u64; 512 * Program::ROW_WIDTH];
    let mut spans = [0u64; 2 * 1024];
    let mut starts = [0u32; 512];
    let mut pool = [0u64; 2 * 256];
    match house::house_check(
        payload,
        names,
        &mut rows,
        &mut spans,
        &mut starts,
        &mut pool,
    ) {
        Ok(_) => 0,
        Err(refusal) => u64::from(refusal.reason),
    }
}
