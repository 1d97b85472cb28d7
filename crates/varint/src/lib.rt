// ULEB128: its width, writing and reading.
#![tactic(auto)]

ghost use Rattle.std.specs.Prelude.{◌≡◌, ◌+◌, ◌≤◌, ◌<◌, length, get_or};
ghost use Rattle.slices.specs.Put.{put};
ghost use Rattle.varint.specs.Uleb128.{uleb128};
ghost use Rattle.varint.specs.Varint.{varint_of, varint_answer};

use refusal::{Reason, Refusal};

// The length of the shortest ULEB128 of n: its bits at seven to a byte, and one byte for 0.
pub fn uvarint_width(n: u64) -> usize
    ensures { result ≡ length (uleb128 n) }
{
    let bits = u64::BITS - n.leading_zeros();
    bits.div_ceil(7).max(1) as usize
}

// Writes the shortest ULEB128 of n at `at`, and returns the place after it.
pub fn write_uvarint(out: &mut [u8], at: usize, n: u64) -> usize
    requires { at + length (uleb128 n) ≤ length out.old }
    ensures { (result ≡ at + length (uleb128 n)) × (out.new ≡ put out.old at (uleb128 n)) }
{
    let mut rest = n;
    let mut i = at;
    // A `while` for as long as something is left of the number: a `for` would work out the width first.
    while 128 <= rest {
        out[i] = (rest % 128 + 128) as u8;
        rest = rest / 128;
        i += 1;
    }
    out[i] = rest as u8;
    i + 1
}

// Reads the varint at `at`: the number and the place after it. Most numbers have one byte, so that case stands in front.
pub fn uvarint(bytes: &[u8], at: usize) -> Result<(u64, usize), Refusal>
    ensures { varint_answer result ≡ varint_of bytes.now at }
{
    if bytes.len() <= at {
        return Err(Reason::EndInItem.at(at));
    }
    let b = bytes[at];
    if b < 128 {
        return Ok((b as u64, at + 1));
    }
    uvarint_long(bytes, at)
}

// The same where the first byte has bit 7 set. The shift drops the bits above 63 of a tenth byte. The loop has one bound, the end of the bytes or the tenth
// byte: so it is compiled to few instructions, and inlined at every call.
fn uvarint_long(bytes: &[u8], at: usize) -> Result<(u64, usize), Refusal>
    requires { (at < length bytes.now) × (128 ≤ get_or bytes.now at 0) }
    ensures { varint_answer result ≡ varint_of bytes.now at }
{
    let end = bytes.len().min(at.saturating_add(10));
    let mut value = (bytes[at] % 128) as u64;
    for i in at + 1..end {
        let b = bytes[i];
        let shift = 7 * (i - at);
        if b < 128 {
            return Ok((value + ((b as u64) << shift), i + 1));
        }
        value += ((b % 128) as u64) << shift;
    }
    if end - at < 10 {
        return Err(Reason::EndInItem.at(at));
    }
    Err(Reason::LongVarint.at(at))
}
