// Numbers of every kind.
ghost use Rattle.std.specs.Prelude.{◌≡◌, ◌≤◌, ◌<◌, ◌^◌, length, IfOk};
ghost use Rattle.slices.specs.LittleEndian.{from_le_bytes};
ghost use Rattle.payload.specs.Numbers.{read_number, read_float, unzigzag_word, is_scalar, bool, char, handle};
ghost use Rattle.cursor.specs.Advances.{Advances, answer_of};
ghost use Rattle.read_items.specs.Numbers.{kind_of, cut_word};

use crate::Cut;
use cursor::Cursor;
use refusal::{Reason, Refusal};

// The word of a signed number, from its zigzag.
fn signed_word(z: u64) -> u64
    ensures { result ≡ unzigzag_word z }
{
    signed::to_word(signed::unzigzag(z))
}

// The word of a varint's number.
fn cut_word(cut: Cut, v: u64) -> u64
    ensures { result ≡ cut_word cut v }
{
    match cut {
        Cut::U64 => v,
        Cut::U32 => v % 0x1_0000_0000,
        Cut::U16 => v % 0x1_0000,
        Cut::I64 => signed_word(v),
        Cut::I32 => signed::cut_signed(signed_word(v), 32),
        Cut::I16 => signed::cut_signed(signed_word(v), 16),
        Cut::I8 => signed::cut_signed(signed_word(v), 8),
    }
}

pub fn read_cut(cut: Cut, cursor: &mut Cursor<'_>) -> Result<u64, Refusal>
    ensures { Advances cursor.old cursor.new (read_number (kind_of cut)) (answer_of result cursor.new.at) }
{
    Ok(cut_word(cut, cursor.uvarint()?))
}

pub fn read_bool(cursor: &mut Cursor<'_>) -> Result<u64, Refusal>
    ensures { Advances cursor.old cursor.new (read_number bool) (answer_of result cursor.new.at) }
{
    Ok((cursor.byte()? != 0) as u64)
}

fn is_scalar(c: u64) -> bool
    ensures { result ≡ is_scalar c }
{
    c < 0xd800 || 0xe000 <= c && c < 0x11_0000
}

pub fn read_char(cursor: &mut Cursor<'_>) -> Result<u64, Refusal>
    ensures { Advances cursor.old cursor.new (read_number char) (answer_of result cursor.new.at) }
{
    let at = cursor.at;
    let c = cursor.uvarint()? % 0x1_0000_0000;
    if is_scalar(c) {
        return Ok(c);
    }
    Err(Reason::NotScalar.at(at))
}

pub fn read_handle_kind(cursor: &mut Cursor<'_>) -> Result<u64, Refusal>
    ensures { Advances cursor.old cursor.new (read_number handle) (answer_of result cursor.new.at) }
{
    let at = cursor.at;
    let kind = cursor.uvarint()? % 0x100;
    if kind <= 5 {
        return Ok(kind);
    }
    Err(Reason::UnknownHandle.at(at))
}

// The number of N bytes.
fn number_of<const N: usize>(bytes: &[u8]) -> u64
    requires { (length bytes.now ≡ N) × (N ≤ 8) }
    ensures is { result ≡ from_le_bytes bytes.now }
    ensures small { result < 256 ^ N }
{
    let mut bits = [0u8; 8];
    bits[..N].copy_from_slice(bytes);
    slices::word(&bits, 0)
}

// A float of N bytes, by its bits.
pub fn read_float<const N: usize>(cursor: &mut Cursor<'_>) -> Result<u64, Refusal>
    requires { N ≤ 8 }
    ensures advances { Advances cursor.old cursor.new (read_float N) (answer_of result cursor.new.at) }
    ensures small { IfOk result (λ bits. bits < 256 ^ N) }
{
    Ok(number_of::<N>(cursor.take(N)?))
}
