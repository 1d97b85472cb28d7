// A scalar constant, one of fourteen cases, and the words of its row. Floats move by their bits.
#![tactic(auto)]

ghost use Rattle.std.specs.Prelude.{◌≡◌};
ghost use Rattle.std.specs.Float.Ieee.{to_bits};
ghost use Rattle.std.specs.Float.{binary32, binary64};
ghost use Rattle.scalar.specs.Scalar.{const_of, float_of, row_of, sfloat_of, words_of};

// The scalar cases of the Rust's VmValue.
#[derive(Clone, Copy)]
pub enum Scalar {
    Null,
    Int(i64),
    UInt(u64),
    SInt(i32),
    SUInt(u32),
    BByte(u16),
    BSByte(i16),
    Byte(u8),
    SByte(i8),
    Float(f64),
    SFloat(f32),
    Bool(bool),
    Char(u32),
    Handle(u8, u64),
}

// What a row's words hold. A float keeps no NaN's bits, so those stand beside the fourteen cases. Other is no scalar:
// a case and no `Option`, as the definition has it.
#[derive(Clone, Copy)]
pub enum Constant {
    Value(Scalar),
    NanBits(u64),
    SNanBits(u32),
    Other,
}

// A scalar's row: its tag, and the two words that a scalar can use.
#[derive(Clone, Copy)]
pub struct Words {
    pub tag: u64,
    pub a: u64,
    pub b: u64,
}

fn row(tag: u64, a: u64, b: u64) -> Words
    ensures { result ≡ record { tag = tag; a = a; b = b } }
{
    Words { tag, a, b }
}

// The constant of a row's words, each cut to what its case holds.
#[tactic(auto, unfolding(crate::specs::Scalar::const_of))]
fn const_of(t: u64, a: u64, b: u64) -> Constant
    ensures { result ≡ const_of t a b }
{
    match t {
        0 => Constant::Value(Scalar::Null),
        1 => Constant::Value(Scalar::Int(signed::from_word(a))),
        2 => const_float(a),
        3 => Constant::Value(Scalar::Bool(a != 0)),
        4 => Constant::Value(Scalar::Byte((a % 0x100) as u8)),
        5 => Constant::Value(Scalar::Char((a % 0x1_0000_0000) as u32)),
        19 => Constant::Value(Scalar::UInt(a)),
        20 => Constant::Value(Scalar::SInt(signed::from_word(signed::cut_signed(a, 32)) as i32)),
        21 => Constant::Value(Scalar::SUInt((a % 0x1_0000_0000) as u32)),
        22 => Constant::Value(Scalar::BByte((a % 0x1_0000) as u16)),
        23 => Constant::Value(Scalar::BSByte(signed::from_word(signed::cut_signed(a, 16)) as i16)),
        24 => Constant::Value(Scalar::SByte(signed::from_word(signed::cut_signed(a, 8)) as i8)),
        25 => const_sfloat((a % 0x1_0000_0000) as u32),
        26 => Constant::Value(Scalar::Handle((a % 0x100) as u8, b)),
        _ => Constant::Other,
    }
}

// Without its sign, a NaN's pattern is above that of infinity.
#[tactic(auto, using(crate::proofs::Nan::no_nan_bits, crate::proofs::Nan::nan_bits_lem))]
fn const_float(n: u64) -> Constant
    ensures { result ≡ float_of n }
{
    if n % 0x8000_0000_0000_0000 <= 0x7FF0_0000_0000_0000 {
        return Constant::Value(Scalar::Float(f64::from_bits(n)));
    }
    Constant::NanBits(n)
}

// The same for f32. One function over both would need a trait whose two impls hold these lines, since std's f32 and f64 share none.
#[tactic(auto, using(crate::proofs::Nan::no_nan_bits, crate::proofs::Nan::nan_bits_lem))]
fn const_sfloat(n: u32) -> Constant
    ensures { result ≡ sfloat_of n }
{
    if n % 0x8000_0000 <= 0x7F80_0000 {
        return Constant::Value(Scalar::SFloat(f32::from_bits(n)));
    }
    Constant::SNanBits(n)
}

// The words of a constant's row; those of Other are all 0.
#[tactic(auto, unfolding(crate::specs::Scalar::row_of))]
fn row_of(c: Constant) -> Words
    ensures { result ≡ row_of c }
{
    match c {
        Constant::Value(s) => words_of(s),
        Constant::NanBits(n) => row(2, n, 0),
        Constant::SNanBits(n) => row(25, u64::from(n), 0),
        Constant::Other => row(0, 0, 0),
    }
}

#[tactic(auto, unfolding(crate::specs::Scalar::words_of))]
fn words_of(s: Scalar) -> Words
    ensures { result ≡ words_of s }
{
    match s {
        Scalar::Null => row(0, 0, 0),
        Scalar::Int(x) => row(1, signed::to_word(x), 0),
        Scalar::Float(x) => row(2, bits_of_f64(x), 0),
        Scalar::Bool(t) => row(3, u64::from(t), 0),
        Scalar::Byte(n) => row(4, u64::from(n), 0),
        Scalar::Char(n) => row(5, u64::from(n), 0),
        Scalar::UInt(n) => row(19, n, 0),
        Scalar::SInt(x) => row(20, signed::to_word(i64::from(x)), 0),
        Scalar::SUInt(n) => row(21, u64::from(n), 0),
        Scalar::BByte(n) => row(22, u64::from(n), 0),
        Scalar::BSByte(x) => row(23, signed::to_word(i64::from(x)), 0),
        Scalar::SByte(x) => row(24, signed::to_word(i64::from(x)), 0),
        Scalar::SFloat(x) => row(25, u64::from(bits_of_f32(x)), 0),
        Scalar::Handle(k, id) => row(26, u64::from(k), id),
    }
}

// The pattern of a float. A NaN gets the pattern that the definition has for it.
fn bits_of_f64(x: f64) -> u64
    ensures { result ≡ to_bits binary64 x }
{
    if x.is_nan() {
        return 0x7FF8_0000_0000_0000;
    }
    x.to_bits()
}

// The same for f32, apart for the reason above.
fn bits_of_f32(x: f32) -> u32
    ensures { result ≡ to_bits binary32 x }
{
    if x.is_nan() {
        return 0x7FC0_0000;
    }
    x.to_bits()
}

// A row's words to the constant and back: the same words, where they fit a scalar's row (`scalar_row` in specs/Laws).
// Where the caller's tag is a constant, a few instructions are left.
pub fn through_row(t: u64, a: u64, b: u64) -> Words
    ensures { result ≡ row_of (const_of t a b) }
{
    row_of(const_of(t, a, b))
}
