// Parts of slices: zero fill, copy, equality, and eight bytes as a number.
#![tactic(auto)]

ghost use Rattle.std.specs.Prelude.{◌≡◌, ◌+◌, ◌≤◌, ◌<◌, length, take, drop};
ghost use Rattle.slices.specs.Put.{put};
ghost use Rattle.slices.specs.Same.{same};
ghost use Rattle.slices.specs.LittleEndian.{from_le_bytes};
ghost use Rattle.slices.specs.Zeros.{same_from};

// The number whose four bytes stand at i, the lowest first.
pub fn half(s: &[u8], i: usize) -> u64
    requires { i + 4 ≤ length s.now }
    ensures { (result ≡ from_le_bytes (take 4 (drop i s.now))) × (result < 0x1_0000_0000) }
{
    let mut bytes = [0; 4];
    bytes.copy_from_slice(&s[i..i + 4]);
    u64::from(u32::from_le_bytes(bytes))
}

// The same for eight bytes. Each width has its own function in std, so one function over both would only call them.
pub fn word(s: &[u8], i: usize) -> u64
    requires { i + 8 ≤ length s.now }
    ensures { result ≡ from_le_bytes (take 8 (drop i s.now)) }
{
    let mut bytes = [0; 8];
    bytes.copy_from_slice(&s[i..i + 8]);
    u64::from_le_bytes(bytes)
}

// A type of words, whose zero is a constant.
pub trait Zero: Copy {
    const ZERO: Self;

    ghost ZERO: { Self };
}

impl Zero for u64 {
    const ZERO: u64 = 0;

    ghost ZERO = { 0 };
}

impl Zero for u32 {
    const ZERO: u32 = 0;

    ghost ZERO = { 0 };
}

// Sets every word of t from index `from` on to 0.
pub fn zero_from<W: Zero>(t: &mut [W], from: usize)
    ensures { t.new ≡ same_from W.ZERO from t.old }
{
    for i in from..t.len() {
        t[i] = W::ZERO;
    }
}

// Copies s into out from index `at` on. A `for`: with `copy_from_slice` the archives for C would need a memmove from outside.
pub fn copy_part(out: &mut [u8], at: usize, s: &[u8])
    requires { at + length s.now ≤ length out.old }
    ensures { out.new ≡ put out.old at s.now }
{
    for i in 0..s.len() {
        out[at + i] = s[i];
    }
}

// Whether strings of 8 to 16 bytes are equal, by their first word and their last.
fn equal_ends(a: &[u8], b: &[u8]) -> bool
    requires { (length a.now ≡ length b.now) × (8 ≤ length a.now) × (length a.now ≤ 16) }
    ensures { result ≡ same a.now b.now }
{
    let last = a.len() - 8;
    word(a, 0) == word(b, 0) && word(a, last) == word(b, last)
}

// Whether two byte strings are equal. Those of 8 to 16 bytes, as many names have, are two words that overlap, which takes a fifth less than a call of std's comparison.
pub fn equal(a: &[u8], b: &[u8]) -> bool
    ensures { result ≡ same a.now b.now }
{
    if a.len() == b.len() && 8 <= a.len() && a.len() <= 16 {
        return equal_ends(a, b);
    }
    a == b
}

// Whether the n bytes of s from o on equal those of t from p on.
pub fn equal_parts(s: &[u8], o: usize, t: &[u8], p: usize, n: usize) -> bool
    requires { (o + n ≤ length s.now) × (p + n ≤ length t.now) }
    ensures { result ≡ same (take n (drop o s.now)) (take n (drop p t.now)) }
{
    equal(&s[o..o + n], &t[p..p + n])
}
