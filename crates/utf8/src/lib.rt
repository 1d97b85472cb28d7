// Whether bytes are UTF-8, by the grammar of RFC 3629, section 4.
#![tactic(auto)]

ghost use Rattle.std.specs.Prelude.{◌≡◌, true, ℕ, ◌+◌, ◌≤◌, ◌<◌, length, get_or, take, drop};
ghost use Rattle.std.specs.Fn.{FnReturnsAt};
ghost use Rattle.utf8.specs.Pairs.{begins_two, begins_short, can_follow, Follows, whole_end};
ghost use Rattle.utf8.specs.Skips.{Ascii, high_bits, Skips};
ghost use Rattle.utf8.specs.Utf8.{is_tail, is_two, is_three, is_four, width_at, is_utf8, part_is_utf8};

// The byte at i, or 0 past the end: no byte behind the first of a character is 0. With `*s.get(i)?` in its place, text that mixes ASCII and longer characters takes up to a
// fifth longer.
fn byte_at(s: &[u8], i: usize) -> u8
    ensures { result ≡ get_or s.now i 0 }
{
    s.get(i).copied().unwrap_or(0)
}

// Whether b is a UTF8-tail.
fn tail(b: u8) -> bool
    ensures { result ≡ is_tail b }
{
    (0x80 <= b) & (b <= 0xBF)
}

// Whether a is the first byte of a UTF8-2.
fn begins_two(a: u8) -> bool
    ensures { result ≡ begins_two a }
{
    (0xC2 <= a) & (a <= 0xDF)
}

// Whether a, b are a UTF8-2.
fn two(a: u8, b: u8) -> bool
    ensures { result ≡ is_two a b }
{
    begins_two(a) & tail(b)
}

// Whether a, b, c are a UTF8-3, where a is one of E0 to EF.
fn three(a: u8, b: u8, c: u8) -> bool
    requires { (0xE0 ≤ a) × (a ≤ 0xEF) }
    ensures { result ≡ is_three a b c }
{
    if a == 0xE0 {
        return (0xA0 <= b) & (b <= 0xBF) & tail(c);
    }
    if a == 0xED {
        return (0x80 <= b) & (b <= 0x9F) & tail(c);
    }
    tail(b) & tail(c)
}

// Whether a, b, c are a UTF8-3 whose second byte can be any tail; `false` says nothing.
fn plain_three(a: u8, b: u8, c: u8) -> bool
    ensures { result ≡ true → is_three a b c ≡ true }
{
    (0xE1 <= a) & (a <= 0xEF) & (a != 0xED) & tail(b) & tail(c)
}

// Whether a, b, c, d are a UTF8-4, where a is at least F0.
fn four(a: u8, b: u8, c: u8, d: u8) -> bool
    requires { 0xF0 ≤ a }
    ensures { result ≡ is_four a b c d }
{
    if a == 0xF0 {
        return (0x90 <= b) & (b <= 0xBF) & tail(c) & tail(d);
    }
    if a < 0xF4 {
        return tail(b) & tail(c) & tail(d);
    }
    if a == 0xF4 {
        return (0x80 <= b) & (b <= 0x8F) & tail(c) & tail(d);
    }
    false
}

// How many bytes the character at i has, or None where none stands there.
fn char_at(s: &[u8], i: usize) -> Option<usize>
    requires { i < length s.now }
    ensures { result ≡ width_at s.now i }
{
    let a = s[i];
    if a < 0x80 {
        return Some(1);
    }
    if a < 0xC2 {
        return None;
    }
    let b = byte_at(s, i + 1);
    if a < 0xE0 {
        return tail(b).then_some(2);
    }
    let c = byte_at(s, i + 2);
    if a < 0xF0 {
        return three(a, b, c).then_some(3);
    }
    let d = byte_at(s, i + 3);
    four(a, b, c, d).then_some(4)
}

// The high bits of the eight bytes at i, all 0 where these are ASCII.
fn high_bits(s: &[u8], i: usize) -> u64
    requires { i + 8 ≤ length s.now }
    ensures { result ≡ high_bits s.now i }
{
    slices::word(s, i) & 0x8080_8080_8080_8080
}

// Whether the first 32 bytes are ASCII; `false` says nothing. Without an exit between the words, so that it is one test.
fn block_is_ascii(block: &[u8]) -> bool
    requires { 32 ≤ length block.now }
    ensures { result ≡ true → Ascii block.now 0 32 }
{
    (high_bits(block, 0) == 0)
        & (high_bits(block, 8) == 0)
        & (high_bits(block, 16) == 0)
        & (high_bits(block, 24) == 0)
}

// The functions that skip take a place in s, and give one. With the rest of s in its place, which needs no bound, text that mixes ASCII and longer characters takes
// up to a quarter longer.

// Past SIZE bytes at a time, for as long as they pass.
fn skip_while<const SIZE: usize, F: Fn(&[u8]) -> bool>(s: &[u8], from: usize, passes: F) -> usize
    requires sized { 0 < SIZE }
    requires inside { from ≤ length s.now }
    requires callable { (bytes : _) → length bytes.now ≡ SIZE → F.pre passes bytes }
    requires whole { (i : ℕ) → i + SIZE ≤ length s.now → FnReturnsAt F.Fn passes (take SIZE (drop i s.now)) true → Skips s.now i (i + SIZE) }
    ensures { Skips s.now from result }
{
    // `while`: `chunks_exact(SIZE).take_while(..).count()` is slower at runs of a few characters.
    let mut i = from;
    while SIZE <= s.len() - i && passes(&s[i..i + SIZE]) {
        i += SIZE;
    }
    i
}

// Past ASCII by blocks of 32 bytes.
fn skip_blocks(s: &[u8], from: usize) -> usize
    requires { from ≤ length s.now }
    ensures { Skips s.now from result }
{
    skip_while::<32, _>(s, from, block_is_ascii)
}

// Past ASCII by blocks and then by words. The last word ends where s ends, and may begin before the place.
fn skip_words(s: &[u8], from: usize) -> usize
    requires { from ≤ length s.now }
    ensures { Skips s.now from result }
{
    let i = skip_while::<8, _>(s, skip_blocks(s, from), |word| high_bits(word, 0) == 0);
    if s.len() - i < 8 && 8 <= s.len() && high_bits(s, s.len() - 8) == 0 {
        return s.len();
    }
    i
}

// Past ASCII. Of a word that is not all ASCII the lowest high bit tells how far to go, without a branch.
fn skip_ascii(s: &[u8], from: usize) -> usize
    requires { from ≤ length s.now }
    ensures { Skips s.now from result }
{
    if s.len() - from < 8 {
        return from;
    }
    let n = (high_bits(s, from).trailing_zeros() / 8) as usize;
    if n < 8 {
        return from + n;
    }
    skip_words(s, from + 8)
}

// Past more characters of a width, since a script's characters come in runs; of three bytes only up to one that begins with E0 or ED, which
// ask more of the second byte.
fn skip_run(s: &[u8], from: usize, width: usize) -> usize
    requires { from ≤ length s.now }
    ensures { Skips s.now from result }
{
    match width {
        2 => skip_while::<2, _>(s, from, |c| two(c[0], c[1])),
        3 => skip_while::<3, _>(s, from, |c| plain_three(c[0], c[1], c[2])),
        4 => skip_while::<4, _>(s, from, |c| 0xF0 <= c[0] && four(c[0], c[1], c[2], c[3])),
        _ => from,
    }
}

// Whether a is a UTF8-1 or the first byte of a UTF8-2.
fn begins_short(a: u8) -> bool
    ensures { result ≡ begins_short a }
{
    (a <= 0x7F) | begins_two(a)
}

// Whether b can stand after a, where characters have one or two bytes.
fn can_follow(a: u8, b: u8) -> bool
    ensures { result ≡ can_follow a b }
{
    two(a, b) | (!begins_two(a) & begins_short(b))
}

// Whether each of the sixteen bytes behind index i can stand after the one before it; `false` says nothing. Without an exit, so that it is compiled
// to vectors.
fn block_follows(s: &[u8], i: usize) -> bool
    requires { i + 16 < length s.now }
    ensures { result ≡ true → Follows s.now i (i + 16) }
{
    let mut all = true;
    for k in i..i + 16 {
        all = all & can_follow(s[k], s[k + 1]);
    }
    all
}

// Where the last whole character ends in text of one- and two-byte characters up to index i: behind i, or at i where that only begins one.
fn whole_end(s: &[u8], i: usize) -> usize
    requires { i < length s.now }
    ensures { result ≡ whole_end s.now i }
{
    if s[i] <= 0xBF { i + 1 } else { i }
}

// Past characters of one and two bytes, by sixteen pairs of neighbours at a time. The last sixteen end where s ends, and may begin before the place.
fn skip_pairs(s: &[u8], from: usize) -> usize
    requires { (16 < length s.now) × (from ≤ length s.now) }
    ensures { Skips s.now from result }
{
    if s.len() <= from {
        return from;
    }
    if !begins_short(s[from]) {
        return from;
    }
    let last = s.len() - 17;
    let mut i = from;
    while i < s.len() - 1 {
        let at = i.min(last);
        if !block_follows(s, at) {
            return whole_end(s, i);
        }
        i = at + 16;
    }
    whole_end(s, i)
}

// Past characters at the front: ASCII by blocks and then pairs, or ASCII alone where s is too short for these.
fn skip_front(s: &[u8]) -> usize
    ensures { Skips s.now 0 result }
{
    if s.len() < 17 {
        if byte_at(s, 0) < 0x80 {
            return skip_ascii(s, 0);
        }
        return 0;
    }
    skip_pairs(s, skip_blocks(s, 0))
}

// Whether s is UTF-8.
pub fn is_utf8(s: &[u8]) -> bool
    ensures { result ≡ is_utf8 s.now }
{
    let mut i = skip_front(s);
    // How far a turn goes is found in it.
    while i < s.len() {
        if s[i] < 0x80 {
            i = skip_ascii(s, i + 1);
        } else {
            let Some(width) = char_at(s, i) else {
                return false;
            };
            i = skip_run(s, i + width, width);
        }
    }
    true
}

// Whether the len bytes at `from` lie in s and are UTF-8. The tests are such that no sum can wrap.
pub fn part_is_utf8(s: &[u8], from: usize, len: usize) -> bool
    ensures { result ≡ part_is_utf8 s.now from len }
{
    if s.len() < from {
        return false;
    }
    if s.len() - from < len {
        return false;
    }
    let end = from + len;
    is_utf8(&s[from..end])
}
