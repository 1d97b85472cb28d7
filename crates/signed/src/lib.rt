// Signed numbers: zigzag, words modulo 2^64, cuts and running positions.
#![tactic(auto)]

ghost use Rattle.std.specs.Prelude.{◌≡◌, ◌≤◌, ◌<◌};
ghost use Rattle.signed.specs.Signed.{zigzag_of, unzigzag_of, word_of, signed_of};
ghost use Rattle.signed.specs.Position.{position_of};

// Zigzag. `sign` is 0 or -1, so `v ^ sign` is v or -(v + 1), which is never negative.
pub fn zigzag(v: i64) -> u64
    ensures { result ≡ zigzag_of v }
{
    let sign = v >> 63;
    ((v ^ sign) as u64) * 2 + ((0 - sign) as u64)
}

pub fn unzigzag(u: u64) -> i64
    ensures { result ≡ unzigzag_of u }
{
    let half = (u / 2) as i64;
    let sign = 0 - ((u % 2) as i64);
    half ^ sign
}

// The number modulo 2^64.
pub fn to_word(v: i64) -> u64
    ensures { result ≡ word_of v }
{
    v.cast_unsigned()
}

// The signed number that u is modulo 2^64.
pub fn from_word(u: u64) -> i64
    ensures { result ≡ signed_of 64 u }
{
    u.cast_signed()
}

// The low `bits` bits of u as a signed number, modulo 2^64. One function for all widths, where casts would be one for each.
pub fn cut_signed(u: u64, bits: u64) -> u64
    requires { (1 ≤ bits) × (bits < 64) }
    ensures { result ≡ word_of (signed_of bits u) }
{
    let modulus = 1u64 << bits;
    let low = u % modulus;
    if low < modulus / 2 {
        return low;
    }
    low + !(modulus - 1)
}

// Where a delta leads from a position, unless out of 64 signed bits.
pub fn add_delta(position: i64, delta: i64) -> Option<i64>
    ensures { result ≡ position_of position delta }
{
    position.checked_add(delta)
}
