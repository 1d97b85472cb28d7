// Fields and tables of recorded files: numbers read from their bytes, put into tables, and compared with what the tables held.
#![tactic(auto)]

ghost use Rattle.std.specs.Prelude.{◌≡◌, ◌^◌, ◌≤◌, ◌<◌, List, ℕ, length, take, drop};
ghost use Rattle.slices.specs.LittleEndian.{from_le_bytes};
ghost use Rattle.recorded.specs.Recorded.{number_at, numbers_by, agrees_by};

// So many bytes from a place on, or what there is of them.
pub fn part(bytes: &[u8], from: usize, size: usize) -> &[u8]
    ensures { result.now ≡ take size (drop from bytes.now) }
{
    let start = from.min(bytes.len());
    let end = start + size.min(bytes.len() - start);
    &bytes[start..end]
}

// The number of so many bytes at a place, the lowest first. What there is not of them counts as zeros.
pub fn number_at(bytes: &[u8], at: usize, width: usize) -> u64
    requires { width ≤ 8 }
    ensures { (result ≡ number_at width bytes.now at) × (result < 256 ^ width) }
{
    let mut word = [0u8; 8];
    slices::copy_part(&mut word, 0, part(bytes, at, width));
    slices::word(&word, 0)
}

// A type of numbers that are recorded in so many bytes each.
pub trait Number: Copy + PartialEq {
    const WIDTH: usize;

    ghost WIDTH: { ℕ };

    ghost of_bytes: { List ℕ → Self };

    // The first number.
    fn first(bytes: &[u8]) -> Self
        ensures { result ≡ of_bytes (take WIDTH bytes.now) };
}

impl Number for u64 {
    const WIDTH: usize = 8;

    ghost WIDTH = { 8 };

    ghost of_bytes = { from_le_bytes };

    fn first(bytes: &[u8]) -> u64 {
        number_at(bytes, 0, 8)
    }
}

impl Number for u32 {
    const WIDTH: usize = 4;

    ghost WIDTH = { 4 };

    ghost of_bytes = { from_le_bytes };

    fn first(bytes: &[u8]) -> u32 {
        number_at(bytes, 0, 4) as u32
    }
}

// Puts the recorded numbers into a table, as many as it has, and answers whether just they stood in it, with zeros behind them.
pub fn numbers_in<N: Number>(recorded: &[u8], table: &mut [N]) -> bool
    ensures value { result ≡ agrees_by N.eq N.of_bytes N.WIDTH table.old recorded.now }
    ensures table_after { table.new ≡ numbers_by N.of_bytes N.WIDTH (length table.old) recorded.now }
{
    let mut rest = recorded;
    let mut agrees = true;
    for number in table.iter_mut() {
        let n = N::first(rest);
        agrees &= *number == n;
        *number = n;
        rest = &rest[N::WIDTH.min(rest.len())..];
    }
    agrees & rest.is_empty()
}
