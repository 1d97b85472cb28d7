// The items of a payload, read against the definition: varints, bytes, numbers of every kind, strings by pool index, and running positions.
#![tactic(auto)]

pub mod items;
pub mod numbers;
pub mod positions;

// The words of a pool table are offsets and lengths below this base. What stands above it, while a payload is read, is a hint where a native's name may stand in the list:
// no answer rests on it.
pub const HINT_BASE: u64 = 0x200_0000;

// The kinds of number that are a varint, cut.
#[derive(Clone, Copy)]
pub enum Cut {
    U64,
    U32,
    U16,
    I64,
    I32,
    I16,
    I8,
}
