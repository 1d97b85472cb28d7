// The tags that code tests by name. They are constants and no enum, since a tag is a word of the lent row table, where any number may stand.
pub const STRING: u64 = 6;

pub const FUNCTION: u64 = 7;

pub const RECORD: u64 = 16;

pub const CLOSURE: u64 = 18;

// The highest tag of a value.
pub const LAST: u64 = 26;

// A chunk row.
pub const CHUNK: u64 = 32;

// A field row.
pub const FIELD: u64 = 33;
