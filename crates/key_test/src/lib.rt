// The test of a key of a set or map: its tag, and the keys before it in the row table.
#![tactic(auto)]

ghost use Rattle.std.specs.Prelude.{◌≡◌, ◌+◌, ◌-◌, ◌*◌, ◌≤◌, min, length, drop};
ghost use Rattle.payload.specs.Rows.{row_width};
ghost use Rattle.row_layout.specs.Row.{row_word};
ghost use Rattle.key_test.specs.Keys.{words_from, stands, same_string, same_key, most_rows, rows_told, seen_in, key_refusal, number_told};

use payload::Program;
use refusal::Reason;
use row_layout::row::Row;
use row_layout::tags;

// A part of a byte string, which need not lie in it.
#[derive(Clone, Copy)]
struct Part {
    offset: u64,
    size: u64,
}

impl Part {
    // Whether the part lies in `bytes`.
    fn lies_in(self, bytes: &[u8]) -> bool
        ensures { result ≡ stands bytes.now self.offset self.size }
    {
        let len = bytes.len() as u64;
        self.size <= len && self.offset <= len - self.size
    }
}

// Whether two strings of `bytes` are equal: lengths first, then offsets, then bytes.
#[tactic(auto, using(std::proofs::lemmas::Bool::Decides::nat_tests), unfolding(crate::specs::Keys::same_string))]
fn same_string(bytes: &[u8], one: Part, other: Part) -> bool
    ensures { result ≡ same_string bytes.now one.offset one.size other.offset other.size }
{
    if one.size != other.size {
        return false;
    }
    if one.offset == other.offset {
        return true;
    }
    if !one.lies_in(bytes) || !other.lies_in(bytes) {
        return false;
    }
    slices::equal_parts(
        bytes,
        one.offset as usize,
        bytes,
        other.offset as usize,
        one.size as usize,
    )
}

// The part that the words after a row's tag name.
fn part_in_row(row: Row<'_>) -> Part
    ensures { result ≡ record {
      offset = row_word row.entry.table.now row.entry.number 1;
      size = row_word row.entry.table.now row.entry.number 2;
    } }
{
    Part {
        offset: row.word(1),
        size: row.word(2),
    }
}

// Whether two rows hold the same key.
#[tactic(auto, using(std::proofs::lemmas::Bool::Decides::nat_tests, crate::proofs::KeyTest::key_at))]
fn same_key(bytes: &[u8], row: Row<'_>, other: Row<'_>) -> bool
    ensures { result ≡ same_key bytes.now (words_from row.entry) (words_from other.entry) }
{
    let tag = row.tag();
    if tag != other.tag() {
        return false;
    }
    if tag == tags::STRING {
        return same_string(bytes, part_in_row(row), part_in_row(other));
    }
    row.word(1) == other.word(1)
}

// The cap keeps the sums of `seen_in` small.
fn capped(count: u64) -> u64
    ensures { (result ≡ min most_rows count) × (result ≤ most_rows) }
{
    count.min(Program::ROWS as u64)
}

// How many rows a row tells right under it.
// By a match on the tag: the search of a large map spends its time here, and a table of `row_layout` costs it a fifth more. The frequent low tags have guards, which
// are tested in this order: a range would be tested after the single tags, which costs a map of arrays twice as much.
#[tactic(auto, using(crate::proofs::KeyTest::told))]
fn rows_told(row: Row<'_>) -> u64
    ensures told { result ≡ rows_told (words_from row.entry) }
    ensures bound { result ≤ 2 * most_rows }
{
    let tag = row.tag();
    match tag {
        _ if tag < tags::FUNCTION => 0,
        // Function, Ok, Err and Error; 8 is a native.
        _ if tag < 12 => u64::from(tag != 8),
        // Array, tuple, set, and then map.
        _ if tag < 15 => capped(row.word(1)),
        15 => 2 * capped(row.word(1)),
        tags::RECORD | tags::CHUNK => capped(row.word(3)),
        tags::CLOSURE => 1 + capped(row.word(2)),
        tags::FIELD => 1,
        _ => 0,
    }
}

// Whether the key in row `own` equals one of the keys in the rows from `first` on: `gap` rows, with what is under them, stand between two keys.
fn seen_in(bytes: &[u8], first: usize, own: Row<'_>, gap: u64) -> bool
    requires { (first ≤ own.number) × (own.number ≤ most_rows) × (gap ≤ 1) }
    ensures { result ≡ seen_in bytes.now (words_from own.entry) gap 0 (own.entry.number - first) (drop (row_width * first) own.entry.table.now) }
{
    let mut skip: u64 = 0;
    for number in first..own.number {
        let row = Row {
            table: own.table,
            number,
        };
        if skip == 0 {
            if same_key(bytes, own, row) {
                return true;
            }
            skip = gap;
        } else {
            skip = skip - 1 + rows_told(row);
        }
    }
    false
}

// Whether the key in row `own` of a set or map whose rows begin at `first` is one that may stand there, and none of the keys before it.
#[tactic(auto, using(std::proofs::lemmas::Bool::Decides::nat_tests, crate::proofs::KeyTest::tag_in_row), unfolding(crate::specs::Keys::key_refusal))]
pub fn test_key(
    bytes: &[u8],
    rows: &[u64],
    first: usize,
    own: usize,
    gap: u64,
) -> Result<(), Reason>
    requires { (row_width * own + row_width ≤ length rows.now) × (first ≤ own) × (own ≤ most_rows) × (gap ≤ 1) }
    ensures { number_told result ≡ key_refusal bytes.now rows.now gap first own }
{
    let row = Row {
        table: rows,
        number: own,
    };
    if !row_layout::is_key_tag(row.tag()) {
        return Err(Reason::ForbiddenKey);
    }
    if seen_in(bytes, first, row, gap) {
        return Err(Reason::RepeatedKey);
    }
    Ok(())
}
