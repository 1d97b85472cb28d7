// The scan of a program in tables for soundness: the first row that breaks a rule.
#![tactic(auto)]

ghost use Rattle.std.specs.Prelude.{◌≡◌, ℕ, suc, ◌+◌, ◌-◌, ◌*◌, ◌/◌, ◌≤◌, ◌<◌, List, [], true, false, not, leb, eqb, length, IfSome, IfNone, IfOk, IfErr};
ghost use Rattle.scan_rows.specs.Row.{row_count, word_at, tag_at, count_at, at_row, zeros_from, row_fits, is_tagged, head_fits, key_fits, row_key};
ghost use Rattle.scan_rows.specs.Under.{rows_under, Skip, Entries, scan_under, scan_entries, scan_chunk, scan_field, scan_member, scan_template};
ghost use Rattle.scan_rows.specs.Found.{WholeRows, Scanned, Answers, broken};
ghost use Rattle.scan_rows.specs.Code.{code_at, code_total, spans_fit};
ghost use Rattle.payload.specs.Held.{script_in, tables_in};
ghost use Rattle.payload.specs.Rows.{row_width};
ghost use Rattle.payload.specs.Sound.{all_starts, is_nil, line_sound};
ghost use Rattle.row_layout.specs.Layout.{under_rules};
ghost use Rattle.row_layout.specs.Number.{test_number};
ghost use Rattle.slices.specs.Same.{same};
ghost use Rattle.payload.specs.Pool.{is_in};
ghost use Rattle.payload.specs.Shapes.{shape};
ghost use Rattle.payload.specs.Choice.{◌and◌};
ghost use Rattle.payload.specs.Scan.{any_row, scan_value};
ghost use Rattle.payload.specs.Reading.{read_many};
ghost use Rattle.scan_rows.specs.Fits.{words_fit};

use payload::{Program, Tables};
use row_layout::row::Row;
use row_layout::{Rules, Test, tags};

// The first row that breaks a rule, or the row count where spans or line index do.
#[derive(Clone, Copy, Debug, PartialEq, Eq)]
pub struct BrokenRow {
    pub row: usize,
}

// What a row under a row may be.
#[derive(Clone, Copy)]
enum Member {
    Value,
    Chunk,
    Field,
}

// The rows of a table, each of them whole, and the store in which their parts stand.
#[derive(Clone, Copy)]
struct Rows<'a> {
    store: &'a [u8],
    words: &'a [u64],
    ghost whole: { WholeRows words.now },
}

// ---- the words of a row

// Word k of a row, where k is known to be below the width. `Row::word` takes any k and tests it, which would be two tests more for each row of a scan.
fn word_inside(row: Row<'_>, k: u64) -> u64
    requires { k < row_width }
    ensures { result ≡ word_at row.entry.table.now row.entry.number k }
{
    row.table[Program::ROW_WIDTH * row.number + k as usize]
}

// The count of a row whose rules have one. Inlined, as `row_fits` is: a call would pass the row in memory, which costs the scan of records a fifth.
#[inline(always)]
#[tactic(auto, using(row_layout::specs::Laws::Row::row_word_at, crate::specs::Laws::Fits::count_low))]
fn count_of(row: Row<'_>) -> u64
    requires { 2 ≤ under_rules (tag_at row.table.now row.number) }
    ensures { result ≡ count_at row.entry.table.now row.entry.number }
{
    word_inside(row, row_layout::count_word(row.tag()))
}

// Whether the words from word k on are 0.
#[tactic(auto, using(crate::specs::Laws::Fits::zeros_more, crate::specs::Laws::Fits::zeros_stop, crate::specs::Laws::Fits::zeros_end))]
fn zero_from(row: Row<'_>, k: u64) -> bool
    ensures { result ≡ zeros_from row.entry.table.now row.entry.number k (row_width - k) }
{
    for j in k..Program::ROW_WIDTH as u64 {
        if word_inside(row, j) != 0 {
            return false;
        }
    }
    true
}

// How many rows are right under a row.
#[tactic(auto, using(row_layout::specs::Laws::Row::row_word_at, crate::specs::Laws::Under::rows_under_is, crate::specs::Laws::Fits::none_low), unfolding(crate::specs::Under::under_by))]
fn rows_under(row: Row<'_>) -> u64
    requires { rows_under row.table.now row.number ≤ row_count row.table.now }
    ensures { result ≡ rows_under row.entry.table.now row.entry.number }
{
    let tag = row.tag();
    // Most rows are numbers and strings. The search among the keys of a map spends its time here, so they are told without the table.
    if tag <= tags::STRING {
        return 0;
    }
    match row_layout::under_rules(tag) {
        Rules::Nothing => 0,
        Rules::OneValue | Rules::Chunk => 1,
        Rules::Values | Rules::Keys | Rules::Fields => count_of(row),
        Rules::Pairs => 2 * count_of(row),
        Rules::Template => count_of(row) + 1,
    }
}

// How many bytes of code a row has.
#[tactic(auto, using(row_layout::specs::Laws::Row::row_word_at), unfolding(crate::specs::Code::code_at))]
fn code_length(row: Row<'_>) -> u64
    ensures { result ≡ code_at row.entry.table.now row.entry.number }
{
    if row.tag() == tags::CHUNK {
        return row.word(2);
    }
    0
}

// ---- whether the words of a row fit

impl Rows<'_> {
    // Whether a part lies in the store. No sum can wrap.
    fn part_fits(&self, o: u64, n: u64) -> bool
        ensures { result ≡ leb (o + n) (length self.now.store.now) }
    {
        let end = self.store.len() as u64;
        o <= end && n <= end - o
    }

    // Whether a word, or a part, passes the test of an item that is no string. A call, so that a string is told from the others by one test before it: the jump by the
    // test is often guessed wrong.
    #[inline(never)]
    #[tactic(auto, unfolding(crate::specs::Fits::words_fit, crate::specs::Fits::number_fits))]
    fn other_item_fits(&self, test: Test, a: u64, b: u64) -> bool
        requires { test ≡ Test.Text → ⊥ }
        ensures { result ≡ words_fit self.now.store.now (test_number test) a b }
    {
        match test {
            Test::NoItem | Test::AnyWord | Test::Text => true,
            Test::Bits32 => a < 0x1_0000_0000,
            Test::Bits16 => a < 0x1_0000,
            Test::Byte => a < 256,
            Test::Bool => a < 2,
            Test::HandleKind => a <= 5,
            Test::Scalar => (a < 0xD800) | ((0xE000 <= a) & (a < 0x11_0000)),
            Test::Signed32 => (a < 0x8000_0000) | (0xFFFF_FFFF_8000_0000 <= a),
            Test::Signed16 => (a < 0x8000) | (0xFFFF_FFFF_FFFF_8000 <= a),
            Test::Signed8 => (a < 0x80) | (0xFFFF_FFFF_FFFF_FF80 <= a),
            Test::Code => self.part_fits(a, b),
        }
    }

    // Whether the word a, or the part at a of b bytes, passes an item's test.
    #[tactic(auto, unfolding(crate::specs::Fits::words_fit, crate::specs::Fits::number_fits))]
    fn item_fits(&self, test: Test, a: u64, b: u64) -> bool
        ensures { result ≡ words_fit self.now.store.now (test_number test) a b }
    {
        match test {
            Test::NoItem => true,
            Test::Text => utf8::part_is_utf8(self.store, a as usize, b as usize),
            _ => self.other_item_fits(test, a, b),
        }
    }

    // The words of a row fit the kinds of its tag, and the unused ones are 0.
    #[inline(always)]
    #[tactic(auto, using(row_layout::specs::Laws::Layout::second_word_low))]
    fn row_fits(&self, row: Row<'_>) -> bool
        ensures { result ≡ row_fits self.now.store.now row.entry.table.now row.entry.number }
    {
        let tag = row.tag();
        let first = row_layout::first_test(tag);
        if !self.item_fits(first, row.word(1), row.word(2)) {
            return false;
        }
        let w = row_layout::second_word(tag);
        let second = row_layout::second_test(tag);
        if !self.item_fits(second, word_inside(row, w), word_inside(row, w + 1)) {
            return false;
        }
        zero_from(row, row_layout::used_words(tag))
    }
}

// ---- the rows of the table

impl<'a> Rows<'a> {
    // How many rows there are.
    fn count(&self) -> usize
        ensures { result ≡ row_count self.now.words.now }
    {
        self.words.len() / Program::ROW_WIDTH
    }

    // Row i, where there is one.
    fn row(&self, i: usize) -> Option<Row<'a>>
        ensures some { IfSome result (λ row. (row.table ≡ self.now.words) × (row.number ≡ i)) }
        ensures none { IfNone result (row_count self.now.words.now ≤ i) }
    {
        Row::of(self.words, i)
    }

    // Row i, if it is there and has this tag.
    fn tagged(&self, tag: u64, i: usize) -> Result<Row<'a>, BrokenRow>
        ensures ok { IfOk result (λ row. (row.table ≡ self.now.words) × (row.number ≡ i) × (is_tagged self.now.words.now tag i ≡ true)) }
        ensures err { IfErr result (λ b. (b ≡ broken i) × (is_tagged self.now.words.now tag i ≡ false)) }
    {
        let Some(row) = self.row(i) else {
            return Err(BrokenRow { row: i });
        };
        if row.tag() != tag {
            return Err(BrokenRow { row: i });
        }
        Ok(row)
    }

    // Row i, if it is there, has this tag, and its words fit.
    fn head(&self, tag: u64, i: usize) -> Result<Row<'a>, BrokenRow>
        ensures ok { IfOk result (λ row. (row.table ≡ self.now.words) × (row.number ≡ i) × (head_fits self.now.store.now self.now.words.now tag i ≡ true)) }
        ensures err { IfErr result (λ b. (b ≡ broken i) × (head_fits self.now.store.now self.now.words.now tag i ≡ false)) }
    {
        let row = self.tagged(tag, i)?;
        if !self.row_fits(row) {
            return Err(BrokenRow { row: i });
        }
        Ok(row)
    }

    // The row after `count` rows and those under them. The rows were scanned.
    fn row_after(&self, count: u64, i: usize) -> usize
        requires i_bound { i ≤ row_count self.now.words.now }
        requires by_index { (j : ℕ) × Skip self.now.words.now count i j }
        ensures { (j : ℕ) → Skip self.now.words.now count i j → result ≡ j }
    {
        let mut pending = count;
        let mut at = i;
        // No iterator steps by what it finds: each row that is passed tells how many more are to be passed.
        while 0 < pending {
            let n = rows_under(Row {
                table: self.words,
                number: at,
            });
            pending = pending - 1 + n;
            at += 1;
        }
        at
    }
}

// ---- keys

impl Rows<'_> {
    // Whether row i can be a key.
    fn key_fits(&self, i: usize) -> bool
        ensures { result ≡ key_fits self.now.store.now self.now.words.now i }
    {
        let Some(row) = self.row(i) else {
            return false;
        };
        row_layout::is_key_tag(row.tag()) && self.row_fits(row)
    }

    // Whether rows a and b, which can be keys, are the same key: strings by their bytes. Their parts lie in the store, so no bound is tested, as the reader's key test does.
    fn same_key(&self, a: usize, b: usize) -> bool
        requires a_value { key_fits self.now.store.now self.now.words.now a ≡ true }
        requires b_value { key_fits self.now.store.now self.now.words.now b ≡ true }
        ensures { result ≡ same (row_key self.now.store.now self.now.words.now b) (row_key self.now.store.now self.now.words.now a) }
    {
        let one = Row {
            table: self.words,
            number: a,
        };
        let other = Row {
            table: self.words,
            number: b,
        };
        let tag = one.tag();
        if tag != other.tag() {
            return false;
        }
        let v = one.word(1);
        let w = other.word(1);
        if tag != tags::STRING {
            return w == v;
        }
        let n = one.word(2);
        if n != other.word(2) {
            return false;
        }
        if w == v {
            return true;
        }
        slices::equal_parts(self.store, w as usize, self.store, v as usize, n as usize)
    }

    // Whether row i is the key of an earlier entry. The entries begin at `first`; between two keys stand `gap` values, none or one: a count, which the walk over the rows
    // takes as it is.
    fn key_seen(&self, gap: u64, first: usize, i: usize) -> bool
        requires i_value { key_fits self.now.store.now self.now.words.now i ≡ true }
        requires by_index { (l : List (List ℕ)) × Entries self.now.store.now self.now.words.now (suc gap) first i l }
        ensures { (l : List (List ℕ)) → Entries self.now.store.now self.now.words.now (suc gap) first i l → result ≡ is_in (row_key self.now.store.now self.now.words.now i) l }
    {
        let mut k = first;
        // No iterator steps by what it finds: the rows after a key tell where the next one stands.
        while k < i {
            if self.same_key(k, i) {
                return true;
            }
            k = self.row_after(gap, k + 1);
        }
        false
    }

    // Whether row i is a key, and none of an earlier entry.
    fn is_new_key(&self, gap: u64, first: usize, i: usize) -> bool
        requires by_index { (l : List (List ℕ)) × Entries self.now.store.now self.now.words.now (suc gap) first i l }
        ensures { (l : List (List ℕ)) → Entries self.now.store.now self.now.words.now (suc gap) first i l
            → result ≡ (key_fits self.now.store.now self.now.words.now i and not (is_in (row_key self.now.store.now self.now.words.now i) l)) }
    {
        self.key_fits(i) && !self.key_seen(gap, first, i)
    }
}

// ---- the scan: a value, and what can be under a row

// Each function answers the row after what was scanned.
impl Rows<'_> {
    // A value with `depth` levels left.
    #[cycle(scan)]
    fn scan_value(&self, depth: usize, i: usize) -> Result<usize, BrokenRow>
        ensures { Scanned self.now.words.now 1 i result (scan_value self.now.store.now depth any_row (at_row self.now.words.now i)) }
    {
        if depth == 0 {
            return Err(BrokenRow { row: i });
        }
        let Some(row) = self.row(i) else {
            return Err(BrokenRow { row: i });
        };
        if tags::LAST < row.tag() {
            return Err(BrokenRow { row: i });
        }
        if !self.row_fits(row) {
            return Err(BrokenRow { row: i });
        }
        self.scan_under(depth - 1, row)
    }

    // The rows under a row, by its rules.
    #[cycle(scan)]
    #[tactic(auto, using(row_layout::specs::Laws::Row::row_word_at))]
    fn scan_under(&self, depth: usize, row: Row<'_>) -> Result<usize, BrokenRow>
        ensures { Scanned self.now.words.now (rows_under row.entry.table.now row.entry.number) (row.entry.number + 1) result
            (scan_under self.now.store.now (scan_value self.now.store.now depth) (shape (tag_at row.entry.table.now row.entry.number)) (count_at row.entry.table.now row.entry.number) (at_row self.now.words.now (row.entry.number + 1))) }
    {
        let after = row.number + 1;
        let tag = row.tag();
        // Most rows are numbers and strings. They are told by one test, since the jump by the rules is often guessed wrong.
        if tag <= tags::STRING {
            return Ok(after);
        }
        match row_layout::under_rules(tag) {
            Rules::Nothing => Ok(after),
            Rules::OneValue => self.scan_many(depth, Member::Value, 1, after),
            Rules::Values => self.scan_many(depth, Member::Value, count_of(row), after),
            Rules::Keys => self.scan_entries(depth, 0, count_of(row), after),
            Rules::Pairs => self.scan_entries(depth, 1, count_of(row), after),
            Rules::Chunk => self.scan_many(depth, Member::Chunk, 1, after),
            Rules::Fields => self.scan_many(depth, Member::Field, count_of(row), after),
            Rules::Template => self.scan_template(depth, count_of(row), after),
        }
    }

    // One row, and what is under it.
    #[cycle(scan)]
    fn scan_member(&self, depth: usize, member: Member, i: usize) -> Result<usize, BrokenRow>
        ensures { Scanned self.now.words.now 1 i result (scan_member self.now.store.now (scan_value self.now.store.now depth) member (at_row self.now.words.now i)) }
    {
        match member {
            Member::Value => self.scan_value(depth, i),
            Member::Chunk => self.scan_chunk(depth, i),
            Member::Field => self.scan_field(depth, i),
        }
    }

    // So many rows, and what is under them.
    #[cycle(scan)]
    fn scan_many(&self, depth: usize, member: Member, n: u64, i: usize) -> Result<usize, BrokenRow>
        ensures { Scanned self.now.words.now n i result (read_many n (scan_member self.now.store.now (scan_value self.now.store.now depth) member) (at_row self.now.words.now i)) }
    {
        let mut at = i;
        for _ in 0..n {
            at = self.scan_member(depth, member, at)?;
        }
        Ok(at)
    }

    // The entries of a set (gap 0) or of a map (gap 1): keys, and `gap` values after each.
    #[cycle(scan)]
    fn scan_entries(&self, depth: usize, gap: u64, n: u64, i: usize) -> Result<usize, BrokenRow>
        requires { gap ≤ 1 }
        ensures { Scanned self.now.words.now (suc gap * n) i result (scan_entries (suc gap) n [] (scan_value self.now.store.now depth) (at_row self.now.words.now i)) }
    {
        let mut at = i;
        for _ in 0..n {
            if depth == 0 {
                return Err(BrokenRow { row: at });
            }
            if !self.is_new_key(gap, i, at) {
                return Err(BrokenRow { row: at });
            }
            at = self.scan_many(depth, Member::Value, gap, at + 1)?;
        }
        Ok(at)
    }

    // A chunk row, and the values under it. Their count is its word 3.
    #[cycle(scan)]
    fn scan_chunk(&self, depth: usize, i: usize) -> Result<usize, BrokenRow>
        ensures { Scanned self.now.words.now 1 i result (scan_chunk self.now.store.now (scan_value self.now.store.now depth) (at_row self.now.words.now i)) }
    {
        let row = self.head(tags::CHUNK, i)?;
        self.scan_many(depth, Member::Value, row.word(3), i + 1)
    }

    // A field row, and the value under it.
    #[cycle(scan)]
    fn scan_field(&self, depth: usize, i: usize) -> Result<usize, BrokenRow>
        ensures { Scanned self.now.words.now 1 i result (scan_field self.now.store.now (scan_value self.now.store.now depth) (at_row self.now.words.now i)) }
    {
        self.head(tags::FIELD, i)?;
        self.scan_many(depth, Member::Value, 1, i + 1)
    }

    // A closure's function, and then its values.
    #[cycle(scan)]
    fn scan_template(&self, depth: usize, n: u64, i: usize) -> Result<usize, BrokenRow>
        ensures { Scanned self.now.words.now (n + 1) i result (scan_template (scan_value self.now.store.now depth) n (at_row self.now.words.now i)) }
    {
        self.tagged(tags::FUNCTION, i)?;
        let values = self.scan_value(depth, i)?;
        self.scan_many(depth, Member::Value, n, values)
    }
}

// ---- spans and line index

impl Rows<'_> {
    // Whether the rows have `count` bytes of code in all.
    fn code_is(&self, count: u64) -> bool
        ensures { result ≡ eqb (code_total (row_count self.now.words.now) self.now.words.now) count }
    {
        let mut left = count;
        for i in 0..self.count() {
            let n = code_length(Row {
                table: self.words,
                number: i,
            });
            if left < n {
                return false;
            }
            left -= n;
        }
        left == 0
    }

    // Whether there is a span for each byte of code, and every position is below 2^63.
    fn spans_fit(&self, spans: &[u64]) -> bool
        requires { length spans.now ≡ 2 * (length spans.now / 2) }
        ensures { result ≡ spans_fit self.now.words.now spans.now }
    {
        if !self.code_is((spans.len() / 2) as u64) {
            return false;
        }
        // Two words at a turn: `all` over the words takes a quarter longer.
        for i in 0..spans.len() / 2 {
            if 0x8000_0000_0000_0000 <= spans[2 * i] {
                return false;
            }
            if 0x8000_0000_0000_0000 <= spans[2 * i + 1] {
                return false;
            }
        }
        true
    }
}

// Whether there are no starts. Any that there are fit 32 bits by their type, which is what the definition asks of starts.
fn no_starts(starts: &[u32]) -> bool
    ensures { (result ≡ is_nil starts.now) × (all_starts starts.now ≡ true) }
{
    starts.is_empty()
}

// The name and the starts where the flag is 1; neither where it is 0.
fn line_sound(tables: &Tables<'_>) -> bool
    ensures { result ≡ line_sound (tables_in tables.now) }
{
    let no_starts = no_starts(tables.starts);
    match tables.flag {
        0 => tables.name_o == 0 && tables.name_n == 0 && no_starts,
        1 => utf8::part_is_utf8(tables.store, tables.name_o, tables.name_n),
        _ => false,
    }
}

// ---- the whole scan

// Whether the tables hold a sound program; if not, the first row that breaks a rule, or the row count where it is spans or line index.
pub fn scan_tables(tables: Tables<'_>) -> Result<(), BrokenRow>
    requires whole_rows { WholeRows tables.rows.now }
    requires spans_len { length tables.spans.now ≡ 2 * (length tables.spans.now / 2) }
    ensures { Answers result (script_in tables.entry) }
{
    let rows = Rows {
        store: tables.store,
        words: tables.rows,
    };
    let end = rows.scan_chunk(Program::DEPTH, 0)?;
    if end < rows.count() {
        return Err(BrokenRow { row: end });
    }
    if !rows.spans_fit(tables.spans) {
        return Err(BrokenRow { row: end });
    }
    if !line_sound(&tables) {
        return Err(BrokenRow { row: end });
    }
    Ok(())
}
