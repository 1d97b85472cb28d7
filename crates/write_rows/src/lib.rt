// The payload of a program in tables, written, measured or compared by one walk over its rows. The row table is lent to its last used row.
#![tactic(auto)]

ghost use Rattle.std.specs.Prelude.{◌≡◌, is_some, true, [], ◌∷◌, ◌++◌, ◌+◌, ◌-◌, ◌*◌, ◌/◌, ◌≤◌, ◌<◌, length, take, drop};
ghost use Rattle.slices.specs.Same.{same};
ghost use Rattle.varint.specs.Uleb128.{uleb128};
ghost use Rattle.payload.specs.Numbers.{zigzag_word};
ghost use Rattle.payload.specs.Pool.{index_of};
ghost use Rattle.payload.specs.Spans.{write_code};
ghost use Rattle.payload.specs.Sound.{spans_of};
ghost use Rattle.payload.specs.Tables.{size_limit};
ghost use Rattle.payload.specs.Writing.{tag_byte, write_starts};
ghost use Rattle.emit.specs.Emit.{further, output_limit, Emitted};
ghost use Rattle.emit.specs.Expected.{bytes_of};
ghost use Rattle.emit.specs.Emits.{Emits};
ghost use Rattle.pool_index.specs.Held.{strings_of};
ghost use Rattle.pool_index.specs.Strings.{bytes_at, distinct};
ghost use Rattle.row_layout.specs.Layout.{under_form};
ghost use Rattle.row_layout.specs.Number.{form_number};
ghost use Rattle.row_layout.specs.Row.{row_word};
ghost use Rattle.write_code.specs.Runs.{Positions};
ghost use Rattle.write_rows.specs.Held.{CanWrite, tables_bytes};
ghost use Rattle.write_rows.specs.Payload.{line_bytes, WrittenOut};
ghost use Rattle.write_rows.specs.Walk.{item_bytes, both_items, items_bytes, head_bytes, span_after, head_walk, rows_under, walk_row, walk};

use emit::Emitter;
use emit::parts::{Part, emit_part};
use payload::{Program, Tables};
use pool_index::Pool;
use row_layout::row::Row;
use row_layout::{Form, Under, tags};
use write_code::{Code, Position, Runs};

// A value is a row, or a row and one that has no value of its own; the outer chunk is one more.
const WALK_DEPTH: usize = 2 * Program::DEPTH + 1;

// The next row, the next span, and the pool index that the next string is expected to have.
#[derive(Clone, Copy)]
struct Place {
    row: usize,
    span: usize,
    expected: usize,
}

fn zigzag_word(w: u64) -> u64
    ensures { result ≡ zigzag_word w }
{
    signed::zigzag(signed::from_word(w))
}

// Chunk and field rows have no tag byte.
fn write_tag(emitter: &mut Emitter, tag: u64)
    ensures { Emits emitter.old emitter.new (tag_byte tag) }
{
    if tag <= tags::LAST {
        emitter.byte(tag as u8);
    }
}

// Code and runs, each into the part of the output that begins where the last part ended.
fn write_chunk(emitter: &mut Emitter, code: &[u8], spans: Runs)
    ensures { Emits emitter.old emitter.new (write_code code.now (spans_of spans.entry.spans.now)) }
{
    emitter.part(&Code { code });
    emitter.part(&spans);
}

// How many rows are under a row; of a closure, after the first. A count is cut to how many rows the table has, since the walk does not ask that
// the rows are sound.
fn rows_under(row: Row<'_>) -> u64
    ensures { result ≡ rows_under row.entry.table.now row.entry.number }
{
    let tag = row.tag();
    let rows = row.table.len() / Program::ROW_WIDTH;
    let count = row.word(row_layout::count_word(tag)).min(rows as u64);
    match row_layout::under_form(tag) {
        Under::Nothing => 0,
        Under::OneRow => 1,
        Under::Counted | Under::Template => count,
        Under::CountedPairs => 2 * count,
    }
}

// The line starts, each as the difference from the one before it.
fn write_starts(emitter: &mut Emitter, starts: &[u32])
    ensures { Emits emitter.old emitter.new (write_starts 0 starts.now) }
{
    let mut last = Position::from(0);
    for s in starts {
        let start = Position::from(*s);
        write_code::write_delta(emitter, last, start);
        last = start;
    }
}

// A program in tables, with the pool of its strings. It can be written: no string stands twice in the pool, and spans are positions.
#[derive(Clone, Copy)]
pub struct Writing<'a> {
    tables: Tables<'a>,
    pool: Pool<'a>,
    pub ghost once: { distinct (strings_of pool) ≡ true },
    pub ghost positions: { Positions tables.spans.now },
}

impl Writing<'_> {
    ghost use Rattle.write_rows.specs.Reached.{Reached};
    ghost use Rattle.write_rows.specs.Written.{held_in, held_at};

    // ---- a row's items

    // The spans from one on to another.
    fn runs(&self, from: usize, to: usize) -> Runs<'_>
        requires { (from ≤ to) × (to ≤ length self.now.tables.spans.now / 2) }
        ensures { result.spans.now ≡ take (2 * to - 2 * from) (drop (2 * from) self.now.tables.spans.now) }
    {
        let start = 2 * from;
        let end = 2 * to;
        Runs {
            spans: &self.tables.spans[start..end],
        }
    }

    // A string's index. Where it is only measured its length counts: among at most 127 strings every index has one byte, and is not looked for.
    // The answer is the index that the next string is expected to have: strings come in the pool's order.
    fn write_index(&self, emitter: &mut Emitter, expected: usize, o: u64, n: u64) -> usize
        ensures { Emits emitter.old emitter.new (uleb128 (index_of (bytes_at self.now.pool.store.now o n) (strings_of self.now.pool))) }
    {
        if self.pool.words.len() < 256 && emitter.only_measures() {
            emitter.advance(1);
            return expected;
        }
        let k = pool_index::lookup(self.pool.store, self.pool.words, expected, o, n);
        emitter.varint(k as u64);
        if k == expected {
            return k.saturating_add(1);
        }
        expected
    }

    // An item that is no string, by its form, with the spans of its row. A call, so that what stands before it is one test: the jump by the form is often guessed wrong.
    #[inline(never)]
    fn write_other_item(&self, form: Form, emitter: &mut Emitter, spans: Runs, a: u64, b: u64)
        requires { form ≡ Form.Text → ⊥ }
        ensures { Emits emitter.old emitter.new (item_bytes self.now.pool.store.now (strings_of self.now.pool) (spans_of spans.entry.spans.now) (form_number form) a b) }
    {
        match form {
            Form::NoItem | Form::Text => {}
            Form::Varint => emitter.varint(a),
            Form::Zigzag => emitter.varint(zigzag_word(a)),
            Form::Byte => emitter.byte((a % 256) as u8),
            Form::EightBytes => emitter.little_endian(a, 8),
            Form::FourBytes => emitter.little_endian(a, 4),
            Form::Code => write_chunk(emitter, pool_index::bytes_at(self.pool.store, a, b), spans),
        }
    }

    // An item by its form, with the spans of its row. The answer is the index that the next string is expected to have.
    fn write_item(
        &self,
        form: Form,
        emitter: &mut Emitter,
        expected: usize,
        spans: Runs,
        a: u64,
        b: u64,
    ) -> usize
        ensures { Emits emitter.old emitter.new (item_bytes self.now.pool.store.now (strings_of self.now.pool) (spans_of spans.entry.spans.now) (form_number form) a b) }
    {
        if let Form::Text = form {
            return self.write_index(emitter, expected, a, b);
        }
        self.write_other_item(form, emitter, spans, a, b);
        expected
    }

    // A row's items, with the spans of its code. Inlined, since most rows are nothing but their items, and the call would be a fifth of their instructions.
    #[inline(always)]
    fn write_both_items(
        &self,
        emitter: &mut Emitter,
        row: Row<'_>,
        spans: Runs,
        expected: usize,
    ) -> usize
        ensures { Emits emitter.old emitter.new (both_items (held_at self.now row.entry) row.entry.number (spans_of spans.entry.spans.now)) }
    {
        let tag = row.tag();
        let first = row_layout::first_form(tag);
        let next = self.write_item(first, emitter, expected, spans, row.word(1), row.word(2));
        let second = row_layout::second_form(tag);
        if second == Form::NoItem {
            return next;
        }
        let w = row_layout::second_word(tag);
        self.write_item(second, emitter, next, spans, row.word(w), row.word(w + 1))
    }

    // What a row gives besides its tag: its items, and its count where it has one.
    fn write_items(
        &self,
        emitter: &mut Emitter,
        row: Row<'_>,
        spans: Runs,
        expected: usize,
    ) -> usize
        ensures { Emits emitter.old emitter.new (items_bytes (held_at self.now row.entry) row.entry.number (spans_of spans.entry.spans.now)) }
    {
        let next = self.write_both_items(emitter, row, spans, expected);
        let tag = row.tag();
        match row_layout::under_form(tag) {
            Under::Nothing | Under::OneRow => {}
            Under::Counted | Under::CountedPairs | Under::Template => {
                emitter.varint(row.word(row_layout::count_word(tag)));
            }
        }
        next
    }

    // The span after those of a row.
    fn span_after(&self, row: Row<'_>, j: usize) -> usize
        requires { j ≤ length self.now.tables.spans.now / 2 }
        ensures value { result ≡ span_after (held_at self.now row.entry) row.entry.number j }
        ensures within { (j ≤ result) × (result ≤ length self.now.tables.spans.now / 2) }
    {
        if row_layout::first_form(row.tag()) == Form::Code {
            let code = pool_index::bytes_at(self.pool.store, row.word(1), row.word(2));
            return j + code.len().min(self.tables.spans.len() / 2 - j);
        }
        j
    }

    // What a row gives before the rows under it, from the span where its own begin.
    fn write_head(&self, emitter: &mut Emitter, row: Row<'_>, span: usize, expected: usize) -> Place
        requires { span ≤ length self.now.tables.spans.now / 2 }
        ensures { Reached emitter.old emitter.new (length self.now.tables.spans.now / 2) result.row result.span
            (head_walk (held_at self.now row.entry) row.entry.number span) }
    {
        let after = self.span_after(row, span);
        let tag = row.tag();
        write_tag(emitter, tag);
        let next = if row_layout::under_form(tag) == Under::Template {
            expected
        } else {
            self.write_items(emitter, row, self.runs(span, after), expected)
        };
        Place {
            row: row.number + 1,
            span: after,
            expected: next,
        }
    }

    // A row with nothing under it: its tag, and its items, none of which is code.
    fn write_leaf(&self, emitter: &mut Emitter, row: Row<'_>, expected: usize) -> usize
        requires { under_form (row_word row.table.now row.number 0) ≡ 0 }
        ensures { Emits emitter.old emitter.new (head_bytes (held_at self.now row.entry) row.entry.number []) }
    {
        write_tag(emitter, row.tag());
        self.write_both_items(emitter, row, self.runs(0, 0), expected)
    }

    // ---- the walk: a row, and so many rows, each with those under them

    #[cycle(rows)]
    fn write_row(
        &self,
        depth: usize,
        emitter: &mut Emitter,
        row: Row<'_>,
        span: usize,
        expected: usize,
    ) -> Place
        requires { (row.table.now ≡ self.now.tables.rows.now) × (span ≤ length self.now.tables.spans.now / 2) }
        ensures { Reached emitter.old emitter.new (length self.now.tables.spans.now / 2) result.row result.span
            (walk_row (held_in self.now) (walk (held_in self.now) depth) row.entry.number span) }
    {
        let next = self.write_head(emitter, row, span, expected);
        let n = rows_under(row);
        if row_layout::under_form(row.tag()) == Under::Template {
            let mid = self.write_rows(depth, emitter, 1, next);
            let expected = self.write_items(emitter, row, self.runs(0, 0), mid.expected);
            return self.write_rows(depth, emitter, n, Place { expected, ..mid });
        }
        if n == 0 {
            return next;
        }
        self.write_rows(depth, emitter, n, next)
    }

    #[cycle(rows)]
    fn write_rows(&self, depth: usize, emitter: &mut Emitter, count: u64, place: Place) -> Place
        requires { place.span ≤ length self.now.tables.spans.now / 2 }
        ensures { Reached emitter.old emitter.new (length self.now.tables.spans.now / 2) result.row result.span
            (walk (held_in self.now) depth count place.row place.span) }
    {
        if depth == 0 {
            return place;
        }
        let under = depth - 1;
        let mut here = place;
        for _k in 0..count {
            let Some(row) = Row::of(self.tables.rows, here.row) else {
                return here;
            };
            if row_layout::under_form(row.tag()) == Under::Nothing {
                here.expected = self.write_leaf(emitter, row, here.expected);
                here.row += 1;
            } else {
                here = self.write_row(under, emitter, row, here.span, here.expected);
            }
        }
        here
    }

    fn write_line_index(&self, emitter: &mut Emitter)
        ensures { Emits emitter.old emitter.new
            (line_bytes (strings_of self.now.pool) self.now.tables.flag (bytes_at self.now.pool.store.now self.now.tables.name_o self.now.tables.name_n) self.now.tables.starts.now) }
    {
        let tables = self.tables;
        if tables.flag == 0 {
            return emitter.byte(0);
        }
        emitter.byte(1);
        let k = pool_index::lookup(
            self.pool.store,
            self.pool.words,
            0,
            tables.name_o as u64,
            tables.name_n as u64,
        );
        emitter.varint(k as u64);
        emitter.varint(tables.starts.len() as u64);
        write_starts(emitter, tables.starts);
    }
}

// ---- the whole payload: pool, values, line index

#[derive(Clone, Copy)]
struct Values<'a> {
    writing: Writing<'a>,
}

impl Part for Values<'_> {
    ghost use Rattle.write_rows.specs.Written.{values_bytes};

    ghost bytes = { values_bytes };

    fn emit(&self, emitter: &mut Emitter) {
        let start = Place {
            row: 0,
            span: 0,
            expected: 0,
        };
        self.writing.write_rows(WALK_DEPTH, emitter, 1, start);
    }
}

impl Part for Writing<'_> {
    ghost use Rattle.write_rows.specs.Written.{writing_bytes};

    ghost bytes = { writing_bytes };

    // Pool and values go into the part of the output that begins where the last part ended.
    fn emit(&self, emitter: &mut Emitter) {
        emitter.part(&self.pool);
        emitter.part(&Values { writing: *self });
        self.write_line_index(emitter);
    }
}

impl<'a> Writing<'a> {
    ghost use Rattle.write_rows.specs.Written.{writing_bytes};

    // The writing of tables with the pool of their strings.
    pub fn of(tables: Tables<'a>, pool: &'a [u64]) -> Writing<'a>
        requires { CanWrite tables pool.now }
        ensures { writing_bytes result ≡ tables_bytes tables.entry pool.now }
    {
        let strings = Pool {
            store: tables.store,
            words: pool,
        };
        Writing {
            tables,
            pool: strings,
        }
    }

    // How long the payload is: one more than the size limit where it is above that.
    pub fn measure(&self) -> usize
        ensures { result ≡ further 0 (length (writing_bytes self.now)) }
    {
        emit_part(&mut [], None, self)
    }

    // Whether this is the payload.
    pub fn agrees(&self, payload: &[u8]) -> bool
        requires { length payload.now ≤ size_limit }
        ensures { result ≡ same (writing_bytes self.now) payload.now }
    {
        emit_part(&mut [], Some(payload), self) == payload.len()
    }

    // The payload into an output that has room for it; what follows stays.
    pub fn write_out(&self, out: &mut [u8]) -> usize
        requires { (length (writing_bytes self.now) ≤ length out.old) × (length out.old ≤ size_limit) }
        ensures { WrittenOut (writing_bytes self.now) out.old out.new result }
    {
        emit_part(out, None, self)
    }
}
