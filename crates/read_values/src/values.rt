// Values and chunks: the readers call each other while the depth left falls.
// They say nothing of what half-read tables hold after a refusal: no other crate sees this module, and `read_outer` clears both tables.
ghost use Rattle.std.specs.Prelude.{◌≡◌, ◌+◌, ◌*◌, ◌<◌, ◌≤◌, length};
ghost use Rattle.read_values.specs.Did.{Fits};

use crate::{Source, State, rows};
use cursor::Cursor;
use payload::Program;
use read_heads::{Class, Head};
use refusal::{Reason, Refusal};
use row_layout::tags;

// A payload that is read into lent tables: what values are read from, the tables, and the state of the reading.
#[derive(Drop)]
pub struct Decoder<'s, 't> {
    pub source: Source<'s>,
    pub rows: &'t mut [u64],
    pub spans: &'t mut [u64],
    pub state: State,
    pub ghost fits: { Fits source rows.now spans.now state },
}

impl Decoder<'_, '_> {
    ghost use Rattle.std.specs.Prelude.{[], ◌∷◌};
    ghost use Rattle.payload.specs.Reading.{read_value, read_many};
    ghost use Rattle.key_test.specs.Keys.{key_refusal, number_told};
    ghost use Rattle.read_heads.specs.Class.{shape_of};
    ghost use Rattle.read_heads.specs.Following.{read_chunk_row, read_field_row, read_following};
    ghost use Rattle.read_values.specs.Does.{Does, StoresRow};
    ghost use Rattle.read_values.specs.Did.{one_tree, many_trees};
    ghost use Rattle.read_values.specs.Entries.{read_entries};
    ghost use Rattle.read_values.specs.Under.{closure_row};

    // The next row becomes these words, and what follows it stands at `next`.
    fn store_row(&mut self, next: usize, tag: u64, head: Head)
        requires room { self.old.state.rows < self.old.source.capacities.rows }
        requires inside { next ≤ length self.old.source.payload.now }
        ensures { StoresRow self.old self.new (tag ∷ head.a ∷ head.b ∷ head.c ∷ head.d ∷ []) next }
    {
        rows::write_row(self.rows, self.state.rows, tag, head);
        self.state.at = next;
        self.state.rows += 1;
    }

    // Tests the key in row `own` of a set or map whose rows begin at `first`.
    fn test_key(&self, first: usize, own: usize, gap: u64) -> Result<(), Reason>
        requires first_le_own { first ≤ own }
        requires own_lt_rows { own < self.now.state.rows }
        requires gap_bound { gap ≤ 1 }
        ensures { number_told result ≡ key_refusal self.now.source.payload.now self.now.rows.now gap first own }
    {
        key_test::test_key(self.source.payload, self.rows, first, own, gap)
    }

    // A value, with `left` levels left.
    #[cycle(values)]
    fn read_value(&mut self, left: usize) -> Result<(), Refusal>
        ensures { Does one_tree self.old self.new result (λ e. read_value e left) }
    {
        let at = self.state.at;
        if self.source.payload.len() <= at {
            return Err(Reason::EndInItem.at(at));
        }
        let tag = self.source.payload[at] as u64;
        if tags::LAST < tag {
            return Err(Reason::UnknownTag.at(at));
        }
        if left == 0 {
            return Err(Reason::TooDeep.at(at));
        }
        if self.source.capacities.rows <= self.state.rows {
            return Err(Reason::RowsFull.at(at + 1));
        }
        let deep = left - 1;
        let class = read_heads::class_of(tag);
        if let Class::Closure = class {
            self.state.at = at + 1;
            return self.read_closure(deep);
        }
        let mut items = self.source.items_at(at + 1);
        let head = read_heads::read_head(class, &mut items, self.source.names)?;
        self.store_row(items.cursor.at, tag, head);
        if head.count == 0 {
            return Ok(());
        }
        self.read_under(deep, class, head.count)
    }

    // What stands under a row that has been stored, of a value that is no closure. Inlined, as `read_named` of read_heads is.
    #[inline(always)]
    #[cycle(values)]
    fn read_under(&mut self, left: usize, class: Class, count: u64) -> Result<(), Refusal>
        requires { class ≡ Class.Function → count ≡ 1 }
        ensures { Does many_trees self.old self.new result (λ e. read_following e (read_value e left) (shape_of class) count) }
    {
        match class {
            Class::Function => self.read_chunk(left),
            Class::Keys => self.read_entries(left, 0, count),
            Class::Pairs => self.read_entries(left, 1, count),
            Class::Record => self.read_fields(left, count),
            _ => self.read_values(left, count),
        }
    }

    // `count` values.
    #[cycle(values)]
    fn read_values(&mut self, left: usize, count: u64) -> Result<(), Refusal>
        ensures { Does many_trees self.old self.new result (λ e. read_many count (read_value e left)) }
    {
        for _k in 0..count {
            self.read_value(left)?;
        }
        Ok(())
    }

    // `count` fields of a record. A loop of its own: one over both would have to be told which reader to call.
    #[cycle(values)]
    fn read_fields(&mut self, left: usize, count: u64) -> Result<(), Refusal>
        ensures { Does many_trees self.old self.new result (λ e. read_many count (read_field_row e (read_value e left))) }
    {
        for _k in 0..count {
            self.read_field(left)?;
        }
        Ok(())
    }

    // A field row, and its value.
    #[cycle(values)]
    fn read_field(&mut self, left: usize) -> Result<(), Refusal>
        ensures { Does one_tree self.old self.new result (λ e. read_field_row e (read_value e left)) }
    {
        if self.source.capacities.rows <= self.state.rows {
            return Err(Reason::RowsFull.at(self.state.at));
        }
        let mut items = self.source.items_at(self.state.at);
        let head = read_heads::read_field_head(&mut items)?;
        self.store_row(items.cursor.at, tags::FIELD, head);
        self.read_values(left, head.count)
    }

    // A closure after its tag: its template, then its row, which stands before the template's, then the captured values.
    #[cycle(values)]
    fn read_closure(&mut self, left: usize) -> Result<(), Refusal>
        requires { self.old.state.rows < self.old.source.capacities.rows }
        ensures { Does one_tree self.old self.new result (λ e. closure_row e (read_value e left)) }
    {
        let at = self.state.at;
        let own = self.state.rows;
        self.state.rows = own + 1;
        self.read_value(left)?;
        if self.rows[Program::ROW_WIDTH * (own + 1)] != tags::FUNCTION {
            return Err(Reason::TemplateNotFunction.at(at));
        }
        let mut cursor = Cursor::new(self.source.payload, self.state.at);
        let head = read_heads::read_closure_head(&mut cursor)?;
        rows::write_row(self.rows, own, tags::CLOSURE, head);
        self.state.at = cursor.at;
        self.read_values(left, head.count)
    }

    // A chunk row: its code and spans, and its constants.
    #[cycle(values)]
    pub(crate) fn read_chunk(&mut self, left: usize) -> Result<(), Refusal>
        ensures { Does one_tree self.old self.new result (λ e. read_chunk_row e (read_value e left)) }
    {
        if self.source.capacities.rows <= self.state.rows {
            return Err(Reason::RowsFull.at(self.state.at));
        }
        let mut cursor = Cursor::new(self.source.payload, self.state.at);
        let code = read_code::read_code(
            &mut cursor,
            self.spans,
            self.state.spans,
            self.source.capacities.spans,
        )?;
        let count = cursor.uvarint()?;
        let head = Head {
            a: code.offset as u64,
            b: code.length as u64,
            c: count,
            d: 0,
            count,
        };
        self.store_row(cursor.at, tags::CHUNK, head);
        self.state.spans += code.length;
        self.read_values(left, count)
    }

    // `count` entries: elements of a set (`gap` 0) or pairs of a map (`gap` 1), each key tested after the `gap` values that follow it.
    // A number and no enum of the two, since the key test counts rows by it.
    #[cycle(values)]
    fn read_entries(&mut self, left: usize, gap: u64, count: u64) -> Result<(), Refusal>
        requires { gap ≤ 1 }
        ensures { Does many_trees self.old self.new result (λ e. read_entries gap count [] (read_value e left)) }
    {
        let first = self.state.rows;
        for _k in 0..count {
            let at = self.state.at;
            let own = self.state.rows;
            self.read_value(left)?;
            self.read_values(left, gap)?;
            if let Err(reason) = self.test_key(first, own, gap) {
                return Err(reason.at(at));
            }
        }
        Ok(())
    }
}
