// A row of a row table.
ghost use Rattle.std.specs.Prelude.{◌≡◌, ◌+◌, ◌*◌, ◌/◌, ◌≤◌, length, IfSome, IfNone};
ghost use Rattle.payload.specs.Rows.{row_width};
ghost use Rattle.row_layout.specs.Row.{row_word};

use payload::Program;

// The table, and the row's number in it.
#[derive(Clone, Copy)]
pub struct Row<'a> {
    pub table: &'a [u64],
    pub number: usize,
    pub ghost inside: { row_width * number + row_width ≤ length table.now },
}

impl<'a> Row<'a> {
    // The row of this number, where the table has one.
    pub fn of(table: &'a [u64], number: usize) -> Option<Row<'a>>
        ensures some { IfSome result (λ row. (row.table ≡ table.entry) × (row.number ≡ number)) }
        ensures none { IfNone result (length table.now / row_width ≤ number) }
    {
        if number < table.len() / Program::ROW_WIDTH {
            return Some(Row { table, number });
        }
        None
    }

    // Word k of the row; 0 past its last.
    pub fn word(self, k: u64) -> u64
        ensures { result ≡ row_word self.entry.table.now self.entry.number k }
    {
        let word = k as usize;
        if word < Program::ROW_WIDTH {
            return self.table[Program::ROW_WIDTH * self.number + word];
        }
        0
    }

    // Its tag.
    pub fn tag(self) -> u64
        ensures { result ≡ row_word self.entry.table.now self.entry.number 0 }
    {
        self.table[Program::ROW_WIDTH * self.number]
    }
}
