// What stands after the pool, the outer chunk and the line index, and the tables that it is read into.
ghost use Rattle.deserialize.specs.Room.{HasRoom};

use cursor::Cursor;
use payload::{Capacities, Counts, Program};
use read_items::items::Items;
use read_values::Source;
use refusal::Refusal;

// The tables, and how many entries of each may be used.
#[derive(Drop)]
pub struct ScriptTables<'t> {
    pub rows: &'t mut [u64],
    pub spans: &'t mut [u64],
    pub starts: &'t mut [u32],
    pub capacities: Capacities,
    pub ghost room: { HasRoom capacities rows.now spans.now starts.now },
}

impl ScriptTables<'_> {
    ghost use Rattle.deserialize.specs.Tables.{Clears, ReadsScript};

    // Zeros in each.
    pub(crate) fn clear(&mut self)
        ensures { Clears self.old self.new }
    {
        self.rows.fill(0);
        self.spans.fill(0);
        self.starts.fill(0);
    }

    // Reads the outer chunk and the line index. A refusal leaves zeros alone: the reader that refuses clears its own tables, and the others are cleared here, each once.
    pub(crate) fn read(&mut self, mut items: Items<'_>, names: &[u8]) -> Result<Counts, Refusal>
        ensures { ReadsScript self.old self.new items.entry.cursor items.entry.pool.now names.now result }
    {
        let source = Source {
            payload: items.cursor.payload,
            names,
            pool: items.pool,
            capacities: self.capacities,
        };
        let outer = match read_values::read_outer(&source, self.rows, self.spans, items.cursor.at) {
            Ok(outer) => outer,
            Err(refusal) => {
                self.starts.fill(0);
                return Err(refusal);
            }
        };
        items.cursor = Cursor::new(items.cursor.payload, outer.at);
        let most = self.capacities.starts;
        let lines = match read_lines::read_line_index(&mut items, self.starts, most) {
            Ok(lines) => lines,
            Err(refusal) => {
                self.rows.fill(0);
                self.spans.fill(0);
                return Err(refusal);
            }
        };
        slices::zero_from(self.rows, Program::ROW_WIDTH * outer.rows);
        slices::zero_from(self.spans, 2 * outer.spans);
        slices::zero_from(self.starts, lines.starts);
        Ok(Counts {
            consumed: items.cursor.at,
            rows: outer.rows,
            spans: outer.spans,
            starts: lines.starts,
            strings: source.pool.len() / 2,
            name: lines.name,
        })
    }
}
