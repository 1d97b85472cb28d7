// A row of the row table.
ghost use Rattle.std.specs.Prelude.{◌≡◌, ◌∷◌, [], ◌+◌, ◌*◌, ◌≤◌, length};
ghost use Rattle.slices.specs.Put.{put};
ghost use Rattle.payload.specs.Rows.{row_width};
ghost use Rattle.payload.specs.Tables.{limits};

use payload::Program;
use read_heads::Head;

// Row number `used` becomes these words.
pub fn write_row(rows: &mut [u64], used: usize, tag: u64, head: Head)
    requires { (row_width * used + row_width ≤ length rows.old) × (used ≤ limits.rows) }
    ensures { rows.new ≡ put rows.old (row_width * used) (tag ∷ head.a ∷ head.b ∷ head.c ∷ head.d ∷ []) }
{
    let i = Program::ROW_WIDTH * used;
    rows[i..i + Program::ROW_WIDTH].copy_from_slice(&[tag, head.a, head.b, head.c, head.d]);
}
