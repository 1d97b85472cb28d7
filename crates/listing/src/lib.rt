// The text of a listing, put into a lent buffer: numbers in decimal, right-justified in columns.
#![tactic(auto)]

ghost use Rattle.std.specs.Prelude.{◌≡◌, [], ◌∷◌, ◌+◌, ◌-◌, ◌*◌, ◌≤◌, length, replicate};
ghost use Rattle.slices.specs.Put.{put};
ghost use Rattle.refusal.specs.Answer.{answer_of};
ghost use Rattle.payload.specs.Rows.{row_width};
ghost use Rattle.listing.specs.Listing.{column, row_line, row_lines, answer_line, listed_rows, listing};
ghost use Rattle.listing.specs.Puts.{Adds};

use payload::{Counts, Program};
use refusal::Refusal;

// A text that grows in a lent buffer, and where it ends.
#[derive(Drop)]
struct Text<'a> {
    out: &'a mut [u8],
    end: usize,
}

impl<'a> Text<'a> {
    fn put_bytes(&mut self, bytes: &[u8])
        requires { self.old.end + length bytes.now ≤ length self.old.out.now }
        ensures { Adds self.old bytes.now self.new }
    {
        let out = &mut *self.out;
        slices::copy_part(out, self.end, bytes);
        self.end += bytes.len();
    }

    fn put_spaces(&mut self, count: usize)
        requires { self.old.end + count ≤ length self.old.out.now }
        ensures { Adds self.old (replicate count 32) self.new }
    {
        let out = &mut *self.out;
        out[self.end..self.end + count].fill(b' ');
        self.end += count;
    }

    // A column of at most 21 bytes: a u64 has at most 20 digits.
    fn put_column(&mut self, width: usize, n: u64)
        requires { (width ≤ 21) × (self.old.end + 21 ≤ length self.old.out.now) }
        ensures adds { Adds self.old (column width n) self.new }
        ensures upper_bound { self.new.end ≤ self.old.end + 21 }
    {
        let mut digits = [0u8; 20];
        let k = io::decimal(n, &mut digits);
        self.put_spaces(width.saturating_sub(k));
        self.put_bytes(&digits[..k]);
    }

    // The line of row i: six columns.
    fn put_row(&mut self, rows: &[u64], i: usize)
        requires { (row_width * i + row_width ≤ length rows.now) × (self.old.end + 127 ≤ length self.old.out.now) }
        ensures adds { Adds self.old (row_line i rows.now) self.new }
        ensures upper_bound { self.new.end ≤ self.old.end + 127 }
    {
        let from = Program::ROW_WIDTH * i;
        self.put_column(5, i as u64);
        self.put_column(4, rows[from]);
        self.put_column(21, rows[from + 1]);
        self.put_column(21, rows[from + 2]);
        self.put_column(21, rows[from + 3]);
        self.put_column(21, rows[from + 4]);
        self.put_bytes(b"\n");
    }

    // The lines of the first rows.
    fn put_rows(&mut self, rows: &[u64], used: usize)
        requires { (row_width * used ≤ length rows.now) × (self.old.end + 127 * used ≤ length self.old.out.now) }
        ensures adds { Adds self.old (row_lines used rows.now) self.new }
        ensures upper_bound { self.new.end ≤ self.old.end + 127 * used }
    {
        for i in 0..used {
            self.put_row(rows, i);
        }
    }

    // The last line: two columns.
    fn put_answer(&mut self, number: u64, place: usize)
        requires { self.old.end + 43 ≤ length self.old.out.now }
        ensures adds { Adds self.old (answer_line number place) self.new }
        ensures upper_bound { self.new.end ≤ self.old.end + 43 }
    {
        self.put_column(5, number);
        self.put_column(21, place as u64);
        self.put_bytes(b"\n");
    }

    // The lines of the used rows, and the last line.
    #[tactic(auto, unfolding(crate::specs::Listing::listed_rows))]
    fn put_all(&mut self, answer: Result<Counts, Refusal>, rows: &[u64])
        requires { (row_width * listed_rows (answer_of answer) ≤ length rows.now) × (self.old.end + 127 * listed_rows (answer_of answer) + 43 ≤ length self.old.out.now) }
        ensures adds { Adds self.old (listing (answer_of answer) rows.now) self.new }
        ensures upper_bound { self.new.end ≤ self.old.end + 127 * listed_rows (answer_of answer) + 43 }
    {
        match answer {
            Ok(counts) => {
                self.put_rows(rows, counts.rows);
                self.put_answer(0, counts.consumed);
            }
            Err(refusal) => self.put_answer(u64::from(refusal.reason), refusal.place),
        }
    }
}

// The whole text from the buffer's first byte on, and its length. There is room for the longest lines: 127 bytes for each row, 43 for the last line.
pub fn put_listing(answer: Result<Counts, Refusal>, rows: &[u64], out: &mut [u8]) -> usize
    requires { (row_width * listed_rows (answer_of answer) ≤ length rows.now) × (127 * listed_rows (answer_of answer) + 43 ≤ length out.old) }
    ensures value { result ≡ length (listing (answer_of answer) rows.now) }
    ensures out_after { out.new ≡ put out.old 0 (listing (answer_of answer) rows.now) }
    ensures upper_bound { result ≤ length out.new }
{
    let mut text = Text { out, end: 0 };
    text.put_all(answer, rows);
    text.end
}

// The text of a read that was refused with any number, also one that no reason has: the last line alone.
pub fn put_refusal(number: u64, place: usize, out: &mut [u8]) -> usize
    requires { 43 ≤ length out.old }
    ensures value { result ≡ length (answer_line number place) }
    ensures out_after { out.new ≡ put out.old 0 (answer_line number place) }
    ensures upper_bound { result ≤ length out.new }
{
    let mut text = Text { out, end: 0 };
    text.put_answer(number, place);
    text.end
}
