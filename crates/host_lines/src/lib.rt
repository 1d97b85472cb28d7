// The calls on lines for a Rust host. Each gives the refusal's number or 0, and puts its fields into the answer's first words.
#![tactic(auto)]

ghost use Rattle.std.specs.Prelude.{◌≡◌, length};
ghost use Rattle.slices.specs.Zeros.{pad_to};
ghost use Rattle.answer.specs.PutIfRoom.{put_if_room};
ghost use Rattle.refusal.specs.Answer.{number_of};
ghost use Rattle.line_index.specs.LineIndex.{line_index, kept, line_index_fields};
ghost use Rattle.line_index.specs.LineCol.{line_col, line_col_fields};

use line_index::LineIndex;

// The starts of the lines of a text.
#[unsafe(no_mangle)]
pub extern "C" fn rlc2_line_starts(text: &[u8], starts: &mut [u32], answer: &mut [u64]) -> u64
    ensures value { result ≡ number_of (line_index text.now (length starts.old)) }
    ensures starts_after { starts.new ≡ pad_to (length starts.old) (kept (line_index text.now (length starts.old)) text.now) }
    ensures answer_after { answer.new ≡ put_if_room answer.old 0 (line_index_fields (line_index text.now (length starts.old))) }
{
    match LineIndex::new(text, starts) {
        Ok(index) => {
            answer::put_fields(answer, &[0, index.count as u64]);
            0
        }
        Err(refusal) => {
            let number = u64::from(refusal.reason);
            answer::put_fields(answer, &[number, refusal.place as u64]);
            number
        }
    }
}

// The line and column of an offset.
#[unsafe(no_mangle)]
pub extern "C" fn rlc2_line_col(starts: &[u32], offset: u64, answer: &mut [u64]) -> u64
    ensures value { result ≡ number_of (line_col starts.now offset) }
    ensures answer_after { answer.new ≡ put_if_room answer.old 0 (line_col_fields (line_col starts.now offset)) }
{
    match line_index::line_col(starts, offset) {
        Ok(at) => {
            answer::put_fields(answer, &[0, 0, at.line as u64, at.column]);
            0
        }
        Err(refusal) => {
            let number = u64::from(refusal.reason);
            answer::put_fields(answer, &[number, refusal.place as u64, 0, 0]);
            number
        }
    }
}
