// Varints read and written, byte strings tested for UTF-8, line starts of texts, line and column of offsets.
use crate::{STARTS, output_agrees, u16_at};
use line_index::{LineCol, LineIndex};
use recorded::{number_at, numbers_in, part};
use refusal::Refusal;

// The number that a word is, as a word again where it is signed.
fn value(n: u64, signed: bool) -> u64 {
    if signed {
        signed::to_word(signed::unzigzag(n))
    } else {
        n
    }
}

// Whether an answer is what is recorded: the refusal or 0, then number and bytes used, which are 0 at a refusal.
fn varint_agrees(
    answer: Result<(u64, usize), Refusal>,
    signed: bool,
    status: u64,
    number: u64,
    used: u64,
) -> bool {
    match answer {
        Ok((n, next)) => status == 0 && number == value(n, signed) && used == next as u64,
        Err(refusal) => status == u64::from(refusal.reason) && number == 0 && used == 0,
    }
}

// Length u8, bytes, status u8, value u64, used u8.
pub(crate) fn varint_read(records: &[u8], signed: bool) -> Option<usize> {
    let size = number_at(records, 0, 1) as usize;
    let answer = varint::uvarint(part(records, 1, size), 0);
    let status = number_at(records, size + 1, 1);
    let number = number_at(records, size + 2, 8);
    let used = number_at(records, size + 10, 1);
    let agrees = varint_agrees(answer, signed, status, number, used);
    agrees.then_some(size + 11)
}

// Number u64, length u8, bytes.
pub(crate) fn varint_written(records: &[u8]) -> Option<usize> {
    let n = number_at(records, 0, 8);
    let size = number_at(records, 8, 1) as usize;
    let mut out = [0u8; 10];
    if varint::uvarint_width(n) != size {
        return None;
    }
    if out.len() < size {
        return None;
    }
    varint::write_uvarint(&mut out, 0, n);
    let agrees = output_agrees(&out, part(records, 9, size), 0);
    agrees.then_some(size + 9)
}

// Length u16, bytes, 1 for UTF-8 or else 0 u8.
pub(crate) fn utf8_tested(records: &[u8]) -> Option<usize> {
    let size = u16_at(records, 0);
    let found = u64::from(utf8::is_utf8(part(records, 2, size)));
    let agrees = found == number_at(records, size + 2, 1);
    agrees.then_some(size + 3)
}

// Whether the starts of a text are those recorded, followed by zeros.
fn starts_agree(text: &[u8], recorded: &[u8], count: usize) -> bool {
    let mut found = [1u32; STARTS];
    match LineIndex::new(text, &mut found) {
        Ok(index) => index.count == count && numbers_in(recorded, &mut found),
        Err(_) => false,
    }
}

// Length u16, text, count u16, starts u32 each.
pub(crate) fn line_starts(records: &[u8]) -> Option<usize> {
    let size = u16_at(records, 0);
    let count = u16_at(records, size + 2);
    let recorded = part(records, size + 4, 4 * count);
    let agrees = starts_agree(part(records, 2, size), recorded, count);
    agrees.then_some(size + 4 + 4 * count)
}

// Whether the answer to a query is the line and column that are recorded.
fn line_col_agrees(answer: Result<LineCol, Refusal>, query: &[u8]) -> bool {
    match answer {
        Ok(at) => {
            at.line as u64 == number_at(query, 8, 4) && at.column == number_at(query, 12, 8)
        }
        Err(_) => false,
    }
}

// The line and column of the offset that is asked, by the recorded starts, as many as the table has.
fn line_col_of(starts: &[u8], table: &mut [u32], query: &[u8]) -> Result<LineCol, Refusal> {
    numbers_in(starts, table);
    line_index::line_col(table, number_at(query, 0, 8))
}

// Count u16, starts u32 each, offset u64, line u32, column u64.
pub(crate) fn line_col(records: &[u8]) -> Option<usize> {
    let count = u16_at(records, 0);
    if STARTS < count {
        return None;
    }
    let from = 2 + 4 * count;
    let query = part(records, from, 20);
    let mut table = [0u32; STARTS];
    let answer = line_col_of(part(records, 2, 4 * count), &mut table[..count], query);
    let agrees = line_col_agrees(answer, query);
    agrees.then_some(from + 20)
}
