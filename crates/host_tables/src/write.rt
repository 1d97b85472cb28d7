// The write for a Rust host: the program record comes as six words.
ghost use Rattle.std.specs.Prelude.{◌≡◌, length};
ghost use Rattle.slices.specs.Zeros.{pad_to};
ghost use Rattle.payload.specs.Write.{write_answer, writing_fields, written_over, written_pool};
ghost use Rattle.answer.specs.PutIfRoom.{put_if_room};
ghost use Rattle.payload.specs.Answers.{written_number};
ghost use Rattle.host_tables.specs.Write.{host_writing};

use payload::Program;

// The writing of the program that the tables hold.
#[unsafe(no_mangle)]
pub extern "C" fn rlc2_serialize(
    store: &[u8],
    counts: &[u64],
    rows: &[u64],
    spans: &[u64],
    starts: &[u32],
    pool: &mut [u64],
    out: &mut [u8],
    answer: &mut [u64],
) -> u64
    ensures value { result ≡ written_number (write_answer (host_writing store.now counts.now rows.now spans.now starts.now (length pool.old) (length out.old))) }
    ensures pool_after { pool.new ≡ pad_to (length pool.old)
        (written_pool (host_writing store.now counts.now rows.now spans.now starts.now (length pool.old) (length out.old))) }
    ensures out_after { out.new
        ≡ written_over (host_writing store.now counts.now rows.now spans.now starts.now (length pool.old) (length out.old)) out.old }
    ensures answer_after { answer.new ≡ put_if_room answer.old 0
        (writing_fields (host_writing store.now counts.now rows.now spans.now starts.now (length pool.old) (length out.old))) }
{
    let program = Program::of_words(counts);
    match serialize::serialize_payload(store, program, rows, spans, starts, pool, out) {
        Ok(length) => {
            answer::put_fields(answer, &[0, length as u64]);
            0
        }
        Err(refusal) => {
            let number = u64::from(refusal.reason);
            answer::put_fields(answer, &[number, refusal.place as u64]);
            number
        }
    }
}
