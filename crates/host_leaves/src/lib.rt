// The calls of the varint layer, exported to compare and measure them.
#![tactic(auto)]

ghost use Rattle.std.specs.Prelude.{◌≡◌, ltb, length};
ghost use Rattle.slices.specs.Put.{put};
ghost use Rattle.answer.specs.PutIfRoom.{put_if_room};
ghost use Rattle.varint.specs.Uleb128.{uleb128};
ghost use Rattle.varint.specs.Varint.{varint_of, number_of};
ghost use Rattle.signed.specs.Signed.{zigzag_of, unzigzag_of};
ghost use Rattle.host_leaves.specs.HostLeaves.{fields, place_after, numbers_of, bytes_of};

// Reads the varint at `at`: gives the refusal's number or 0, and puts value, place after it and refused place into the answer's first words.
#[unsafe(no_mangle)]
pub extern "C" fn rlc2_uvarint_at(bytes: &[u8], at: usize, answer: &mut [u64]) -> u64
    ensures value { result ≡ number_of (varint_of bytes.now at) }
    ensures answer_after { answer.new ≡ put_if_room answer.old 0 (fields (varint_of bytes.now at)) }
{
    match varint::uvarint(bytes, at) {
        Ok((n, next)) => {
            answer::put_fields(answer, &[n, next as u64, 0]);
            0
        }
        Err(refusal) => {
            answer::put_fields(answer, &[0, 0, refusal.place as u64]);
            u64::from(refusal.reason)
        }
    }
}

// Whether n has more bytes than there is room for. Ten are enough for every number, so its width is worked out only near the end.
fn too_wide(n: u64, room: usize) -> bool
    ensures { result ≡ ltb room (length (uleb128 n)) }
{
    if 10 <= room {
        return false;
    }
    room < varint::uvarint_width(n)
}

// Writes n at `at` and gives the place after it; gives 0 and writes nothing where there is no room.
#[unsafe(no_mangle)]
pub extern "C" fn rlc2_write_uvarint(out: &mut [u8], at: usize, n: u64) -> usize
    ensures value { result ≡ place_after (length out.old) at n }
    ensures out_after { out.new ≡ put_if_room out.old at (uleb128 n) }
{
    if out.len() < at {
        return 0;
    }
    if too_wide(n, out.len() - at) {
        return 0;
    }
    varint::write_uvarint(out, at, n)
}

#[unsafe(no_mangle)]
pub extern "C" fn rlc2_uvarint_width(n: u64) -> usize
    ensures { result ≡ length (uleb128 n) }
{
    varint::uvarint_width(n)
}

#[unsafe(no_mangle)]
pub extern "C" fn rlc2_zigzag(v: i64) -> u64
    ensures { result ≡ zigzag_of v }
{
    signed::zigzag(v)
}

#[unsafe(no_mangle)]
pub extern "C" fn rlc2_unzigzag(u: u64) -> i64
    ensures { result ≡ unzigzag_of u }
{
    signed::unzigzag(u)
}

// Reads varints one after the other into `numbers`, until the bytes end, a read is refused, or `numbers` is full. Gives how many.
#[unsafe(no_mangle)]
pub extern "C" fn rlc2_read_all(bytes: &[u8], numbers: &mut [u64]) -> usize
    ensures value { result ≡ length (numbers_of (length numbers.old) bytes.now 0) }
    ensures numbers_after { numbers.new ≡ put numbers.old 0 (numbers_of (length numbers.old) bytes.now 0) }
{
    let mut at = 0;
    for (count, number) in numbers.iter_mut().enumerate() {
        let Ok((n, next)) = varint::uvarint(bytes, at) else {
            return count;
        };
        *number = n;
        at = next;
    }
    numbers.len()
}

// Writes numbers one after the other, up to the first that does not fit. Gives how many bytes.
#[unsafe(no_mangle)]
pub extern "C" fn rlc2_write_all(numbers: &[u64], out: &mut [u8]) -> usize
    ensures value { result ≡ length (bytes_of (length out.old) numbers.now) }
    ensures out_after { out.new ≡ put out.old 0 (bytes_of (length out.old) numbers.now) }
{
    let mut at = 0;
    for n in numbers {
        if too_wide(*n, out.len() - at) {
            return at;
        }
        at = varint::write_uvarint(out, at, *n);
    }
    at
}
