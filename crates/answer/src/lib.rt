// The fields of an answer, put into the words that a host lends for them.
#![tactic(auto)]

ghost use Rattle.std.specs.Prelude.{◌≡◌};
ghost use Rattle.answer.specs.PutIfRoom.{put_if_room};

// Writes the fields to the front of the answer. One that is too short for all of them is left as it was.
pub fn put_fields(answer: &mut [u64], fields: &[u64])
    ensures { answer.new ≡ put_if_room answer.old 0 fields.now }
{
    if answer.len() < fields.len() {
        return;
    }
    // One by one: a copy of them all loads more bytes at once than were stored at once, and waits for them.
    for (i, field) in fields.iter().enumerate() {
        answer[i] = *field;
    }
}
