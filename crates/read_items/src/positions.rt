// Running positions, each a signed delta after the one before.
ghost use Rattle.payload.specs.Spans.{read_position};
ghost use Rattle.cursor.specs.Advances.{Advances, answer_of};

use cursor::Cursor;
use refusal::{Reason, Refusal};

// The position that the delta that stands here leads to from an old one.
pub fn read_position(cursor: &mut Cursor<'_>, old: i64) -> Result<i64, Refusal>
    ensures { Advances cursor.old cursor.new (read_position old) (answer_of result cursor.new.at) }
{
    let at = cursor.at;
    let delta = signed::unzigzag(cursor.uvarint()?);
    signed::add_delta(old, delta).ok_or(Reason::PositionOutOfRange.at(at))
}
