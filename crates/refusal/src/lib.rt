// Refusals: why an input or a program is refused, and at which place.
#![tactic(auto)]

ghost use Rattle.std.specs.Prelude.{◌≡◌};
ghost use Rattle.refusal.specs.Number.{number};

use std::error::Error;
use std::fmt;

// Each reason has document 01's number: the first is 1, and so on.
#[derive(Clone, Copy, Debug, PartialEq, Eq)]
pub enum Reason {
    EndInItem,
    LongVarint,
    NotUtf8,
    IndexAbovePool,
    UnknownTag,
    NotScalar,
    WrongRunCounts,
    PositionOutOfRange,
    ForbiddenKey,
    RepeatedKey,
    TemplateNotFunction,
    UnknownHandle,
    WrongLineFlag,
    UnlistedNative,
    TooDeep,
    TooLarge,
    Unsound,
    UnnamedRecord,
    NotHouseWritten,
    StartsNotRising,
    PoolFull,
    RowsFull,
    SpansFull,
    StartsFull,
    OutputTooShort,
}

impl From<Reason> for u64 {
    ghost from_gives = { λ reason n. n ≡ number reason };

    fn from(reason: Reason) -> u64 {
        match reason {
            Reason::EndInItem => 1,
            Reason::LongVarint => 2,
            Reason::NotUtf8 => 3,
            Reason::IndexAbovePool => 4,
            Reason::UnknownTag => 5,
            Reason::NotScalar => 6,
            Reason::WrongRunCounts => 7,
            Reason::PositionOutOfRange => 8,
            Reason::ForbiddenKey => 9,
            Reason::RepeatedKey => 10,
            Reason::TemplateNotFunction => 11,
            Reason::UnknownHandle => 12,
            Reason::WrongLineFlag => 13,
            Reason::UnlistedNative => 14,
            Reason::TooDeep => 15,
            Reason::TooLarge => 16,
            Reason::Unsound => 17,
            Reason::UnnamedRecord => 18,
            Reason::NotHouseWritten => 19,
            Reason::StartsNotRising => 20,
            Reason::PoolFull => 21,
            Reason::RowsFull => 22,
            Reason::SpansFull => 23,
            Reason::StartsFull => 24,
            Reason::OutputTooShort => 25,
        }
    }
}

impl fmt::Display for Reason {
    fn fmt<W: fmt::Write>(&self, f: &mut fmt::Formatter<W>) -> fmt::Result {
        f.write_str(match *self {
            Reason::EndInItem => "the payload ends inside an item",
            Reason::LongVarint => "a number does not end within ten bytes",
            Reason::NotUtf8 => "a string of the pool is not UTF-8",
            Reason::IndexAbovePool => "an index names a string that the pool does not have",
            Reason::UnknownTag => "no value has this tag, the greatest is 26",
            Reason::NotScalar => "a character is not a Unicode scalar value",
            Reason::WrongRunCounts => {
                "the counts of the runs do not add up to the length of the code"
            }
            Reason::PositionOutOfRange => "a position leaves the range of signed 64-bit numbers",
            Reason::ForbiddenKey => "a value of this kind cannot be a set element or a map key",
            Reason::RepeatedKey => "the same key stands twice in a set or map",
            Reason::TemplateNotFunction => "a closure's template is not a function",
            Reason::UnknownHandle => "no handle has this kind, the greatest is 5",
            Reason::WrongLineFlag => "the line flag is neither 0 nor 1",
            Reason::UnlistedNative => "the name of a native function is not in the names list",
            Reason::TooDeep => "a value is nested deeper than 32 levels",
            Reason::TooLarge => "there are more than 16,777,216 bytes",
            Reason::Unsound => "the program breaks a rule here, so it has no writing",
            Reason::UnnamedRecord => {
                "a record's name is none of the strings that the pool gets, so it has no index"
            }
            Reason::NotHouseWritten => {
                "the payload reads, but it is not what the writer writes for its program"
            }
            Reason::StartsNotRising => "a line start is not above the one before it",
            Reason::PoolFull => "the string table is full",
            Reason::RowsFull => "the row table is full",
            Reason::SpansFull => "the span table is full",
            Reason::StartsFull => "the table of line starts is full",
            Reason::OutputTooShort => "the output is shorter than the writing",
        })
    }
}

// A reason, and the place in the bytes, the rows or the starts that it is about.
#[derive(Clone, Copy, Debug, PartialEq, Eq)]
pub struct Refusal {
    pub reason: Reason,
    pub place: usize,
}

impl fmt::Display for Refusal {
    fn fmt<W: fmt::Write>(&self, f: &mut fmt::Formatter<W>) -> fmt::Result {
        let number = u64::from(self.reason);
        let place = self.place;
        let reason = self.reason;
        write!(f, "refusal {number} at {place}: {reason}")
    }
}

impl Error for Refusal {}

impl Reason {
    // The refusal for this reason at a place.
    pub fn at(self, place: usize) -> Refusal
        ensures { result ≡ record { reason = self; place = place } }
    {
        Refusal {
            reason: self,
            place,
        }
    }
}
