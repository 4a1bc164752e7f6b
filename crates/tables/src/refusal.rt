// What a call is refused for.
ghost use Rattle.std.specs.Prelude.{◌≡◌};
ghost use Rattle.tables.specs.Refusals.{number_of, carried};

use std::error::Error;
use std::fmt;

// In the order of the table of refusals. A call gives the first that applies.
#[derive(Clone, Copy, Debug, PartialEq, Eq)]
pub enum Refusal {
    UnknownPart,
    WrongDeviceCount,
    LongTail,
    WrongLength,
    NoRoom,
    HighValue,
    WrongSync,
    WrongCommand,
    WrongCount,
    UnequalCopies,
    UnusedBitSet,
    WrongTail,
    OutOfRange,
}

// Its number in the table.
impl From<Refusal> for u8 {
    ghost from_gives = { λ refusal number. number ≡ number_of refusal };

    fn from(refusal: Refusal) -> u8 {
        match refusal {
            Refusal::UnknownPart => 1,
            Refusal::WrongDeviceCount => 2,
            Refusal::LongTail => 3,
            Refusal::WrongLength => 4,
            Refusal::NoRoom => 5,
            Refusal::HighValue => 6,
            Refusal::WrongSync => 7,
            Refusal::WrongCommand => 8,
            Refusal::WrongCount => 9,
            Refusal::UnequalCopies => 10,
            Refusal::UnusedBitSet => 11,
            Refusal::WrongTail => 12,
            Refusal::OutOfRange => 13,
        }
    }
}

impl fmt::Display for Refusal {
    fn fmt<W: fmt::Write>(&self, f: &mut fmt::Formatter<W>) -> fmt::Result {
        write!(f, "refused {}", u8::from(*self))
    }
}

impl Error for Refusal {}

// The number that an answer carries: 0 where it is no refusal.
pub fn carried_number<T: Copy>(answer: Result<T, Refusal>) -> u8
    ensures { result ≡ carried answer }
{
    match answer {
        Ok(_) => 0,
        Err(refusal) => u8::from(refusal),
    }
}
