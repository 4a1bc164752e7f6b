// A call that is taken or refused.
ghost use Rattle.std.specs.Prelude.{◌≡◌};
ghost use Rattle.tables.specs.Refusals.{carried};

use std::fmt;
use tables::Refusal;

// The refusal's number in docs/RULES.md; 0 where the call is taken. A number and no name: the numbers to hold against are said by number there.
#[derive(Clone, Copy, PartialEq)]
pub struct Outcome(pub u8);

impl<T: Copy> From<Result<T, Refusal>> for Outcome {
    ghost from_gives = { λ answer outcome. outcome.0 ≡ carried answer };

    fn from(answer: Result<T, Refusal>) -> Outcome {
        Outcome(tables::carried_number(answer))
    }
}

impl fmt::Display for Outcome {
    fn fmt<W: fmt::Write>(&self, f: &mut fmt::Formatter<W>) -> fmt::Result {
        match self.0 {
            0 => write!(f, " taken"),
            number => write!(f, " refused {number}"),
        }
    }
}
