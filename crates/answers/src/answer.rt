// What an exported operation gives.
ghost use Rattle.std.specs.Prelude.{◌≡◌};
ghost use Rattle.tables.specs.Refusals.{numbered};
ghost use Rattle.answers.specs.Answers.{accepted, refused, of_answer};

use tables::Refusal;

// A number, or a refusal. The number is 0 where refused, and the refusal 0 where accepted. A struct of numbers, for C.
#[repr(C)]
#[derive(Clone, Copy)]
pub struct Answer {
    pub value: u64,
    pub refusal: u8,
}

pub fn accept(value: usize) -> Answer
    ensures { result ≡ accepted value }
{
    Answer {
        value: value as u64,
        refusal: 0,
    }
}

pub fn refuse(refusal: u8) -> Answer
    ensures { result ≡ refused refusal }
{
    Answer { value: 0, refusal }
}

impl From<Result<usize, Refusal>> for Answer {
    ghost from_gives = { λ given answer. answer ≡ of_answer (numbered given) };

    fn from(given: Result<usize, Refusal>) -> Answer {
        match given {
            Ok(value) => accept(value),
            Err(refusal) => refuse(refusal.into()),
        }
    }
}
