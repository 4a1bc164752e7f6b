// Where a run begins, and its answer.
ghost use Rattle.std.specs.Prelude.{◌≡◌};
ghost use Rattle.tables.specs.Refusals.{numbered};
ghost use Rattle.cursor.specs.Answer.{answered, ran};
ghost use Rattle.cursor.specs.Entry.{entered};

use crate::cursor::{Cursor, turn_by_state};
use judgement::Judged;
use tables::Refusal;

// How many states were returned, and the refusal's number: one of them is 0. A struct of numbers, for C.
#[repr(C)]
#[derive(Clone, Copy)]
pub struct Ran {
    pub returned: usize,
    pub refusal: u8,
}

// Where a run of a chain of n records begins, with room for some states.
pub fn enter(judged: Judged, n: usize, states: &[u8], room: usize) -> Result<Cursor, Refusal>
    ensures { numbered result ≡ entered judged n states.now room }
{
    refusals::judge_run(judged, n, states, room)?;
    Ok(Cursor {
        end: intake::highs_end(states, 0),
        ..turn_by_state(n, 0, 0, 0, states)
    })
}

// The answer of a run under a refusal's number, or 0, that returned n states.
pub fn answer(refusal: u8, n: usize) -> Ran
    ensures { result ≡ ran refusal n }
{
    if refusal != 0 {
        return Ran {
            returned: 0,
            refusal,
        };
    }
    Ran {
        returned: n,
        refusal,
    }
}

// The answer of a run that returned some states, or was refused.
impl From<Result<usize, Refusal>> for Ran {
    ghost from_gives = { λ returned ran. ran ≡ answered (numbered returned) };

    fn from(returned: Result<usize, Refusal>) -> Ran {
        match returned {
            Ok(returned) => answer(0, returned),
            Err(refusal) => answer(refusal.into(), 0),
        }
    }
}
