// The return reader.
ghost use Rattle.std.specs.Prelude.{◌≡◌, ◌≤◌};
ghost use Rattle.tables.specs.Refusals.{first, numbered, carried};
ghost use Rattle.return_reader.specs.Returns.{return_rows, return_refusal, return_read};

use frames::{Tail, field_at, is_tail_high, judge_end, judge_head, judge_told};
use parts::Command;
use tables::Refusal;

// The count of a return.
#[tactic(auto, using(frames::proofs::Judged::field_within, frames::proofs::Judged::field_at_small), unfolding(crate::specs::Returns::return_refusal, crate::specs::Returns::return_read))]
pub fn read_return(
    part: u16,
    devices: usize,
    command: Command,
    tail: Tail,
    frame: &[u8],
) -> Result<u16, Refusal>
    ensures { numbered result ≡ return_read part devices command tail frame.now }
{
    judge_return(part, devices, command, tail, frame)?;
    Ok(field_at(frame, 14, 10) as u16)
}

// The first refusal that applies.
#[tactic(auto, unfolding(crate::specs::Returns::return_refusal))]
fn judge_return(
    part: u16,
    devices: usize,
    command: Command,
    tail: Tail,
    frame: &[u8],
) -> Result<(), Refusal>
    ensures { carried result ≡ return_refusal part devices command tail frame.now }
{
    judge_told(part, devices, tail)?;
    judge_back(devices, command, tail, frame)
}

// Refusals 4 to 12 of a return.
#[tactic(auto, using(frames::proofs::Judged::field_within), unfolding(frames::specs::Frames::head_table, frames::specs::Frames::end_table))]
fn judge_back(devices: usize, command: Command, tail: Tail, frame: &[u8]) -> Result<(), Refusal>
    requires { tail.length ≤ 64 }
    ensures { carried result ≡ first (return_rows devices command tail frame.now) }
{
    if frame.len() != (24 + tail.length as usize).div_ceil(8) {
        return Err(Refusal::WrongLength);
    }
    if is_tail_high(tail) {
        return Err(Refusal::HighValue);
    }
    judge_head(frame, command)?;
    if (devices as u64) < field_at(frame, 14, 10) {
        return Err(Refusal::WrongCount);
    }
    judge_end(frame, 24, tail)
}
