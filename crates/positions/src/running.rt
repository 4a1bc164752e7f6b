// A device's position within a run, as the run keeps it: less the clocks of the run that were over when it was written. So a device is
// looked at only where a slice is stored in it, and at the end.
ghost use Rattle.std.specs.Prelude.{◌≡◌};
ghost use Rattle.positions.specs.Running.{run_on, has_ended, position_by, kept_from, dated};

use crate::positions::{length_in, refit_from};
use registers::Registers;

// A frame has ended by a clock of the run.
pub fn has_ended(registers: Registers, clock: usize) -> bool
    ensures { result ≡ has_ended clock registers }
{
    run_on(registers, clock) >= length_in(registers)
}

// The position by a clock of the run. Most often no frame has ended, and nothing is divided.
pub fn position_by(registers: Registers, clock: usize) -> u64
    ensures { result ≡ position_by clock registers }
{
    let on = run_on(registers, clock);
    let length = length_in(registers);
    if on < length { on } else { on % length }
}

// The registers that a slice leaves which is stored in a clock, where `new` is what the line state made of `old`. What waited in the old ones
// is shown if a frame has ended by then, and only then is anything shown written.
#[tactic(auto, unfolding(crate::specs::Running::dated))]
pub fn date(old: Registers, new: Registers, clock: usize) -> Registers
    ensures { result ≡ dated clock old new }
{
    let position = refit_from(length_in(old), new, position_by(old, clock));
    let mut next = new;
    next.position = keep_from(position, clock);
    if has_ended(old, clock) {
        next.active = old.waiting;
        let waiting0 = old.waiting0;
        let waiting1 = old.waiting1;
        next.active0 = waiting0;
        next.active1 = waiting1;
    }
    next
}

// The clocks since a frame began, as if none had ended.
fn run_on(registers: Registers, clock: usize) -> u64
    ensures { result ≡ run_on clock registers }
{
    registers.position.wrapping_add(clock as u64)
}

// A position at a clock, as the run keeps it.
fn keep_from(position: u64, clock: usize) -> u64
    ensures { result ≡ kept_from clock position }
{
    position.wrapping_sub(clock as u64)
}
