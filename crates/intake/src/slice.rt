// The rest of a slice in one call: the slice is kept in a local, as a field's bits are, and no record is moved.
ghost use Rattle.std.specs.Prelude.{◌≡◌, ◌-◌, ◌<◌, ◌≤◌, length, drop};
ghost use Rattle.device.specs.Step.{at, slice_length};
ghost use Rattle.phases.specs.declared.phase.Phase.TheVariants.{Slice};
ghost use Rattle.intake.specs.Intake.{high_taken, progress_of, halfway, completed, field_after, lack_after};

use crate::taken::{Progress, stop};
use parts::Command;
use phases::{Phase, Place, Sent};
use registers::Registers;

// A device before the first bit of a slice takes high states.
pub fn take_slice(
    registers: Registers,
    command: Command,
    count: u16,
    states: &[u8],
    from: usize,
) -> Progress
    ensures { result ≡ progress_of (high_taken (at registers (Slice command count 0)) (drop from states.now) from) }
{
    take_on(registers, command, count, 0, states, from)
}

// A device within a slice takes high states.
pub fn take_on(
    registers: Registers,
    command: Command,
    count: u16,
    taken: u16,
    states: &[u8],
    from: usize,
) -> Progress
    ensures { result ≡ progress_of (high_taken (at registers (Slice command count taken)) (drop from states.now) from) }
{
    if taken < slices::slice_bits(command, registers.part, registers.configuration) {
        gather(registers, command, count, taken, states, from)
    } else {
        overfill(registers, command, count, taken, states, from)
    }
}

// The same where the slice lacks bits: field by field.
#[tactic(auto, using(crate::proofs::Phases::stop_clauses))]
fn gather(
    registers: Registers,
    command: Command,
    count: u16,
    taken: u16,
    states: &[u8],
    from: usize,
) -> Progress
    requires { taken < slice_length registers command }
    ensures { result ≡ progress_of (high_taken (at registers (Slice command count taken)) (drop from states.now) from) }
{
    let part = registers.part;
    let width = slices::field_width(command, part) as usize;
    let below = slices::field_limit(command, part);
    let bits = slices::slice_bits(command, part, registers.configuration) as usize;
    let mut slice = registers.slice;
    let mut t = taken as usize;
    let mut i = from;
    let mut k = t / width;
    let mut lack = width - t % width;
    // No iterator has this step: a field takes as many states as it lacks, or fewer.
    while i < states.len() {
        if states[i] < 2 {
            return part_of(slice, command, count, t as u16, i);
        }
        let end = i + lack.min(states.len() - i);
        let filled = crate::field::fill(slice[k], states, i, end);
        slice[k] = filled.value % below;
        t += filled.at - i;
        if t >= bits {
            return whole(registers, slice, command, count, filled.at);
        }
        let left = lack - (filled.at - i);
        i = filled.at;
        k = field_after(k, left);
        lack = lack_after(width, left);
    }
    part_of(slice, command, count, t as u16, i)
}

// The field of the next bit, where field k lacks so many.
fn field_after(k: usize, left: usize) -> usize
    requires { k < 48 }
    ensures { result ≡ field_after k left }
{
    if left == 0 { k + 1 } else { k }
}

// The bits that this field lacks.
fn lack_after(width: usize, left: usize) -> usize
    ensures { result ≡ lack_after width left }
{
    if left == 0 { width } else { left }
}

// A slice that has all its bits takes one more, and is whole: no record that fits stands so.
#[tactic(auto, using(crate::proofs::Phases::stop_clauses))]
fn overfill(
    registers: Registers,
    command: Command,
    count: u16,
    taken: u16,
    states: &[u8],
    from: usize,
) -> Progress
    requires { slice_length registers command ≤ taken }
    ensures { result ≡ progress_of (high_taken (at registers (Slice command count taken)) (drop from states.now) from) }
{
    match states.get(from) {
        Some(&state) if state >= 2 => {
            let filled = registers.take_bit(command, taken, state % 2);
            whole(registers, filled.slice, command, count, from + 1)
        }
        _ => part_of(registers.slice, command, count, taken, from),
    }
}

// The states end, or a low one comes, within a slice.
fn part_of(slice: [u16; 48], command: Command, count: u16, taken: u16, from: usize) -> Progress
    ensures { result ≡ halfway slice (Slice command count taken) from }
{
    stop(
        slice,
        Phase::Slice {
            command,
            count,
            taken,
        },
        from,
    )
}

// The last bit of a slice came.
fn whole(
    registers: Registers,
    slice: [u16; 48],
    command: Command,
    count: u16,
    from: usize,
) -> Progress
    ensures { result ≡ completed registers slice command count from }
{
    Progress {
        slice,
        place: Place::from(Phase::Passing),
        at: from,
        sent: Sent::Header {
            command,
            count: registers::raise(count, registers.fault_of(command)),
        },
    }
}
