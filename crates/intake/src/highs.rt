// High states, in any phase.
ghost use Rattle.std.specs.Prelude.{◌≡◌, ℕ, ◌<◌, ◌≤◌, ◌+◌, nat_lt, length, get_or, drop};
ghost use Rattle.std.specs.List.{position};
ghost use Rattle.device.specs.Step.{at};
ghost use Rattle.phases.specs.declared.phase.Phase.TheVariants.{Passing};
ghost use Rattle.intake.specs.Intake.{high_taken, progress_of, headed_all, highs_end};

use crate::blocks::{Kind, ahead, blocks_end};
use crate::taken::{Progress, stop, take_none};
use device::Device;
use phases::{Phase, Place, Sent};
use registers::Registers;

// A phase, and the place of the next state: no generic pair, as for `Filled`.
#[derive(Clone, Copy)]
pub struct Headed {
    pub phase: Phase,
    pub at: usize,
}

// High states, from a place on, until the device sends, a low state or the end.
#[tactic(auto, using(crate::proofs::Phases::stop_clauses))]
pub fn take(device: Device, states: &[u8], from: usize) -> Progress
    ensures { result ≡ progress_of (high_taken device (drop from states.now) from) }
{
    match states.get(from) {
        Some(&state) if state >= 2 => high(device, states, from),
        _ => take_none(device, from, Sent::Nothing),
    }
}

// A passing device sends a high state on.
#[tactic(auto, using(crate::proofs::Phases::passing_clauses))]
fn pass(registers: Registers, states: &[u8], from: usize) -> Progress
    ensures { result ≡ progress_of (high_taken (at registers Passing) (drop from states.now) from) }
{
    let slice = registers.slice;
    match states.get(from) {
        Some(&state) if state >= 2 => Progress {
            slice,
            place: Place::from(Phase::Passing),
            at: from + 1,
            sent: Sent::One(state),
        },
        _ => stop(slice, Phase::Passing, from),
    }
}

// High states: those of a header, and then what the phase says.
fn high(device: Device, states: &[u8], from: usize) -> Progress
    requires { (from < length states.now) × (2 ≤ get_or states.now from 0) }
    ensures { result ≡ progress_of (high_taken device (drop from states.now) from) }
{
    let Headed { phase, at } = head_all(Phase::from(device.place), states, from);
    match phase {
        Phase::Slice {
            command,
            count,
            taken,
        } => crate::slice::take_on(device.registers, command, count, taken, states, at),
        Phase::Passing => pass(device.registers, states, at),
        Phase::Lost => stop(device.registers.slice, phase, highs_end(states, at)),
        _ => stop(device.registers.slice, phase, at),
    }
}

// A phase takes the high states of a header.
#[tactic(auto, using(crate::proofs::Clauses::headed_clauses))]
fn head_all(phase: Phase, states: &[u8], from: usize) -> Headed
    ensures { result ≡ headed_all phase (drop from states.now) from }
{
    let mut phase = phase;
    // By index, as the place is what is answered.
    for at in from..states.len() {
        let state = states[at];
        if !phases::in_header(phase) || state < 2 {
            return Headed { phase, at };
        }
        phase = phases::header_bit(phase, state % 2);
    }
    Headed {
        phase,
        at: from.max(states.len()),
    }
}

// Where high states end: blocks of 64 first, then of 8, then state by state.
pub fn highs_end(states: &[u8], from: usize) -> usize
    ensures { result ≡ highs_end (drop from states.now) from }
{
    low_or_end(
        states,
        high_blocks::<8>(states, high_blocks::<64>(states, from)),
    )
}

// Where blocks of high states alone end.
fn high_blocks<const SIZE: usize>(states: &[u8], from: usize) -> usize
    requires { 0 < SIZE }
    ensures { (from ≤ result) × ((k : ℕ) → from ≤ k → k < result → (k < length states.now) × (2 ≤ get_or states.now k 0)) }
{
    blocks_end::<SIZE, HighStates>(states, from)
}

// High states: the least of a block is one.
struct HighStates;

impl Kind for HighStates {
    ghost IsOf = { λ s. 2 ≤ s };

    fn has_all(block: &[u8]) -> bool {
        let mut least: u8 = 255;
        for state in block {
            least = least.min(*state);
        }
        least >= 2
    }
}

// The place of the first low state, or the end.
fn low_or_end(states: &[u8], from: usize) -> usize
    ensures { result ≡ highs_end (drop from states.now) from }
{
    let rest = ahead(states, from);
    from + first_low(rest).unwrap_or(rest.len())
}

// The first low state.
fn first_low(states: &[u8]) -> Option<usize>
    ensures { result ≡ position (λ s. nat_lt s 2) states.now }
{
    states.iter().position(|state| *state < 2)
}
