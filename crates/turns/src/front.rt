// What the device of a turn takes.
ghost use Rattle.std.specs.Prelude.{◌≡◌, drop};
ghost use Rattle.intake.specs.Intake.{progress_of};
ghost use Rattle.turns.specs.Front.{is_lost, low_taken, device_taken};
ghost use Rattle.phases.specs.declared.phase.Sent.TheVariants.{Nothing};
ghost use Rattle.turns.specs.Front.{phase_only, phase_step, phase_run, hear_all, hunts_on};

use device::Device;
use intake::Progress;
use phases::{Phase, Sent};

// A phase, and the place of the next state. One generic pair for this, `Heard` and those of the crate intake would be no plainer: it would call a
// phase and a window by one name.
#[derive(Clone, Copy)]
pub struct PhaseRun {
    pub phase: Phase,
    pub at: usize,
}

// A window, and the place of the next state: no generic pair, as for `PhaseRun`.
#[derive(Clone, Copy)]
pub struct Heard {
    pub window: u16,
    pub at: usize,
}

// By the header under way and the next state. After a header a device stands before the first bit of its slice. A passing device takes no high state:
// the front moves on.
pub fn device_take(device: Device, pending: Sent, states: &[u8], at: usize) -> Progress
    ensures { result ≡ progress_of (device_taken device pending (drop at states.now) at) }
{
    if let Sent::Header { command, count } = pending {
        return intake::take_slice(device.registers, command, count, states, at);
    }
    if at < states.len() {
        if states[at] < 2 {
            return low_take(device, states, at);
        }
        // By the record's number, 4 for passing: no phase is made of a record that only lets a state by, which is most often what a turn finds.
        // The front moves on: `device_taken` says so by a one of 0, for which no state is taken.
        if device.place.phase == 4 {
            return intake::take_none(device, at, Sent::One(0));
        }
    }
    intake::take(device, states, at)
}

// From a low state on as long as the phase alone goes on, so that a flood moves no record.
fn low_take(device: Device, states: &[u8], at: usize) -> Progress
    ensures { result ≡ progress_of (low_taken device Nothing (drop at states.now) at) }
{
    let before = Phase::from(device.place);
    let heard = hear_all(phases::window_of(before), states, at);
    let run = run_phase(hunt_on(before, at, heard), states, heard.at);
    intake::stop(device.registers.slice, run.phase, run.at)
}

// Low states: behind blocks of them the window is that of the last nine, whatever it was before.
fn hear_all(window: u16, states: &[u8], from: usize) -> Heard
    ensures { result ≡ hear_all window (drop from states.now) from }
{
    let end = intake::low_blocks(states, from);
    if end - from < 9 {
        return hear_each(window, states, from);
    }
    hear_each(0, states, end - 9)
}

// Low states are heard one after the other, the window in a local.
#[tactic(auto, using(crate::proofs::Phases::hear_clauses))]
fn hear_each(window: u16, states: &[u8], from: usize) -> Heard
    ensures { result ≡ hear_all window (drop from states.now) from }
{
    let mut window = window;
    // By index, as the place is what is answered.
    for at in from..states.len() {
        let state = states[at];
        if state >= 2 {
            return Heard { window, at };
        }
        window = ((u32::from(window) * 2 + u32::from(state)) % 512) as u16;
    }
    Heard {
        window,
        at: from.max(states.len()),
    }
}

// The phase after the low states from a place on: where there were none, the one before.
fn hunt_on(before: Phase, from: usize, heard: Heard) -> Phase
    ensures { result ≡ hunts_on before from heard }
{
    if heard.at == from {
        return before;
    }
    Phase::Hunting {
        window: heard.window,
    }
}

// A phase goes on as long as no register is touched.
#[tactic(auto, using(crate::proofs::Phases::run_clauses))]
fn run_phase(phase: Phase, states: &[u8], from: usize) -> PhaseRun
    ensures { result ≡ phase_run phase (drop from states.now) from }
{
    let mut phase = phase;
    // By index, as the place is what is answered.
    for at in from..states.len() {
        let state = states[at];
        if !is_phase_only(phase, state) {
            return PhaseRun { phase, at };
        }
        phase = step_phase(phase, state);
    }
    PhaseRun {
        phase,
        at: from.max(states.len()),
    }
}

fn is_phase_only(phase: Phase, state: u8) -> bool
    ensures { result ≡ phase_only phase state }
{
    state < 2 || phases::in_header(phase) || is_lost(phase)
}

fn step_phase(phase: Phase, state: u8) -> Phase
    ensures { result ≡ phase_step phase state }
{
    if state < 2 {
        phases::hear(phase, state)
    } else {
        phases::header_bit(phase, state % 2)
    }
}

fn is_lost(phase: Phase) -> bool
    ensures { result ≡ is_lost phase }
{
    matches!(phase, Phase::Lost)
}
