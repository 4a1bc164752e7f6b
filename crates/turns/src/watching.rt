// What the watchdog of a turn's device hears.
ghost use Rattle.std.specs.Prelude.{◌≡◌, get_or, ◌-◌};
ghost use Rattle.turns.specs.Watching.{is_on, cleared_if, reached, heard_to, late_by, overheard, onward, watched_turn};
ghost use Rattle.registers.specs.Held.{with_watch};
ghost use Rattle.intake.specs.Intake.{settled_by};

use crate::turning::Turn;
use device::Device;
use intake::Progress;
use phases::Sent;
use registers::Registers;
use watch::{Ear, Followed, Listened, Watch};

// A device that got so far with the states from a place on, something being under way to it, where the high states end at another.
pub fn watched_take(
    device: Device,
    pending: Sent,
    progress: Progress,
    ear: Ear,
    states: &[u8],
    at: usize,
    end: usize,
) -> Turn
    ensures { result ≡ watched_turn device pending progress ear states.now at end }
{
    let sent = progress.sent;
    let to = progress.at;
    let before = is_on(device.registers);
    let watch = device.registers.watch;
    let heard = overhear(watch, before, pending, sent, states, at, to);
    let on = watch::is_enabled(watch, configuration_after(device.registers, progress));
    let ahead = hear_on(heard.watch, before, on, sent, ear, states, to, end);
    let place = progress.place;
    let listened = with_heard(device.registers, heard.expired, ahead.heard.watch);
    let settled = intake::settle(listened, progress);
    let registers = if ahead.heard.expired {
        settled.clear()
    } else {
        settled
    };
    Turn {
        device: Device { registers, place },
        at: to,
        ear: ahead.ear,
        sent,
    }
}

// The configuration that the registers have behind what the device got.
fn configuration_after(registers: Registers, progress: Progress) -> u8
    ensures { result ≡ (settled_by progress.sent progress.at registers progress.slice).configuration }
{
    match progress.sent {
        Sent::Header { command, .. } => {
            storing::configuration_after(registers, progress.slice, command)
        }
        _ => registers.configuration,
    }
}

// The watchdog's bit is set.
pub fn is_on(registers: Registers) -> bool
    ensures { result ≡ is_on registers }
{
    watch::is_enabled(registers.watch, registers.configuration)
}

// Registers whose watchdog had expired or not, with what it heard. They are written in place, number by number, before a slice is stored in them,
// so that they are not moved once more.
fn with_heard(registers: Registers, expired: bool, watch: Watch) -> Registers
    ensures { result ≡ with_watch (cleared_if expired registers) watch }
{
    let mut next = registers;
    next.watch.din.still = watch.din.still;
    next.watch.din.level = watch.din.level;
    next.watch.loadi.still = watch.loadi.still;
    next.watch.loadi.level = watch.loadi.level;
    next.watch.limit = watch.limit;
    next.watch.bit = watch.bit;
    if expired {
        next.waiting0 = [0u16; 24];
        next.waiting1 = [0u16; 24];
        next.active0 = [0u16; 24];
        next.active1 = [0u16; 24];
    }
    next
}

// What is under way, and then its own states but for that of a store.
#[tactic(auto, unfolding(crate::specs::Watching::overheard))]
fn overhear(
    watch: Watch,
    on: bool,
    pending: Sent,
    sent: Sent,
    states: &[u8],
    at: usize,
    to: usize,
) -> Listened
    ensures { result ≡ overheard pending sent on states.now at to watch }
{
    let reached = reach(watch, on, pending, at);
    let own = watch::listen(reached.watch, on, states, at, heard_to(sent, to));
    let late = is_late(own.watch, on, sent, to);
    Listened {
        watch: own.watch,
        expired: reached.expired || own.expired || late,
    }
}

// The header under way changes both lines.
fn reach(watch: Watch, on: bool, pending: Sent, clock: usize) -> Listened
    ensures { result ≡ reached pending on clock watch }
{
    match pending {
        Sent::Header { count, .. } => Listened {
            watch: watch::move_lines(watch, on, clock, (count % 2) as u8, 1),
            expired: watch::has_expired(watch, on, clock.saturating_sub(1)),
        },
        _ => Listened {
            watch,
            expired: false,
        },
    }
}

// Where the states end that are heard before a slice is stored.
fn heard_to(sent: Sent, to: usize) -> usize
    ensures { result ≡ heard_to sent to }
{
    match sent {
        Sent::Header { .. } => to.saturating_sub(1),
        _ => to,
    }
}

// It has expired by the clock before that of a store.
fn is_late(watch: Watch, on: bool, sent: Sent, to: usize) -> bool
    ensures { result ≡ late_by sent on to watch }
{
    match sent {
        Sent::Header { .. } => watch::has_expired(watch, on, to.saturating_sub(1)),
        _ => false,
    }
}

// The clock of a store, and the high states that follow.
#[tactic(auto, unfolding(crate::specs::Watching::onward))]
fn hear_on(
    watch: Watch,
    before: bool,
    on: bool,
    sent: Sent,
    ear: Ear,
    states: &[u8],
    to: usize,
    end: usize,
) -> Followed
    ensures { result ≡ onward sent before on ear states.now to end watch }
{
    match sent {
        Sent::Nothing => Followed {
            heard: Listened {
                watch,
                expired: false,
            },
            ear,
        },
        Sent::One(_) => watch::join(watch, on, ear, states, to, end),
        Sent::Header { .. } => {
            let stored = watch::hear(watch, before, on, to, state_before(states, to));
            watch::follow(stored, on, ear, states, to, end)
        }
    }
}

// The state before a place, or 0 where there is none.
fn state_before(states: &[u8], to: usize) -> u8
    ensures { result ≡ get_or states.now (to - 1) 0 }
{
    states.get(to.saturating_sub(1)).copied().unwrap_or(0)
}
