// A watchdog within a run, as the run keeps it: counts less the clocks of the run that were over when they were written. So a watchdog is
// looked at only where its device is sent something, and at the end. A watchdog, its bit and a clock are parameters side by side: the bit is meant
// since a clock, before it or at its end, so a struct of the three would be made anew at each call and is no plainer.
ghost use Rattle.std.specs.Prelude.{◌≡◌, ◌+◌, ◌-◌, ◌<◌, ◌^◌, min, false, [], ◌∷◌, length, take, drop};
ghost use Rattle.watch.specs.Watch.{moved};
ghost use Rattle.watch.specs.Kept.{run_on, kept_from, still_by, line_by, watch_by, expired_by, still_in, line_in, watch_in, moved_line, moved_in, listened};

use crate::blocks::listen_on;
use crate::watch::{Line, Watch};

// A watchdog after states one to a clock, and whether it expired before the last of them.
#[derive(Clone, Copy)]
pub struct Listened {
    pub watch: Watch,
    pub expired: bool,
}

// It has expired in a clock of the run up to this one, since its counts were written.
pub fn has_expired(watch: Watch, on: bool, clock: usize) -> bool
    ensures { result ≡ expired_by on clock watch }
{
    let limit = u64::from(watch.limit);
    clock >= 1
        && on
        && (run_on(watch.din.still, clock) >= limit || run_on(watch.loadi.still, clock) >= limit)
}

// The watchdog by a clock of the run.
pub fn bring(watch: Watch, on: bool, clock: usize) -> Watch
    ensures { result ≡ watch_by on clock watch }
{
    Watch {
        din: line_by(watch.din, on, clock),
        loadi: line_by(watch.loadi, on, clock),
        ..watch
    }
}

// Its device is sent one state in a clock; the bit is set before that clock or not, and set at its end or not.
pub fn hear(watch: Watch, before: bool, on: bool, clock: usize, state: u8) -> Watch
    ensures { result ≡ watch_in before on clock (state ∷ []) watch }
{
    Watch {
        din: line_in(watch.din, before, on, clock, state % 2),
        loadi: line_in(watch.loadi, before, on, clock, state / 2),
        ..watch
    }
}

// Both lines change in a clock, and stand at these levels then.
pub fn move_lines(watch: Watch, on: bool, clock: usize, din: u8, loadi: u8) -> Watch
    ensures { result ≡ moved_in on clock din loadi watch }
{
    Watch {
        din: moved_line(watch.din, on, clock, din),
        loadi: moved_line(watch.loadi, on, clock, loadi),
        ..watch
    }
}

// One state in each clock, from a place up to another, while the configuration stays.
pub fn listen(watch: Watch, on: bool, states: &[u8], from: usize, to: usize) -> Listened
    ensures { result ≡ listened on from (take (to - from) (drop from states.now)) watch }
{
    let sent = part(states, from, to);
    if on {
        listen_on(watch, sent, from)
    } else {
        listen_off(watch, sent, from)
    }
}

// The states from a place up to another.
pub fn part(states: &[u8], from: usize, to: usize) -> &[u8]
    ensures { result.now ≡ take (to - from) (drop from states.now) }
{
    states.get(from..to.min(states.len())).unwrap_or(&[])
}

// While the bit is clear only the last state is looked at.
fn listen_off(watch: Watch, states: &[u8], clock: usize) -> Listened
    requires { clock + length states.now < 2 ^ 64 }
    ensures { result ≡ listened false clock states.now watch }
{
    let watch = match states.last() {
        Some(state) => hear(watch, false, false, clock + states.len(), *state),
        None => watch,
    };
    Listened {
        watch,
        expired: false,
    }
}

// A line by a clock of the run.
fn line_by(line: Line, on: bool, clock: usize) -> Line
    ensures { result ≡ line_by on clock line }
{
    Line {
        still: still_by(line.still, on, clock),
        ..line
    }
}

fn still_by(n: u64, on: bool, clock: usize) -> u64
    ensures { result ≡ still_by on clock n }
{
    if clock == 0 {
        n
    } else if on {
        run_on(n, clock).min(2000000)
    } else {
        0
    }
}

// A line takes one level in a clock.
#[tactic(auto, unfolding(crate::specs::Watch::last_of))]
fn line_in(line: Line, before: bool, on: bool, clock: usize, level: u8) -> Line
    ensures { result ≡ line_in before on clock (level ∷ []) line }
{
    let still = if on {
        still_in(line, before, clock, level)
    } else {
        line.still
    };
    Line { still, level } // the level is followed also while the bit is clear
}

// Its count, where the bit is set at the end of the clock.
#[tactic(auto, unfolding(crate::specs::Watch::moved))]
fn still_in(line: Line, before: bool, clock: usize, level: u8) -> u64
    ensures { result ≡ still_in before clock (moved line.level (level ∷ [])) line.still }
{
    if line.level != level {
        keep_from(0, clock)
    } else if before || clock < 2 {
        line.still
    } else {
        keep_from(1, clock)
    }
}

// A line that changes in a clock.
fn moved_line(line: Line, on: bool, clock: usize, level: u8) -> Line
    ensures { result ≡ moved_line on clock level line }
{
    let still = if on { keep_from(0, clock) } else { line.still };
    Line { still, level }
}

pub fn run_on(n: u64, clock: usize) -> u64
    ensures { result ≡ run_on clock n }
{
    n.wrapping_add(clock as u64)
}

pub fn keep_from(n: u64, clock: usize) -> u64
    ensures { result ≡ kept_from clock n }
{
    n.wrapping_sub(clock as u64)
}
