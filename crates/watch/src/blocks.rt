// One state in each clock while the bit is set, by blocks of 64 states. In a block in which no count can come to the limit, or behind an expiry,
// only what the block leaves of the lines is needed: it goes clock by clock only where an expiry may be in it.
ghost use Rattle.std.specs.Prelude.{◌≡◌, ℕ, ◌+◌, ◌≤◌, ◌<◌, ◌^◌, true, ◌||◌, map, length};
ghost use Rattle.watch.specs.Watch.{last_of};
ghost use Rattle.watch.specs.Kept.{expired_by, listened};
ghost use Rattle.watch.specs.Blocks.{bit_of, change_in, count_by, line_over, watch_over, may_expire, heard_on};

use crate::ear::comes_to;
use crate::kept::{Listened, has_expired, hear, keep_from, run_on};
use crate::watch::{Line, Watch};

// One state in each clock while the bit is set, so many clocks being over.
pub fn listen_on(watch: Watch, states: &[u8], clock: usize) -> Listened
    requires { clock + length states.now < 2 ^ 64 }
    ensures { result ≡ listened true clock states.now watch }
{
    let mut heard = Listened {
        watch,
        expired: false,
    };
    let mut over = clock;
    let mut rest = states;
    while let Some((block, behind)) = rest.split_first_chunk::<64>() {
        heard = listen_block(heard, block, over);
        over += 64;
        rest = behind;
    }
    listen_each(heard, rest, over)
}

// One block more.
fn listen_block(before: Listened, block: &[u8; 64], clock: usize) -> Listened
    requires { clock + 64 < 2 ^ 64 }
    ensures { result ≡ heard_on before clock block.now }
{
    if !before.expired && may_expire(before.watch, clock) {
        return listen_each(before, block, clock);
    }
    Listened {
        watch: watch_over(before.watch, block, clock),
        ..before
    }
}

// Clock by clock.
fn listen_each(before: Listened, states: &[u8], clock: usize) -> Listened
    requires { clock + length states.now < 2 ^ 64 }
    ensures { result ≡ heard_on before clock states.now }
{
    let mut watch = before.watch;
    let mut expired = before.expired;
    for (i, state) in states.iter().enumerate() {
        expired = expired_or(expired, watch, clock + i);
        watch = hear(watch, true, true, clock + i + 1, *state);
    }
    Listened { watch, expired }
}

// It expired before, or has expired by a clock.
fn expired_or(before: bool, watch: Watch, clock: usize) -> bool
    ensures { result ≡ (before || expired_by true clock watch) }
{
    before || has_expired(watch, true, clock)
}

// A count may come to the limit within a block.
fn may_expire(watch: Watch, clock: usize) -> bool
    ensures { result ≡ may_expire clock watch }
{
    let limit = u64::from(watch.limit);
    comes_to(limit, run_on(watch.din.still, clock), 63)
        || comes_to(limit, run_on(watch.loadi.still, clock), 63)
}

// What a block leaves of the watchdog's lines.
fn watch_over(watch: Watch, block: &[u8; 64], clock: usize) -> Watch
    requires { clock + 64 < 2 ^ 64 }
    ensures { result ≡ watch_over block.now clock watch }
{
    Watch {
        din: line_over(watch.din, true, block, clock),
        loadi: line_over(watch.loadi, false, block, clock),
        ..watch
    }
}

// What a block leaves of a line.
fn line_over(line: Line, din: bool, block: &[u8; 64], clock: usize) -> Line
    requires { clock + 64 < 2 ^ 64 }
    ensures { result ≡ line_over din block.now clock line }
{
    Line {
        still: count_by(change_in(line.level, din, block, clock), line.still),
        level: level_of(din, block[63]),
    }
}

// A count, by the clock of the last change, or 0.
fn count_by(changed: usize, still: u64) -> u64
    ensures { result ≡ count_by changed still }
{
    if changed == 0 {
        still
    } else {
        keep_from(0, changed)
    }
}

// The clock of a line's last change in a block, or 0.
fn change_in(level: u8, din: bool, block: &[u8; 64], clock: usize) -> usize
    requires { clock + 64 < 2 ^ 64 }
    ensures { result ≡ change_in level din block.now clock }
{
    if stays(level, din, block) {
        0
    } else {
        last_change(level, din, block, clock)
    }
}

// Whether a line stays at its level over a block. No early end, so that the loop is vectorised.
pub fn stays(level: u8, din: bool, block: &[u8; 64]) -> bool
    ensures { result ≡ true → (t : ℕ) → change_in level din block.now t ≡ 0 }
{
    let mut all = true;
    for state in block {
        all = all & (level_of(din, *state) == level);
    }
    all
}

// The clock of a line's last change, or 0: looked for from the end back.
pub fn last_change(level: u8, din: bool, states: &[u8], clock: usize) -> usize
    requires { clock + length states.now < 2 ^ 64 }
    ensures { result ≡ change_in level din states.now clock }
{
    for i in (0..states.len()).rev() {
        if level_of(din, states[i]) != level_behind(level, din, &states[..i]) {
            return clock + i + 1;
        }
    }
    0
}

// Where a line stands behind states.
pub fn level_behind(level: u8, din: bool, states: &[u8]) -> u8
    ensures { result ≡ last_of level (map (bit_of din) states.now) }
{
    match states.last() {
        Some(state) => level_of(din, *state),
        None => level,
    }
}

// The level of the data line or of the load line in a state.
fn level_of(din: bool, state: u8) -> u8
    ensures { result ≡ bit_of din state }
{
    if din { state % 2 } else { state / 2 }
}
