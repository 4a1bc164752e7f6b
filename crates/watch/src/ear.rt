// The data line over a stretch of states at high load, by a few numbers, so that a watchdog whose device passes the stretch looks at none of its
// states.
ghost use Rattle.std.specs.Prelude.{◌≡◌, ◌≤◌, ℕ, true, map, length, if◌then◌else◌, nat_lt, slice_index, slice_range, ◌==◌};
ghost use Rattle.std.specs.List.{prefix_len};
ghost use Rattle.watch.specs.Kept.{kept_from};
ghost use Rattle.watch.specs.Watch.{data_bit};
ghost use Rattle.watch.specs.Ear.{next_change, last_change, last_long, level_at, ear_from, ear_on, no_ear, comes_to, heard_by, followed, joined};

use crate::blocks;
use crate::kept::{Listened, has_expired, hear, keep_from, listen, part, run_on};
use crate::watch::{Line, Watch};

#[derive(Clone, Copy)]
pub struct Ear {
    // For this limit, and up to this place.
    pub limit: u32,
    pub end: usize,
    // The level at the end.
    pub level: u8,
    // The place of the next change, or the end.
    pub next: usize,
    // The clock of the last change, or 0.
    pub changed: usize,
    // The clock of the last change that is followed by a stillness as long as the limit, or 0.
    pub long: usize,
}

// What a watchdog heard of a stretch, and the ear it went by.
#[derive(Clone, Copy)]
pub struct Followed {
    pub heard: Listened,
    pub ear: Ear,
}

// Nothing is told yet.
pub fn no_ear() -> Ear
    ensures { result ≡ no_ear }
{
    Ear {
        limit: 0,
        end: 0,
        level: 0,
        next: 0,
        changed: 0,
        long: 0,
    }
}

// A watchdog that was not in step with the line hears the state at a place, and then follows.
#[tactic(auto, unfolding(crate::specs::Ear::joined))]
pub fn join(watch: Watch, on: bool, ear: Ear, states: &[u8], at: usize, end: usize) -> Followed
    ensures { result ≡ joined on ear states.now at end watch }
{
    if end <= at {
        return Followed {
            heard: Listened {
                watch,
                expired: false,
            },
            ear,
        };
    }
    let before = has_expired(watch, on, at);
    let first = hear(watch, on, on, at + 1, state_at(states, at));
    let then = follow(first, on, ear, states, at + 1, end);
    Followed {
        heard: Listened {
            watch: then.heard.watch,
            expired: before || then.heard.expired,
        },
        ear: then.ear,
    }
}

// A watchdog in step with the line, so many clocks being over, hears the states up to the end of a stretch.
#[tactic(auto, unfolding(crate::specs::Ear::followed))]
pub fn follow(watch: Watch, on: bool, ear: Ear, states: &[u8], clock: usize, end: usize) -> Followed
    ensures { result ≡ followed on ear states.now clock end watch }
{
    if on {
        follow_on(watch, ear, states, clock, end)
    } else {
        Followed {
            heard: listen(watch, false, states, clock, end),
            ear,
        }
    }
}

// While the bit is set it goes by the ear.
#[tactic(auto, unfolding(crate::specs::Ear::followed))]
fn follow_on(watch: Watch, ear: Ear, states: &[u8], clock: usize, end: usize) -> Followed
    ensures { result ≡ followed true ear states.now clock end watch }
{
    let next = ear_on(ear, watch.limit, states, clock, end);
    Followed {
        heard: hear_by(watch, next, clock),
        ear: next,
    }
}

// Of a stretch that an ear was told of already, only the next change may have to be looked for.
#[tactic(auto, using(crate::proofs::Heeded::heeded, crate::proofs::Heeded::heeded_past, crate::proofs::Heeded::unheeded))]
fn ear_on(ear: Ear, limit: u32, states: &[u8], at: usize, end: usize) -> Ear
    ensures { result ≡ ear_on ear limit states.now at end }
{
    if ear.end == end && ear.limit == limit {
        if at <= ear.next {
            return ear;
        }
        return Ear {
            next: next_change(states, at, end),
            ..ear
        };
    }
    ear_from(limit, states, at, end)
}

// The states of a stretch are looked at.
#[tactic(auto, unfolding(crate::specs::Ear::ear_from))]
fn ear_from(limit: u32, states: &[u8], at: usize, end: usize) -> Ear
    ensures { result ≡ ear_from limit states.now at end }
{
    Ear {
        limit,
        end,
        level: level_before(states, end),
        next: next_change(states, at, end),
        changed: last_change(states, at, end),
        long: last_long(limit as usize, states, at, end.saturating_sub(1)),
    }
}

// The watchdog goes by the ear.
#[tactic(auto, unfolding(crate::specs::Ear::heard_by))]
fn hear_by(watch: Watch, ear: Ear, clock: usize) -> Listened
    ensures { result ≡ heard_by ear clock watch }
{
    if ear.end <= clock {
        return Listened {
            watch,
            expired: false,
        };
    }
    let limit = u64::from(watch.limit);
    let last = ear.end - 1;
    let load = comes_to(
        limit,
        run_on(watch.loadi.still, clock),
        last.saturating_sub(clock),
    );
    let data = comes_to(
        limit,
        run_on(watch.din.still, clock),
        ear.next.min(last).saturating_sub(clock),
    );
    Listened {
        watch: Watch {
            din: Line {
                still: still_by(watch.din.still, ear.changed, clock),
                level: ear.level,
            },
            ..watch
        },
        expired: load || data || clock < ear.long,
    }
}

// The data line's count: from its last change on, if it changed.
fn still_by(still: u64, changed: usize, clock: usize) -> u64
    ensures { result ≡ (if nat_lt clock changed then kept_from changed 0 else still) }
{
    if clock < changed {
        keep_from(0, changed)
    } else {
        still
    }
}

// A count that goes on for some clocks comes to the limit.
pub fn comes_to(limit: u64, count: u64, clocks: usize) -> bool
    ensures { result ≡ comes_to limit count clocks }
{
    count.saturating_add(clocks as u64) >= limit
}

// The place of the next change, or the end. The first state is looked at by itself: often it is the change.
fn next_change(states: &[u8], from: usize, to: usize) -> usize
    ensures { result ≡ next_change (level_at states.now from) (map data_bit (slice_range states.now from to)) from }
{
    let level = level_before(states, from);
    if from >= to.min(states.len()) || states[from] % 2 != level {
        return from;
    }
    from + 1 + before_change(level, part(states, from + 1, to))
}

// How many states stand before the first at which the data line changes. Often it changes within a block's length, so the first block is looked at by
// itself.
fn before_change(level: u8, states: &[u8]) -> usize
    ensures value { result ≡ next_change level (map data_bit states.now) 0 }
    ensures within { result ≤ length states.now }
{
    match states.split_first_chunk::<64>() {
        Some((block, behind)) if blocks::stays(level, true, block) => {
            64 + before_change_by_blocks(level, behind)
        }
        _ => count_at(level, states),
    }
}

// The same, by blocks: those in which the data line does not change are passed first. It is not inlined, so that a search that ends near by keeps its
// numbers in registers.
#[inline(never)]
fn before_change_by_blocks(level: u8, states: &[u8]) -> usize
    ensures value { result ≡ next_change level (map data_bit states.now) 0 }
    ensures within { result ≤ length states.now }
{
    let mut rest = states;
    while let Some((block, behind)) = rest.split_first_chunk::<64>() {
        if !blocks::stays(level, true, block) {
            break;
        }
        rest = behind;
    }
    states.len() - rest.len() + count_at(level, rest)
}

// How many states stand at a level before the first that does not.
fn count_at(level: u8, states: &[u8]) -> usize
    ensures value { result ≡ prefix_len (λ s. data_bit s == level) states.now }
    ensures within { result ≤ length states.now }
{
    states
        .iter()
        .take_while(|state| **state % 2 == level)
        .count()
}

// The clock of the last change, or 0.
fn last_change(states: &[u8], from: usize, to: usize) -> usize
    ensures { result ≡ last_change (level_at states.now from) (map data_bit (slice_range states.now from to)) from }
{
    let level = level_before(states, from);
    let moving = up_to_change(level, part(states, from, to));
    blocks::last_change(level, true, moving, from)
}

// The states without the blocks at the end in which the data line does not change.
fn up_to_change(level: u8, states: &[u8]) -> &[u8]
    ensures same { (t : ℕ) → last_change level (map data_bit states.now) t ≡ last_change level (map data_bit result.now) t }
    ensures within { length result.now ≤ length states.now }
{
    let mut rest = states;
    while let Some((front, block)) = rest.split_last_chunk::<64>() {
        if !blocks::stays(blocks::level_behind(level, true, front), true, block) {
            break;
        }
        rest = front;
    }
    rest
}

// The clock of the last change that is followed by a stillness as long as the limit, or 0. From the end back, a limit at a time: a change within the
// last so many clocks makes all shorter that stands behind it.
fn last_long(limit: usize, states: &[u8], from: usize, to: usize) -> usize
    ensures { result ≡ last_long limit (level_at states.now from) (map data_bit (slice_range states.now from to)) from }
{
    let mut stop = to.min(states.len());
    // A step goes as far back as it finds a change: there is no list to go over.
    while stop > from {
        if stop - from <= limit {
            return 0;
        }
        let first = next_change(states, stop - limit, stop);
        if first >= stop {
            return last_change(states, from, stop - limit);
        }
        stop = first;
    }
    0
}

// The level of the data line before a place.
fn level_before(states: &[u8], at: usize) -> u8
    ensures { result ≡ level_at states.now at }
{
    state_at(states, at.saturating_sub(1)) % 2
}

// The state at a place, or 0 where there is none.
fn state_at(states: &[u8], at: usize) -> u8
    ensures { result ≡ slice_index states.now at }
{
    states.get(at).copied().unwrap_or(0)
}
