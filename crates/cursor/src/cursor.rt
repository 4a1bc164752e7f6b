// Where a run stands, and whose turn is next.
ghost use Rattle.std.specs.Prelude.{◌≡◌, drop, false};
ghost use Rattle.phases.specs.declared.phase.Sent.TheVariants.{Nothing};
ghost use Rattle.cursor.specs.Cursor.{index_of, cursor, turn_by_state, next_turn, halted};

use phases::Sent;
use watch::Ear;

// Words come first, and what is smaller comes last: a gap in the middle slows each move.
#[derive(Clone, Copy)]
pub struct Cursor {
    // The number of devices.
    pub count: usize,
    // Every device before it is passing.
    pub front: usize,
    // The device of the next turn.
    pub index: usize,
    // The next state.
    pub at: usize,
    // The states returned so far.
    pub written: usize,
    // Where the high states that begin at the next state end; 0 until they are looked for, so that one test against the next state serves both.
    pub end: usize,
    // What watchdogs go by that pass those states.
    pub ear: Ear,
    // A header that is on its way to the front device, or out of the chain.
    pub pending: Sent,
    // A flag and no Option around the rest: a run that is over still has states returned.
    pub going: bool,
}

// By the header under way, or by the next state. The numbers stand side by side as in the definition, by which theorems of a run speak of it.
pub fn next_turn(
    count: usize,
    front: usize,
    at: usize,
    written: usize,
    pending: Sent,
    states: &[u8],
) -> Cursor
    ensures { result ≡ next_turn count front at written pending (drop at states.now) }
{
    match pending {
        Sent::Header { .. } => Cursor {
            index: index_of(count, front),
            pending,
            going: true,
            ..over(count, front, at, written)
        },
        _ => turn_by_state(count, front, at, written, states),
    }
}

// By the next state: a low one is the first device's.
pub fn turn_by_state(count: usize, front: usize, at: usize, written: usize, states: &[u8]) -> Cursor
    ensures { result ≡ turn_by_state count front at written (drop at states.now) }
{
    let over = over(count, front, at, written);
    match states.get(at) {
        None => over,
        Some(&state) if state < 2 => Cursor {
            front: 0,
            going: true,
            ..over
        },
        Some(_) => Cursor {
            index: index_of(count, front),
            going: true,
            ..over
        },
    }
}

// At its end from the start.
pub fn halt() -> Cursor
    ensures { result ≡ halted }
{
    over(0, 0, 0, 0)
}

// A run whose states are over.
fn over(count: usize, front: usize, at: usize, written: usize) -> Cursor
    ensures { result ≡ cursor count front 0 at written Nothing false }
{
    Cursor {
        count,
        front,
        index: 0,
        at,
        written,
        end: 0,
        ear: watch::no_ear(),
        pending: Sent::Nothing,
        going: false,
    }
}

fn index_of(count: usize, front: usize) -> usize
    ensures { result ≡ index_of count front }
{
    if front < count { front } else { 0 }
}
