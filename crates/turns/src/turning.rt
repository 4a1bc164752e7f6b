// One turn of a run: the front device takes what is its own, or what every device passes leaves the chain. First the record, then the cursor,
// so that a record is moved once in and once out. Once the turns are over, each device is brought up to the last clock.
ghost use Rattle.std.specs.Prelude.{◌≡◌, cond, ltb, length, drop, ◌<◌, ◌+◌, ◌^◌};
ghost use Rattle.turns.specs.Front.{front_after, turn_taken, cursor_to, leave_after, cursor_after, turned_out};
ghost use Rattle.intake.specs.Intake.{highs_end};
ghost use Rattle.turns.specs.Ending.{by_clock_device, shown_if};

use cursor::Cursor;
use device::Device;
use phases::Sent;
use registers::Registers;
use watch::Ear;

// What a turn makes of its device, the place of the next state, the ear that the next turns go by, and what was sent. What is smallest
// comes last, as in a cursor.
#[derive(Clone, Copy)]
pub struct Turn {
    pub device: Device,
    pub at: usize,
    pub ear: Ear,
    pub sent: Sent,
}

// What the device of the turn takes.
pub fn take_turn(device: Device, cursor: Cursor, states: &[u8]) -> Turn
    ensures { result ≡ turn_taken device cursor states.now }
{
    let Cursor {
        at,
        ear,
        end,
        pending,
        ..
    } = cursor;
    if cursor.front < cursor.count {
        let progress = crate::front::device_take(device, pending, states, at);
        return crate::watching::watched_take(device, pending, progress, ear, states, at, end);
    }
    Turn {
        device,
        at,
        ear,
        sent: Sent::Nothing,
    }
}

// The cursor after it, and what leaves the chain. A cursor past the states or the room halts.
pub fn turn_after(
    cursor: Cursor,
    at: usize,
    sent: Sent,
    ear: Ear,
    states: &[u8],
    returned: &mut [u8],
) -> Cursor
    ensures { (result ≡ cursor_after cursor at sent ear states.now (length returned.old)) × (returned.new ≡ turned_out cursor states.now returned.old) }
{
    let next = turn_to(cursor, at, sent, states, returned);
    Cursor {
        end: end_at(cursor.end, next.at, states),
        ear,
        ..next
    }
}

// The same, but for what the cursor knows of the high states ahead.
#[tactic(auto, unfolding(crate::specs::Front::turned_out))]
fn turn_to(cursor: Cursor, at: usize, sent: Sent, states: &[u8], returned: &mut [u8]) -> Cursor
    ensures { (result ≡ cond (ltb cursor.front cursor.count) (cursor_to cursor at sent states.now) (leave_after cursor states.now (length returned.old))) × (returned.new ≡ turned_out cursor states.now returned.old) }
{
    if cursor.front < cursor.count {
        let front = front_after(cursor.front, sent);
        return cursor::next_turn(cursor.count, front, at, cursor.written, sent, states);
    }
    if cursor.at > states.len() || cursor.written > returned.len() {
        return cursor::halt();
    }
    crate::leaving::leave(cursor, states, returned)
}

// Where the high states at a place end: they are looked for only where those before it are over.
fn end_at(end: usize, at: usize, states: &[u8]) -> usize
    ensures { result ≡ cond (ltb at end) end (highs_end (drop at states.now) at) }
{
    if at < end {
        end
    } else {
        intake::highs_end(states, at)
    }
}

// A device that sent, or passes, is no longer the front.
fn front_after(front: usize, sent: Sent) -> usize
    requires { front + 1 < 2 ^ 64 }
    ensures { result ≡ front_after front sent }
{
    match sent {
        Sent::Nothing => front,
        _ => front + 1,
    }
}

// A device brought up to a clock: one copy of it, whose numbers are written in place. What is rare is looked at elsewhere.
pub fn bring(device: Device, clock: usize) -> Device
    ensures { result ≡ by_clock_device clock device }
{
    let on = crate::watching::is_on(device.registers);
    let watch = watch::bring(device.registers.watch, on, clock);
    let expired = watch::has_expired(device.registers.watch, on, clock);
    let position = positions::position_by(device.registers, clock);
    let ended = positions::has_ended(device.registers, clock);
    let mut next = device;
    next.registers.position = position;
    next.registers.watch.din.still = watch.din.still;
    next.registers.watch.loadi.still = watch.loadi.still;
    if ended || expired {
        let registers = shown(next.registers, ended, expired);
        next.registers = registers;
        return next;
    }
    next
}

// What is shown is written only where a frame has ended, and values are cleared only where the watchdog has expired.
fn shown(registers: Registers, ended: bool, expired: bool) -> Registers
    ensures { result ≡ shown_if ended expired registers }
{
    let mut next = registers;
    if ended {
        let waiting0 = next.waiting0;
        let waiting1 = next.waiting1;
        next.active = next.waiting;
        next.active0 = waiting0;
        next.active1 = waiting1;
    }
    if expired {
        next.waiting0 = [0u16; 24];
        next.waiting1 = [0u16; 24];
        next.active0 = [0u16; 24];
        next.active1 = [0u16; 24];
    }
    next
}
