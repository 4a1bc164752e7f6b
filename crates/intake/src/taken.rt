// How far a device got with the states at hand, and what that makes of it.
ghost use Rattle.std.specs.Prelude.{◌≡◌};
ghost use Rattle.intake.specs.Intake.{stopped, progress_of, halfway, settled_by};

use device::Device;
use phases::{Phase, Place, Sent};
use registers::Registers;

// How far a device got: its slice and its place in a frame, which are all that changes before it sends a header, the place of the next
// state, and what was sent. So no record is moved while states are taken.
#[derive(Clone, Copy)]
pub struct Progress {
    pub slice: [u16; 48],
    pub place: Place,
    pub at: usize,
    pub sent: Sent,
}

// A device that takes none of the states at hand.
pub fn take_none(device: Device, from: usize, sent: Sent) -> Progress
    ensures { result ≡ progress_of (stopped device from sent) }
{
    // By a variable: the proof does not close where an array field goes straight into a literal.
    let slice = device.registers.slice;
    Progress {
        slice,
        place: device.place,
        at: from,
        sent,
    }
}

// The states end, or one comes that the device does not take, and nothing was sent.
pub fn stop(slice: [u16; 48], phase: Phase, from: usize) -> Progress
    ensures { result ≡ halfway slice phase from }
{
    Progress {
        slice,
        place: Place::from(phase),
        at: from,
        sent: Sent::Nothing,
    }
}

// What that makes of the registers. A header is sent with the last bit of a slice, which is stored in that clock.
pub fn settle(registers: Registers, progress: Progress) -> Registers
    ensures { result ≡ settled_by progress.sent progress.at registers progress.slice }
{
    let Progress {
        slice,
        at,
        sent,
        ..
    } = progress;
    match sent {
        Sent::Header { command, .. } => {
            positions::date(registers, storing::store(registers, slice, command), at)
        }
        _ => Registers { slice, ..registers },
    }
}
