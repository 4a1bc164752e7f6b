// An expiry within a calibration frame: the load line is high for longer than the limit. It clears individual values and nothing else.
use crate::devices::{at, still_for};
use crate::seen::{Seen, cleared};
use cases::{Bytes, case};
use device::Device;
use std::{fmt, io};
use three::run_three;

pub fn run(rt: &impl Print) -> io::Result<()> {
    let frame = b"\xE8\x54\x00\xA9\x10\x01";
    let device = after(at(still_for(0x02, 12, 0, 0, 0), 1000), frame);
    let name = "5l limit 12, from 1000, frame";
    case(
        rt,
        format_args!("{name}{}, device 1 of 3", Bytes(frame)),
        cleared(0, 39, 1, 1),
        Seen::from(device),
    )?;
    let should = Held {
        calibration: *b"\xA9\x10\x01",
        waiting: 7,
        active: 9,
        position: 1048,
    };
    case(
        rt,
        format_args!("{name}{}, device 1 of 3", Bytes(frame)),
        should,
        held_of(device),
    )
}

// The first of three devices after a frame of 6 bytes. Another frame is refused, and its states are zeros.
fn after(device: Device, frame: &[u8]) -> Device {
    let mut states = [0; 48];
    let _ = serial::frame_states(frame, 48, serial::EXACT, &mut states);
    let (_, chain) = run_three([device; 3], &states, &mut [0; 71]);
    chain[0]
}

// What is left: the calibration of the frame, the global bytes, and the position.
#[derive(Clone, Copy, PartialEq)]
struct Held {
    calibration: [u8; 3],
    waiting: u8,
    active: u8,
    position: u64,
}

fn held_of(device: Device) -> Held {
    let calibration = device.registers.calibration;
    Held {
        calibration,
        waiting: device.registers.waiting,
        active: device.registers.active,
        position: device.registers.position,
    }
}

impl fmt::Display for Held {
    fn fmt<W: fmt::Write>(&self, f: &mut fmt::Formatter<W>) -> fmt::Result {
        write!(f, " calibration{}", Bytes(&self.calibration))?;
        write!(
            f,
            ", global {} {}, at {}",
            self.waiting, self.active, self.position
        )
    }
}
