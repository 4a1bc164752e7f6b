// One device, stepped by value: a step is no clock, and a store in it shortens the frame all the same.
use crate::devices::{storing_at, waiting_at};
use capi_device::bb_step;
use device::Device;
use parts::Command;
use std::{fmt, io};

pub fn run(rt: &impl Print) -> io::Result<()> {
    let over = waiting_at(6975, 0, 200000);
    case(
        rt,
        "4i 6975 at 200000, configuration 10 stored by a step",
        storing_at(over, Command::Configuration, 0x10, 0x10, 0x10),
        68928,
        9,
    )?;
    let on = waiting_at(6975, 0, 131072);
    case(
        rt,
        "-  6975 at 131072, configuration 10 stored by a step",
        storing_at(on, Command::Configuration, 0x10, 0x10, 0x10),
        0,
        9,
    )?;
    case(
        rt,
        "-  6975 with GLB4 at 131071, a step in no frame",
        waiting_at(6975, 0x10, 131071),
        131071,
        9,
    )
}

// The position and the active global byte.
#[derive(Clone, Copy, PartialEq)]
struct Stand {
    position: u64,
    active: u8,
}

impl fmt::Display for Stand {
    fn fmt<W: fmt::Write>(&self, f: &mut fmt::Formatter<W>) -> fmt::Result {
        write!(f, " at {}, active {}", self.position, self.active)
    }
}

// The line of a case: a step by a 0 at high load.
fn case(rt: &impl Print, name: &str, device: Device, position: u64, active: u8) -> io::Result<()> {
    let registers = bb_step(device, 2).device.registers;
    let came = Stand {
        position: registers.position,
        active: registers.active,
    };
    cases::case(rt, name, Stand { position, active }, came)
}
