// One device, stepped by value: a step is no clock, so it leaves levels and counts, and no watchdog expires in it.
use crate::devices::{still_for, storing};
use crate::seen::{Seen, kept};
use capi_device::bb_step;
use device::Device;
use parts::Command;
use std::io;

pub fn run(rt: &impl Print) -> io::Result<()> {
    case(
        rt,
        "-  limit 10, counts 9, a step at the same levels",
        still_for(0x02, 10, 9, 0, 1),
        kept(9, 9, 0, 1),
    )?;
    case(
        rt,
        "-  limit 10, counts 9, a step at other levels",
        still_for(0x02, 10, 9, 1, 0),
        kept(9, 9, 1, 0),
    )?;
    case(
        rt,
        "-  limit 10, counts 9, configuration 00 stored by a step",
        storing(still_for(0x02, 10, 9, 0, 1), Command::Configuration, 0x00),
        kept(9, 9, 0, 1),
    )
}

// The line of a case: a step by a 0 at high load.
fn case(rt: &impl Print, name: &str, device: Device, should: Seen) -> io::Result<()> {
    cases::case(rt, name, should, Seen::from(bb_step(device, 2).device))
}
