// What one of three devices holds after a run of so few states, and the line of a case that says it.
use crate::seen::Seen;
use cases::{Bytes, case};
use device::Device;
use std::io;
use three::run_three;

// The line of a case: the first of three devices.
pub fn first_case(
    rt: &impl Print,
    name: &str,
    first: Device,
    other: Device,
    states: &[u8],
    should: Seen,
) -> io::Result<()> {
    let came = first_after(first, other, states);
    let name = format_args!("{name}, states{}, device 1 of 3", Bytes(states));
    case(rt, name, should, Seen::from(came))
}

// The line of a case: the second.
pub fn second_case(
    rt: &impl Print,
    name: &str,
    first: Device,
    other: Device,
    states: &[u8],
    should: Seen,
) -> io::Result<()> {
    let came = after(first, other, states)[1];
    let name = format_args!("{name}, states{}, device 2 of 3", Bytes(states));
    case(rt, name, should, Seen::from(came))
}

// A device that two others follow, after a run.
pub fn first_after(first: Device, other: Device, states: &[u8]) -> Device {
    after(first, other, states)[0]
}

fn after(first: Device, other: Device, states: &[u8]) -> [Device; 3] {
    let (_, chain) = run_three([first, other, other], states, &mut [0; 32]);
    chain
}
