// One device with 16 outputs, stepped by value: a slice of bytes has two copies, and what is not used stays 0.
use crate::feeding::feed;
use crate::seen::{PASSING, case, expected};
use cases::{Phases, spaced};
use device::Device;
use std::io;
use three::fresh_of;

pub fn run(rt: &impl Print) -> io::Result<()> {
    copies_cases(rt)?;
    stored_cases(rt)
}

// The slice is full after the second copy: what follows is sent on. Copies that differ store nothing.
fn copies_cases(rt: &impl Print) -> io::Result<()> {
    let fresh = fresh_of(6972);
    let configured = feed(fresh, b"\xE8\xFC\x00\x01\x01\x07");
    case(
        rt,
        "-  6972, configuration 0x01, and 8 bits for the next device",
        configured,
        expected(PASSING, 1, 0, 32, 0),
    )?;
    let before = feed(fresh, b"\xE8\xA8\x00\x07\x07");
    let after = feed(before.device, b"\xE8\xA8\x05\x60\x61");
    case(
        rt,
        "-  6972, global 0x07, then global copies 60 61 with count 5",
        after,
        expected(PASSING, 0, 7, 24, 5),
    )
}

// Values 1 to 32, multiplexed, then 33 to 48, nonmultiplexed: MUX1 stays, and so do the places of outputs 16 to 23.
fn stored_cases(rt: &impl Print) -> io::Result<()> {
    let fresh = fresh_of(6972);
    let mode = feed(fresh, b"\xE8\xFC\x00\x01\x01");
    let multiplexed = feed(
        mode.device,
        b"\xE8\x00\x00\x00\x10\x02\x00\x30\x04\x00\x50\x06\x00\x70\x08\x00\x90\x0A\x00\xB0\x0C\x00\xD0\x0E\x00\xF0\x10\x01\x10\x12\x01\x30\x14\x01\x50\x16\x01\x70\x18\x01\x90\x1A\x01\xB0\x1C\x01\xD0\x1E\x01\xF0\x20",
    );
    stored_case(
        rt,
        "-  6972 multiplexed, values 1 to 32",
        multiplexed.device,
        spaced(1, 2, 16),
    )?;
    let mode = feed(multiplexed.device, b"\xE8\xFC\x00\x00\x00");
    let plain = feed(
        mode.device,
        b"\xE8\x00\x00\x02\x10\x22\x02\x30\x24\x02\x50\x26\x02\x70\x28\x02\x90\x2A\x02\xB0\x2C\x02\xD0\x2E\x02\xF0\x30",
    );
    stored_case(
        rt,
        "-  6972, then nonmultiplexed, values 33 to 48",
        plain.device,
        spaced(33, 1, 16),
    )
}

// The line of a case: the waiting values. MUX1 has 2 to 32.
fn stored_case(rt: &impl Print, name: &str, device: Device, mux0: [u16; 24]) -> io::Result<()> {
    let mux1 = spaced(2, 2, 16);
    let should = Phases { mux0, mux1 };
    let mux0 = device.registers.waiting0;
    let mux1 = device.registers.waiting1;
    cases::case(rt, name, should, Phases { mux0, mux1 })
}
