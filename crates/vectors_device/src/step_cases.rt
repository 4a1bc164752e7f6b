// One device, stepped by value: rules that no number of docs/RULES.md shows.
use crate::feeding::{feed, start, step, steps};
use crate::seen::{LOST, PASSING, case, expected};
use device::Device;
use parts::Command;
use phases::{Phase, Place};
use std::io;
use three::fresh_of;

pub fn run(rt: &impl Print) -> io::Result<()> {
    lost_cases(rt)?;
    copies_case(rt)?;
    count_case(rt)?;
    slot_cases(rt)
}

// Command pairs that differ: the device is lost at the sixth command bit, ignores the rest of the frame, and takes the next.
fn lost_cases(rt: &impl Print) -> io::Result<()> {
    let fresh = fresh_of(6974);
    let lost = feed(fresh, b"\xE8\xF8\x00\x01\x01\x01");
    case(
        rt,
        "-  command bits 11 11 10, then configuration 0x01",
        lost,
        expected(LOST, 0, 0, 0, 0),
    )?;
    let taken = feed(lost.device, b"\xE8\xFC\x00\x01\x01\x01");
    case(
        rt,
        "-  the same device, the next frame: configuration 0x01",
        taken,
        expected(PASSING, 1, 0, 24, 0),
    )
}

// Copies that differ: nothing is stored, and the header is still sent on.
fn copies_case(rt: &impl Print) -> io::Result<()> {
    let before = feed(fresh_of(6974), b"\xE8\xA8\x00\x07\x07\x07");
    let after = feed(before.device, b"\xE8\xA8\x05\x60\x60\x61");
    case(
        rt,
        "-  global 0x07, then global copies 60 60 61 with count 5",
        after,
        expected(PASSING, 0, 7, 24, 5),
    )
}

// The count wraps.
fn count_case(rt: &impl Print) -> io::Result<()> {
    let fresh = fresh_of(6974);
    let after = feed(fresh.set_fault(1, 1), b"\xE8\xFF\xFF\x01\x01\x01");
    case(
        rt,
        "-  configuration 0x01 with count 1023, an open LED",
        after,
        expected(PASSING, 1, 0, 24, 0),
    )
}

// Slots over 255 while a global slice comes in: bits of an individual slice that was cut off, with all bits to come; and a slot whose bits
// have all come.
fn slot_cases(rt: &impl Print) -> io::Result<()> {
    let cut = with_slots(0x1A9, 0x1A9, 0x1A9, 0);
    case(
        rt,
        "-  slots 1A9 1A9 1A9, all bits of global 0x60 to come",
        steps(
            cut,
            b"\x02\x03\x03\x02\x02\x02\x02\x02\x02\x03\x03\x02\x02\x02\x02\x02\x02\x03\x03\x02\x02\x02\x02\x02",
        ),
        expected(PASSING, 0, 0x60, 24, 0),
    )?;
    let last = with_slots(0x1A9, 0x1A9, 0xD4, 23);
    case(
        rt,
        "-  slots 1A9 1A9 0D4, the last bit of global 0xA9 to come",
        step(start(last), 3),
        expected(PASSING, 0, 0xA9, 24, 0),
    )
}

// A 6974 in a global slice, with a slot for each bank and so many bits taken.
fn with_slots(first: u16, second: u16, third: u16, taken: u16) -> Device {
    let mut device = fresh_of(6974);
    device.registers.slice[0] = first;
    device.registers.slice[1] = second;
    device.registers.slice[2] = third;
    device.place = Place::from(Phase::Slice {
        command: Command::Global,
        count: 0,
        taken,
    });
    device
}
