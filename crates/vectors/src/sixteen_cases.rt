// Frames l to p, of the 16-output parts: a byte for each of the banks Z and Y, a value for each of 16 outputs.
use crate::frame_cases::frame_case;
use crate::setting::Setting;
use cases::{frame_of, no_tail};
use parts::Command;
use std::io;

pub fn run(rt: &impl Print) -> io::Result<()> {
    byte_cases(rt)?;
    individual_cases(rt)
}

// l to n.
fn byte_cases(rt: &impl Print) -> io::Result<()> {
    frame_case(
        rt,
        "l  6972, configuration 0x00",
        frame_of(6972, 1, Command::Configuration, 0),
        no_tail(),
        Setting::Byte(0),
        b"\xE8\xFC\x00\x00\x00",
    )?;
    frame_case(
        rt,
        "m  6972, calibration Z A9, Y 10",
        frame_of(6972, 1, Command::Calibration, 0),
        no_tail(),
        Setting::Bytes(b"\xA9\x10"),
        b"\xE8\x54\x00\xA9\x10",
    )?;
    frame_case(
        rt,
        "n  6972, global 96",
        frame_of(6972, 1, Command::Global, 0),
        no_tail(),
        Setting::Byte(96),
        b"\xE8\xA8\x00\x60\x60",
    )
}

// o and p.
fn individual_cases(rt: &impl Print) -> io::Result<()> {
    frame_case(
        rt,
        "o  6972, all values 2560",
        frame_of(6972, 1, Command::Individual, 0),
        no_tail(),
        Setting::Values(&[2560; 16]),
        b"\xE8\x00\x00\xA0\x0A\x00\xA0\x0A\x00\xA0\x0A\x00\xA0\x0A\x00\xA0\x0A\x00\xA0\x0A\x00\xA0\x0A\x00\xA0\x0A\x00",
    )?;
    frame_case(
        rt,
        "p  6973, all values 1",
        frame_of(6973, 1, Command::Individual, 0),
        no_tail(),
        Setting::Values(&[1; 16]),
        b"\xE8\x00\x00\x00\x04\x00\x10\x00\x40\x01\x00\x04\x00\x10\x00\x40\x01\x00\x04\x00\x10\x00\x40\x01\x00\x04\x00\x10\x00\x40\x01",
    )
}
