// Frames a to f and h of the 24-output parts: written from their settings, compared, and read back.
use crate::setting::Setting;
use cases::{Bytes, frame_of, front, line, no_tail, tail_of};
use frames::{Tail, Told};
use parts::Command;
use std::io;

// a to f.
pub fn run(rt: &impl Print) -> io::Result<()> {
    configuration_cases(rt)?;
    frame_case(
        rt,
        "c  6974, calibration B A9, G 10, R 01",
        frame_of(6974, 1, Command::Calibration, 0),
        no_tail(),
        Setting::Bytes(b"\xA9\x10\x01"),
        b"\xE8\x54\x00\xA9\x10\x01",
    )?;
    frame_case(
        rt,
        "d  6974, global 96",
        frame_of(6974, 1, Command::Global, 0),
        no_tail(),
        Setting::Byte(96),
        b"\xE8\xA8\x00\x60\x60\x60",
    )?;
    individual_cases(rt)
}

// h.
pub fn run_with_tail(rt: &impl Print) -> io::Result<()> {
    frame_case(
        rt,
        "h  frame a with tail 101",
        frame_of(6974, 1, Command::Configuration, 0),
        tail_of(5, 3),
        Setting::Byte(0),
        b"\xE8\xFC\x00\x00\x00\x00\xA0",
    )
}

// a and b.
fn configuration_cases(rt: &impl Print) -> io::Result<()> {
    frame_case(
        rt,
        "a  6974, configuration 0x00",
        frame_of(6974, 1, Command::Configuration, 0),
        no_tail(),
        Setting::Byte(0),
        b"\xE8\xFC\x00\x00\x00\x00",
    )?;
    frame_case(
        rt,
        "b  6974, N = 2, configuration 0x01",
        frame_of(6974, 2, Command::Configuration, 0),
        no_tail(),
        Setting::Byte(1),
        b"\xE8\xFC\x00\x01\x01\x01\x01\x01\x01",
    )
}

// e and f.
fn individual_cases(rt: &impl Print) -> io::Result<()> {
    frame_case(
        rt,
        "e  6974, all values 2560",
        frame_of(6974, 1, Command::Individual, 0),
        no_tail(),
        Setting::Values(&[2560; 24]),
        b"\xE8\x00\x00\xA0\x0A\x00\xA0\x0A\x00\xA0\x0A\x00\xA0\x0A\x00\xA0\x0A\x00\xA0\x0A\x00\xA0\x0A\x00\xA0\x0A\x00\xA0\x0A\x00\xA0\x0A\x00\xA0\x0A\x00\xA0\x0A\x00",
    )?;
    frame_case(
        rt,
        "f  6975, all values 1",
        frame_of(6975, 1, Command::Individual, 0),
        no_tail(),
        Setting::Values(&[1; 24]),
        b"\xE8\x00\x00\x00\x04\x00\x10\x00\x40\x01\x00\x04\x00\x10\x00\x40\x01\x00\x04\x00\x10\x00\x40\x01\x00\x04\x00\x10\x00\x40\x01\x00\x04\x00\x10\x00\x40\x01\x00\x04\x00\x10\x00\x40\x01",
    )
}

// The line of a case: the frame is written, and `should` is what it should be.
pub fn frame_case(
    rt: &impl Print,
    name: &str,
    told: Told,
    tail: Tail,
    setting: Setting<'_>,
    should: &[u8],
) -> io::Result<()> {
    let mut out = [0; 64];
    match setting.write(told, tail, &mut out) {
        Ok(n) => {
            let frame = front(&out, n);
            let back = setting.is_read_back(told, tail, frame);
            let word = if back {
                "read back as written"
            } else {
                "NOT read back"
            };
            let came = format_args!("{}, {word}", Bytes(frame));
            line(rt, name, Bytes(should), came, frame == should && back)
        }
        Err(refusal) => line(rt, name, Bytes(should), format_args!(" {refusal}"), false),
    }
}
