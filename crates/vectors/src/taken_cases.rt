// Numbers just inside and just outside their range: what is taken, and under which number the rest is refused.
use cases::{Outcome, frame_of, no_tail, tail_of};
use frames::{Tail, Told};
use parts::Command;
use std::io;

pub fn run(rt: &impl Print) -> io::Result<()> {
    part_cases(rt)?;
    count_cases(rt)?;
    every_way(
        rt,
        "-  tail 65",
        3,
        frame_of(6974, 1, Command::Configuration, 0),
        tail_of(0, 65),
    )?;
    length_cases(rt)?;
    value_cases(rt, "-  6974", 6974, &[4095; 24], &[4096; 24])?;
    value_cases(rt, "-  6972", 6972, &[4095; 16], &[4096; 16])?;
    global_cases(
        rt,
        "-  6975 multiplexed with GLB4",
        6975,
        b"\xE8\xA8\x00\x03\x03\x03",
        b"\xE8\xA8\x00\x04\x04\x04",
    )?;
    global_cases(
        rt,
        "-  6973 multiplexed with GLB4",
        6973,
        b"\xE8\xA8\x00\x03\x03",
        b"\xE8\xA8\x00\x04\x04",
    )
}

// h with an unused bit of the last byte.
pub fn run_unused_bit(rt: &impl Print) -> io::Result<()> {
    let told = frame_of(6974, 1, Command::Configuration, 0);
    let came = read_outcome(told, tail_of(5, 3), b"\xE8\xFC\x00\x00\x00\x00\xA1");
    case(rt, "h  its last byte A1", ", read", 11, came)
}

// A number that is no part's.
fn part_cases(rt: &impl Print) -> io::Result<()> {
    every_way(
        rt,
        "-  part 6971",
        1,
        frame_of(6971, 1, Command::Configuration, 0),
        no_tail(),
    )?;
    every_way(
        rt,
        "-  part 6976",
        1,
        frame_of(6976, 1, Command::Configuration, 0),
        no_tail(),
    )
}

fn count_cases(rt: &impl Print) -> io::Result<()> {
    every_way(
        rt,
        "-  N = 0",
        2,
        frame_of(6974, 0, Command::Configuration, 0),
        no_tail(),
    )?;
    every_way(
        rt,
        "-  N = 1024",
        2,
        frame_of(6974, 1024, Command::Configuration, 0),
        no_tail(),
    )
}

// What has the length of another part's: three copies, and 24 values.
fn length_cases(rt: &impl Print) -> io::Result<()> {
    let copies = frame_of(6972, 1, Command::Configuration, 0);
    let frame = b"\xE8\xFC\x00\x00\x00\x00";
    case(
        rt,
        "-  6972, frame a of a 6974",
        ", read",
        4,
        read_outcome(copies, no_tail(), frame),
    )?;
    let values = frame_of(6972, 1, Command::Individual, 0);
    case(
        rt,
        "-  6972, 24 values",
        ", written",
        4,
        write_outcome(values, no_tail(), 0, &[0; 24]),
    )
}

// A part with values of 12 bits.
fn value_cases(
    rt: &impl Print,
    name: &str,
    part: u16,
    highest: &[u16],
    over: &[u16],
) -> io::Result<()> {
    let told = frame_of(part, 1, Command::Individual, 0);
    case(
        rt,
        name,
        ", value 4095, written",
        0,
        write_outcome(told, no_tail(), 0, highest),
    )?;
    case(
        rt,
        name,
        ", value 4096, written",
        6,
        write_outcome(told, no_tail(), 0, over),
    )
}

// Configuration 0x11 is multiplexed with GLB4. The two frames have the global bytes 3 and 4.
fn global_cases(
    rt: &impl Print,
    name: &str,
    part: u16,
    three: &[u8],
    four: &[u8],
) -> io::Result<()> {
    let told = frame_of(part, 1, Command::Global, 0x11);
    let written_three = write_outcome(told, no_tail(), 3, &[0; 1]);
    let written_four = write_outcome(told, no_tail(), 4, &[0; 1]);
    let read_three = read_outcome(told, no_tail(), three);
    let read_four = read_outcome(told, no_tail(), four);
    case(rt, name, ", global 3, written", 0, written_three)?;
    case(rt, name, ", global 3, read", 0, read_three)?;
    case(rt, name, ", global 4, written", 6, written_four)?;
    case(rt, name, ", global 4, read", 6, read_four)
}

// What is told is refused by writer, reader and return reader, before anything else is looked at.
fn every_way(rt: &impl Print, name: &str, should: u8, told: Told, tail: Tail) -> io::Result<()> {
    let frame = b"\xE8\xFC\x00\x00\x00\x00";
    let back = b"\xE8\xFC\x00";
    let written = write_outcome(told, tail, 0, &[0; 1]);
    case(rt, name, ", written", should, written)?;
    case(rt, name, ", read", should, read_outcome(told, tail, frame))?;
    case(
        rt,
        name,
        ", return read",
        should,
        return_outcome(told, tail, back),
    )
}

// The line of a case: 0 is taken, any other number the refusal.
fn case(rt: &impl Print, name: &str, way: &str, should: u8, came: Outcome) -> io::Result<()> {
    cases::case(rt, format_args!("{name}{way}"), Outcome(should), came)
}

fn write_outcome(told: Told, tail: Tail, byte: u8, values: &[u16]) -> Outcome {
    let mut out = [0; 64];
    Outcome::from(frame_writer::write(told, tail, byte, b"", values, &mut out))
}

fn read_outcome(told: Told, tail: Tail, frame: &[u8]) -> Outcome {
    let mut bytes = [0; 3];
    let mut values = [0; 24];
    Outcome::from(frame_reader::read(told, tail, frame, &mut bytes, &mut values))
}

fn return_outcome(told: Told, tail: Tail, frame: &[u8]) -> Outcome {
    let (part, devices, command) = (told.part, told.devices, told.command);
    Outcome::from(return_reader::read_return(part, devices, command, tail, frame))
}
