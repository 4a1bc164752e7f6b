// Sets that are refused, each with the lowest number that applies; the lent list is as it came in, and the sign's figures are 0.
use crate::device_cases::{Figure, figure_of};
use cases::{Outcome, front, verdict};
use std::io;

pub fn run(rt: &impl Print) -> io::Result<()> {
    case(
        rt,
        "-  6971, and no list to write to",
        6971,
        1,
        3,
        0,
        24,
        0,
        1,
    )?;
    case(rt, "-  6974, N = 0", 6974, 0, 0, 0, 0, 3, 2)?;
    case(rt, "-  6974, N = 1024", 6974, 1024, 3, 0, 24, 3, 2)?;
    case(
        rt,
        "-  6974, two calibration bytes, and no list to write to",
        6974,
        1,
        2,
        0,
        24,
        0,
        4,
    )?;
    case(rt, "-  6974, 23 values", 6974, 1, 3, 0, 23, 3, 4)?;
    case(
        rt,
        "-  6974, 2 numbers to write to, and g = 128",
        6974,
        1,
        3,
        128,
        24,
        2,
        5,
    )?;
    case(rt, "-  6974, g = 128", 6974, 1, 3, 128, 24, 3, 6)?;
    case(rt, "-  6974, g = 127", 6974, 1, 3, 127, 24, 3, 0)
}

// So many bytes, values and numbers to write to, of a set whose values are all 16: an accepted one draws nothing.
fn case(
    rt: &impl Print,
    name: &str,
    part: u16,
    devices: usize,
    bytes: usize,
    global: u8,
    values: usize,
    room: usize,
    should: u8,
) -> io::Result<()> {
    let mut figures = [9; 3];
    let sign = current::bb_current(
        part,
        devices,
        0x00,
        front(&[0; 3], bytes),
        global,
        front(&[16; 24], values),
        &mut figures[..room.min(3)],
    );
    cases::case(rt, name, Outcome(should), Outcome(sign.refusal))?;
    let kept = figures == if should == 0 { [0; 3] } else { [9; 3] };
    let none = Figure::from(sign) == figure_of(0, 0, 0);
    let verdict = verdict(kept && none);
    println!(rt; "{name}, the list and the sign's figures as they should be: {verdict}")
}
