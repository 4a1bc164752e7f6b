// Records that a step refuses: a part that is none of the four, and a 6972 that holds something where it has no output and no bank.
use cases::Outcome;
use device::Device;
use registers::Registers;
use std::io;
use three::fresh_of;

pub fn run(rt: &impl Print) -> io::Result<()> {
    part_cases(rt)?;
    byte_cases(rt)?;
    waiting_cases(rt)?;
    active_cases(rt)?;
    slice_cases(rt)
}

fn part_cases(rt: &impl Print) -> io::Result<()> {
    case(rt, "-  record of a part 6971", 1, fresh_of(6971).registers)?;
    case(rt, "-  record of a part 6976", 1, fresh_of(6976).registers)
}

// A third calibration byte.
fn byte_cases(rt: &impl Print) -> io::Result<()> {
    let mut two = fresh_of(6972).registers;
    two.calibration[2] = 1;
    case(rt, "-  6972, calibration byte 2 is 1", 13, two)?;
    let mut three = fresh_of(6974).registers;
    three.calibration[2] = 1;
    case(rt, "-  6974, calibration byte 2 is 1", 0, three)
}

fn waiting_cases(rt: &impl Print) -> io::Result<()> {
    let fresh = fresh_of(6972).registers;
    let mut last = fresh;
    last.waiting0[15] = 1;
    case(rt, "-  6972, waiting MUX0 value 15 is 1", 0, last)?;
    let mut over = fresh;
    over.waiting0[16] = 1;
    case(rt, "-  6972, waiting MUX0 value 16 is 1", 13, over)?;
    let mut other = fresh_of(6974).registers;
    other.waiting0[16] = 1;
    case(rt, "-  6974, waiting MUX0 value 16 is 1", 0, other)
}

fn active_cases(rt: &impl Print) -> io::Result<()> {
    let mut over = fresh_of(6973).registers;
    over.active1[23] = 1;
    case(rt, "-  6973, active MUX1 value 23 is 1", 13, over)
}

// The fields of the slice that is coming in: 32 at most.
fn slice_cases(rt: &impl Print) -> io::Result<()> {
    let fresh = fresh_of(6972).registers;
    let mut last = fresh;
    last.slice[31] = 1;
    case(rt, "-  6972, field 31 of the slice is 1", 0, last)?;
    let mut over = fresh;
    over.slice[32] = 1;
    case(rt, "-  6972, field 32 of the slice is 1", 13, over)
}

// The line of a case: a record of a device that hunts is stepped.
fn case(rt: &impl Print, name: &str, should: u8, registers: Registers) -> io::Result<()> {
    let place = fresh_of(6972).place;
    let came = tables::carried_number(Device { registers, place }.step(0));
    cases::case(rt, name, Outcome(should), Outcome(came))
}
