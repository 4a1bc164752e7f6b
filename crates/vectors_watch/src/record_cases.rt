// Watchdogs that are refused, in a record and in a call for a fresh chain.
use crate::devices::still_for;
use capi_device::bb_judge;
use cases::Outcome;
use device::Device;
use std::io;
use three::run_three;

pub fn run(rt: &impl Print) -> io::Result<()> {
    number_cases(rt)?;
    line_cases(rt)?;
    chain_case(rt)?;
    fresh_cases(rt)
}

// A bit and a limit.
fn number_cases(rt: &impl Print) -> io::Result<()> {
    case(rt, "-  bit 1", with_bit(1), 0)?;
    case(rt, "-  bit 7", with_bit(7), 0)?;
    case(rt, "-  bit 0", with_bit(0), 13)?;
    case(rt, "-  bit 4", with_bit(4), 13)?;
    case(rt, "-  bit 8", with_bit(8), 13)?;
    case(rt, "-  limit 1", still_for(0, 1, 0, 0, 0), 0)?;
    case(rt, "-  limit 0", still_for(0, 0, 0, 0, 0), 13)?;
    case(rt, "-  limit 2000000", still_for(0, 2000000, 0, 0, 0), 0)?;
    case(rt, "-  limit 2000001", still_for(0, 2000001, 0, 0, 0), 13)
}

// Levels and counts. A count that is not 0 while the bit is clear is in range.
fn line_cases(rt: &impl Print) -> io::Result<()> {
    case(rt, "-  levels 1 1", still_for(0x02, 10, 0, 1, 1), 0)?;
    case(rt, "-  levels 2 0", still_for(0x02, 10, 0, 2, 0), 13)?;
    case(rt, "-  levels 0 2", still_for(0x02, 10, 0, 0, 2), 13)?;
    case(
        rt,
        "-  counts 2000000, bit clear",
        still_for(0x00, 10, 2000000, 0, 0),
        0,
    )?;
    case(
        rt,
        "-  counts 2000001, bit clear",
        still_for(0x00, 10, 2000001, 0, 0),
        13,
    )
}

// The line of a case: a record alone.
fn case(rt: &impl Print, name: &str, device: Device, should: u8) -> io::Result<()> {
    cases::case(rt, name, Outcome(should), Outcome(bb_judge(device)))
}

fn with_bit(bit: u8) -> Device {
    Device::fresh(6974, bit, 10)
}

// The line of a chain that is given one state.
fn chain_case(rt: &impl Print) -> io::Result<()> {
    let good = still_for(0x02, 10, 2000000, 0, 0);
    let over = still_for(0x02, 10, 2000001, 0, 0);
    let (ran, _) = run_three([good, good, over], b"\x00", &mut [0; 24]);
    let name = "-  3 devices, counts 2000000 2000000 2000001";
    cases::case(rt, name, Outcome(13), Outcome(ran.refusal))
}

fn fresh_cases(rt: &impl Print) -> io::Result<()> {
    fresh_case(rt, "-  fresh, bit 1, limit 1, 3 devices", 6974, 1, 1, 3, 0)?;
    fresh_case(rt, "-  fresh, bit 4, limit 1, 3 devices", 6974, 4, 1, 3, 13)?;
    fresh_case(rt, "-  fresh, bit 1, limit 0, 3 devices", 6974, 1, 0, 3, 13)?;
    fresh_case(rt, "-  fresh, bit 4, limit 0, no device", 6974, 4, 0, 0, 2)?;
    fresh_case(rt, "-  fresh as 6971, bit 4, no device", 6971, 4, 0, 0, 1)
}

// The line of a call for a fresh chain.
fn fresh_case(
    rt: &impl Print,
    name: &str,
    part: u16,
    bit: u8,
    limit: u32,
    n: usize,
    should: u8,
) -> io::Result<()> {
    let came = refusals::judge_fresh(part, bit, limit, n);
    cases::case(rt, name, Outcome(should), Outcome::from(came))
}
