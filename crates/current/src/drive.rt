// What is the same for every device of a sign, and what one device draws.
ghost use Rattle.std.specs.Prelude.{◌≡◌, ◌+◌, ◌*◌, ◌/◌, ◌^◌, ◌<◌, ◌≤◌, length};
ghost use Rattle.parts.specs.Parts.{part_of, subframes, period};
ghost use Rattle.current.specs.Closed.{drive_of, Driven, OwnInLists, bank_total, closed_total};

use crate::clocks::bank_clocks;
use sets::{GivenSet, SetNumbers};

// The clocks over which a current is averaged.
pub const PERIOD: u32 = 524288;

#[derive(Clone, Copy)]
pub struct Drive {
    pub banks: usize,
    // Values of a bank: eight outputs, in one phase or in two.
    pub each: usize,
    // The first clock behind the edge zone, and the first of the other one.
    pub edge: u16,
    pub end: u16,
    // Current of a lit sink at calibration byte 0, and what each 1 of the byte adds, in eighths of a microamp.
    pub least: u32,
    pub step: u32,
    // ON subframes in the period, for each phase.
    pub repeats: u32,
}

pub fn drive_for(given: SetNumbers) -> Drive
    requires { given.global < subframes (part_of given.part) given.configuration }
    ensures { result ≡ drive_of (part_of given.part) given.configuration given.global }
{
    let row = parts::constants_of(given.part);
    let phases = 1 + (given.configuration % 2) as u32;
    let subframes = parts::subframes_of(given.part, given.configuration) as u32;
    let frame = subframes * (phases * (row.clocks as u32));
    Drive {
        banks: row.banks as usize,
        each: 8 * (phases as usize),
        edge: row.edge,
        end: row.clocks - row.edge,
        least: row.least,
        step: row.step,
        repeats: period_frames(frame) * ((given.global as u32) + 1),
    }
}

// Frames of so many clocks in the period.
fn period_frames(clocks: u32) -> u32
    requires { 0 < clocks }
    ensures { result ≡ period / clocks }
{
    PERIOD / clocks
}

// What a device draws in the period. Its calibration bytes begin at `bytes`, and its values at `values`.
#[tactic(auto, using(crate::proofs::Bounds::adding))]
pub fn device_total(drive: Drive, given: GivenSet<'_>, bytes: usize, values: usize) -> u64
    requires { Driven drive × OwnInLists drive (length given.calibration.now) bytes (length given.individual.now) values }
    ensures value { result ≡ closed_total drive given.entry.calibration.now bytes given.entry.individual.now values }
    ensures few { result < 2 ^ 51 }
{
    let mut sum = 0;
    // By number: to one byte go several values.
    for bank in 0..drive.banks {
        sum += bank_total(drive, given, bytes, values, bank);
    }
    (drive.repeats as u64) * sum
}

// What a bank of it draws in an ON subframe.
fn bank_total(drive: Drive, given: GivenSet<'_>, bytes: usize, values: usize, bank: usize) -> u64
    requires { Driven drive × OwnInLists drive (length given.calibration.now) bytes (length given.individual.now) values × (bank < drive.banks) }
    ensures value { result ≡ bank_total drive given.entry.calibration.now bytes given.entry.individual.now values bank }
    ensures few { result ≤ 2 ^ 38 }
{
    let from = values + bank * drive.each;
    let lit = bank_clocks(given.individual, from, drive.each, drive.edge, drive.end) as u64;
    lit * (sink_current(drive, given.calibration[bytes + bank]) as u64)
}

// The current of a lit sink at a calibration byte.
fn sink_current(drive: Drive, byte: u8) -> u32
    requires { Driven drive }
    ensures value { result ≡ drive.least + drive.step * byte }
    ensures few { result ≤ 2 ^ 20 }
{
    drive.least + drive.step * (byte as u32)
}
