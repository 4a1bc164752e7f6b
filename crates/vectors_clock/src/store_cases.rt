// A store in one clock of a chain. The first of three devices lacks the last bit of its slice; the two behind it wait for SYNC, and are at
// the same position with the same configuration.
use crate::devices::{storing_at, waiting_at};
use crate::seen::{Seen, kept, seen_of, shown};
use cases::Bytes;
use device::Device;
use parts::Command;
use std::io;
use three::run_three;

pub fn run(rt: &impl Print) -> io::Result<()> {
    global_cases(rt)?;
    shortening_cases(rt)?;
    lengthening_cases(rt)?;
    same_length_cases(rt)
}

// The position returns to 0 with the last bit of a global slice, or one clock later.
fn global_cases(rt: &impl Print) -> io::Result<()> {
    let last = waiting_at(6974, 0, 524287);
    let storing = storing_at(last, Command::Global, 5, 5, 5);
    case(
        rt,
        "4a 6974 from 524287, global 05 stored at 0",
        storing,
        last,
        b"\x03",
        shown(0, 0, 5),
    )?;
    let before = waiting_at(6974, 0, 524286);
    let storing = storing_at(before, Command::Global, 5, 5, 5);
    case(
        rt,
        "-  6974 from 524286, global 05 stored at 524287",
        storing,
        before,
        b"\x03",
        kept(524287, 524287, 5),
    )
}

// GLB4 is set.
fn shortening_cases(rt: &impl Print) -> io::Result<()> {
    let over = waiting_at(6975, 0, 200000);
    case(
        rt,
        "4c 6975 from 200000, configuration 10 stored at 200001",
        storing_at(over, Command::Configuration, 0x10, 0x10, 0x10),
        over,
        b"\x02",
        kept(68929, 200001, 7),
    )?;
    let on = waiting_at(6975, 0, 131071);
    case(
        rt,
        "4d 6975 from 131071, configuration 10 stored at 131072",
        storing_at(on, Command::Configuration, 0x10, 0x10, 0x10),
        on,
        b"\x02",
        kept(0, 131072, 7),
    )
}

// GLB4 is cleared. The two devices behind keep it.
fn lengthening_cases(rt: &impl Print) -> io::Result<()> {
    let last = waiting_at(6975, 0x10, 131071);
    case(
        rt,
        "4e 6975 with GLB4 from 131071, configuration 00 stored at 0",
        storing_at(last, Command::Configuration, 0, 0, 0),
        last,
        b"\x02",
        shown(0, 0, 7),
    )?;
    let before = waiting_at(6975, 0x10, 131070);
    let storing = storing_at(before, Command::Configuration, 0, 0, 0);
    case(
        rt,
        "4f 6975 with GLB4 from 131070, configuration 00 stored at 131071",
        storing,
        before,
        b"\x02",
        kept(131071, 131071, 7),
    )?;
    case(
        rt,
        "4f 6975 with GLB4 from 131070, configuration 00 stored at 131071",
        storing,
        before,
        b"\x02\x00",
        kept(131072, 0, 7),
    )
}

// Copies that differ store nothing, and a 6974 has no shorter frame.
fn same_length_cases(rt: &impl Print) -> io::Result<()> {
    let over = waiting_at(6975, 0, 200000);
    case(
        rt,
        "4g 6975 from 200000, configuration copies 10 12 10 at 200001",
        storing_at(over, Command::Configuration, 0x10, 0x12, 0x10),
        over,
        b"\x02",
        kept(200001, 200001, 7),
    )?;
    let over = waiting_at(6974, 0, 200000);
    case(
        rt,
        "4h 6974 from 200000, configuration 10 stored at 200001",
        storing_at(over, Command::Configuration, 0x10, 0x10, 0x10),
        over,
        b"\x02",
        kept(200001, 200001, 7),
    )
}

// The line of a case: a device and two others after a run of so few states.
fn case(
    rt: &impl Print,
    name: &str,
    first: Device,
    other: Device,
    states: &[u8],
    should: Seen,
) -> io::Result<()> {
    let (_, chain) = run_three([first, other, other], states, &mut [0; 32]);
    let name = format_args!("{name}, states{}, 3 devices", Bytes(states));
    cases::case(rt, name, should, seen_of(chain))
}
