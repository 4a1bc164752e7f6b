// A store, a boundary or a burst in one clock. The watchdog looks at its end, by what is then held. The bit is clear in the devices that are
// sent nothing.
use crate::chains::{first_case, second_case};
use crate::devices::{at, still_for, storing, storing_values};
use crate::seen::{cleared, kept};
use parts::Command;
use std::io;

pub fn run(rt: &impl Print) -> io::Result<()> {
    enabling_cases(rt)?;
    boundary_cases(rt)?;
    value_cases(rt)?;
    burst_case(rt)
}

// The clock that enables the watchdog counts, and the one that disables it does not.
fn enabling_cases(rt: &impl Print) -> io::Result<()> {
    let other = still_for(0x00, 1, 0, 0, 0);
    first_case(
        rt,
        "5a limit 1, configuration 03 stored",
        storing(still_for(0x00, 1, 0, 1, 1), Command::Configuration, 0x03),
        other,
        b"\x03",
        cleared(1, 1, 1, 1),
    )?;
    first_case(
        rt,
        "5b limit 10, counts 9, configuration 00 stored",
        storing(still_for(0x02, 10, 9, 0, 1), Command::Configuration, 0x00),
        other,
        b"\x02",
        kept(0, 0, 0, 1),
    )
}

// The position returns to 0. What becomes active then is cleared, where the watchdog expires.
fn boundary_cases(rt: &impl Print) -> io::Result<()> {
    let other = still_for(0x00, 10, 0, 0, 0);
    first_case(
        rt,
        "5c limit 10, counts 9, from 524287",
        at(still_for(0x02, 10, 9, 0, 0), 524287),
        other,
        b"\x00",
        cleared(10, 10, 0, 0),
    )?;
    let mut shown = kept(9, 9, 0, 0);
    shown.active0 = 1;
    shown.active1 = 2;
    first_case(
        rt,
        "-  limit 10, counts 8, from 524287",
        at(still_for(0x02, 10, 8, 0, 0), 524287),
        other,
        b"\x00",
        shown,
    )
}

// An individual slice is stored.
fn value_cases(rt: &impl Print) -> io::Result<()> {
    let other = still_for(0x00, 10, 0, 0, 0);
    first_case(
        rt,
        "5d limit 10, counts 9, value 5 stored",
        storing_values(still_for(0x02, 10, 9, 0, 1)),
        other,
        b"\x02",
        cleared(10, 10, 0, 1),
    )?;
    let mut stored = kept(9, 9, 0, 1);
    stored.waiting0 = 5;
    first_case(
        rt,
        "-  limit 10, counts 8, value 5 stored",
        storing_values(still_for(0x02, 10, 8, 0, 1)),
        other,
        b"\x02",
        stored,
    )
}

// A device sends the header on to one that stands at the levels with which a header ends.
fn burst_case(rt: &impl Print) -> io::Result<()> {
    second_case(
        rt,
        "5e limit 1000, counts 500, a header sent on",
        storing(still_for(0x00, 1000, 0, 0, 1), Command::Calibration, 0xA8),
        still_for(0x02, 1000, 500, 0, 1),
        b"\x02",
        kept(0, 0, 0, 1),
    )
}
