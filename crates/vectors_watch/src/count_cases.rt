// Counts and limits, in runs of low states and of high ones that begin no frame. All three devices are the same at first.
use crate::chains::{first_after, first_case, second_case};
use crate::devices::{configured, still_for, with_values};
use crate::seen::{cleared, kept};
use std::io;

pub fn run(rt: &impl Print) -> io::Result<()> {
    sent_cases(rt)?;
    level_cases(rt)?;
    limit_cases(rt)?;
    load_cases(rt)?;
    single_case(rt)?;
    largest_case(rt)
}

// A device that is sent nothing keeps its levels, and counts on.
fn sent_cases(rt: &impl Print) -> io::Result<()> {
    let device = still_for(0x02, 10, 0, 0, 0);
    let states = b"\x00\x01\x00\x01\x00";
    first_case(rt, "5f limit 10", device, device, states, kept(0, 5, 0, 0))?;
    second_case(rt, "5f limit 10", device, device, states, kept(5, 5, 0, 0))
}

// Levels follow the lines also while the bit is clear.
fn level_cases(rt: &impl Print) -> io::Result<()> {
    let device = still_for(0x00, 10, 0, 0, 0);
    let states = b"\x01\x03\x03";
    first_case(
        rt,
        "5g limit 10, bit clear",
        device,
        device,
        states,
        kept(0, 0, 1, 1),
    )?;
    let set = configured(first_after(device, device, states), 0x02);
    first_case(
        rt,
        "5g limit 10, then bit set",
        set,
        device,
        b"\x03",
        kept(1, 1, 1, 1),
    )
}

// Every clock at or over the limit clears the values.
fn limit_cases(rt: &impl Print) -> io::Result<()> {
    let device = still_for(0x02, 3, 0, 0, 0);
    first_case(
        rt,
        "5h limit 3",
        device,
        device,
        b"\x00\x00",
        kept(2, 2, 0, 0),
    )?;
    let states = b"\x00\x00\x00";
    first_case(
        rt,
        "5h limit 3",
        device,
        device,
        states,
        cleared(3, 3, 0, 0),
    )?;
    let again = with_values(first_after(device, device, states));
    first_case(
        rt,
        "5h limit 3, then values again",
        again,
        device,
        b"\x00",
        cleared(4, 4, 0, 0),
    )
}

// The data line toggles, and the load line stands still.
fn load_cases(rt: &impl Print) -> io::Result<()> {
    let device = still_for(0x02, 4, 0, 0, 0);
    first_case(
        rt,
        "5i limit 4",
        device,
        device,
        b"\x01\x00\x01",
        kept(0, 3, 1, 0),
    )?;
    first_case(
        rt,
        "5i limit 4",
        device,
        device,
        b"\x01\x00\x01\x00",
        cleared(0, 4, 0, 0),
    )
}

// The values of MUX1 are cleared also while D0 is 0.
fn single_case(rt: &impl Print) -> io::Result<()> {
    let device = still_for(0x02, 1, 0, 0, 0);
    first_case(
        rt,
        "5j limit 1, D0 is 0",
        device,
        device,
        b"\x00",
        cleared(1, 1, 0, 0),
    )
}

// A count ends at 2,000,000.
fn largest_case(rt: &impl Print) -> io::Result<()> {
    let device = still_for(0x02, 2000000, 2000000, 0, 0);
    first_case(
        rt,
        "5k limit 2000000, counts 2000000",
        device,
        device,
        b"\x00",
        cleared(2000000, 2000000, 0, 0),
    )
}
