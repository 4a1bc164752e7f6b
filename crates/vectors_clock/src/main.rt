// Devices that keep their own clock, run through the library: the worked examples 4a to 4i, and positions that are refused. A line for each
// says the case, what it should be, what came out, and `ok`, or `WRONG` where the two differ.
#![tactic(auto)]

mod devices; // devices at a position
mod frame_cases; // 4b: a chain that is given a frame
mod record_cases; // positions that are refused
mod seen; // what a chain is seen to hold
mod step_cases; // 4i: one device, stepped by value
mod store_cases; // 4a and 4c to 4h: a store in one clock of a chain

use std::io;

fn main(rt: HostRuntime) -> io::Result<()> {
    store_cases::run(&rt)?;
    frame_cases::run(&rt)?;
    step_cases::run(&rt)?;
    record_cases::run(&rt)
}
