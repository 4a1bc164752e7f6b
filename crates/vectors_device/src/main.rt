// Rules of one device that no number of docs/RULES.md shows, run through the library. A line for each says the case, what it should be, what
// came out, and `ok`, or `WRONG` where the two differ.
#![tactic(auto)]

mod feeding; // a fresh device, and one that is given line states
mod record_cases; // records that are refused
mod seen; // what a device is seen to do
mod sixteen_cases; // one device with 16 outputs
mod step_cases; // one device, stepped by value

use std::io;

fn main(rt: HostRuntime) -> io::Result<()> {
    step_cases::run(&rt)?;
    sixteen_cases::run(&rt)?;
    record_cases::run(&rt)
}
