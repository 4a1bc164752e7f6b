// The numbers of docs/RULES.md, "Numbers to hold against", that are of light, run through the library. A line for each says the case, what it
// should be, what came out, and `ok`, or `WRONG` where the two differ.
#![tactic(auto)]

mod clock_cases; // j, k, r and s: the clocks at which an output is lit, and outputs that a part does not have
mod subframe_cases; // i: ON subframes and leads

use std::io;

fn main(rt: HostRuntime) -> io::Result<()> {
    subframe_cases::run(&rt)?;
    clock_cases::run(&rt)
}
