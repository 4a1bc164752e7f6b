// The numbers of docs/RULES.md, "Numbers to hold against", that are of frames, run through the library. A line for each says the case, what it
// should be, what came out, and `ok`, or `WRONG` where the two differ.
#![tactic(auto)]

mod frame_cases; // a to f and h, of the 24-output parts: written, compared and read back
mod setting; // what a frame sets
mod sixteen_cases; // l to p, of the 16-output parts
mod taken_cases; // what is refused, and what is just taken

use std::io;

fn main(rt: HostRuntime) -> io::Result<()> {
    frame_cases::run(&rt)?;
    frame_cases::run_with_tail(&rt)?;
    taken_cases::run_unused_bit(&rt)?;
    sixteen_cases::run(&rt)?;
    taken_cases::run(&rt)
}
