// The numbers of docs/RULES.md, "Numbers to hold against", that are of current, run through the library. A line for each says the case, what it
// should be, what came out, and `ok`, or `WRONG` where the two differ.
#![tactic(auto)]

mod device_cases; // one device: its figures are the sign's
mod refusal_cases; // sets that are refused, and that nothing is written then
mod sign_cases; // two devices and their sign

use std::io;

fn main(rt: HostRuntime) -> io::Result<()> {
    device_cases::run(&rt)?;
    sign_cases::run(&rt)?;
    refusal_cases::run(&rt)
}
