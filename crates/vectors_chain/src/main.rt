// Chains of the numbers of docs/RULES.md, run through the library. A line for each says the case, what it should be, what came out, and
// `ok`, or `WRONG` where the two differ.
#![tactic(auto)]

mod order_cases; // the order of unequal individual values
mod record_cases; // chains whose records are refused
mod return_cases; // g and q, and 1023 devices: run, packed and read

use std::io;

fn main(rt: HostRuntime) -> io::Result<()> {
    return_cases::run(&rt)?;
    return_cases::run_joined(&rt)?;
    order_cases::run(&rt)?;
    record_cases::run(&rt)
}
