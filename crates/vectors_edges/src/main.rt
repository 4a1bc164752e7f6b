// Load edges, run through the library: the worked examples 2a to 2i, and the edges of the states operation. A line for each says the case, what
// it should be, what came out, and `ok`, or `WRONG` where the two differ.
#![tactic(auto)]

mod arrival_cases; // 2g: when two devices store, with each edge
mod edges; // a frame on the wire, and the name of its edge
mod rise_cases; // 2a to 2f and 2h: where one device is after a rising edge
mod sent_cases; // 2i: what is sent on, with each edge
mod states_cases; // the states operation, and its refusals
mod stepping; // one device, stepped by value

use std::io;

fn main(rt: HostRuntime) -> io::Result<()> {
    rise_cases::run(&rt)?;
    arrival_cases::run(&rt)?;
    sent_cases::run(&rt)?;
    states_cases::run(&rt)
}
