// Devices with a watchdog, run through the library: the worked examples 5a to 5l, and watchdogs that are refused. A line for each says the case,
// what it should be, what came out, and `ok`, or `WRONG` where the two differ.
#![tactic(auto)]

mod chains; // what one of three devices holds after a run
mod count_cases; // 5f to 5k: counts and limits
mod devices; // devices with a watchdog
mod frame_cases; // 5l: an expiry within a frame
mod record_cases; // watchdogs that are refused
mod seen; // what a device is seen to hold
mod step_cases; // one device, stepped by value
mod store_cases; // 5a to 5e: a store, a boundary or a burst in one clock

use std::io;

fn main(rt: HostRuntime) -> io::Result<()> {
    store_cases::run(&rt)?;
    count_cases::run(&rt)?;
    frame_cases::run(&rt)?;
    step_cases::run(&rt)?;
    record_cases::run(&rt)
}
