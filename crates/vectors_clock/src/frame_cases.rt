// A chain that is given a frame of 72 states for two devices; a third is in the chain, for which the frame has no slice. Each state advances
// every device once, whatever it is sent.
use crate::devices::waiting_at;
use crate::seen::{Seen, kept, seen_of, shown};
use cases::Bytes;
use std::io;
use three::run_three;

pub fn run(rt: &impl Print) -> io::Result<()> {
    case(
        rt,
        "4b 6974 from 0, configuration 01 for 2 devices",
        0,
        b"\xE8\xFC\x00\x01\x01\x01\x01\x01\x01",
        kept(72, 72, 7),
    )?;
    return_cases(rt)
}

// Device 1 stores with state 48. The positions return to 0 with that state, or with the next, which shows what it stored.
fn return_cases(rt: &impl Print) -> io::Result<()> {
    let frame = b"\xE8\xA8\x00\x05\x05\x05\x05\x05\x05";
    case(
        rt,
        "-  6974 from 524240, global 05 for 2 devices",
        524240,
        frame,
        shown(24, 24, 5),
    )?;
    let mut stored = shown(23, 23, 5);
    stored.active = 5;
    case(
        rt,
        "-  6974 from 524239, global 05 for 2 devices",
        524239,
        frame,
        stored,
    )
}

// The line of a case: three devices at a position after a frame of 9 bytes. Another frame is refused, and its states are zeros.
fn case(rt: &impl Print, name: &str, position: u64, frame: &[u8], should: Seen) -> io::Result<()> {
    let device = waiting_at(6974, 0, position);
    let mut states = [0; 72];
    let _ = serial::frame_states(frame, 72, serial::EXACT, &mut states);
    let (_, chain) = run_three([device; 3], &states, &mut [0; 95]);
    let name = format_args!("{name}, frame{}, 3 devices", Bytes(frame));
    cases::case(rt, name, should, seen_of(chain))
}
