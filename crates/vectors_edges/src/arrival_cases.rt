// When a calibration frame for two devices is stored, whichever edge it comes with: each device stores with the last bit of its slice. A third
// device is in the chain, for which the frame has no slice.
ghost use Rattle.std.specs.Prelude.{◌<◌};

use crate::edges::{edge_name, states_of};
use cases::{Bytes, case, front};
use std::{array, io};
use three::{fresh_chain, run_three};

pub fn run(rt: &impl Print) -> io::Result<()> {
    for edge in [serial::EARLY, serial::EXACT, serial::LATE] {
        edge_cases(rt, edge)?;
    }
    Ok(())
}

// Slices of 24 bits, and of 16 bits. Each device has three places, of which a part with 16 outputs uses two.
fn edge_cases(rt: &impl Print, edge: u8) -> io::Result<()> {
    frame_cases(
        rt,
        6974,
        edge,
        b"\xE8\x54\x00\x01\x02\x03\x04\x05\x06",
        48,
        72,
        b"\x01\x02\x03\x00\x00\x00\x00\x00\x00",
        b"\x01\x02\x03\x04\x05\x06\x00\x00\x00",
    )?;
    frame_cases(
        rt,
        6973,
        edge,
        b"\xE8\x54\x00\x01\x02\x04\x05",
        40,
        56,
        b"\x01\x02\x00\x00\x00\x00\x00\x00\x00",
        b"\x01\x02\x00\x04\x05\x00\x00\x00\x00",
    )
}

// The slices end with bits `first` and `second`. After each the three devices hold `one` and `both`.
fn frame_cases(
    rt: &impl Print,
    part: u16,
    edge: u8,
    frame: &[u8],
    first: usize,
    second: usize,
    one: &[u8],
    both: &[u8],
) -> io::Result<()>
    requires { (0 < first) × (0 < second) }
{
    arrival_case(rt, part, edge, frame, first - 1, &[0; 9])?;
    arrival_case(rt, part, edge, frame, first, one)?;
    arrival_case(rt, part, edge, frame, second - 1, one)?;
    arrival_case(rt, part, edge, frame, second, both)
}

// The line of a case: what the three devices hold after so many states of the frame.
fn arrival_case(
    rt: &impl Print,
    part: u16,
    edge: u8,
    frame: &[u8],
    count: usize,
    should: &[u8],
) -> io::Result<()> {
    let states = states_of(frame, edge);
    let (_, chain) = run_three(fresh_chain(part), front(&states, count), &mut [0; 127]);
    let came: [u8; 9] = array::from_fn(|place| chain[place / 3].registers.calibration[place % 3]);
    let (frame, edge) = (Bytes(frame), edge_name(edge));
    case(
        rt,
        format_args!("2g {part}, frame{frame}, {edge} edge, 3 devices after {count} states"),
        Bytes(should),
        Bytes(&came),
    )
}
