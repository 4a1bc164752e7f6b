// What is sent on of a calibration frame, whichever edge it comes with. What leaves a chain is seen state by state: SYNC at low load, the rest
// at high. What the first device sends is seen by value: a header, which has no edge of its own, and then states at high load.
ghost use Rattle.std.specs.Prelude.{◌<◌};

use crate::edges::{bits_of, edge_name, states_of};
use crate::stepping::step_all;
use capi_device::Stepped;
use cases::{Bytes, case, front};
use std::{fmt, io};
use three::{fresh_chain, fresh_of, run_three};

pub fn run(rt: &impl Print) -> io::Result<()> {
    for edge in [serial::EARLY, serial::EXACT, serial::LATE] {
        edge_cases(rt, edge)?;
    }
    Ok(())
}

// A frame for three devices with a tail A5.
fn edge_cases(rt: &impl Print, edge: u8) -> io::Result<()> {
    frame_cases(
        rt,
        6974,
        edge,
        b"\xE8\x54\x00\x01\x02\x03\x04\x05\x06\x07\x08\x09\xA5",
        48,
    )?;
    frame_cases(
        rt,
        6973,
        edge,
        b"\xE8\x54\x00\x01\x02\x04\x05\x06\x07\xA5",
        40,
    )
}

// The first slice ends with bit `end`. Behind it stand five zeros and a one.
fn frame_cases(rt: &impl Print, part: u16, edge: u8, frame: &[u8], end: usize) -> io::Result<()>
    requires { (0 < end) × (end < 64) }
{
    returned_case(rt, part, edge, frame)?;
    first_case(rt, part, edge, frame, end - 1, sent(0, 0, 0))?;
    first_case(rt, part, edge, frame, end, sent(24, 1, 0))?;
    first_case(rt, part, edge, frame, end + 5, sent(1, 0, 2))?;
    first_case(rt, part, edge, frame, end + 6, sent(1, 0, 3))
}

// The line of a case: the states that come back from three fresh devices.
fn returned_case(rt: &impl Print, part: u16, edge: u8, frame: &[u8]) -> io::Result<()> {
    let should =
        b"\x01\x01\x01\x00\x01\x00\x00\x00\x02\x03\x02\x03\x02\x03\x02\x02\x02\x02\x02\x02\x02\x02\x02\x02\x03\x02\x03\x02\x02\x03\x02\x03";
    let states = states_of(frame, edge);
    let mut room = [0; 127];
    let (ran, _) = run_three(fresh_chain(part), front(&states, bits_of(frame)), &mut room);
    let (frame, edge) = (Bytes(frame), edge_name(edge));
    case(
        rt,
        format_args!("2i {part}, frame{frame}, {edge} edge, returned by 3 devices"),
        Bytes(should),
        Bytes(front(&room, ran.returned)),
    )
}

// What a step sends on: so many states, of a header its command and its count.
#[derive(Clone, Copy, PartialEq)]
struct SentOn {
    sent: u8,
    command: u8,
    count: u16,
    state: u8,
}

fn sent(sent: u8, command: u8, state: u8) -> SentOn {
    SentOn {
        sent,
        command,
        count: 0,
        state,
    }
}

impl From<Stepped> for SentOn {
    fn from(stepped: Stepped) -> SentOn {
        SentOn {
            sent: stepped.sent,
            command: stepped.command,
            count: stepped.count,
            state: stepped.state,
        }
    }
}

impl fmt::Display for SentOn {
    fn fmt<W: fmt::Write>(&self, f: &mut fmt::Formatter<W>) -> fmt::Result {
        let (sent, command, count, state) = (self.sent, self.command, self.count, self.state);
        match sent {
            1 => write!(f, " {sent} sent, state {state}"),
            24 => write!(
                f,
                " {sent} sent, a header with command {command} and count {count}"
            ),
            _ => write!(f, " {sent} sent"),
        }
    }
}

// The line of a case: what a fresh device sends on at the last of so many states.
fn first_case(
    rt: &impl Print,
    part: u16,
    edge: u8,
    frame: &[u8],
    count: usize,
    should: SentOn,
) -> io::Result<()> {
    let states = states_of(frame, edge);
    let came = step_all(fresh_of(part), front(&states, count));
    let (frame, edge) = (Bytes(frame), edge_name(edge));
    case(
        rt,
        format_args!("2i {part}, frame{frame}, {edge} edge, device 1 at state {count}"),
        should,
        SentOn::from(came),
    )
}
