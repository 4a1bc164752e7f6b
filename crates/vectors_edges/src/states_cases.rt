// The states operation: what each edge makes of a frame, and what is refused.
use crate::edges::{edge_name, states_of};
use cases::{Bytes, Outcome, case, front};
use std::{fmt, io};

pub fn run(rt: &impl Print) -> io::Result<()> {
    frame_cases(
        rt,
        b"\xE8\x54\x00\xA9",
        b"\x01\x01\x01\x00\x01\x00\x00\x00\x02\x03\x02\x03\x02\x03\x02\x02\x02\x02\x02\x02\x02\x02\x02\x02\x03\x02\x03\x02\x03\x02\x02\x03",
        0,
    )?;
    frame_cases(
        rt,
        b"\xE8\xA8\x00\x60",
        b"\x01\x01\x01\x00\x01\x00\x00\x00\x03\x02\x03\x02\x03\x02\x02\x02\x02\x02\x02\x02\x02\x02\x02\x02\x02\x03\x03\x02\x02\x02\x02\x02",
        1,
    )?;
    refusal_cases(rt)
}

// A frame of 4 bytes whose first command bit is `first`. Each of the other two edges differs from the exact one in one load bit: that of
// SYNC's last bit, a 0, or that of the first command bit.
fn frame_cases(rt: &impl Print, frame: &[u8], should: &[u8], first: u8) -> io::Result<()> {
    let exact = states_of(frame, serial::EXACT);
    frame_case(rt, frame, serial::EXACT, should)?;
    let mut early = exact;
    early[7] = 2;
    frame_case(rt, frame, serial::EARLY, front(&early, 32))?;
    let mut late = exact;
    late[8] = first;
    frame_case(rt, frame, serial::LATE, front(&late, 32))
}

fn frame_case(rt: &impl Print, frame: &[u8], edge: u8, should: &[u8]) -> io::Result<()> {
    let states = states_of(frame, edge);
    let (frame, edge) = (Bytes(frame), edge_name(edge));
    case(
        rt,
        format_args!("-  frame{frame}, {edge} edge"),
        Bytes(should),
        Bytes(front(&states, 32)),
    )
}

// The lowest number wins: that of the length, the room, the edge.
fn refusal_cases(rt: &impl Print) -> io::Result<()> {
    refusal_case(rt, 32, 0, 32, 0)?;
    refusal_case(rt, 32, 1, 32, 0)?;
    refusal_case(rt, 32, 2, 32, 0)?;
    refusal_case(rt, 32, 3, 32, 13)?;
    refusal_case(rt, 32, 255, 32, 13)?;
    refusal_case(rt, 24, 3, 32, 4)?;
    refusal_case(rt, 33, 255, 32, 4)?;
    refusal_case(rt, 32, 3, 31, 5)?;
    refusal_case(rt, 32, 255, 0, 5)
}

// What the operation answers, and whether the lent list is as it came in.
#[derive(Clone, Copy, PartialEq)]
struct Left {
    outcome: Outcome,
    kept: bool,
}

impl fmt::Display for Left {
    fn fmt<W: fmt::Write>(&self, f: &mut fmt::Formatter<W>) -> fmt::Result {
        let written = if self.kept { "nothing" } else { "states" };
        write!(f, "{}, {written} written", self.outcome)
    }
}

// The line of a case: a frame of 4 bytes that is told to have so many bits, and room for so many states, 32 at most.
fn refusal_case(
    rt: &impl Print,
    bits: usize,
    edge: u8,
    room: usize,
    refusal: u8,
) -> io::Result<()> {
    let mut states = [9; 32];
    let lent = &mut states[..room.min(32)];
    let outcome = Outcome::from(serial::frame_states(b"\xE8\x54\x00\xA9", bits, edge, lent));
    let kept = states == [9; 32];
    let should = Left {
        outcome: Outcome(refusal),
        kept: refusal != 0,
    };
    case(
        rt,
        format_args!("-  4 bytes as {bits} bits, edge {edge}, room {room}"),
        should,
        Left { outcome, kept },
    )
}
