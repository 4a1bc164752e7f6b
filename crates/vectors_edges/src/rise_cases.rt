// Where a fresh device is after a line history that ends in a rising edge: the device stepped by value, and the first of a chain that is run.
// In a case's name, L stands before bits at low load and H before bits at high load.
use crate::stepping::step_all;
use cases::{Bytes, Outcome, line};
use device::Device;
use phases::{Phase, Place};
use std::{fmt, io};
use three::{fresh_chain, fresh_of, run_three};

pub fn run(rt: &impl Print) -> io::Result<()> {
    lost_cases(rt, 6974)?;
    header_cases(rt, 6974)?;
    lost_cases(rt, 6973)?;
    header_cases(rt, 6973)
}

// What fits no reading: a SYNC whose last bit is a 1, load two clocks late, a high clock within SYNC, and a SYNC that begins with a 0.
fn lost_cases(rt: &impl Print, part: u16) -> io::Result<()> {
    case(
        rt,
        "2a L1110100 H1",
        part,
        b"\x01\x01\x01\x00\x01\x00\x00\x03",
        Phase::Lost,
    )?;
    case(
        rt,
        "2d L11101000 L1 L1 H1",
        part,
        b"\x01\x01\x01\x00\x01\x00\x00\x00\x01\x01\x03",
        Phase::Lost,
    )?;
    case(
        rt,
        "2e L111 H0 L0100 H0",
        part,
        b"\x01\x01\x01\x02\x00\x01\x00\x00\x02",
        Phase::Lost,
    )?;
    case(
        rt,
        "2f L0 L1101000 L1 H1",
        part,
        b"\x00\x01\x01\x00\x01\x00\x00\x00\x01\x03",
        Phase::Lost,
    )
}

// Early, late and exact. What was read of a header is a one and then its command bits: 1 is none, 6 are the bits 1 and 0, 3 is the bit 1.
fn header_cases(rt: &impl Print, part: u16) -> io::Result<()> {
    case(
        rt,
        "2b H0 L1110100 H0",
        part,
        b"\x02\x01\x01\x01\x00\x01\x00\x00\x02",
        Phase::Opening { read: 1 },
    )?;
    case(
        rt,
        "2c L11101000 L1 H0",
        part,
        b"\x01\x01\x01\x00\x01\x00\x00\x00\x01\x02",
        Phase::Opening { read: 6 },
    )?;
    case(
        rt,
        "2h L1 L11101000 H1",
        part,
        b"\x01\x01\x01\x01\x00\x01\x00\x00\x00\x03",
        Phase::Opening { read: 3 },
    )
}

// Where a device is seen to be, and whether its record is one that is taken.
#[derive(Clone, Copy, PartialEq)]
struct Stand {
    outcome: Outcome,
    place: Place,
}

impl From<Device> for Stand {
    fn from(device: Device) -> Stand {
        Stand {
            outcome: Outcome::from(device::judge(device)),
            place: device.place,
        }
    }
}

impl fmt::Display for Stand {
    fn fmt<W: fmt::Write>(&self, f: &mut fmt::Formatter<W>) -> fmt::Result {
        let Place { phase, read, .. } = self.place;
        let name = match Phase::from(self.place) {
            Phase::Opening { .. } => "in the header",
            Phase::Lost => "lost",
            _ => "elsewhere",
        };
        write!(f, "{}, {name}, phase {phase}, read {read}", self.outcome)
    }
}

// The line of a case.
fn case(rt: &impl Print, name: &str, part: u16, states: &[u8], phase: Phase) -> io::Result<()> {
    let should = Stand {
        outcome: Outcome(0),
        place: Place::from(phase),
    };
    let by_value = Stand::from(step_all(fresh_of(part), states).device);
    let in_chain = Stand::from(first_after(part, states));
    line(
        rt,
        format_args!("{name}, {part}, states{}", Bytes(states)),
        should,
        format_args!("{by_value}, in a chain{in_chain}"),
        by_value == should && in_chain == should,
    )
}

// The first of three fresh devices after a run of 16 states at most. A longer one is refused, and leaves it fresh.
fn first_after(part: u16, states: &[u8]) -> Device {
    let (_, chain) = run_three(fresh_chain(part), states, &mut [0; 39]);
    chain[0]
}
