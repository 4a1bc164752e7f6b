// What a device is seen to do, and the line of a case that says it.
use crate::feeding::Fed;
use cases::Outcome;
use std::{fmt, io};

// Whether a step is refused; the device's phase, configuration and waiting global byte; how many states it sent on, and the count of the last
// header among them.
#[derive(Clone, Copy, PartialEq)]
pub struct Seen {
    pub outcome: Outcome,
    pub phase: u8,
    pub configuration: u8,
    pub waiting: u8,
    pub sent: u32,
    pub count: u16,
}

// Phases, as the record has them.
pub const PASSING: u8 = 4;

pub const LOST: u8 = 5;

pub fn expected(phase: u8, configuration: u8, waiting: u8, sent: u32, count: u16) -> Seen {
    Seen {
        outcome: Outcome(0),
        phase,
        configuration,
        waiting,
        sent,
        count,
    }
}

impl From<Fed> for Seen {
    fn from(fed: Fed) -> Seen {
        Seen {
            outcome: Outcome(fed.refusal),
            phase: fed.device.place.phase,
            configuration: fed.device.registers.configuration,
            waiting: fed.device.registers.waiting,
            sent: fed.sent,
            count: fed.count,
        }
    }
}

impl fmt::Display for Seen {
    fn fmt<W: fmt::Write>(&self, f: &mut fmt::Formatter<W>) -> fmt::Result {
        let phase = match self.phase {
            PASSING => "passing",
            LOST => "lost",
            _ => "in a frame",
        };
        write!(
            f,
            "{}, {phase}, configuration {:02X}",
            self.outcome, self.configuration
        )?;
        write!(
            f,
            ", waiting global {:02X}, {} states sent",
            self.waiting, self.sent
        )?;
        write!(f, ", count {}", self.count)
    }
}

// The line of a case.
pub fn case(rt: &impl Print, name: &str, fed: Fed, should: Seen) -> io::Result<()> {
    cases::case(rt, name, should, Seen::from(fed))
}
