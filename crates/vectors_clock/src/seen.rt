// What a chain of three is seen to hold.
use device::Device;
use std::fmt;

// The positions of the three devices; of the first also its waiting global byte, its active one, and the active values of output 0.
#[derive(Clone, Copy, PartialEq)]
pub struct Seen {
    pub first: u64,
    pub second: u64,
    pub third: u64,
    pub waiting: u8,
    pub active: u8,
    pub mux0: u16,
    pub mux1: u16,
}

// Active is what was so before.
pub fn kept(first: u64, others: u64, waiting: u8) -> Seen {
    Seen {
        first,
        second: others,
        third: others,
        waiting,
        active: 9,
        mux0: 3,
        mux1: 4,
    }
}

// Active is what waited before.
pub fn shown(first: u64, others: u64, waiting: u8) -> Seen {
    Seen {
        active: 7,
        mux0: 1,
        mux1: 2,
        ..kept(first, others, waiting)
    }
}

pub fn seen_of(chain: [Device; 3]) -> Seen {
    let first = chain[0].registers;
    Seen {
        first: first.position,
        second: chain[1].registers.position,
        third: chain[2].registers.position,
        waiting: first.waiting,
        active: first.active,
        mux0: first.active0[0],
        mux1: first.active1[0],
    }
}

impl fmt::Display for Seen {
    fn fmt<W: fmt::Write>(&self, f: &mut fmt::Formatter<W>) -> fmt::Result {
        write!(f, " at {} {} {}", self.first, self.second, self.third)?;
        write!(f, ", waiting {}, active {}", self.waiting, self.active)?;
        write!(f, " {} {}", self.mux0, self.mux1)
    }
}
