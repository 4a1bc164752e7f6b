// What a device is seen to hold.
use device::Device;
use std::fmt;

// The counts of the data line and of the load line, and their levels; at output 0 the values that wait and those that are active, MUX0 before
// MUX1.
#[derive(Clone, Copy, PartialEq)]
pub struct Seen {
    pub data: u64,
    pub load: u64,
    pub data_level: u8,
    pub load_level: u8,
    pub waiting0: u16,
    pub waiting1: u16,
    pub active0: u16,
    pub active1: u16,
}

// The values are those that were there before.
pub fn kept(data: u64, load: u64, data_level: u8, load_level: u8) -> Seen {
    Seen {
        data,
        load,
        data_level,
        load_level,
        waiting0: 1,
        waiting1: 2,
        active0: 3,
        active1: 4,
    }
}

// The watchdog has expired.
pub fn cleared(data: u64, load: u64, data_level: u8, load_level: u8) -> Seen {
    Seen {
        waiting0: 0,
        waiting1: 0,
        active0: 0,
        active1: 0,
        ..kept(data, load, data_level, load_level)
    }
}

impl From<Device> for Seen {
    fn from(device: Device) -> Seen {
        let registers = device.registers;
        let watch = registers.watch;
        Seen {
            data: watch.din.still,
            load: watch.loadi.still,
            data_level: watch.din.level,
            load_level: watch.loadi.level,
            waiting0: registers.waiting0[0],
            waiting1: registers.waiting1[0],
            active0: registers.active0[0],
            active1: registers.active1[0],
        }
    }
}

impl fmt::Display for Seen {
    fn fmt<W: fmt::Write>(&self, f: &mut fmt::Formatter<W>) -> fmt::Result {
        write!(f, " counts {} {}", self.data, self.load)?;
        write!(f, ", levels {} {}", self.data_level, self.load_level)?;
        write!(f, ", values {} {}", self.waiting0, self.waiting1)?;
        write!(f, " {} {}", self.active0, self.active1)
    }
}
