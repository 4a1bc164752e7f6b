// What a device holds beside its place in a frame.
ghost use Rattle.std.specs.Prelude.{◌≡◌, ◌+◌, ◌*◌, ◌/◌, ◌<◌};
ghost use Rattle.parts.specs.Parts.{part_of, field_width, field_limit};
ghost use Rattle.phases.specs.Phases.{pushed};
ghost use Rattle.registers.specs.Held.{took, fault, raised, flagged, cleared, zeros};

use parts::Command;
use watch::Watch;

#[repr(C)]
#[derive(Clone, Copy)]
pub struct Registers {
    pub part: u16,
    pub overtemperature: u8,
    pub openled: u8,
    pub configuration: u8,
    pub calibration: [u8; 3],
    pub waiting: u8,
    pub active: u8,
    pub waiting0: [u16; 24],
    pub waiting1: [u16; 24],
    pub active0: [u16; 24],
    pub active1: [u16; 24],
    // The slice that is coming in, field by field.
    pub slice: [u16; 48],
    // Its position in the frame, in clocks.
    pub position: u64,
    pub watch: Watch,
}

// The count sent on.
pub fn raise(count: u16, flag: u8) -> u16
    ensures { result ≡ raised count flag }
{
    if flag == 0 {
        count % 1024
    } else {
        ((u32::from(count) + 1) % 1024) as u16
    }
}

// A bit goes in at the low end of a number that is kept below a limit.
fn push(value: u16, bit: u8, below: u16) -> u16
    requires { 0 < below }
    ensures { result ≡ pushed value bit below }
{
    ((u32::from(value) * 2 + u32::from(bit)) % u32::from(below)) as u16
}

// A bit goes into one field of the slice.
fn take_at(registers: Registers, at: usize, bit: u8, below: u16) -> Registers
    requires { 0 < below }
    ensures { result ≡ took registers at bit below }
{
    let mut next = registers;
    if at < next.slice.len() {
        next.slice[at] = push(next.slice[at], bit, below);
    }
    next
}

impl Registers {
    // A bit of a command's slice goes into the field that it is of.
    pub fn take_bit(self, command: Command, taken: u16, bit: u8) -> Registers
        ensures { result
            ≡ took self (taken / field_width (part_of self.part) command) bit (field_limit (part_of self.part) command) }
    {
        let width = slices::field_width(command, self.part) as u16;
        let below = slices::field_limit(command, self.part);
        take_at(self, (taken / width) as usize, bit, below)
    }

    // The fault flag of a command's kind.
    pub fn fault_of(self, command: Command) -> u8
        ensures { result ≡ fault self command }
    {
        match command {
            Command::Individual | Command::Global => self.overtemperature,
            Command::Calibration | Command::Configuration => self.openled,
        }
    }

    // The fault of a kind is set: 0 overtemperature, else open LED. Kind and flag are numbers, as C tells and the record holds them: `flagged` speaks
    // of any.
    pub fn flag(self, kind: u8, flag: u8) -> Registers
        ensures { result ≡ flagged self kind flag }
    {
        let mut next = self;
        if kind == 0 {
            next.overtemperature = flag;
        } else {
            next.openled = flag;
        }
        next
    }

    // Every individual value becomes 0.
    pub fn clear(self) -> Registers
        ensures { result ≡ cleared self }
    {
        let mut next = self;
        next.waiting0 = [0; 24];
        next.waiting1 = [0; 24];
        next.active0 = [0; 24];
        next.active1 = [0; 24];
        next
    }

    // Zeros, no faults, and a watchdog.
    pub fn zero(part: u16, watch: Watch) -> Registers
        ensures { result ≡ zeros part watch }
    {
        Registers {
            part,
            overtemperature: 0,
            openled: 0,
            configuration: 0,
            calibration: [0; 3],
            waiting: 0,
            active: 0,
            waiting0: [0; 24],
            waiting1: [0; 24],
            active0: [0; 24],
            active1: [0; 24],
            slice: [0; 48],
            position: 0,
            watch,
        }
    }
}
