// Where a device stands in a frame, and how a data bit moves it on.
ghost use Rattle.std.specs.Prelude.{◌≡◌};
ghost use Rattle.phases.specs.Phases.{numbers, place_of, phase_of, window_of, heard, rising, opened, opening, counting, in_header, headed};
ghost use Rattle.phases.specs.declared.phase.Phase.TheVariants.{Counting};

use parts::Command;

// A phase as numbers, as it stands in the record: 0 hunting, 1 opening, 2 counting, 3 slice, 4 passing, 5 lost. Numbers that a phase does
// not use are 0.
#[repr(C)]
#[derive(Clone, Copy, Debug, PartialEq, Eq)]
pub struct Place {
    pub phase: u8,
    // C1 C0, while counting and in a slice.
    pub command: u8,
    // The count received, in a slice.
    pub count: u16,
    // What was read so far: the window, the command bits or the count bits after a one, or how many bits of the slice.
    pub read: u16,
}

#[derive(Clone, Copy, Debug, PartialEq, Eq)]
pub enum Phase {
    // The last nine bits of the low clocks since the last high one, as a number.
    Hunting {
        window: u16,
    },
    // A one and then the command bits read so far, as a number: 1 to 63.
    Opening {
        read: u16,
    },
    // A one and then the count bits read so far, as a number: 1 to 1023.
    Counting {
        command: Command,
        read: u16,
    },
    // The bits of the slice that were taken.
    Slice {
        command: Command,
        count: u16,
        taken: u16,
    },
    Passing,
    Lost,
}

// What one clock sends on.
#[derive(Clone, Copy, Debug, PartialEq, Eq)]
pub enum Sent {
    Nothing,
    One(u8),
    Header { command: Command, count: u16 },
}

// A phase as the record's numbers.
impl From<Phase> for Place {
    ghost from_gives = { λ phase place. place ≡ place_of phase };

    fn from(phase: Phase) -> Place {
        match phase {
            Phase::Hunting { window } => numbered(0, 0, 0, window),
            Phase::Opening { read } => numbered(1, 0, 0, read),
            Phase::Counting { command, read } => numbered(2, command.into(), 0, read),
            Phase::Slice {
                command,
                count,
                taken,
            } => numbered(3, command.into(), count, taken),
            Phase::Passing => numbered(4, 0, 0, 0),
            Phase::Lost => numbered(5, 0, 0, 0),
        }
    }
}

fn numbered(phase: u8, command: u8, count: u16, read: u16) -> Place
    ensures { result ≡ numbers phase command count read }
{
    Place {
        phase,
        command,
        count,
        read,
    }
}

// The phase of the record's numbers: of a number over 5, lost.
impl From<Place> for Phase {
    ghost from_gives = { λ place phase. phase ≡ phase_of place };

    fn from(place: Place) -> Phase {
        let read = place.read;
        match place.phase {
            0 => Phase::Hunting { window: read % 512 },
            1 => Phase::Opening { read },
            2 => Phase::Counting {
                command: place.command.into(),
                read,
            },
            3 => Phase::Slice {
                command: place.command.into(),
                count: place.count,
                taken: read,
            },
            4 => Phase::Passing,
            _ => Phase::Lost,
        }
    }
}

// The bits of the low clocks since the last high one: none in any other phase than hunting.
pub fn window_of(phase: Phase) -> u16
    ensures { result ≡ window_of phase }
{
    match phase {
        Phase::Hunting { window } => window,
        _ => 0,
    }
}

// Low load, in any phase.
pub fn hear(phase: Phase, bit: u8) -> Phase
    ensures { result ≡ heard phase bit }
{
    let next = u32::from(window_of(phase)) * 2 + u32::from(bit);
    Phase::Hunting {
        window: (next % 512) as u16,
    }
}

// High load while hunting: with SYNC's last bit, with the first command bit, or with the second.
fn rise(window: u16, bit: u8) -> Phase
    ensures { result ≡ rising window bit }
{
    if window % 128 == 0x74 && bit == 0 {
        return Phase::Opening { read: 1 };
    }
    if window % 256 == 0xE8 {
        return Phase::Opening {
            read: 2 + (bit as u16),
        };
    }
    if window / 2 != 0xE8 {
        return Phase::Lost;
    }
    Phase::Opening {
        read: 4 + window % 2 * 2 + (bit as u16),
    }
}

// The sixth command bit: three equal pairs name the command.
fn open(pairs: u32) -> Phase
    ensures { result ≡ opened pairs }
{
    match pairs {
        0 => begin_count(Command::Individual),
        21 => begin_count(Command::Calibration),
        42 => begin_count(Command::Global),
        63 => begin_count(Command::Configuration),
        _ => Phase::Lost,
    }
}

// A command is known, and no count bit is read.
fn begin_count(command: Command) -> Phase
    ensures { result ≡ Counting command 1 }
{
    Phase::Counting { command, read: 1 }
}

// One more command bit.
fn more_command(read: u16, bit: u8) -> Phase
    ensures { result ≡ opening read bit }
{
    let next = (read as u32) * 2 + (bit as u32);
    if next < 64 {
        Phase::Opening { read: next as u16 }
    } else {
        open(next - 64)
    }
}

// One more count bit.
fn more_count(command: Command, read: u16, bit: u8) -> Phase
    ensures { result ≡ counting command read bit }
{
    let next = (read as u32) * 2 + (bit as u32);
    if next < 1024 {
        Phase::Counting {
            command,
            read: next as u16,
        }
    } else {
        Phase::Slice {
            command,
            count: (next % 1024) as u16,
            taken: 0,
        }
    }
}

// A device that looks for a header, or reads one.
pub fn in_header(phase: Phase) -> bool
    ensures { result ≡ in_header phase }
{
    matches!(
        phase,
        Phase::Hunting { .. } | Phase::Opening { .. } | Phase::Counting { .. }
    )
}

// One bit at high load, to such a device. Any other phase stays.
pub fn header_bit(phase: Phase, bit: u8) -> Phase
    ensures { result ≡ headed phase bit }
{
    match phase {
        Phase::Hunting { window } => rise(window, bit),
        Phase::Opening { read } => more_command(read, bit),
        Phase::Counting { command, read } => more_count(command, read, bit),
        _ => phase,
    }
}
