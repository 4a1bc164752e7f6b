// What a frame is told by.
ghost use Rattle.std.specs.Prelude.{◌≡◌};

use frames::{Tail, Told};
use parts::Command;

pub fn frame_of(part: u16, devices: usize, command: Command, configuration: u8) -> Told
    ensures { result ≡ record { part = part; devices = devices; command = command; configuration = configuration } }
{
    Told {
        part,
        devices,
        command,
        configuration,
    }
}

pub fn no_tail() -> Tail
    ensures { result ≡ record { number = 0; length = 0 } }
{
    tail_of(0, 0)
}

pub fn tail_of(number: u64, length: u32) -> Tail
    ensures { result ≡ record { number = number; length = length } }
{
    Tail { number, length }
}
