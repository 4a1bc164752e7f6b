// Slices by command, part and configuration.
ghost use Rattle.std.specs.Prelude.{◌≡◌};
ghost use Rattle.parts.specs.Parts.{part_of, multiplex, field_width, field_limit, slice_fields, slice_bits};

use parts::{Command, constants_of, row_of, value_limit};

// Bits of a slice, by command, part and multiplex bit: a row of eight for each command, 6972 first, nonmultiplexed first.
const SLICE_BITS: [u16; 32] = [
    192, 384, 224, 448, 288, 576, 336, 672, 16, 16, 16, 16, 24, 24, 24, 24, 16, 16, 16, 16, 24, 24,
    24, 24, 16, 16, 16, 16, 24, 24, 24, 24,
];

// Bits of a slice.
pub fn slice_bits(command: Command, part: u16, configuration: u8) -> u16
    ensures { result ≡ slice_bits (part_of part) command (multiplex configuration) }
{
    let at = u8::from(command) as usize * 8 + row_of(part) * 2 + (configuration % 2) as usize;
    SLICE_BITS[at]
}

// Bits of one field of a slice.
pub fn field_width(command: Command, part: u16) -> u32
    ensures { result ≡ field_width (part_of part) command }
{
    match command {
        Command::Individual => constants_of(part).width,
        _ => 8,
    }
}

// A field of a slice is below this.
pub fn field_limit(command: Command, part: u16) -> u16
    ensures { result ≡ field_limit (part_of part) command }
{
    match command {
        Command::Individual => value_limit(part),
        _ => 256,
    }
}

// Fields of a slice.
pub fn slice_fields(command: Command, part: u16, configuration: u8) -> u16
    ensures { result ≡ slice_fields (part_of part) command (multiplex configuration) }
{
    let banks = constants_of(part).banks;
    let phases = 1 + (configuration % 2) as u16;
    match command {
        Command::Individual => 8 * banks * phases,
        _ => banks,
    }
}
