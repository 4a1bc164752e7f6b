// What a part's row says.
ghost use Rattle.std.specs.Prelude.{◌≡◌};
ghost use Rattle.parts.specs.Parts.{part_of, multiplex, command_at, subframes, slice_bits};
ghost use Rattle.capi_bits.specs.PartAnswers.{of_part};

use answers::Answer;
use tables::Refusal;

fn of_part(part: u16, number: u16) -> Answer
    ensures { result ≡ of_part part number }
{
    let asked = if parts::is_known(part) {
        Ok(usize::from(number))
    } else {
        Err(Refusal::UnknownPart)
    };
    asked.into()
}

// Subframes per frame.
#[unsafe(no_mangle)]
pub extern "C" fn bb_subframes(part: u16, configuration: u8) -> Answer
    ensures { result ≡ of_part part (subframes (part_of part) configuration) }
{
    of_part(part, parts::subframes_of(part, configuration))
}

// Bits of one device's slice.
#[unsafe(no_mangle)]
pub extern "C" fn bb_slice_bits(command: u8, part: u16, configuration: u8) -> Answer
    ensures { result ≡ of_part part (slice_bits (part_of part) (command_at command) (multiplex configuration)) }
{
    of_part(
        part,
        slices::slice_bits(command.into(), part, configuration),
    )
}
