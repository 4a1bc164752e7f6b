// What a record's place in the frame may hold.
ghost use Rattle.std.specs.Prelude.{◌≡◌};
ghost use Rattle.device.specs.Judgement.{phase_fits, place_fits};

use phases::{Phase, Place};
use registers::Registers;

// The numbers are those of a phase that a device can come to.
pub fn place_fits(place: Place, registers: Registers) -> bool
    ensures { result ≡ place_fits place registers }
{
    let phase = Phase::from(place);
    Place::from(phase) == place && phase_fits(phase, registers)
}

// A phase's numbers are ones that a device can come to.
fn phase_fits(phase: Phase, registers: Registers) -> bool
    ensures { result ≡ phase_fits phase registers }
{
    match phase {
        Phase::Opening { read } => 1 <= read && read < 64,
        Phase::Counting { read, .. } => 1 <= read && read < 1024,
        Phase::Slice {
            command,
            count,
            taken,
        } => {
            count < 1024
                && taken < slices::slice_bits(command, registers.part, registers.configuration)
        }
        _ => true,
    }
}
