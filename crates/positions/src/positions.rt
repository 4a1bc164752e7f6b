// A device's position in the frame, in clocks.
ghost use Rattle.std.specs.Prelude.{◌≡◌};
ghost use Rattle.positions.specs.Positions.{length_in, position_fits, refit, refitted};

use registers::Registers;

// The clocks of the frame that the registers say.
pub fn length_in(registers: Registers) -> u64
    ensures { result ≡ length_in registers }
{
    u64::from(parts::frame_clocks(registers.part, registers.configuration))
}

// The position is below them.
pub fn position_fits(registers: Registers) -> bool
    ensures { result ≡ position_fits registers }
{
    registers.position < length_in(registers)
}

// A configuration that shortens the frame takes the position modulo the new length.
pub fn refit(old: Registers, new: Registers) -> Registers
    ensures { result ≡ refitted old new }
{
    let mut next = new;
    next.position = refit_from(length_in(old), new, new.position);
    next
}

// A position in the frame of the registers, where the frame before had so many clocks.
pub fn refit_from(before: u64, registers: Registers, position: u64) -> u64
    ensures { result ≡ refit before (length_in registers) position }
{
    let length = length_in(registers);
    if length < before {
        position % length
    } else {
        position
    }
}
