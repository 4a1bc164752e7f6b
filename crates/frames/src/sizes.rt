// How many fields, bits and bytes a told frame has, for any N and any tail.
ghost use Rattle.std.specs.Prelude.{◌≡◌, ◌*◌, cond, leb};
ghost use Rattle.parts.specs.Parts.{most_devices};
ghost use Rattle.frames.specs.Frames.{told_fields, told_bits, told_length};

use crate::told::{Tail, Told};

// The fields of all slices: 0 where N is over its limit.
#[tactic(auto, unfolding(crate::specs::Frames::told_fields))]
pub fn told_fields(told: Told) -> usize
    ensures { result ≡ told_fields told }
{
    of_devices(
        told.devices,
        slices::slice_fields(told.command, told.part, told.configuration),
    )
}

// The bits of all slices: 0 where N is over its limit.
#[tactic(auto, unfolding(crate::specs::Frames::told_bits))]
pub fn told_bits(told: Told) -> usize
    ensures { result ≡ told_bits told }
{
    of_devices(
        told.devices,
        slices::slice_bits(told.command, told.part, told.configuration),
    )
}

// So many for each device: 0 where N is over its limit.
fn of_devices(devices: usize, each: u16) -> usize
    ensures { result ≡ cond (leb devices most_devices) (devices * each) 0 }
{
    if devices > parts::MOST_DEVICES {
        return 0;
    }
    devices * usize::from(each)
}

// The bytes of the frame: 0 where N is over its limit, or the tail has over 64 bits.
#[tactic(auto, using(crate::proofs::Lengths::bits_small), unfolding(crate::specs::Frames::told_bits, crate::specs::Frames::told_length))]
pub fn told_length(told: Told, tail: Tail) -> usize
    ensures { result ≡ told_length told tail }
{
    if told.devices > parts::MOST_DEVICES || tail.length > 64 {
        return 0;
    }
    (24 + told_bits(told) + tail.length as usize).div_ceil(8)
}
