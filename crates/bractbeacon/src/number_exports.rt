// Numbers packed and unpacked, and what a part's row says.
ghost use Rattle.std.specs.Prelude.{◌≡◌, length};
ghost use Rattle.packing.specs.Packing.{packed, packed_out};
ghost use Rattle.capi_bits.specs.PackingAnswers.{of_packed};
ghost use Rattle.bits.specs.Bits.{digit};
ghost use Rattle.unpacking.specs.Unpacking.{unpacked, unpacked_out};
ghost use Rattle.parts.specs.Parts.{part_of, subframes, multiplex, command_at, slice_bits};
ghost use Rattle.capi_bits.specs.PartAnswers.{of_part};

use answers::Answer;
use capi_bits::Packed;

// The low bits of each value, most significant first and with no gap, from a byte of `out` on.
#[unsafe(no_mangle)]
pub extern "C" fn bb_pack(values: &[u16], width: u32, out: &mut [u8], at: usize) -> Packed
    ensures { (result ≡ of_packed (packed 16 width (length values.now) at (length out.old)))
        × (out.new ≡ packed_out 16 width values.now at out.old) }
{
    capi_bits::bb_pack(values, width, out, at)
}

// Numbers from a byte of `src` on: 1 where done, else 0.
#[unsafe(no_mangle)]
pub extern "C" fn bb_unpack(src: &[u8], at: usize, width: u32, values: &mut [u16]) -> u8
    ensures { (result ≡ digit (unpacked width (length values.old) at (length src.now)))
        × (values.new ≡ unpacked_out width src.now at values.old) }
{
    capi_bits::bb_unpack(src, at, width, values)
}

// Subframes per frame.
#[unsafe(no_mangle)]
pub extern "C" fn bb_subframes(part: u16, configuration: u8) -> Answer
    ensures { result ≡ of_part part (subframes (part_of part) configuration) }
{
    capi_bits::bb_subframes(part, configuration)
}

// Bits of one device's slice.
#[unsafe(no_mangle)]
pub extern "C" fn bb_slice_bits(command: u8, part: u16, configuration: u8) -> Answer
    ensures { result ≡ of_part part (slice_bits (part_of part) (command_at command) (multiplex configuration)) }
{
    capi_bits::bb_slice_bits(command, part, configuration)
}
