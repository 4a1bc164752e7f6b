// Packing and unpacking. Their answers say whether it was done, and no number of the table of refusals.
ghost use Rattle.std.specs.Prelude.{◌≡◌, length};
ghost use Rattle.bits.specs.Bits.{digit};
ghost use Rattle.packing.specs.Packing.{packed, packed_out};
ghost use Rattle.unpacking.specs.Unpacking.{unpacked, unpacked_out};
ghost use Rattle.capi_bits.specs.PackingAnswers.{of_packed};

// What packing gives: no number of the table of refusals. Where nothing was done both are 0. A struct of numbers, for
// C.
#[repr(C)]
#[derive(Clone, Copy)]
pub struct Packed {
    pub bytes: u64,
    pub done: u8,
}

impl From<Option<usize>> for Packed {
    ghost from_gives = { λ packed answer. answer ≡ of_packed packed };

    fn from(packed: Option<usize>) -> Packed {
        match packed {
            Some(n) => Packed {
                bytes: n as u64,
                done: 1,
            },
            None => Packed { bytes: 0, done: 0 },
        }
    }
}

// The low bits of each value, most significant first and with no gap, from a byte of `out` on.
#[unsafe(no_mangle)]
pub extern "C" fn bb_pack(values: &[u16], width: u32, out: &mut [u8], at: usize) -> Packed
    ensures { (result ≡ of_packed (packed 16 width (length values.now) at (length out.old)))
        × (out.new ≡ packed_out 16 width values.now at out.old) }
{
    packing::pack(values, width, out, at).into()
}

// Numbers from a byte of `src` on: 1 where done, else 0.
#[unsafe(no_mangle)]
pub extern "C" fn bb_unpack(src: &[u8], at: usize, width: u32, values: &mut [u16]) -> u8
    ensures { (result ≡ digit (unpacked width (length values.old) at (length src.now)))
        × (values.new ≡ unpacked_out width src.now at values.old) }
{
    u8::from(unpacking::unpack(src, at, width, values))
}
