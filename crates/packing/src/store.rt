// Words stored as bytes, the most significant first.
ghost use Rattle.std.specs.Prelude.{◌+◌, ◌≤◌, length};
ghost use Rattle.bits.specs.Bits.{bits};
ghost use Rattle.packing.specs.Writing.{Stored};

// The 64 bits of `x`, as eight bytes, of which one store is made.
pub fn store_long(out: &mut [u8], at: usize, x: u64)
    requires { at + 8 ≤ length out.old }
    ensures { Stored out.old out.new at 8 (bits 64 x) }
{
    out[at..at + 8].copy_from_slice(&x.to_be_bytes());
}

// The low 32 bits of `x`, as four bytes, of which one store is made.
pub fn store_word(out: &mut [u8], at: usize, x: u64)
    requires { at + 4 ≤ length out.old }
    ensures { Stored out.old out.new at 4 (bits 32 x) }
{
    let low = (x & 0xffff_ffff) as u32;
    out[at..at + 4].copy_from_slice(&low.to_be_bytes());
}
