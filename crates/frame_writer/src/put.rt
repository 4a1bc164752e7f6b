// Pieces of a frame put into lent bytes from the byte `at` on, each a whole number of bytes; the answer is the byte behind the piece.
ghost use Rattle.std.specs.Prelude.{◌≡◌, ◌+◌, ◌*◌, ◌≤◌, length, replicate};
ghost use Rattle.bits.specs.Bits.{bits, fields, bytes_of, bytes_for, over_at};

// The `width` low bits of a number, with zeros up to the last byte's end.
#[tactic(auto, unfolding(packing::specs::Packing::packed, packing::specs::Packing::packed_out, bits::specs::Bits::fields))]
pub fn put_number(value: u64, width: u32, out: &mut [u8], at: usize) -> usize
    requires { (width ≤ 64) × (at + bytes_for width ≤ length out.old) }
    ensures { (out.new ≡ over_at at (bytes_of (bits width value)) out.old) × (result ≡ at + bytes_for width) }
{
    at + packing::pack_number(value, width, out, at).unwrap_or(0)
}

// Individual values.
#[tactic(auto, unfolding(packing::specs::Packing::packed, packing::specs::Packing::packed_out))]
pub fn put_values(values: &[u16], width: u32, out: &mut [u8], at: usize) -> usize
    requires { (width ≤ 16) × (at + bytes_for (length values.now * width) ≤ length out.old) }
    ensures { (out.new ≡ over_at at (bytes_of (fields width values.now)) out.old)
        × (result ≡ at + bytes_for (length values.now * width)) }
{
    at + packing::pack(values, width, out, at).unwrap_or(0)
}

// Calibration bytes.
pub fn put_bytes(bytes: &[u8], out: &mut [u8], at: usize) -> usize
    requires { at + length bytes.now ≤ length out.old }
    ensures { (out.new ≡ over_at at (bytes_of (fields 8 bytes.now)) out.old) × (result ≡ at + length bytes.now) }
{
    at + bits::copy_over(&mut out[at..], bytes)
}

// One byte n times.
#[tactic(auto, unfolding(bits::specs::Bits::over, bits::specs::Bits::over_at))]
pub fn put_same(byte: u8, n: usize, out: &mut [u8], at: usize) -> usize
    requires { at + n ≤ length out.old }
    ensures { (out.new ≡ over_at at (replicate n byte) out.old) × (result ≡ at + n) }
{
    let end = at + n;
    out[at..end].fill(byte);
    end
}
