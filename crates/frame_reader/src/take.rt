// Pieces of a frame taken out of it.
ghost use Rattle.std.specs.Prelude.{◌≡◌, ◌+◌, ◌*◌, ◌≤◌, length, take, drop};
ghost use Rattle.bits.specs.Bits.{fields, split, over};

// The n values behind the header, to the front of the lent list.
#[tactic(auto, unfolding(bits::specs::Bits::over, unpacking::specs::Unpacking::unpacked_out))]
pub fn take_values(frame: &[u8], n: usize, width: u32, values: &mut [u16])
    requires { (width ≤ 16) × (24 + n * width ≤ 8 * length frame.now) × (n ≤ length values.old) }
    ensures { values.new ≡ over (split width n (fields 8 (drop 3 frame.now))) values.old }
{
    unpacking::unpack(frame, 3, width, &mut values[..n]);
}

// The n bytes behind the header, to the front of the lent list.
#[tactic(auto, unfolding(bits::specs::Bits::over))]
pub fn take_bytes(frame: &[u8], n: usize, bytes: &mut [u8])
    requires { (3 + n ≤ length frame.now) × (n ≤ length bytes.old) }
    ensures { bytes.new ≡ over (take n (drop 3 frame.now)) bytes.old }
{
    bits::copy_over(bytes, &frame[3..3 + n]);
}
