// A number out of a frame.
ghost use Rattle.std.specs.Prelude.{◌≡◌};
ghost use Rattle.frames.specs.Frames.{field_at};

// The number of the `width` bits from the bit `at` on: 0 where the frame does not have them.
#[tactic(auto, unfolding(unpacking::specs::Unpacking::number_at, crate::specs::Frames::field_at))]
pub fn field_at(frame: &[u8], at: usize, width: u32) -> u64
    ensures { result ≡ field_at at width frame.now }
{
    unpacking::number_at(frame, at, width).unwrap_or(0)
}
