// One list copied over another.
ghost use Rattle.std.specs.Prelude.{◌≡◌, length, min, take};
ghost use Rattle.bits.specs.Bits.{over};

// One list over the front of another, as far as both go; how many that are. By index, and not `copy_from_slice`, which asks for the C library's
// memmove: the library for C asks for no such name.
pub fn copy_over(to: &mut [u8], from: &[u8]) -> usize
    ensures copied { to.new ≡ over (take (length to.old) from.now) to.old }
    ensures count { result ≡ min (length to.old) (length from.now) }
{
    let count = to.len().min(from.len());
    for i in 0..count {
        to[i] = from[i];
    }
    count
}
