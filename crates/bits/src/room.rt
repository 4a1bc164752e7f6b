// What fits into bytes.
ghost use Rattle.std.specs.Prelude.{◌≡◌};
ghost use Rattle.bits.specs.Bits.{room_fits};

// Whether `count` fields of `width` bits, at most `widest`, fit into `room` bytes from the byte `at` on.
// Eight fields take `width` bytes, and they are multiplied only where the product is within the bytes that are left.
pub fn has_room(widest: u32, width: u32, count: usize, at: usize, room: usize) -> bool
    ensures { result ≡ room_fits widest width count at room }
{
    if widest < width || room < at {
        return false;
    }
    let rest = room - at;
    if width == 0 {
        return true;
    }
    let wide = width as usize;
    let eights = count / 8;
    if rest / wide < eights {
        return false;
    }
    (count % 8 * wide).div_ceil(8) <= rest - eights * wide
}
