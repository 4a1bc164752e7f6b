// Unpacking numbers from lent bytes.
// Where there are too few, it is refused, with the lent values as they came in.
ghost use Rattle.std.specs.Prelude.{◌≡◌, length};
ghost use Rattle.unpacking.specs.Unpacking.{unpacked, unpacked_out, number_at};

use crate::reader::Reader;
use crate::{blocks, groups};

// All of `values` is filled with numbers of `width` bits each, from the byte `at` of `src` on, where there are so many.
pub fn unpack(src: &[u8], at: usize, width: u32, values: &mut [u16]) -> bool
    ensures value { result ≡ unpacked width (length values.old) at (length src.now) }
    ensures values_after { values.new ≡ unpacked_out width src.now at values.old }
{
    if !bits::has_room(16, width, values.len(), at, src.len()) {
        return false;
    }
    let done = blocks::take_blocks(src, at, width, values);
    let here = at + done / 8 * width as usize;
    groups::pull_all(src, here, width, &mut values[done..]);
    true
}

// The number of the `width` bits, up to 64, from the bit `at` of `src` on; none where the width is larger or the bits are too few.
pub fn number_at(src: &[u8], at: usize, width: u32) -> Option<u64>
    ensures { result ≡ number_at at width src.now }
{
    if 64 < width {
        return None;
    }
    let first = at / 8;
    let skipped = (at % 8) as u32;
    if src.len() < first + (skipped + width).div_ceil(8) as usize {
        return None;
    }
    let before = Reader::new(first).pull(src, skipped);
    let found = before.reader.pull_wide(src, width);
    Some(found.value)
}
