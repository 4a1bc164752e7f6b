// Packing numbers into lent bytes.
// What does not fit is refused, with the lent bytes as they came in.
ghost use Rattle.std.specs.Prelude.{◌≡◌, ◌∷◌, [], length};
ghost use Rattle.packing.specs.Packing.{packed, packed_out};

use crate::writer::Writer;
use crate::{blocks, groups};

// The low `width` bits of each of `values` from the byte `at` of `out` on, with zeros up to the last byte's end.
// The answer is how many bytes are written; it is none where the width is too large or the bytes are too few, and then nothing is changed.
pub fn pack(values: &[u16], width: u32, out: &mut [u8], at: usize) -> Option<usize>
    ensures value { result ≡ packed 16 width (length values.now) at (length out.old) }
    ensures out_after { out.new ≡ packed_out 16 width values.now at out.old }
{
    if !bits::has_room(16, width, values.len(), at, out.len()) {
        return None;
    }
    let done = blocks::put_blocks(out, at, width, values);
    let start = Writer::new(at + done / 8 * width as usize);
    let last = groups::push_all(out, start, width, &values[done..]);
    let end = last.finish(out);
    Some(end.at - at)
}

// The same for one number of up to 64 bits.
pub fn pack_number(value: u64, width: u32, out: &mut [u8], at: usize) -> Option<usize>
    ensures value { result ≡ packed 64 width 1 at (length out.old) }
    ensures out_after { out.new ≡ packed_out 64 width (value ∷ []) at out.old }
{
    if !bits::has_room(64, width, 1, at, out.len()) {
        return None;
    }
    let last = Writer::new(at).push_wide(out, width, value);
    let end = last.finish(out);
    Some(end.at - at)
}
