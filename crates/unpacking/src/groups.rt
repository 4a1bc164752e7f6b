// Lists unpacked in groups. Four values are moved together in a number of 64 bits: they are seven bytes at 14 bits, and six at 12.
ghost use Rattle.std.specs.Prelude.{◌∷◌, [], ◌≡◌, ◌+◌, ◌*◌, ◌/◌, ◌%◌, ◌^◌, ◌<◌, ◌≤◌, length};
ghost use Rattle.bits.specs.Bits.{bits, split, over_at};
ghost use Rattle.bits.specs.Words.{side_by_side};
ghost use Rattle.unpacking.specs.Reading.{Pulled, from};
ghost use Rattle.unpacking.specs.Blocks.{two_masks, apart};

use crate::load::load_word;
use crate::reader::Reader;
use bits::low_bits;

// `values` is filled with the numbers from the byte `at` on, of `width` bits each: in fours at 12 and 14 bits, and what is left, or all at
// another width, one by one.
pub fn pull_all(src: &[u8], at: usize, width: u32, values: &mut [u16]) -> Reader
    requires { (width ≤ 16) × (at ≤ length src.now) × (8 * at + length values.old * width ≤ 8 * length src.now) }
    ensures { Pulled src.now (from at) result width values.new }
{
    match width {
        12 => pull_fours::<12>(src, at, values),
        14 => pull_fours::<14>(src, at, values),
        _ => Reader::new(at).pull_each(src, width, values),
    }
}

// The same at `WIDTH` bits: in fours, and what is left one by one. Each of the two widths has a loop that knows it.
fn pull_fours<const WIDTH: u32>(src: &[u8], at: usize, values: &mut [u16]) -> Reader
    requires width { (8 ≤ WIDTH) × (WIDTH ≤ 16) × (WIDTH % 2 ≡ 0) }
    requires room { (at ≤ length src.now) × (8 * at + length values.old * WIDTH ≤ 8 * length src.now) }
    ensures { Pulled src.now (from at) result WIDTH values.new }
{
    let lanes = Lanes::new(WIDTH);
    let count = values.len() / 4;
    let mut here = at;
    // by index: of what is written through `chunks_mut` a proof knows nothing
    for k in 0..count {
        set_four(values, 4 * k, lanes.four_of(load_four(src, here, WIDTH)));
        here += (WIDTH / 2) as usize;
    }
    Reader::new(here).pull_each(src, WIDTH, &mut values[4 * count..])
}

// Four numbers of `width` bits from the byte `at` on, as one: its first four bytes, and its last four over the end of those.
fn load_four(src: &[u8], at: usize, width: u32) -> u64
    requires { (8 ≤ width) × (width ≤ 16) × (width % 2 ≡ 0) × (at + width / 2 ≤ length src.now) }
    ensures { Pulled src.now (from at) (from (at + width / 2)) (4 * width) (result ∷ []) }
{
    let high = (load_word(src, at) as u64) >> (64 - 4 * width);
    let last = load_word(src, at + (width / 2) as usize - 4) as u64;
    (high << 32) | last
}

// A width of up to 16 bits, and the mask of so many bits for each of two numbers, 32 bits apart.
#[derive(Clone, Copy)]
pub struct Lanes {
    pub width: u32,
    pub mask: u64,
    ghost narrow: { width ≤ 16 },
    ghost masks: { mask ≡ two_masks width },
}

impl Lanes {
    pub fn new(width: u32) -> Lanes
        requires { width ≤ 16 }
        ensures { result.width ≡ width }
    {
        Lanes {
            width,
            mask: low_bits(0xffff, width) * 0x1_0000_0001,
        }
    }

    // The four values of `width` bits of a number, side by side, 16 bits to each, the first one lowest: the number is parted into two and
    // two values, 32 bits apart, and then each two into one and one.
    pub fn four_of(self, x: u64) -> u64
        requires { x < 2 ^ (4 * self.width) }
        ensures { result ≡ side_by_side (split self.width 4 (bits (4 * self.width) x)) }
    {
        let pairs = (x >> (2 * self.width)) | (low_bits(x, 2 * self.width) << 32);
        ((pairs >> self.width) & self.mask) | ((pairs & self.mask) << 16)
    }
}

// Four values that stand side by side, from the value `i` on.
pub fn set_four(values: &mut [u16], i: usize, four: u64)
    requires { i + 4 ≤ length values.old }
    ensures { values.new ≡ over_at i (apart 4 four) values.old }
{
    values[i] = (four & 0xffff) as u16;
    values[i + 1] = ((four >> 16) & 0xffff) as u16;
    values[i + 2] = ((four >> 32) & 0xffff) as u16;
    values[i + 3] = ((four >> 48) & 0xffff) as u16;
}
