// Bits taken out of bytes. Bytes are taken into an accumulator four at once, and near the end of the input one by one. The bytes stay a
// parameter beside the reader: blocks load at places of their own in the same bytes, so a reader that holds them is no plainer.
ghost use Rattle.std.specs.Prelude.{◌<◌};

use crate::load::load_word;
use bits::low_bits;

// Where a reader is: the bytes before `at` are taken in, and the `have` low bits of `acc`, fewer than are taken in at once, are not read yet.
#[derive(Clone, Copy)]
pub struct Reader {
    pub at: usize,
    pub acc: u64,
    pub have: u32,
    ghost few: { have < 32 },
}

// A number, and where the reader is after it.
#[derive(Clone, Copy)]
pub struct Next {
    pub value: u64,
    pub reader: Reader,
}

// A reader that has taken in as many bits as are asked for.
#[derive(Clone, Copy)]
struct Taken {
    at: usize,
    acc: u64,
    have: u32,
}

impl Reader {
    ghost use Rattle.std.specs.Prelude.{◌∷◌, [], ◌≡◌, ◌+◌, ◌*◌, ◌≤◌, length};
    ghost use Rattle.unpacking.specs.Reading.{from, Pulled, Filled};

    // At the byte `at`, with no bits taken in.
    pub fn new(at: usize) -> Reader
        ensures { result ≡ from at }
    {
        Reader {
            at,
            acc: 0,
            have: 0,
        }
    }

    // `values` is filled with the next numbers, of `width` bits each.
    pub fn pull_each(self, src: &[u8], width: u32, values: &mut [u16]) -> Reader
        requires in_bounds { (width ≤ 16) × (self.at ≤ length src.now) }
        requires room { 8 * self.at + length values.old * width ≤ 8 * length src.now + self.have }
        ensures { Pulled src.now self result width values.new }
    {
        let mut reader = self;
        for value in values.iter_mut() {
            let next = reader.pull(src, width);
            *value = next.value as u16;
            reader = next.reader;
        }
        reader
    }

    // The next `width` bits as a number, for a width up to 64.
    pub fn pull_wide(self, src: &[u8], width: u32) -> Next
        requires in_bounds { (width ≤ 64) × (self.at ≤ length src.now) }
        requires room { 8 * self.at + width ≤ 8 * length src.now + self.have }
        ensures { Pulled src.now self result.reader width (result.value ∷ []) }
    {
        if width <= 32 {
            return self.pull(src, width);
        }
        let high = self.pull(src, width - 32);
        let low = high.reader.pull(src, 32);
        Next {
            value: (high.value << 32) | low.value,
            reader: low.reader,
        }
    }

    // The next `width` bits as a number, for a width up to 32.
    pub fn pull(self, src: &[u8], width: u32) -> Next
        requires in_bounds { (width ≤ 32) × (self.at ≤ length src.now) }
        requires room { 8 * self.at + width ≤ 8 * length src.now + self.have }
        ensures { Pulled src.now self result.reader width (result.value ∷ []) }
    {
        let Taken { at, acc, have } = self.fill(src, width);
        let rest = have - width;
        Next {
            value: low_bits(acc >> rest, width),
            reader: Reader {
                at,
                acc,
                have: rest,
            },
        }
    }

    // The reader with at least `width` bits taken in.
    fn fill(self, src: &[u8], width: u32) -> Taken
        requires in_bounds { (width ≤ 32) × (self.at ≤ length src.now) }
        requires room { 8 * self.at + width ≤ 8 * length src.now + self.have }
        ensures { Filled src.now self result width }
    {
        let Reader { at, acc, have } = self;
        if width <= have {
            return Taken { at, acc, have };
        }
        if src.len() - at < 4 {
            return self.fill_bytes(src, width);
        }
        Taken {
            at: at + 4,
            acc: (acc << 32) | u64::from(load_word(src, at)),
            have: have + 32,
        }
    }

    // The same, one byte after the other.
    fn fill_bytes(self, src: &[u8], width: u32) -> Taken
        requires in_bounds { (width ≤ 32) × (self.at ≤ length src.now) }
        requires room { 8 * self.at + width ≤ 8 * length src.now + self.have }
        ensures { Filled src.now self result width }
    {
        let count = width.saturating_sub(self.have).div_ceil(8);
        let end = self.at + count as usize;
        let mut acc = self.acc;
        for byte in &src[self.at..end] {
            acc = (acc << 8) | u64::from(*byte);
        }
        Taken {
            at: end,
            acc,
            have: self.have + 8 * count,
        }
    }
}
