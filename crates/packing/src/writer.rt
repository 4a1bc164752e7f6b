// Bits put into bytes. Bits wait in an accumulator until there are 32, which are then stored at once. The bytes stay a parameter beside the
// writer: blocks store at places of their own in the same bytes, so a writer that holds them is no plainer.
ghost use Rattle.std.specs.Prelude.{◌<◌};

use crate::store::store_word;
use bits::low_bits;

// Where a writer is: the bytes before `at` are stored, and the `have` low bits of `acc` wait, fewer than are stored at once.
// The bits of `acc` above them are stored already and do not matter.
#[derive(Clone, Copy)]
pub struct Writer {
    pub at: usize,
    pub acc: u64,
    pub have: u32,
    ghost few: { have < 32 },
}

impl Writer {
    ghost use Rattle.std.specs.Prelude.{◌+◌, ◌*◌, ◌-◌, ◌%◌, ◌<◌, ◌≤◌, ◌≡◌, [], length};
    ghost use Rattle.bits.specs.Bits.{bits, fields};
    ghost use Rattle.packing.specs.Writing.{Pushed};

    // At the byte `at`, with no bits that wait.
    pub fn new(at: usize) -> Writer
        ensures { (result.at ≡ at) × (result.have ≡ 0) }
    {
        Writer {
            at,
            acc: 0,
            have: 0,
        }
    }

    // Each of `values`, at `width` bits.
    pub fn push_each(self, out: &mut [u8], width: u32, values: &[u16]) -> Writer
        requires { (width ≤ 16) × (8 * self.at + self.have + length values.now * width ≤ 8 * length out.old) }
        ensures { Pushed out.old out.new self result (length values.now * width) (fields width values.now) }
    {
        let mut writer = self;
        for value in values {
            writer = writer.push(out, width, u64::from(*value));
        }
        writer
    }

    // The `width` low bits of `value`, for a width up to 64.
    pub fn push_wide(self, out: &mut [u8], width: u32, value: u64) -> Writer
        requires { (width ≤ 64) × (8 * self.at + self.have + width ≤ 8 * length out.old) }
        ensures { Pushed out.old out.new self result width (bits width value) }
    {
        if width <= 32 {
            return self.push(out, width, value);
        }
        let high = self.push(out, width - 32, value >> 32);
        high.push(out, 32, value)
    }

    // Zeros up to the end of a byte that has begun; then no bits wait.
    pub fn finish(self, out: &mut [u8]) -> Writer
        requires { 8 * self.at + self.have ≤ 8 * length out.old }
        ensures { Pushed out.old out.new self result ((8 - self.have % 8) % 8) (bits ((8 - self.have % 8) % 8) 0)
            × (result.have ≡ 0) }
    {
        let rest = (8 - self.have % 8) % 8;
        let padded = self.push(out, rest, 0);
        padded.flush(out)
    }

    // The `width` low bits of `value`, for a width up to 32.
    fn push(self, out: &mut [u8], width: u32, value: u64) -> Writer
        requires { (width ≤ 32) × (8 * self.at + self.have + width ≤ 8 * length out.old) }
        ensures { Pushed out.old out.new self result width (bits width value) }
    {
        let acc = (self.acc << width) | low_bits(value, width);
        let have = self.have + width;
        if have < 32 {
            return Writer {
                at: self.at,
                acc,
                have,
            };
        }
        let rest = have - 32;
        store_word(out, self.at, acc >> rest);
        Writer {
            at: self.at + 4,
            acc,
            have: rest,
        }
    }

    // The whole bytes among the bits that wait. It counts bits, as a `for` over the bytes would have to as well.
    fn flush(self, out: &mut [u8]) -> Writer
        requires { 8 * self.at + self.have ≤ 8 * length out.old }
        ensures { Pushed out.old out.new self result 0 [] × (result.have < 8) }
    {
        let Writer {
            mut at,
            acc,
            mut have,
        } = self;
        // By the bits that wait: there is no list to go over.
        while 8 <= have {
            have -= 8;
            out[at] = ((acc >> have) & 255) as u8;
            at += 1;
        }
        Writer { at, acc, have }
    }
}
