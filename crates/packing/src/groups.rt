// Lists packed in groups. Four values are moved together in a number of 64 bits: one group of seven bytes at 14 bits, two groups of three at 12.
ghost use Rattle.std.specs.Prelude.{◌≡◌, ◌+◌, ◌*◌, ◌/◌, ◌≤◌, length, take};
ghost use Rattle.bits.specs.Bits.{number, fields};
ghost use Rattle.packing.specs.Writing.{Pushed};
ghost use Rattle.packing.specs.Blocks.{four_masks};

use crate::writer::Writer;
use bits::low_bits;

// Each of `values`, at `width` bits: in fours at 12 and 14 bits, and what is left, or all at another width, one by one.
pub fn push_all(out: &mut [u8], writer: Writer, width: u32, values: &[u16]) -> Writer
    requires { (width ≤ 16) × (8 * writer.at + writer.have + length values.now * width ≤ 8 * length out.old) }
    ensures { Pushed out.old out.new writer result (length values.now * width) (fields width values.now) }
{
    match width {
        12 => push_fours::<12>(out, writer, values),
        14 => push_fours::<14>(out, writer, values),
        _ => writer.push_each(out, width, values),
    }
}

// Each of `values`, at `WIDTH` bits: in fours, and what is left one by one. Each of the two widths has a loop that knows it.
fn push_fours<const WIDTH: u32>(out: &mut [u8], writer: Writer, values: &[u16]) -> Writer
    requires { (WIDTH ≤ 16) × (8 * writer.at + writer.have + length values.now * WIDTH ≤ 8 * length out.old) }
    ensures { Pushed out.old out.new writer result (length values.now * WIDTH) (fields WIDTH values.now) }
{
    let (fours, rest) = values.as_chunks::<4>();
    let lanes = Lanes::new(WIDTH);
    let mut behind = writer;
    for four in fours {
        behind = behind.push_wide(out, 4 * WIDTH, lanes.number_of(four));
    }
    behind.push_each(out, WIDTH, rest)
}

// A width of values that stand side by side, 16 bits to each, and the mask of so many bits for each of four.
#[derive(Clone, Copy)]
pub struct Lanes {
    pub width: u32,
    pub mask: u64,
    ghost narrow: { width ≤ 16 },
    ghost masks: { mask ≡ four_masks width },
}

impl Lanes {
    pub fn new(width: u32) -> Lanes
        requires { width ≤ 16 }
        ensures { result.width ≡ width }
    {
        Lanes {
            width,
            mask: low_bits(0xffff, width) * 0x1_0001_0001_0001,
        }
    }

    // The `width` low bits of four values, as one number: the four stand side by side, then two and two together.
    pub fn number_of(self, values: &[u16; 4]) -> u64
        ensures { result ≡ number (fields self.width values.now) }
    {
        let low = (values[0] as u64) | ((values[1] as u64) << 16);
        let high = (values[2] as u64) | ((values[3] as u64) << 16);
        let four = (low | (high << 32)) & self.mask;
        let pairs = ((four & 0xffff_0000_ffff) << self.width) | ((four >> 16) & 0xffff_0000_ffff);
        ((pairs & 0xffff_ffff) << (2 * self.width)) | (pairs >> 32)
    }
}
