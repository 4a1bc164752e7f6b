// Blocks of groups. The words of a block are made before any is stored, so that several are made at a time.
ghost use Rattle.std.specs.Prelude.{◌≡◌, ◌+◌, ◌*◌, ◌-◌, ◌/◌, ◌%◌, ◌<◌, ◌≤◌, length, take};
ghost use Rattle.bits.specs.Bits.{fields, bytes_for};
ghost use Rattle.bits.specs.Words.{high_bits};
ghost use Rattle.packing.specs.Blocks.{group_words, Laid};

use crate::groups::Lanes;
use crate::store::store_long;

// Blocks of 128 values at 12 and 14 bits, from the byte `at` on, as long as more values are behind them; none at another width. The
// answer is how many values they are.
pub fn put_blocks(out: &mut [u8], at: usize, width: u32, values: &[u16]) -> usize
    requires { (width ≤ 16) × (at + bytes_for (length values.now * width) ≤ length out.old) }
    ensures { Laid out.old out.new at (result / 8 * width) (at + bytes_for (length values.now * width))
        (fields width (take result values.now))
        × (result % 8 ≡ 0)
        × (result ≤ length values.now) }
{
    let lanes = Lanes::new(width); // before the test, so that the loops take its mask as it comes: they are shorter then
    if width != 12 && width != 14 {
        return 0;
    }
    let (blocks, _) = values[..values.len().saturating_sub(1)].as_chunks::<128>();
    let mut words = [0; 32];
    let mut to = at;
    for block in blocks {
        make_words(block, lanes, &mut words);
        put_words(out, to, width, &words);
        to += 16 * width as usize;
    }
    128 * blocks.len()
}

// The words of a block's groups. The two widths have a loop each, which knows its width.
fn make_words(block: &[u16; 128], lanes: Lanes, words: &mut [u64; 32])
    requires { (12 ≤ lanes.width) × (lanes.width ≤ 14) × (lanes.width % 2 ≡ 0) }
    ensures { words.new ≡ group_words lanes.width 32 block.now }
{
    if lanes.width == 14 {
        make_words_of(
            block,
            Lanes {
                width: 14,
                mask: lanes.mask,
            },
            words,
        );
    } else {
        make_words_of(
            block,
            Lanes {
                width: 12,
                mask: lanes.mask,
            },
            words,
        );
    }
}

// The same at any width. By index: of what is written through a `zip` with `iter_mut` a proof knows nothing.
fn make_words_of(block: &[u16; 128], lanes: Lanes, words: &mut [u64; 32])
    requires { 0 < lanes.width }
    ensures { words.new ≡ group_words lanes.width 32 block.now }
{
    let (fours, _) = block.as_chunks::<4>();
    for (j, word) in words.iter_mut().enumerate() {
        *word = lanes.number_of(&fours[j]) << (64 - 4 * lanes.width);
    }
}

// The high bits of each word, four times `width`, from the byte `from` on with no gap. A word is stored as eight bytes, and the next one is
// stored over those that it has too many. It is not inlined, so that the words are loaded from memory: that takes a tenth less time.
#[inline(never)]
fn put_words(out: &mut [u8], from: usize, width: u32, words: &[u64; 32])
    requires le_width { (12 ≤ width) × (width ≤ 14) × (width % 2 ≡ 0) }
    requires width_in_bounds { from + 32 * (width / 2) + (8 - width / 2) ≤ length out.old }
    ensures { Laid out.old out.new from (32 * (width / 2))
        (from + 32 * (width / 2) + (8 - width / 2))
        (fields (4 * width) (high_bits (4 * width) words.now)) }
{
    let mut at = from;
    for word in words {
        store_long(out, at, *word);
        at += (width / 2) as usize;
    }
}
