// Blocks of groups. The words of a block are loaded before any is taken apart, so that several are taken apart at a time.
ghost use Rattle.std.specs.Prelude.{◌≡◌, ◌+◌, ◌*◌, ◌-◌, ◌/◌, ◌%◌, ◌<◌, ◌≤◌, length, take};
ghost use Rattle.bits.specs.Bits.{bytes_for, over_at};
ghost use Rattle.unpacking.specs.Reading.{Pulled, from};
ghost use Rattle.bits.specs.Words.{high_bits};
ghost use Rattle.unpacking.specs.Blocks.{group_values};

use crate::groups::{Lanes, set_four};
use crate::load::load_long;

// Blocks of 128 values at 12 and 14 bits, from the byte `at` on, as long as more values are behind them; none at another width. The
// answer is how many values they are.
pub fn take_blocks(src: &[u8], at: usize, width: u32, values: &mut [u16]) -> usize
    requires { (width ≤ 16) × (at + bytes_for (length values.old * width) ≤ length src.now) }
    ensures { Pulled src.now (from at) (from (at + result / 8 * width)) width (take result values.new)
        × (result ≤ length values.old) }
{
    if width != 12 && width != 14 {
        return 0;
    }
    let lanes = Lanes::new(width);
    let count = values.len().saturating_sub(1) / 128;
    let mut words = [0; 32];
    let mut here = at;
    // by index: of what is written through `chunks_mut` a proof knows nothing
    for k in 0..count {
        load_words(src, here, width, &mut words);
        spread_words(&words, lanes, values, 128 * k);
        here += 16 * width as usize;
    }
    128 * count
}

// A word for each of the next groups of four values, from the byte `first` on: eight bytes from the group's start on. Those that it has too
// many are the next group's.
fn load_words(src: &[u8], first: usize, width: u32, words: &mut [u64; 32])
    requires { (width ≤ 16) × (width % 2 ≡ 0) × (first + 32 * (width / 2) + (8 - width / 2) ≤ length src.now) }
    ensures { Pulled src.now (from first) (from (first + 32 * (width / 2))) (4 * width) (high_bits (4 * width) words.new) }
{
    let mut at = first;
    for word in words.iter_mut() {
        *word = load_long(src, at);
        at += (width / 2) as usize;
    }
}

// The values of each word's group, from the value `first` on. The two widths have a loop each, which knows its width.
fn spread_words(words: &[u64; 32], lanes: Lanes, values: &mut [u16], first: usize)
    requires le_width { (12 ≤ lanes.width) × (lanes.width ≤ 14) × (lanes.width % 2 ≡ 0) }
    requires words_in_bounds { first + 128 ≤ length values.old }
    ensures { values.new ≡ over_at first (group_values lanes.width words.now) values.old }
{
    if lanes.width == 14 {
        spread_words_of(
            words,
            Lanes {
                width: 14,
                mask: lanes.mask,
            },
            values,
            first,
        );
    } else {
        spread_words_of(
            words,
            Lanes {
                width: 12,
                mask: lanes.mask,
            },
            values,
            first,
        );
    }
}

// The same at any width.
fn spread_words_of(words: &[u64; 32], lanes: Lanes, values: &mut [u16], first: usize)
    requires { (0 < lanes.width) × (first + 128 ≤ length values.old) }
    ensures { values.new ≡ over_at first (group_values lanes.width words.now) values.old }
{
    for (j, word) in words.iter().enumerate() {
        let number = *word >> (64 - 4 * lanes.width);
        set_four(values, first + 4 * j, lanes.four_of(number));
    }
}
