// Low states, as a pause has them. What a device hears in them is asked by a chain's turns.
ghost use Rattle.std.specs.Prelude.{ℕ, ◌<◌, ◌≤◌, length, get_or};

use crate::blocks::{Kind, blocks_end};

// Low states.
struct LowStates;

impl Kind for LowStates {
    ghost IsOf = { λ s. s < 2 };

    fn has_all(block: &[u8]) -> bool {
        // Where a frame begins, the last state says at once that the block is not low.
        if block.last().is_some_and(|last| *last >= 2) {
            return false;
        }
        let mut all = true;
        for state in block {
            all = all & (*state < 2);
        }
        all
    }
}

// Where blocks of low states alone end.
pub fn low_blocks(states: &[u8], from: usize) -> usize
    ensures { (from ≤ result) × ((k : ℕ) → from ≤ k → k < result → (k < length states.now) × (get_or states.now k 0 < 2)) }
{
    blocks_end::<64, LowStates>(states, from)
}
