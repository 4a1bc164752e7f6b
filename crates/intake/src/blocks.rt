// States are gone over in blocks, as long as all states of a block are of one kind.
ghost use Rattle.std.specs.Prelude.{◌≡◌, true, ℕ, ◌<◌, ◌≤◌, ◌+◌, length, get_or, drop};

// A kind of states, and how a block is seen to have no other.
pub trait Kind {
    ghost IsOf: { ℕ → Type 0 };

    fn has_all(block: &[u8]) -> bool
        ensures { result ≡ true → (k : ℕ) → k < length block.now → IsOf (get_or block.now k 0) };
}

// The states from a place on.
pub fn ahead(states: &[u8], from: usize) -> &[u8]
    ensures { result.now ≡ drop from states.now }
{
    states.get(from..).unwrap_or_default()
}

// The end of the whole blocks from a place on whose states are all of a kind.
pub fn blocks_end<const SIZE: usize, K: Kind>(states: &[u8], from: usize) -> usize
    requires { 0 < SIZE }
    ensures { (from ≤ result) × ((k : ℕ) → from ≤ k → k < result → (k < length states.now) × K.IsOf (get_or states.now k 0)) }
{
    let mut end = from;
    for block in ahead(states, from).chunks_exact(SIZE) {
        if !K::has_all(block) {
            break;
        }
        end += SIZE;
    }
    end
}
