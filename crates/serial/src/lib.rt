// From a packed frame to line states and back: the states of a frame's bits, and the data bits of returned states, packed as a return is.
#![tactic(auto)]

mod packing;
mod states;

pub use packing::pack_states;
pub use states::{EARLY, EXACT, LATE, frame_states};
