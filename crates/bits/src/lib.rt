// Bits of numbers, most significant first, and bytes: definitions and laws for every crate that speaks of bits,
// and three functions that several crates share.
#![tactic(auto)]

mod copying; // one list over another
mod mask; // the low bits of a number
mod room; // what fits into bytes

pub use copying::copy_over;
pub use mask::low_bits;
pub use room::has_room;
