// Numbers as bits, most significant first, packed into lent bytes with no gap.
// Values go through an accumulator of 64 bits, and lists of 12 and 14 bits in groups of four; any width, place, length and value gets an answer.
#![tactic(auto)]

mod blocks; // blocks of groups
mod groups; // four values at once
mod packing; // the public operations
mod store; // words stored as bytes
mod writer; // bits put into bytes

pub use packing::{pack, pack_number};
