// Bits for C and Rust, as include/bractbeacon.h documents them: numbers packed and unpacked, and how many subframes and slice bits a part has.
#![tactic(auto)]

mod bytes;
mod rows;

pub use bytes::{Packed, bb_pack, bb_unpack};
pub use rows::{bb_slice_bits, bb_subframes};
