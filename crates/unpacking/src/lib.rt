// Numbers taken out of lent bytes, in which they stand as bits, most significant first, with no gap.
// Bytes go through an accumulator of 64 bits, and lists of 12 and 14 bits in groups of four; any width, place and length gets an answer.
#![tactic(auto)]

mod blocks; // blocks of groups
mod groups; // four values at once
mod load; // bytes loaded as words
mod reader; // bits taken out of bytes
mod unpacking; // the public operations

pub use unpacking::{number_at, unpack};
