// What a device holds beside its place in a frame: a bit of a slice that is coming in, a fault setting.
#![tactic(auto)]

mod registers;

pub use registers::{Registers, raise};
