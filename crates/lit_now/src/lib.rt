// Is an output of one device of a lent chain lit now, at the device's position in the frame, and in which phase. For C and Rust; what it
// answers is in specs/LitNow.
#![tactic(auto)]

mod call;
mod now;

pub use call::bb_lit_now;
pub use now::LitNow;
