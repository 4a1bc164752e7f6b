// A set as a caller gives it, and what is judged of it: by the comparison and by the current.
#![tactic(auto)]

mod judge;
mod numbers;

pub use judge::{lists_fit, settings_fit};
pub use numbers::{GivenSet, SetNumbers};
