// Frames for C and Rust, as include/bractbeacon.h documents them: written, read, returned, and as line states. Each function
// makes its answer From that of an operation.
#![tactic(auto)]

mod conversion;
mod wire;

pub use conversion::{bb_data_bytes, bb_states};
pub use wire::{bb_read, bb_read_return, bb_write};
