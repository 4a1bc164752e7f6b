// The parts, the four commands, and the number of devices. What they mean, and what slices are, is in specs/Parts; frames as bits and as line
// states are in specs/Wire.
#![tactic(auto)]

mod command;
mod count;
mod part;

pub use command::{Command, pairs_of};
pub use count::{MOST_DEVICES, is_count};
pub use part::{
    Constants, Max6972, Max6973, Max6974, Max6975, constants_of, frame_clocks, is_known,
    outputs_of, row_of, subframes_of, value_limit,
};
