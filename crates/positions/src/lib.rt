// A device's position in the frame: whether it is one, what a configuration that shortens the frame makes of it, and how a run keeps it.
#![tactic(auto)]

mod positions;
mod running;

pub use positions::{position_fits, refit};
pub use running::{date, has_ended, position_by};
