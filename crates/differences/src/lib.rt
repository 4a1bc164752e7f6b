// One device against what of a set is its own: same, or the first difference.
#![tactic(auto)]

mod compared;
mod own;

pub use compared::Compared;
pub use own::device_differs;
