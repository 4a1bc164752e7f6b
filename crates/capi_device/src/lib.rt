// One device for C and Rust, as include/bractbeacon.h documents it: its record judged, and stepped by value. The calls that are lent a chain
// of devices are exported by the crates chain and compare.
#![tactic(auto)]

mod steps;

pub use steps::{Stepped, bb_judge, bb_step};
