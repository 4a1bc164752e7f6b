// Light for C and Rust, as include/bractbeacon.h documents it: the questions of the crates schedule and device_light, answered in numbers.
#![tactic(auto)]

mod light;

pub use light::{
    Clocks, Signed, bb_device_lit, bb_device_lit_clocks, bb_lead, bb_lit, bb_lit_clocks, bb_on,
};
