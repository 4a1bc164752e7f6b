// What a whole slice stores in a device.
#![tactic(auto)]

mod storing;

pub use storing::{configuration_after, store};
