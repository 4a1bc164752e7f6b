// One device of the sign: the record, its judgement, and the step by one line state, by value.
#![tactic(auto)]

mod device;
mod judgement;

pub use device::{Device, Stepped, judge};
