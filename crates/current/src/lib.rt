// The current of a set: for each device and for the sign, the total over 524,288 clocks with its average and its remainder. It walks no clocks:
// of each output it adds up how many clocks are lit in an ON subframe, and the rest is a product.
#![tactic(auto)]

mod clocks; // lit clocks of a bank
mod drive; // what is the same for every device
mod figures; // a device after the other
mod judge; // refusals
mod sign; // the public operation

pub use sign::{Current, bb_current};
