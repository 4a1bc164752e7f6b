// One device takes as many high states at hand as it can at once, and then what it took is settled in its record: so a record is moved once a
// slice or flood and not once a clock. Where high states end is asked by a chain that passes them too.
#![tactic(auto)]

mod blocks;
mod field;
mod highs;
mod lows;
mod slice;
mod taken;

pub use highs::{highs_end, take};
pub use lows::low_blocks;
pub use slice::take_slice;
pub use taken::{Progress, settle, stop, take_none};
