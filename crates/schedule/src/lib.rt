// Light: is an output lit, and at which clocks. What that means is in specs/Light; what the questions answer, refusals included, is in
// specs/Answers. Then where a clock of a frame stands in the schedule: specs/Moments.
#![tactic(auto)]

mod clocks;
mod judge;
mod moments;
mod output;
mod run;

pub use moments::{Moment, moment_at};
pub use output::{Clocks, Output};
