// When each call on a lent chain is refused, by what one pass over its records found and their number.
#![tactic(auto)]

mod refusals;

pub use refusals::{judge_fault, judge_fresh, judge_output, judge_run};
