// A set against a lent chain: same, or the first difference.
#![tactic(auto)]

mod comparison;
mod judging;

pub use comparison::bb_compare;
