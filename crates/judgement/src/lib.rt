// The judgement of a lent chain in one pass over its records.
#![tactic(auto)]

mod judging;

pub use judging::{Judged, judge};
