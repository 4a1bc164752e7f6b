// The bench program's two arguments: what they ask for, from their texts. specs/Arguments says what that is.
#![tactic(auto)]

mod decimal; // a number from its text
mod judging; // part and N

pub use decimal::parse;
pub use judging::{Chain, ask};
