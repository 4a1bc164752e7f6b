// The turns of a run through a lent chain of devices, by value. The call itself, which walks the chain, is in the crate chain.
#![tactic(auto)]

mod front;
mod leaving;
mod turning;
mod watching;

pub use turning::{Turn, bring, take_turn, turn_after};
