// What a fault setting makes of one record of a lent chain.
#![tactic(auto)]

mod changes;

pub use changes::with_fault;
