// The return reader: the count that a returned header carries. What it answers is in specs/Returns.
#![tactic(auto)]

mod returns;

pub use returns::read_return;
