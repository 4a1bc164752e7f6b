// What every operation's refusals are made of: the refusals by name, tables of rows (specs/Refusals), and tests of whole lists.
#![tactic(auto)]

mod lists;
mod refusal;

pub use lists::{bytes_below, or_all, values_below};
pub use refusal::{Refusal, carried_number};
