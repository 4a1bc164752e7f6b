// Where a run through a lent chain stands: where it begins, whose turn is next, and what it answers. What a turn does is in the crate turns.
#![tactic(auto)]

mod cursor;
mod entry;

pub use cursor::{Cursor, halt, next_turn};
pub use entry::{Ran, answer, enter};
