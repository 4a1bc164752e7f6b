// What the programs that run the numbers of docs/RULES.md share: the line of a case, what stands in it, and what a frame is told by. What is
// printed is not proved: it is held to a stored text.
#![tactic(auto)]

mod printing; // the line of a case
mod lists; // bytes and values, as a line has them
mod outcome; // a call that is taken or refused
mod outputs; // values of outputs in both phases
mod told; // what a frame is told by

pub use lists::{Bytes, Values, front};
pub use outcome::Outcome;
pub use outputs::{Phases, spaced};
pub use printing::{case, is_same, line, verdict};
pub use told::{frame_of, no_tail, tail_of};
