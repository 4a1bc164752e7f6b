// The frame reader: the settings that a frame holds. What it answers, and what it leaves in the lent lists, is in specs/Reading.
#![tactic(auto)]

mod answer; // what is answered
mod lists; // tests of the bytes of a frame
mod reader;
mod take; // pieces of a frame taken out of it

pub use answer::Read;
pub use reader::read;
