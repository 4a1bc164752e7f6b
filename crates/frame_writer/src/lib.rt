// The frame writer: a frame from its settings. What it answers, and what it leaves in the lent output, is in specs/Writing.
#![tactic(auto)]

mod put; // pieces of a frame put into lent bytes
mod writer;

pub use writer::write;
