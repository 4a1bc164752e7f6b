// Subframes: is one ON, and how far a window of them leads. What that means is in specs/Subframes; what the two questions answer, refusals
// included, is in specs/Answers.
#![tactic(auto)]

mod intensity;
mod judge;
mod subframe;

pub use intensity::Intensity;
