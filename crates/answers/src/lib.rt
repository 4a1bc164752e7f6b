// The answer of an operation for C and Rust: a number, or the number of a refusal. What it holds is in specs/Answers.
#![tactic(auto)]

mod answer;

pub use answer::{Answer, accept, refuse};
