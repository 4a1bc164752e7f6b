// Are the flags and values that a device holds within their widths?
#![tactic(auto)]

mod widths;

pub use widths::registers_fit;
