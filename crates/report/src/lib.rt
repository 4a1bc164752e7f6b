// The bench program's report, on lent memory: the lines for what its arguments ask and for what stands in its standard input. What they
// are is in specs/.
#![tactic(auto)]

mod lines; // the lines
mod reading; // one frame of the input
mod text; // bytes and numbers, gathered
mod whole; // the whole report

pub use whole::report;
