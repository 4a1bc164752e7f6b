// The static library of include/bractbeacon.h: each export calls the function of its name in a crate above, and says its clauses again.
#![tactic(auto)]

mod chain_exports;
mod device_exports;
mod frame_exports;
mod light_exports;
mod number_exports;
mod set_exports;
