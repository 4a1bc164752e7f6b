// Slices by command, part and configuration: their bits from one constant table, their fields, and the width and limit of a field. What they
// are is in parts/specs/Parts.
#![tactic(auto)]

mod slices;

pub use slices::{field_limit, field_width, slice_bits, slice_fields};
