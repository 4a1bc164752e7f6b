// Where a device stands in a frame: its phase, the phase as the record's numbers, and what one data bit makes of it.
#![tactic(auto)]

mod phase;

pub use phase::{Phase, Place, Sent, header_bit, hear, in_header, window_of};
