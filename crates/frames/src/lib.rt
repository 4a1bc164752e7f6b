// Frames: what is told of one and how long it then is, and what is judged of every frame. What a frame is is in specs/Frames; the crates
// frame_writer, frame_reader and return_reader write frames, read them back, and read returned headers.
#![tactic(auto)]

mod field; // a number out of a frame
mod judge; // refusals that more than one operation gives
mod sizes; // how long a told frame is
mod told; // what is told

pub use field::field_at;
pub use judge::{is_tail_high, judge_end, judge_head, judge_told};
pub use sizes::{told_bits, told_fields, told_length};
pub use told::{Tail, Told};
