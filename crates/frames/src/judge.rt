// Refusals that more than one operation gives. Each judge refuses by the first of its rows that applies.
ghost use Rattle.std.specs.Prelude.{◌≡◌};
ghost use Rattle.tables.specs.Refusals.{first, carried};
ghost use Rattle.frames.specs.Frames.{tail_high, told_rows, head_table, end_table};

use crate::field::field_at;
use crate::told::Tail;
use parts::Command;
use tables::Refusal;

// A tail has bits above its length.
#[tactic(auto, using(crate::proofs::Tests::above_length))]
pub fn is_tail_high(tail: Tail) -> bool
    ensures { result ≡ tail_high tail }
{
    bits::low_bits(tail.number, tail.length) != tail.number
}

// Refusals 1 to 3.
pub fn judge_told(part: u16, devices: usize, tail: Tail) -> Result<(), Refusal>
    ensures { carried result ≡ first (told_rows part devices tail) }
{
    if !parts::is_known(part) {
        return Err(Refusal::UnknownPart);
    }
    if !parts::is_count(devices) {
        return Err(Refusal::WrongDeviceCount);
    }
    if 64 < tail.length {
        return Err(Refusal::LongTail);
    }
    Ok(())
}

// Refusals 7 and 8, and 4 of a frame that is shorter than a header.
#[tactic(auto, using(crate::proofs::Judged::field_within), unfolding(crate::specs::Frames::head_table))]
pub fn judge_head(frame: &[u8], command: Command) -> Result<(), Refusal>
    ensures { carried result ≡ first (head_table command frame.now) }
{
    if frame.len() < 3 {
        return Err(Refusal::WrongLength);
    }
    if field_at(frame, 0, 8) != 0xE8 {
        return Err(Refusal::WrongSync);
    }
    if field_at(frame, 8, 6) != parts::pairs_of(command) as u64 {
        return Err(Refusal::WrongCommand);
    }
    Ok(())
}

// Refusals 11 and 12, of a tail from the bit `at` on; 3 of a tail of over 64 bits, and 4 of a frame that does not end with the tail.
#[tactic(auto, using(crate::proofs::Judged::field_within, crate::proofs::Pieces::rest_all), unfolding(crate::specs::Frames::end_table))]
pub fn judge_end(frame: &[u8], at: u32, tail: Tail) -> Result<(), Refusal>
    ensures { carried result ≡ first (end_table at tail frame.now) }
{
    if tail.length > 64 {
        return Err(Refusal::LongTail);
    }
    let start = at as usize;
    let end = start + tail.length as usize;
    if frame.len() != end.div_ceil(8) {
        return Err(Refusal::WrongLength);
    }
    let unused = ((8 - end % 8) % 8) as u32;
    if field_at(frame, end, unused) != 0 {
        return Err(Refusal::UnusedBitSet);
    }
    if field_at(frame, start, tail.length) != tail.number {
        return Err(Refusal::WrongTail);
    }
    Ok(())
}
