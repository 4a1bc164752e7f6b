// The data bits of returned states, packed.
ghost use Rattle.std.specs.Prelude.{◌≡◌, ◌+◌, ◌*◌, ◌<◌, ◌≤◌, length, get_or};
ghost use Rattle.tables.specs.Refusals.{first, numbered, carried};
ghost use Rattle.bits.specs.Bits.{bytes_of, bytes_for, over};
ghost use Rattle.serial.specs.States.{state_rows, data_bits, digit_at, data_bytes_answer, data_bytes_out};

use crate::states::bytes_for;
use tables::Refusal;

// The data bits of `states`, most significant first, zeros in the unused bits of the last byte. The answer is how many bytes were written.
#[tactic(auto, unfolding(crate::specs::States::data_bytes_answer, crate::specs::States::data_bytes_out))]
pub fn pack_states(states: &[u8], out: &mut [u8]) -> Result<usize, Refusal>
    ensures { (numbered result ≡ data_bytes_answer states.now out.old)
        × (out.new ≡ data_bytes_out states.now out.old) }
{
    judge_states(states, out.len())?;
    put_bytes(states, out);
    Ok(bytes_for(states.len()))
}

// Refusals 5 and 13.
fn judge_states(states: &[u8], room: usize) -> Result<(), Refusal>
    ensures { carried result ≡ first (state_rows states.now room) }
{
    if room < bytes_for(states.len()) {
        return Err(Refusal::NoRoom);
    }
    if !tables::bytes_below(states, 4) {
        return Err(Refusal::OutOfRange);
    }
    Ok(())
}

// The data bit of a state, 0 past the last one.
fn bit_at(states: &[u8], at: usize) -> u8
    ensures { result ≡ digit_at states.now at }
{
    states.get(at).copied().unwrap_or(0) % 2
}

// The byte at a place: eight data bits, those past the last state 0.
fn byte_at(states: &[u8], place: usize) -> u8
    requires { place < bytes_for (length states.now) }
    ensures { result ≡ get_or (bytes_of (data_bits states.now)) place 0 }
{
    let mut byte = 0;
    for at in place * 8..place * 8 + 8 {
        byte = byte * 2 + bit_at(states, at);
    }
    byte
}

fn put_bytes(states: &[u8], out: &mut [u8])
    requires { bytes_for (length states.now) ≤ length out.old }
    ensures { out.new ≡ over (bytes_of (data_bits states.now)) out.old }
{
    let end = bytes_for(states.len());
    for (place, byte) in out[..end].iter_mut().enumerate() {
        *byte = byte_at(states, place);
    }
}
