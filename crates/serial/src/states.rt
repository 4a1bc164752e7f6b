// A packed frame's line states.
ghost use Rattle.std.specs.Prelude.{◌≡◌, ◌+◌, ◌*◌, ◌/◌, ◌%◌, ◌^◌, ◌-◌, ◌<◌, ◌≤◌, cond, ltb, length, get_or};
ghost use Rattle.tables.specs.Refusals.{first, numbered, carried};
ghost use Rattle.bits.specs.Bits.{bytes_for, over};
ghost use Rattle.parts.specs.Wire.{edge_at, low_clocks};
ghost use Rattle.serial.specs.States.{frame_rows, frame_states, clocked_answer, clocked_out};

use tables::Refusal;

// Where load rises in a frame, by its number: with SYNC's last bit, with the first command bit, or with the second.
// Numbers and no enum: C tells the edge by its number, and any other number is refused.
pub const EARLY: u8 = 0;

// What is sent to a sign, and what every device sends on.
pub const EXACT: u8 = 1;

pub const LATE: u8 = 2;

// The states of the first `bits` bits of a frame that is sent with an edge: those before it at low load, the rest at high.
// The answer is how many states were written.
#[tactic(auto, unfolding(crate::specs::States::clocked_answer, crate::specs::States::clocked_out))]
pub fn frame_states(frame: &[u8], bits: usize, edge: u8, out: &mut [u8]) -> Result<usize, Refusal>
    ensures { (numbered result ≡ clocked_answer frame.now bits edge out.old)
        × (out.new ≡ clocked_out frame.now bits edge out.old) }
{
    judge_frame(frame.len(), bits, edge, out.len())?;
    put_states(frame, bits, edge, out);
    Ok(bits)
}

// Refusals 4, 5 and 13. A count of bits that no slice could hold is another length than its rule says.
fn judge_frame(long: usize, bits: usize, edge: u8, room: usize) -> Result<(), Refusal>
    ensures { carried result ≡ first (frame_rows long bits edge room) }
{
    if long != bytes_for(bits) {
        return Err(Refusal::WrongLength);
    }
    if room < bits {
        return Err(Refusal::NoRoom);
    }
    if edge > LATE {
        return Err(Refusal::OutOfRange);
    }
    Ok(())
}

// The bytes that a count of bits takes: `bits + 7` might not fit.
pub fn bytes_for(bits: usize) -> usize
    ensures { result ≡ bytes_for bits }
{
    bits.div_ceil(8)
}

// The state of one bit of a frame.
fn bit_state(byte: u8, place: u32, load: u8) -> u8
    requires { (place < 8) × (load ≤ 2) }
    ensures { result ≡ load + byte / 2 ^ (7 - place) % 2 }
{
    load + (byte >> (7 - place)) % 2
}

// The bits at low load before an edge.
fn low_clocks(edge: u8) -> usize
    ensures { result ≡ low_clocks (edge_at edge) }
{
    match edge {
        EARLY => 7,
        EXACT => 8,
        _ => 9,
    }
}

// The load bit, twice: low before the edge.
fn load_at(bit: usize, low: usize) -> u8
    ensures { result ≡ cond (ltb bit low) 0 2 }
{
    if bit < low { 0 } else { 2 }
}

fn put_states(frame: &[u8], bits: usize, edge: u8, out: &mut [u8])
    requires { (length frame.now ≡ bytes_for bits) × (bits ≤ length out.old) }
    ensures { out.new ≡ over (frame_states (edge_at edge) frame.now bits) out.old }
{
    let low = low_clocks(edge);
    for (i, state) in out[..bits].iter_mut().enumerate() {
        *state = bit_state(frame[i / 8], (i % 8) as u32, load_at(i, low));
    }
}
