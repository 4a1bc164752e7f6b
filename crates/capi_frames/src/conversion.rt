// From bytes to line states and back.
ghost use Rattle.std.specs.Prelude.{◌≡◌};
ghost use Rattle.serial.specs.States.{clocked_answer, clocked_out, data_bytes_answer, data_bytes_out};
ghost use Rattle.answers.specs.Answers.{of_answer};

use answers::Answer;

// The line states of a packed frame that is sent with an edge.
#[unsafe(no_mangle)]
pub extern "C" fn bb_states(frame: &[u8], bits: usize, edge: u8, states: &mut [u8]) -> Answer
    ensures { (result ≡ of_answer (clocked_answer frame.now bits edge states.old))
        × (states.new ≡ clocked_out frame.now bits edge states.old) }
{
    serial::frame_states(frame, bits, edge, states).into()
}

// The data bits of line states, packed.
#[unsafe(no_mangle)]
pub extern "C" fn bb_data_bytes(states: &[u8], out: &mut [u8]) -> Answer
    ensures { (result ≡ of_answer (data_bytes_answer states.now out.old))
        × (out.new ≡ data_bytes_out states.now out.old) }
{
    serial::pack_states(states, out).into()
}
