// Frames written and read, returns read, and line states.
ghost use Rattle.std.specs.Prelude.{◌≡◌, length};
ghost use Rattle.frames.specs.Frames.{tail_of};
ghost use Rattle.frame_writer.specs.Writing.{written, written_out};
ghost use Rattle.answers.specs.Answers.{of_answer};
ghost use Rattle.capi_frames.specs.FrameAnswers.{told_by, of_read};
ghost use Rattle.frame_reader.specs.Reading.{read, read_bytes, read_values};
ghost use Rattle.parts.specs.Parts.{command_at};
ghost use Rattle.return_reader.specs.Returns.{return_read};
ghost use Rattle.serial.specs.States.{clocked_answer, clocked_out, data_bytes_answer, data_bytes_out};

use answers::Answer;

// Writes a frame.
#[unsafe(no_mangle)]
pub extern "C" fn bb_write(
    part: u16,
    devices: usize,
    command: u8,
    configuration: u8,
    tail: u64,
    long: u32,
    byte: u8,
    bytes: &[u8],
    values: &[u16],
    out: &mut [u8],
) -> Answer
    ensures value { result
        ≡ of_answer
        (written (told_by part devices command configuration) (tail_of tail long) byte bytes.now values.now
        (length out.old)) }
    ensures out_after { out.new
        ≡ written_out (told_by part devices command configuration) (tail_of tail long) byte bytes.now values.now
        out.old }
{
    capi_frames::bb_write(
        part,
        devices,
        command,
        configuration,
        tail,
        long,
        byte,
        bytes,
        values,
        out,
    )
}

// Reads a host frame.
#[unsafe(no_mangle)]
pub extern "C" fn bb_read(
    part: u16,
    devices: usize,
    command: u8,
    configuration: u8,
    tail: u64,
    long: u32,
    frame: &[u8],
    bytes: &mut [u8],
    values: &mut [u16],
) -> Answer
    ensures value { result
        ≡ of_read
        (read (told_by part devices command configuration) (tail_of tail long) frame.now (length bytes.old)
        (length values.old)) }
    ensures bytes_after { bytes.new
        ≡ read_bytes (told_by part devices command configuration) (tail_of tail long) frame.now bytes.old
        (length values.old) }
    ensures values_after { values.new
        ≡ read_values (told_by part devices command configuration) (tail_of tail long) frame.now (length bytes.old)
        values.old }
{
    capi_frames::bb_read(
        part,
        devices,
        command,
        configuration,
        tail,
        long,
        frame,
        bytes,
        values,
    )
}

// Reads what came back.
#[unsafe(no_mangle)]
pub extern "C" fn bb_read_return(
    part: u16,
    devices: usize,
    command: u8,
    tail: u64,
    long: u32,
    frame: &[u8],
) -> Answer
    ensures { result ≡ of_answer (return_read part devices (command_at command) (tail_of tail long) frame.now) }
{
    capi_frames::bb_read_return(part, devices, command, tail, long, frame)
}

// The line states of a packed frame that is sent with an edge.
#[unsafe(no_mangle)]
pub extern "C" fn bb_states(frame: &[u8], bits: usize, edge: u8, states: &mut [u8]) -> Answer
    ensures { (result ≡ of_answer (clocked_answer frame.now bits edge states.old))
        × (states.new ≡ clocked_out frame.now bits edge states.old) }
{
    capi_frames::bb_states(frame, bits, edge, states)
}

// The data bits of line states, packed.
#[unsafe(no_mangle)]
pub extern "C" fn bb_data_bytes(states: &[u8], out: &mut [u8]) -> Answer
    ensures { (result ≡ of_answer (data_bytes_answer states.now out.old))
        × (out.new ≡ data_bytes_out states.now out.old) }
{
    capi_frames::bb_data_bytes(states, out)
}
