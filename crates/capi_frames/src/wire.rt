// Frames written and read, and returns read. A command is told by its bits C1 C0, and higher bits are not looked at.
ghost use Rattle.std.specs.Prelude.{◌≡◌, length};
ghost use Rattle.parts.specs.Parts.{command_at};
ghost use Rattle.frames.specs.Frames.{tail_of};
ghost use Rattle.frame_writer.specs.Writing.{written, written_out};
ghost use Rattle.frame_reader.specs.Reading.{read, read_bytes, read_values};
ghost use Rattle.return_reader.specs.Returns.{return_read};
ghost use Rattle.answers.specs.Answers.{of_answer};
ghost use Rattle.capi_frames.specs.FrameAnswers.{told_by, listed, value_given, of_read};

use answers::Answer;
use frame_reader::Read;
use frames::{Tail, Told};

// Writes a frame.
#[unsafe(no_mangle)]
pub extern "C" fn bb_write(
    part: u16,
    devices: usize,
    command: u8,
    configuration: u8,
    tail: u64,
    long: u32,
    byte: u8,
    bytes: &[u8],
    values: &[u16],
    out: &mut [u8],
) -> Answer
    ensures value { result
        ≡ of_answer
        (written (told_by part devices command configuration) (tail_of tail long) byte bytes.now values.now
        (length out.old)) }
    ensures out_after { out.new
        ≡ written_out (told_by part devices command configuration) (tail_of tail long) byte bytes.now values.now
        out.old }
{
    let told = told_by(part, devices, command, configuration);
    let behind = Tail {
        number: tail,
        length: long,
    };
    frame_writer::write(told, behind, byte, bytes, values, out).into()
}

// Reads a host frame.
#[unsafe(no_mangle)]
pub extern "C" fn bb_read(
    part: u16,
    devices: usize,
    command: u8,
    configuration: u8,
    tail: u64,
    long: u32,
    frame: &[u8],
    bytes: &mut [u8],
    values: &mut [u16],
) -> Answer
    ensures value { result
        ≡ of_read
        (read (told_by part devices command configuration) (tail_of tail long) frame.now (length bytes.old)
        (length values.old)) }
    ensures bytes_after { bytes.new
        ≡ read_bytes (told_by part devices command configuration) (tail_of tail long) frame.now bytes.old
        (length values.old) }
    ensures values_after { values.new
        ≡ read_values (told_by part devices command configuration) (tail_of tail long) frame.now (length bytes.old)
        values.old }
{
    let told = told_by(part, devices, command, configuration);
    let behind = Tail {
        number: tail,
        length: long,
    };
    frame_reader::read(told, behind, frame, bytes, values)
        .map(value_given)
        .into()
}

// Reads what came back.
#[unsafe(no_mangle)]
pub extern "C" fn bb_read_return(
    part: u16,
    devices: usize,
    command: u8,
    tail: u64,
    long: u32,
    frame: &[u8],
) -> Answer
    ensures { result ≡ of_answer (return_read part devices (command_at command) (tail_of tail long) frame.now) }
{
    let behind = Tail {
        number: tail,
        length: long,
    };
    return_reader::read_return(part, devices, command.into(), behind, frame)
        .map(usize::from)
        .into()
}

fn told_by(part: u16, devices: usize, command: u8, configuration: u8) -> Told
    ensures { result ≡ told_by part devices command configuration }
{
    Told {
        part,
        devices,
        command: command.into(),
        configuration,
    }
}

// What an accepted frame gives: its byte, or how much of the lent list.
fn value_given(read: Read) -> usize
    ensures { result ≡ value_given read }
{
    let Read::Byte(byte) = read else {
        return listed(read);
    };
    usize::from(byte)
}

// How many bytes or values stand in the lent list.
fn listed(read: Read) -> usize
    ensures { result ≡ listed read }
{
    let (Read::Bytes(n) | Read::Values(n)) = read else {
        return 0;
    };
    n
}
