// One frame of the input.
ghost use Rattle.std.specs.Prelude.{◌≡◌, ◌<◌, take, drop};
ghost use Rattle.tables.specs.Refusals.{numbered};
ghost use Rattle.report.specs.Report.{frame_size, answer_of, byte_in};

use frame_reader::Read;
use frames::{Tail, Told};
use tables::Refusal;

// The bits that a frame should have.
pub fn frame_size(told: Told) -> usize
    requires { told.devices < 65536 }
    ensures value { result ≡ frame_size told }
    ensures upper_bound { result < 4294967296 }
{
    let slice = slices::slice_bits(told.command, told.part, told.configuration);
    24 + told.devices * usize::from(slice)
}

// What the reader answers for the frame at the front of the input. What it reads goes to memory that is not kept.
pub fn read_front(told: Told, input: &[u8]) -> Result<Read, Refusal>
    requires { told.devices < 65536 }
    ensures { numbered result ≡ answer_of told input.now }
{
    let tail = Tail {
        number: 0,
        length: 0,
    };
    let frame = front(input, frame_size(told).div_ceil(8));
    frame_reader::read(told, tail, frame, &mut [0; 1536], &mut [0; 24576])
}

// The byte that a frame holds.
pub fn byte_in(answer: Result<Read, Refusal>) -> Option<u8>
    ensures { result ≡ byte_in (numbered answer) }
{
    let Ok(Read::Byte(byte)) = answer else {
        return None;
    };
    Some(byte)
}

// The first n bytes, or all where there are fewer. `cases` has the same of any list, for programs alone: one line in a crate below both is no plainer.
pub fn front(bytes: &[u8], n: usize) -> &[u8]
    ensures { result.now ≡ take n bytes.now }
{
    &bytes[..n.min(bytes.len())]
}

// The bytes behind the first n.
pub fn back(bytes: &[u8], n: usize) -> &[u8]
    ensures { result.now ≡ drop n bytes.now }
{
    &bytes[n.min(bytes.len())..]
}
