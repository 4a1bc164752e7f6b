// The lines. Each takes at most 96 bytes.
ghost use Rattle.std.specs.Prelude.{◌≡◌, ◌+◌, ◌≤◌, ◌++◌};
ghost use Rattle.arrayvec.specs.ArrayVec.{array_vec_len};
ghost use Rattle.tables.specs.Refusals.{numbered};
ghost use Rattle.report.specs.Lines.{refused_line, trailing_line, part_line, ending, frame_line};

use crate::text::{Lines, put, put_labelled};
use arguments::Chain;
use frame_reader::Read;
use parts::Command;
use tables::Refusal;

// The line of the chain.
pub fn put_part(lines: &mut Lines, chain: Chain, multiplexed: u8)
    requires { array_vec_len lines.old + 96 ≤ 640 }
    ensures text { lines.new.items ≡ lines.old.items ++ part_line chain.part chain.devices multiplexed }
    ensures room { array_vec_len lines.new ≤ array_vec_len lines.old + 96 }
{
    put_labelled(lines, b"part ", u64::from(chain.part));
    put_labelled(lines, b" devices ", u64::from(chain.devices));
    put_labelled(lines, b" multiplexed ", u64::from(multiplexed));
    put(lines, b"\n");
}

// A frame's line.
pub fn put_frame(lines: &mut Lines, command: Command, bits: usize, answer: Result<Read, Refusal>)
    requires { array_vec_len lines.old + 96 ≤ 640 }
    ensures text { lines.new.items ≡ lines.old.items ++ frame_line command bits (numbered answer) }
    ensures room { array_vec_len lines.new ≤ array_vec_len lines.old + 96 }
{
    let name = match command {
        Command::Individual => b"individual bits ".as_slice(),
        Command::Calibration => b"calibration bits ".as_slice(),
        Command::Global => b"global bits ".as_slice(),
        Command::Configuration => b"configuration bits ".as_slice(),
    };
    put_labelled(lines, name, bits as u64);
    put_ending(lines, answer);
}

// How it ends.
fn put_ending(lines: &mut Lines, answer: Result<Read, Refusal>)
    requires { array_vec_len lines.old + 40 ≤ 640 }
    ensures text { lines.new.items ≡ lines.old.items ++ ending (numbered answer) }
    ensures room { array_vec_len lines.new ≤ array_vec_len lines.old + 40 }
{
    match answer {
        Ok(_) => put(lines, b" accepted\n"),
        Err(refusal) => {
            put_labelled(lines, b" refused ", u64::from(u8::from(refusal)));
            put(lines, b"\n");
        }
    }
}

// The line of refused arguments.
pub fn put_refused(lines: &mut Lines, number: u8)
    requires { array_vec_len lines.old + 96 ≤ 640 }
    ensures { lines.new.items ≡ lines.old.items ++ refused_line number }
{
    put_labelled(lines, b"refused ", u64::from(number));
    put(lines, b"\n");
}

// The line of left-over input.
pub fn put_trailing(lines: &mut Lines)
    requires { array_vec_len lines.old + 96 ≤ 640 }
    ensures { lines.new.items ≡ lines.old.items ++ trailing_line }
{
    put(lines, b"trailing refused 4\n");
}
