// Returns: the states of a frame are run through chains, and what comes back is packed, compared and read.
ghost use Rattle.std.specs.Prelude.{◌≤◌};

use cases::{Bytes, case, frame_of, front, line, no_tail, tail_of};
use device::Device;
use frames::{Tail, Told};
use parts::Command;
use std::{fmt, io};
use tables::Refusal;
use three::{fault_three, fresh_chain, run_three};

// The fault kind of an open LED.
const OPEN_LED: u8 = 1;

// g and q.
pub fn run(rt: &impl Print) -> io::Result<()> {
    fault_case(
        rt,
        "g  6974, N = 3, two open LEDs, calibration, tail A5",
        6974,
        b"\xA9\x10\x01\xA9\x10\x01\xA9\x10\x01",
    )?;
    fault_case(
        rt,
        "q  6972, N = 3, two open LEDs, calibration, tail A5",
        6972,
        b"\xA9\x10\xA9\x10\xA9\x10",
    )?;
    fault_case(
        rt,
        "-  6973, N = 3, two open LEDs, calibration, tail A5",
        6973,
        b"\xA9\x10\xA9\x10\xA9\x10",
    )
}

// 1023 devices, as 341 chains of three joined end to end.
pub fn run_joined(rt: &impl Print) -> io::Result<()> {
    joined_case(
        rt,
        "-  6974, N = 1023 as 341 chains of 3, all with open LEDs, configuration",
        6974,
        3072,
    )?;
    joined_case(
        rt,
        "-  6972, N = 1023 as 341 chains of 3, all with open LEDs, configuration",
        6972,
        2049,
    )
}

// Three devices, calibrated. A call that is refused leaves zeros, and the return is another.
fn fault_case(rt: &impl Print, name: &str, part: u16, bytes: &[u8]) -> io::Result<()> {
    let told = frame_of(part, 3, Command::Calibration, 0);
    let tail = tail_of(0xA5, 8);
    let long = bytes.len().min(9) + 4;
    let mut frame = [0; 13];
    let _ = frame_writer::write(told, tail, 0, bytes, &[0], &mut frame);
    let mut states = [0; 104];
    let _ = serial::frame_states(&frame[..long], long * 8, serial::EXACT, &mut states);
    let mut returned = [0; 127];
    let chain = open_leds(part, 1, 0, 1);
    let (ran, _) = run_three(chain, &states[..long * 8], &mut returned);
    let should = Return {
        frame: b"\xE8\x54\x02\xA5",
        count: 2,
    };
    return_case(rt, name, told, tail, front(&returned, ran.returned), should)
}

// A configuration frame of so many bytes for 1023 devices.
fn joined_case(rt: &impl Print, name: &str, part: u16, long: usize) -> io::Result<()>
    requires { long ≤ 3072 }
{
    let told = frame_of(part, 1023, Command::Configuration, 0);
    let mut frame = [0; 3072];
    let _ = frame_writer::write(told, no_tail(), 0, b"", &[0], &mut frame);
    let mut states = [0; 24576];
    let _ = serial::frame_states(&frame[..long], long * 8, serial::EXACT, &mut states);
    let left = join(part, &mut states, long * 8, 341);
    let should = Return {
        frame: b"\xE8\xFF\xFF",
        count: 1023,
    };
    return_case(rt, name, told, no_tail(), front(&states, left), should)
}

// The first `count` states go through so many chains. The answer is how many states the last chain returns: they stand in front.
fn join(part: u16, states: &mut [u8], count: usize, chains: usize) -> usize {
    let mut left = count;
    for _ in 0..chains {
        left = through_three(part, states, left);
    }
    left
}

// What one chain returns takes the place of what it was given.
fn through_three(part: u16, states: &mut [u8], count: usize) -> usize {
    let mut returned = [0; 24599];
    let chain = open_leds(part, 1, 1, 1);
    let (ran, _) = run_three(chain, front(states, count), &mut returned);
    let end = ran.returned.min(states.len()).min(24599);
    states[..end].copy_from_slice(&returned[..end]);
    end
}

// A fresh chain in which each device has an open LED, 1, or none, 0.
fn open_leds(part: u16, first: u8, second: u8, third: u8) -> [Device; 3] {
    let fresh = fresh_chain(part);
    let one = fault_three(fresh, 1, OPEN_LED, first);
    let two = fault_three(one, 2, OPEN_LED, second);
    fault_three(two, 3, OPEN_LED, third)
}

// What comes back from a chain, packed, and the count that it says.
#[derive(Clone, Copy, PartialEq)]
struct Return<'a> {
    frame: &'a [u8],
    count: u16,
}

impl fmt::Display for Return<'_> {
    fn fmt<W: fmt::Write>(&self, f: &mut fmt::Formatter<W>) -> fmt::Result {
        write!(f, "{}, count {}", Bytes(self.frame), self.count)
    }
}

// The line of a case.
fn return_case(
    rt: &impl Print,
    name: &str,
    told: Told,
    tail: Tail,
    states: &[u8],
    should: Return<'_>,
) -> io::Result<()> {
    let mut back = [0; 8];
    match packed_and_read(told, tail, states, &mut back) {
        Ok(came) => case(rt, name, should, came),
        Err(refusal) => line(rt, name, should, format_args!(" {refusal}"), false),
    }
}

fn packed_and_read<'a>(
    told: Told,
    tail: Tail,
    states: &[u8],
    back: &'a mut [u8],
) -> Result<Return<'a>, Refusal> {
    let n = serial::pack_states(states, back)?;
    let frame = front(back, n);
    let (part, devices, command) = (told.part, told.devices, told.command);
    let count = return_reader::read_return(part, devices, command, tail, frame)?;
    Ok(Return { frame, count })
}
