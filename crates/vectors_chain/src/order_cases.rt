// The order of individual values: no two are the same. Three devices are loaded multiplexed, with 1, 2, 3, .. in wire order, and then
// nonmultiplexed, from the next value on. MUX0 and MUX1 take turns in the first slice of each device; the second leaves MUX1. Places of
// outputs that the part does not have hold 0.
ghost use Rattle.std.specs.Prelude.{◌<◌, ◌≤◌};

use cases::{Phases, case, frame_of, front, no_tail, spaced};
use device::Device;
use parts::Command;
use std::{array, io};
use three::{fresh_chain, run_three};

pub fn run(rt: &impl Print) -> io::Result<()> {
    part_cases(
        rt,
        6974,
        24,
        "-  6974 multiplexed, values 1 to 144",
        "-  6974, then nonmultiplexed, values 145 to 216",
    )?;
    part_cases(
        rt,
        6972,
        16,
        "-  6972 multiplexed, values 1 to 96",
        "-  6972, then nonmultiplexed, values 97 to 144",
    )
}

// The lines of a part with so many outputs.
fn part_cases(
    rt: &impl Print,
    part: u16,
    outputs: u16,
    multiplexed: &str,
    plain: &str,
) -> io::Result<()>
    requires { outputs ≤ 24 }
{
    let all = 6 * outputs;
    let fresh = fresh_chain(part);
    let first = load(fresh, part, 0x01, &rising(1), all as usize);
    chain_case(rt, multiplexed, first, outputs, 1, 2, 2 * outputs)?;
    let second = load(first, part, 0x00, &rising(all + 1), (all / 2) as usize);
    chain_case(rt, plain, second, outputs, all + 1, 1, outputs)
}

// The lines of a chain: waiting MUX0 values begin with `first` and go up by `step`, with `each` values to a device, MUX1 values with 2 and by 2.
fn chain_case(
    rt: &impl Print,
    name: &str,
    chain: [Device; 3],
    outputs: u16,
    first: u16,
    step: u16,
    each: u16,
) -> io::Result<()>
    requires { outputs ≤ 24 }
{
    let places = usize::from(outputs);
    let mut first0 = first;
    let mut first1: u16 = 2;
    for (place, device) in chain.iter().enumerate() {
        let should = phases_of(spaced(first0, step, places), spaced(first1, 2, places));
        let came = phases_of(device.registers.waiting0, device.registers.waiting1);
        let name = format_args!("{name}, device {} of 3", place + 1);
        case(rt, name, should, came)?;
        first0 = first0.wrapping_add(each);
        first1 = first1.wrapping_add(2 * outputs);
    }
    Ok(())
}

fn phases_of(mux0: [u16; 24], mux1: [u16; 24]) -> Phases {
    Phases { mux0, mux1 }
}

// The chain after a configuration frame and an individual one, of the first `count` values.
fn load(
    chain: [Device; 3],
    part: u16,
    configuration: u8,
    values: &[u16],
    count: usize,
) -> [Device; 3] {
    let values = front(values, count);
    let configured = send(chain, part, Command::Configuration, configuration, &[0]);
    send(configured, part, Command::Individual, configuration, values)
}

// The chain after a frame, which is written, put on the wire and run. Where the frame is refused the chain stays.
fn send(
    chain: [Device; 3],
    part: u16,
    command: Command,
    configuration: u8,
    values: &[u16],
) -> [Device; 3] {
    let told = frame_of(part, 3, command, configuration);
    let mut frame = [0; 219];
    let written = frame_writer::write(told, no_tail(), configuration, b"", values, &mut frame);
    let Ok(n) = written else {
        return chain;
    };
    let bits = n.min(219) * 8;
    let mut states = [0; 1752];
    let _ = serial::frame_states(front(&frame, n), bits, serial::EXACT, &mut states);
    let (_, after) = run_three(chain, front(&states, bits), &mut [0; 1775]);
    after
}

// The 144 values from `first` on.
fn rising(first: u16) -> [u16; 144]
    requires { first < 1024 }
{
    array::from_fn(|place| first + place as u16)
}
