// Chains whose records are refused: those of two parts, of a part that is none of the four, and one that holds something where its part has no
// output.
use cases::Outcome;
use device::Device;
use std::io;
use three::{fresh_of, run_three};

pub fn run(rt: &impl Print) -> io::Result<()> {
    let short = fresh_of(6972);
    let long = fresh_of(6974);
    case(rt, "-  chain of 6972, 6972, 6972", [short, short, short], 0)?;
    case(rt, "-  chain of 6972, 6974, 6974", [short, long, long], 4)?;
    case(rt, "-  chain of 6974, 6974, 6972", [long, long, short], 4)?;
    case(
        rt,
        "-  chain of 6972, 6973, 6972",
        [short, fresh_of(6973), short],
        4,
    )?;
    case(
        rt,
        "-  chain of 6971, 6972, 6972",
        [fresh_of(6971), short, short],
        1,
    )?;
    case(
        rt,
        "-  chain of 6972, 6972, 6972, the last with 1 as its waiting MUX0 value 16",
        [short, short, with_output_16(short)],
        13,
    )
}

// A device that waits to show 1 at an output that it does not have.
fn with_output_16(mut device: Device) -> Device {
    device.registers.waiting0[16] = 1;
    device
}

// The line of a case: what a run of one state answers.
fn case(rt: &impl Print, name: &str, chain: [Device; 3], should: u8) -> io::Result<()> {
    let (ran, _) = run_three(chain, b"\x00", &mut [0; 24]);
    cases::case(rt, name, Outcome(should), Outcome(ran.refusal))
}
