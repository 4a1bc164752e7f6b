// A position is below the frame's length, which GLB4 shortens on a 6975 type only.
use crate::devices::waiting_at;
use capi_device::bb_judge;
use cases::Outcome;
use device::Device;
use std::io;
use three::run_three;

pub fn run(rt: &impl Print) -> io::Result<()> {
    case(rt, "-  6974 at 524287", waiting_at(6974, 0, 524287), 0)?;
    case(rt, "-  6974 at 524288", waiting_at(6974, 0, 524288), 13)?;
    case(
        rt,
        "-  6972 with GLB4 at 524287",
        waiting_at(6972, 0x10, 524287),
        0,
    )?;
    case(rt, "-  6975 at 131072", waiting_at(6975, 0, 131072), 0)?;
    case(
        rt,
        "-  6973 with GLB4 at 131071",
        waiting_at(6973, 0x10, 131071),
        0,
    )?;
    case(
        rt,
        "-  6973 with GLB4 at 131072",
        waiting_at(6973, 0x10, 131072),
        13,
    )?;
    chain_case(rt)
}

// The line of a case: a record alone.
fn case(rt: &impl Print, name: &str, device: Device, should: u8) -> io::Result<()> {
    cases::case(rt, name, Outcome(should), Outcome(bb_judge(device)))
}

// The line of a chain that is given one state.
fn chain_case(rt: &impl Print) -> io::Result<()> {
    let last = waiting_at(6974, 0, 524287);
    let over = waiting_at(6974, 0, 524288);
    let (ran, _) = run_three([last, last, over], b"\x00", &mut [0; 24]);
    let name = "-  6974, 3 devices at 524287 524287 524288";
    cases::case(rt, name, Outcome(13), Outcome(ran.refusal))
}
