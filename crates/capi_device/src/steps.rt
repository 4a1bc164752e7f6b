// One device, by value.
ghost use Rattle.std.specs.Prelude.{◌≡◌};
ghost use Rattle.tables.specs.Refusals.{first};
ghost use Rattle.device.specs.Judgement.{judgement, step_answer};
ghost use Rattle.capi_device.specs.StepAnswers.{step_numbers, of_sent, of_step};

use device::{Device, judge};
use phases::Sent;

// The next device, and what it sends on: nothing, one state, or the 24 states of a header, of which the command and the count say all.
// Numbers that are not sent are 0, and so is the refusal where accepted. A struct of numbers, for C.
#[repr(C)]
#[derive(Clone, Copy)]
pub struct Stepped {
    pub device: Device,
    pub count: u16,
    pub command: u8,
    pub state: u8,
    pub sent: u8,
    pub refusal: u8,
}

// The refusal of a record, or 0.
#[unsafe(no_mangle)]
pub extern "C" fn bb_judge(device: Device) -> u8
    ensures { result ≡ first (judgement device) }
{
    tables::carried_number(judge(device))
}

// One line state.
#[unsafe(no_mangle)]
pub extern "C" fn bb_step(device: Device, state: u8) -> Stepped
    ensures { result ≡ of_step (step_answer device state) }
{
    match device.step(state) {
        Ok(next) => of_sent(next.device, next.sent, 0),
        Err(refusal) => of_sent(device, Sent::Nothing, refusal.into()),
    }
}

fn of_sent(device: Device, sent: Sent, refusal: u8) -> Stepped
    ensures { result ≡ of_sent device sent refusal }
{
    match sent {
        Sent::Nothing => numbers(device, 0, 0, 0, 0, refusal),
        Sent::One(state) => numbers(device, 0, 0, state, 1, refusal),
        Sent::Header { command, count } => numbers(device, count, command.into(), 0, 24, refusal),
    }
}

fn numbers(device: Device, count: u16, command: u8, state: u8, sent: u8, refusal: u8) -> Stepped
    ensures { result ≡ step_numbers device count command state sent refusal }
{
    Stepped {
        device,
        count,
        command,
        state,
        sent,
        refusal,
    }
}
