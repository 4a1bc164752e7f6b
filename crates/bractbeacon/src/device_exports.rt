// One device, by value.
ghost use Rattle.std.specs.Prelude.{◌≡◌};
ghost use Rattle.tables.specs.Refusals.{first};
ghost use Rattle.device.specs.Judgement.{judgement, step_answer};
ghost use Rattle.capi_device.specs.StepAnswers.{of_step};

use capi_device::Stepped;
use device::Device;

// The refusal of a record, or 0.
#[unsafe(no_mangle)]
pub extern "C" fn bb_judge(device: Device) -> u8
    ensures { result ≡ first (judgement device) }
{
    capi_device::bb_judge(device)
}

// One line state.
#[unsafe(no_mangle)]
pub extern "C" fn bb_step(device: Device, state: u8) -> Stepped
    ensures { result ≡ of_step (step_answer device state) }
{
    capi_device::bb_step(device, state)
}
