// The light of a device record, by its active values: once the record is judged, the question about its numbers. What it answers is in
// specs/OfDevice.
#![tactic(auto)]

ghost use Rattle.std.specs.Prelude.{◌≡◌};
ghost use Rattle.tables.specs.Refusals.{numbered};
ghost use Rattle.device_light.specs.OfDevice.{active_value, shown_output, device_answer, device_clocks_answer};

use device::{Device, judge};
use registers::Registers;
use schedule::{Clocks, Moment, Output};
use subframes::Intensity;
use tables::Refusal;

// Is an output of the device lit at a moment?
#[tactic(auto, using(crate::proofs::Records::lit_refused, crate::proofs::Records::device_lit))]
pub fn is_device_lit(device: Device, output: u32, moment: Moment) -> Result<bool, Refusal>
    ensures { numbered result ≡ device_answer device output moment.subframe moment.clock moment.phase }
{
    judge(device)?;
    output_of(device.registers, output, moment.phase).is_lit(moment)
}

// At which clocks of a subframe is it lit, in a phase?
#[tactic(auto, using(crate::proofs::Records::run_refused, crate::proofs::Records::device_run))]
pub fn device_lit_clocks(
    device: Device,
    output: u32,
    subframe: u32,
    phase: u32,
) -> Result<Clocks, Refusal>
    ensures { numbered result ≡ device_clocks_answer device output subframe phase }
{
    judge(device)?;
    output_of(device.registers, output, phase).lit_clocks(subframe, phase)
}

// An output in a phase, by what the registers show.
fn output_of(registers: Registers, number: u32, phase: u32) -> Output
    ensures { result ≡ shown_output registers number phase }
{
    Output {
        intensity: Intensity {
            part: registers.part,
            configuration: registers.configuration,
            global: registers.active,
        },
        value: active_value(registers, number, phase),
        number,
    }
}

// The value of an output in a phase: 0 where the device has no such output.
fn active_value(registers: Registers, output: u32, phase: u32) -> u16
    ensures { result ≡ active_value registers output phase }
{
    let values = if phase == 0 {
        registers.active0
    } else {
        registers.active1
    };
    values.get(output as usize).copied().unwrap_or(0)
}
