// The questions about light.
ghost use Rattle.std.specs.Prelude.{◌≡◌};
ghost use Rattle.subframes.specs.Answers.{on_answer, lead_answer};
ghost use Rattle.capi_light.specs.LightAnswers.{of_asked, of_lead, of_clocks};
ghost use Rattle.schedule.specs.Answers.{lit_answer, lit_clocks_answer};
ghost use Rattle.device_light.specs.OfDevice.{device_answer, device_clocks_answer};

use answers::Answer;
use capi_light::{Clocks, Signed};
use device::Device;

// Is a subframe ON?
#[unsafe(no_mangle)]
pub extern "C" fn bb_on(part: u16, configuration: u8, global: u8, subframe: u32) -> Answer
    ensures { result ≡ of_asked (on_answer part configuration global subframe) }
{
    capi_light::bb_on(part, configuration, global, subframe)
}

// How far does a window of subframes lead?
#[unsafe(no_mangle)]
pub extern "C" fn bb_lead(part: u16, configuration: u8, global: u8, from: u32, w: u32) -> Signed
    ensures { result ≡ of_lead (lead_answer part configuration global from w) }
{
    capi_light::bb_lead(part, configuration, global, from, w)
}

// Is an output with a value lit at a clock of a subframe, in a phase?
#[unsafe(no_mangle)]
pub extern "C" fn bb_lit(
    part: u16,
    configuration: u8,
    global: u8,
    value: u16,
    output: u32,
    subframe: u32,
    clock: u32,
    phase: u32,
) -> Answer
    ensures { result ≡ of_asked (lit_answer part configuration global value output subframe clock phase) }
{
    capi_light::bb_lit(
        part,
        configuration,
        global,
        value,
        output,
        subframe,
        clock,
        phase,
    )
}

// The same of a device, by its active values.
#[unsafe(no_mangle)]
pub extern "C" fn bb_device_lit(
    device: Device,
    output: u32,
    subframe: u32,
    clock: u32,
    phase: u32,
) -> Answer
    ensures { result ≡ of_asked (device_answer device output subframe clock phase) }
{
    capi_light::bb_device_lit(device, output, subframe, clock, phase)
}

// At which clocks of a subframe is an output with a value lit, in a phase?
#[unsafe(no_mangle)]
pub extern "C" fn bb_lit_clocks(
    part: u16,
    configuration: u8,
    global: u8,
    value: u16,
    output: u32,
    subframe: u32,
    phase: u32,
) -> Clocks
    ensures { result ≡ of_clocks (lit_clocks_answer part configuration global value output subframe phase) }
{
    capi_light::bb_lit_clocks(part, configuration, global, value, output, subframe, phase)
}

// The same of a device, by its active values.
#[unsafe(no_mangle)]
pub extern "C" fn bb_device_lit_clocks(
    device: Device,
    output: u32,
    subframe: u32,
    phase: u32,
) -> Clocks
    ensures { result ≡ of_clocks (device_clocks_answer device output subframe phase) }
{
    capi_light::bb_device_lit_clocks(device, output, subframe, phase)
}
