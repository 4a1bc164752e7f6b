// The questions about light.
ghost use Rattle.std.specs.Prelude.{◌≡◌};
ghost use Rattle.tables.specs.Refusals.{numbered};
ghost use Rattle.subframes.specs.Answers.{on_answer, lead_answer};
ghost use Rattle.schedule.specs.Answers.{lit_answer, lit_clocks_answer};
ghost use Rattle.device_light.specs.OfDevice.{device_answer, device_clocks_answer};
ghost use Rattle.capi_light.specs.LightAnswers.{of_asked, of_lead, of_clocks};

use answers::Answer;
use device::Device;
use schedule::{Moment, Output};
use subframes::Intensity;
use tables::Refusal;

// A signed number, or a refusal. The number is 0 where refused, and the refusal 0 where accepted. A struct of numbers, for C.
#[repr(C)]
#[derive(Clone, Copy)]
pub struct Signed {
    pub value: i32,
    pub refusal: u8,
}

// Clocks from the first on and before the end, or a refusal: 0 as above, and both 0 where there are none. A struct of numbers, for C.
#[repr(C)]
#[derive(Clone, Copy)]
pub struct Clocks {
    pub first: u32,
    pub end: u32,
    pub refusal: u8,
}

// Is a subframe ON?
#[unsafe(no_mangle)]
pub extern "C" fn bb_on(part: u16, configuration: u8, global: u8, subframe: u32) -> Answer
    ensures { result ≡ of_asked (on_answer part configuration global subframe) }
{
    let intensity = Intensity {
        part,
        configuration,
        global,
    };
    of_asked(intensity.is_on(subframe))
}

// How far does a window of subframes lead?
#[unsafe(no_mangle)]
pub extern "C" fn bb_lead(part: u16, configuration: u8, global: u8, from: u32, w: u32) -> Signed
    ensures { result ≡ of_lead (lead_answer part configuration global from w) }
{
    let intensity = Intensity {
        part,
        configuration,
        global,
    };
    of_lead(intensity.lead_of(from, w))
}

// Is an output with a value lit at a clock of a subframe, in a phase?
#[unsafe(no_mangle)]
pub extern "C" fn bb_lit(
    part: u16,
    configuration: u8,
    global: u8,
    value: u16,
    output: u32,
    subframe: u32,
    clock: u32,
    phase: u32,
) -> Answer
    ensures { result ≡ of_asked (lit_answer part configuration global value output subframe clock phase) }
{
    let output = Output {
        intensity: Intensity {
            part,
            configuration,
            global,
        },
        value,
        number: output,
    };
    of_asked(output.is_lit(Moment {
        subframe,
        clock,
        phase,
    }))
}

// The same of a device, by its active values.
#[unsafe(no_mangle)]
pub extern "C" fn bb_device_lit(
    device: Device,
    output: u32,
    subframe: u32,
    clock: u32,
    phase: u32,
) -> Answer
    ensures { result ≡ of_asked (device_answer device output subframe clock phase) }
{
    let moment = Moment {
        subframe,
        clock,
        phase,
    };
    of_asked(device_light::is_device_lit(device, output, moment))
}

// At which clocks of a subframe is an output with a value lit, in a phase?
#[unsafe(no_mangle)]
pub extern "C" fn bb_lit_clocks(
    part: u16,
    configuration: u8,
    global: u8,
    value: u16,
    output: u32,
    subframe: u32,
    phase: u32,
) -> Clocks
    ensures { result ≡ of_clocks (lit_clocks_answer part configuration global value output subframe phase) }
{
    let output = Output {
        intensity: Intensity {
            part,
            configuration,
            global,
        },
        value,
        number: output,
    };
    of_clocks(output.lit_clocks(subframe, phase))
}

// The same of a device, by its active values.
#[unsafe(no_mangle)]
pub extern "C" fn bb_device_lit_clocks(
    device: Device,
    output: u32,
    subframe: u32,
    phase: u32,
) -> Clocks
    ensures { result ≡ of_clocks (device_clocks_answer device output subframe phase) }
{
    of_clocks(device_light::device_lit_clocks(device, output, subframe, phase))
}

fn of_asked(asked: Result<bool, Refusal>) -> Answer
    ensures { result ≡ of_asked (numbered asked) }
{
    asked.map(usize::from).into()
}

fn of_lead(lead: Result<i32, Refusal>) -> Signed
    ensures { result ≡ of_lead (numbered lead) }
{
    match lead {
        Ok(value) => Signed { value, refusal: 0 },
        Err(refusal) => Signed {
            value: 0,
            refusal: refusal.into(),
        },
    }
}

fn of_clocks(clocks: Result<schedule::Clocks, Refusal>) -> Clocks
    ensures { result ≡ of_clocks (numbered clocks) }
{
    match clocks {
        Ok(schedule::Clocks { first, end }) => Clocks {
            first,
            end,
            refusal: 0,
        },
        Err(refusal) => Clocks {
            first: 0,
            end: 0,
            refusal: refusal.into(),
        },
    }
}
