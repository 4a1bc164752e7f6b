// The answer for one record, by value.
ghost use Rattle.std.specs.Prelude.{◌≡◌};
ghost use Rattle.tables.specs.Refusals.{number_of};
ghost use Rattle.lit_now.specs.LitNow.{refused};
ghost use Rattle.lit_now.specs.Asked.{asked_now};

use device::Device;
use tables::Refusal;

// Lit or not, 1 or 0, and the phase, 0 MUX0 and 1 MUX1; or the refusal's number, and both are 0. A struct of numbers, for C.
#[repr(C)]
#[derive(Clone, Copy)]
pub struct LitNow {
    pub lit: u8,
    pub phase: u8,
    pub refusal: u8,
}

// The question about the moment at which the device stands.
pub fn ask_now(device: Device, output: u32) -> LitNow
    ensures { result ≡ asked_now device output }
{
    let registers = device.registers;
    let moment = schedule::moment_at(registers.part, registers.configuration, registers.position);
    match device_light::is_device_lit(device, output, moment) {
        Ok(lit) => LitNow {
            lit: u8::from(lit),
            phase: moment.phase as u8,
            refusal: 0,
        },
        Err(refusal) => refuse(refusal),
    }
}

pub fn refuse(refusal: Refusal) -> LitNow
    ensures { result ≡ refused (number_of refusal) }
{
    LitNow {
        lit: 0,
        phase: 0,
        refusal: u8::from(refusal),
    }
}
