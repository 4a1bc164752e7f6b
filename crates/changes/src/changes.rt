// What a fault setting makes of a record.
ghost use Rattle.std.specs.Prelude.{◌≡◌, not, eqb};
ghost use Rattle.bits.specs.Bits.{digit};
ghost use Rattle.device.specs.Step.{faulted};

use device::Device;

// A record with a fault flag set: 0 takes it away, any other number raises it.
pub fn with_fault(device: Device, kind: u8, flag: u8) -> Device
    ensures { result ≡ faulted device kind (digit (not (eqb flag 0))) }
{
    device.set_fault(kind, u8::from(flag != 0))
}
