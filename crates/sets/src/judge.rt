// What is judged of a set: its lists' lengths, and its values.
ghost use Rattle.std.specs.Prelude.{◌≡◌, ◌*◌, ◌<◌, eqb};
ghost use Rattle.sets.specs.Sets.{lengths_fit, settings_fit};

use crate::numbers::SetNumbers;
use parts::Command;

// The settings lists have the lengths that their rules say. Of lengths and not of a GivenSet, as `settings_fit` is of a list: docs/TRACE.md names
// both, and what they promise of any numbers stays.
pub fn lists_fit(given: SetNumbers, bytes: usize, values: usize) -> bool
    ensures { result ≡ lengths_fit given.part given.devices given.configuration bytes values }
{
    let banks = slices::slice_fields(Command::Calibration, given.part, 0) as usize;
    let fields = slices::slice_fields(
        Command::Individual,
        given.part,
        given.configuration,
    ) as usize;
    is_product(bytes, given.devices, banks) && is_product(values, given.devices, fields)
}

// A length is `each` for every device. By division, since any number of devices can be given.
fn is_product(length: usize, devices: usize, each: usize) -> bool
    requires { 0 < each }
    ensures { result ≡ eqb length (devices * each) }
{
    length / each == devices && length % each == 0
}

// The global byte and the individual values are in range.
pub fn settings_fit(given: SetNumbers, individual: &[u16]) -> bool
    ensures { result ≡ settings_fit given.part given.configuration given.global individual.now }
{
    (given.global as u16) < parts::subframes_of(given.part, given.configuration)
        && tables::values_below(individual, parts::value_limit(given.part))
}
