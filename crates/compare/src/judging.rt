// When a comparison is refused.
ghost use Rattle.std.specs.Prelude.{◌≡◌, length};
ghost use Rattle.tables.specs.Refusals.{first, carried};
ghost use Rattle.compare.specs.Judging.{chain_fits, rows_by};

use judgement::Judged;
use sets::{GivenSet, SetNumbers};
use tables::Refusal;

// By the set and by what was found in the records.
pub fn judge(given: GivenSet<'_>, judged: Judged, count: usize) -> Result<(), Refusal>
    ensures { carried result ≡ first (rows_by given.entry.numbers (length given.entry.calibration.now) given.entry.individual.now judged count) }
{
    let numbers = given.numbers;
    if !(parts::is_known(numbers.part) && judged.known) {
        return Err(Refusal::UnknownPart);
    }
    if !(parts::is_count(numbers.devices) && parts::is_count(count)) {
        return Err(Refusal::WrongDeviceCount);
    }
    if !(sets::lists_fit(numbers, given.calibration.len(), given.individual.len())
        && chain_fits(numbers, judged, count))
    {
        return Err(Refusal::WrongLength);
    }
    if !sets::settings_fit(numbers, given.individual) {
        return Err(Refusal::HighValue);
    }
    if !judged.fits {
        return Err(Refusal::OutOfRange);
    }
    Ok(())
}

// The chain has the set's number of devices, and its records are of the set's part.
fn chain_fits(given: SetNumbers, judged: Judged, count: usize) -> bool
    ensures { result ≡ chain_fits given judged count }
{
    count == given.devices && judged.same && judged.part.is_some_and(|part| part == given.part)
}
