// When the current of a set is refused.
ghost use Rattle.std.specs.Prelude.{◌≡◌};
ghost use Rattle.tables.specs.Refusals.{carried};
ghost use Rattle.sets.specs.Sets.{set_by};
ghost use Rattle.current.specs.Answers.{current_refusal};

use sets::GivenSet;
use tables::Refusal;

// By the set and the length of the lent list.
#[tactic(auto, unfolding(crate::specs::Answers::current_refusal))]
pub fn judge(given: GivenSet<'_>, room: usize) -> Result<(), Refusal>
    ensures { carried result ≡ current_refusal (set_by given.entry.numbers given.entry.calibration.now given.entry.individual.now) room }
{
    let numbers = given.numbers;
    if !parts::is_known(numbers.part) {
        return Err(Refusal::UnknownPart);
    }
    if !parts::is_count(numbers.devices) {
        return Err(Refusal::WrongDeviceCount);
    }
    if !sets::lists_fit(numbers, given.calibration.len(), given.individual.len()) {
        return Err(Refusal::WrongLength);
    }
    if room < 3 * numbers.devices {
        return Err(Refusal::NoRoom);
    }
    if !sets::settings_fit(numbers, given.individual) {
        return Err(Refusal::HighValue);
    }
    Ok(())
}
