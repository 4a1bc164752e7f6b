// The comparison over a lent chain, for C and Rust.
ghost use Rattle.std.specs.Prelude.{◌≡◌, length};
ghost use Rattle.model.specs.Set.{owned};
ghost use Rattle.sets.specs.Sets.{set_of, set_by};
ghost use Rattle.compare.specs.Compare.{comparison, difference};
ghost use Rattle.compare.specs.Judging.{ListsLong};

use crate::judging::judge;
use device::Device;
use differences::Compared;
use parts::Command;
use sets::{GivenSet, SetNumbers};

// The first difference between a set and a lent chain, all 0 where they are the same, or the refusal's number. The set's part, number of
// devices, configuration, calibration bytes, global byte and individual values.
#[tactic(auto, unfolding(crate::specs::Compare::comparison))]
#[unsafe(no_mangle)]
pub extern "C" fn bb_compare(
    part: u16,
    devices: usize,
    configuration: u8,
    calibration: &[u8],
    global: u8,
    individual: &[u16],
    chain: &[Device],
) -> Compared
    ensures { result ≡ comparison (set_of part devices configuration calibration.now global individual.now) chain.now }
{
    let given = GivenSet {
        numbers: SetNumbers {
            part,
            devices,
            configuration,
            global,
        },
        calibration,
        individual,
    };
    let judged = judgement::judge(chain);
    match judge(given, judged, chain.len()) {
        Ok(()) => first_difference(given, chain),
        Err(refusal) => Compared {
            device: 0,
            place: 0,
            group: 0,
            refusal: u8::from(refusal),
        },
    }
}

// Device after device, each with its own bytes and values.
fn first_difference(given: GivenSet<'_>, chain: &[Device]) -> Compared
    requires { ListsLong given.numbers (length given.calibration.now) (length given.individual.now) (length chain.now) }
    ensures { result ≡ difference 1 (owned (set_by given.entry.numbers given.entry.calibration.now given.entry.individual.now)) chain.now }
{
    let numbers = given.numbers;
    let banks = slices::slice_fields(Command::Calibration, numbers.part, 0) as usize;
    let fields = slices::slice_fields(
        Command::Individual,
        numbers.part,
        numbers.configuration,
    ) as usize;
    let mut bytes = given.calibration;
    let mut values = given.individual;
    for (place, device) in chain.iter().enumerate() {
        let (own_bytes, bytes_after) = bytes.split_at(banks);
        let (own_values, values_after) = values.split_at(fields);
        let answer = differences::device_differs(
            device,
            place + 1,
            numbers.configuration,
            own_bytes,
            numbers.global,
            own_values,
        );
        let differs = answer.group != 0;
        if differs {
            return answer;
        }
        bytes = bytes_after;
        values = values_after;
    }
    Compared {
        device: 0,
        place: 0,
        group: 0,
        refusal: 0,
    }
}
