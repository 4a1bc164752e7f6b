// A whole set: against a chain, and what it draws.
ghost use Rattle.std.specs.Prelude.{◌≡◌, length};
ghost use Rattle.sets.specs.Sets.{set_of};
ghost use Rattle.compare.specs.Compare.{comparison};
ghost use Rattle.current.specs.Answers.{current, current_out};

use current::Current;
use device::Device;
use differences::Compared;

// The first difference between a set and a lent chain, all 0 where they are the same, or the refusal's number. The set's part, number of
// devices, configuration, calibration bytes, global byte and individual values.
#[unsafe(no_mangle)]
pub extern "C" fn bb_compare(
    part: u16,
    devices: usize,
    configuration: u8,
    calibration: &[u8],
    global: u8,
    individual: &[u16],
    chain: &[Device],
) -> Compared
    ensures { result ≡ comparison (set_of part devices configuration calibration.now global individual.now) chain.now }
{
    compare::bb_compare(
        part,
        devices,
        configuration,
        calibration,
        global,
        individual,
        chain,
    )
}

// What a set draws: answered for the sign, and in front of `figures` for each device its total, average and remainder. The set's part, number of
// devices, configuration, calibration bytes, global byte and individual values.
#[unsafe(no_mangle)]
pub extern "C" fn bb_current(
    part: u16,
    devices: usize,
    configuration: u8,
    calibration: &[u8],
    global: u8,
    individual: &[u16],
    figures: &mut [u64],
) -> Current
    ensures value { result ≡ current (set_of part devices configuration calibration.now global individual.now) (length figures.old) }
    ensures figures_after { figures.new ≡ current_out (set_of part devices configuration calibration.now global individual.now) figures.old }
{
    current::bb_current(
        part,
        devices,
        configuration,
        calibration,
        global,
        individual,
        figures,
    )
}
