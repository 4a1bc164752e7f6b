// The figures of the devices, one after the other, in a lent list.
ghost use Rattle.std.specs.Prelude.{◌≡◌, ◌+◌, ◌≤◌, length};
ghost use Rattle.bits.specs.Bits.{over, over_at};
ghost use Rattle.current.specs.Current.{figure};
ghost use Rattle.current.specs.Closed.{Driven, SignInLists, closed_sum, closed_figures};

use crate::drive::{Drive, PERIOD, device_total};
use sets::GivenSet;

// A total, its average rounded down and its remainder, from `at` on. The total is what the sign's is added up from.
#[tactic(auto, unfolding(bits::specs::Bits::over_at, bits::specs::Bits::over))]
fn write_figure(figures: &mut [u64], at: usize, total: u64) -> u64
    requires { at + 3 ≤ length figures.old }
    ensures value { result ≡ total }
    ensures figures_after { figures.new ≡ over_at at (figure total) figures.old }
{
    let period = PERIOD as u64;
    figures[at..at + 3].copy_from_slice(&[total, total / period, total % period]);
    total
}

// The figures of a set's devices, and their sum.
pub fn write_figures(drive: Drive, given: GivenSet<'_>, figures: &mut [u64]) -> u64
    requires { Driven drive
        × SignInLists drive given.numbers.devices (length given.calibration.now) (length given.individual.now) (length figures.old) }
    ensures value { result ≡ closed_sum drive given.entry.calibration.now given.entry.individual.now given.entry.numbers.devices }
    ensures figures_after { figures.new
        ≡ over (closed_figures drive given.entry.calibration.now given.entry.individual.now given.entry.numbers.devices) figures.old }
{
    let mut sum = 0;
    // By number: to a device go three figures, and bytes and values as many as its part has.
    for i in 0..given.numbers.devices {
        let bytes = i * drive.banks;
        let values = i * (drive.banks * drive.each);
        let total = device_total(drive, given, bytes, values);
        sum += write_figure(figures, 3 * i, total);
    }
    sum
}
