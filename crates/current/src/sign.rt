// The current of a set, for C and Rust.
ghost use Rattle.std.specs.Prelude.{◌≡◌, length};
ghost use Rattle.sets.specs.Sets.{set_of};
ghost use Rattle.current.specs.Answers.{current, current_out, drawing, refused};

use crate::drive::{PERIOD, drive_for};
use crate::figures::write_figures;
use crate::judge::judge;
use sets::{GivenSet, SetNumbers};

// What the sign draws over 524,288 clocks, in eighths of a microamp: the total, its average rounded down and its remainder; or a refusal, beside
// which all three are 0. A struct of numbers, for C.
#[repr(C)]
#[derive(Clone, Copy)]
pub struct Current {
    pub total: u64,
    pub average: u64,
    pub remainder: u64,
    pub refusal: u8,
}

// What a set draws: answered for the sign, and in front of `figures` for each device its total, average and remainder. The set's part, number of
// devices, configuration, calibration bytes, global byte and individual values.
#[tactic(auto, unfolding(crate::specs::Answers::current, crate::specs::Answers::current_out))]
#[unsafe(no_mangle)]
pub extern "C" fn bb_current(
    part: u16,
    devices: usize,
    configuration: u8,
    calibration: &[u8],
    global: u8,
    individual: &[u16],
    figures: &mut [u64],
) -> Current
    ensures value { result ≡ current (set_of part devices configuration calibration.now global individual.now) (length figures.old) }
    ensures figures_after { figures.new ≡ current_out (set_of part devices configuration calibration.now global individual.now) figures.old }
{
    let given = GivenSet {
        numbers: SetNumbers {
            part,
            devices,
            configuration,
            global,
        },
        calibration,
        individual,
    };
    match judge(given, figures.len()) {
        Ok(()) => {
            let drive = drive_for(given.numbers);
            accept(write_figures(drive, given, figures))
        }
        Err(refusal) => refuse(u8::from(refusal)),
    }
}

fn refuse(refusal: u8) -> Current
    ensures { result ≡ refused refusal }
{
    Current {
        total: 0,
        average: 0,
        remainder: 0,
        refusal,
    }
}

fn accept(total: u64) -> Current
    ensures { result ≡ drawing total }
{
    Current {
        total,
        average: total / (PERIOD as u64),
        remainder: total % (PERIOD as u64),
        refusal: 0,
    }
}
