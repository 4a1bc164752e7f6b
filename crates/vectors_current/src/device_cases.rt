// One device: total, average and remainder. The sign's three are the device's.
use current::Current;
use std::{array, fmt, io};

// A total, its average and its remainder.
#[derive(Clone, Copy, PartialEq)]
pub struct Figure {
    pub total: u64,
    pub average: u64,
    pub remainder: u64,
}

impl fmt::Display for Figure {
    fn fmt<W: fmt::Write>(&self, f: &mut fmt::Formatter<W>) -> fmt::Result {
        write!(
            f,
            " {}, {} and {}",
            self.total, self.average, self.remainder
        )
    }
}

// The sign's figures, accepted or not.
impl From<Current> for Figure {
    fn from(sign: Current) -> Figure {
        figure_of(sign.total, sign.average, sign.remainder)
    }
}

pub fn run(rt: &impl Print) -> io::Result<()> {
    plain_cases(rt)?;
    multiplexed_cases(rt)?;
    largest_cases(rt)
}

// Nonmultiplexed.
fn plain_cases(rt: &impl Print) -> io::Result<()> {
    case(
        rt,
        "t  6974, calibration A9 10 01, g = 96, all 2560",
        6974,
        0x00,
        b"\xA9\x10\x01",
        96,
        &[2560; 24],
        figure_of(559669824000, 1067485, 248320),
    )?;
    let mut only_last = [0; 24];
    only_last[23] = 17;
    case(
        rt,
        "u  6974, only R0 = 17, calibration 0, g = 0",
        6974,
        0x00,
        b"\x00\x00\x00",
        0,
        &only_last,
        figure_of(48000, 0, 48000),
    )?;
    let mut only_first = [0; 24];
    only_first[0] = 33;
    case(
        rt,
        "x  6975, only B7 = 33, B byte A9, g = 31",
        6975,
        0x00,
        b"\xA9\x00\x00",
        31,
        &only_first,
        figure_of(5592000, 10, 349120),
    )?;
    case(
        rt,
        "y  6972, Z A9, Y 0, g = 96, all 2560",
        6972,
        0x00,
        b"\xA9\x00",
        96,
        &[2560; 16],
        figure_of(806191056000, 1537687, 214144),
    )?;
    case(
        rt,
        "z  6974, configuration 08, calibration 1 2 3, g = 5, all 1000",
        6974,
        0x08,
        b"\x01\x02\x03",
        5,
        &[1000; 24],
        figure_of(7013952000, 13378, 27136),
    )
}

// Multiplexed: a value for MUX0 and then one for MUX1, output by output.
fn multiplexed_cases(rt: &impl Print) -> io::Result<()> {
    case(
        rt,
        "w  6974 multiplexed, MUX0 2560 and MUX1 16, calibration A9, g = 63",
        6974,
        0x01,
        b"\xA9\xA9\xA9",
        63,
        &in_turns(2560, 16),
        figure_of(682850304000, 1302433, 311296),
    )?;
    let mut only_mux1 = [0u16; 48];
    only_mux1[1] = 16383;
    case(
        rt,
        "x  6975, configuration 11, only B7's MUX1 = 16383, calibration 0, g = 3",
        6975,
        0x11,
        b"\x00\x00\x00",
        3,
        &only_mux1,
        figure_of(12533760000, 23906, 131072),
    )
}

// Nothing is lit, and the most that a device draws.
fn largest_cases(rt: &impl Print) -> io::Result<()> {
    case(
        rt,
        "v  6974, all 16, calibration FF, g = 127",
        6974,
        0x00,
        b"\xFF\xFF\xFF",
        127,
        &[16; 24],
        figure_of(0, 0, 0),
    )?;
    case(
        rt,
        "-  6974, all largest",
        6974,
        0x00,
        b"\xFF\xFF\xFF",
        127,
        &[4095; 24],
        figure_of(2986942464000, 5697140, 327680),
    )?;
    case(
        rt,
        "-  6975, all largest",
        6975,
        0x00,
        b"\xFF\xFF\xFF",
        31,
        &[16383; 24],
        figure_of(2998702080000, 5719570, 163840),
    )?;
    case(
        rt,
        "-  6973, all largest",
        6973,
        0x00,
        b"\xFF\xFF",
        31,
        &[16383; 16],
        figure_of(3665080320000, 6990585, 491520),
    )
}

pub fn figure_of(total: u64, average: u64, remainder: u64) -> Figure {
    Figure {
        total,
        average,
        remainder,
    }
}

// The values of MUX0 and of MUX1, all the same.
fn in_turns(mux0: u16, mux1: u16) -> [u16; 48] {
    array::from_fn(|place| if place % 2 == 0 { mux0 } else { mux1 })
}

fn case(
    rt: &impl Print,
    name: &str,
    part: u16,
    configuration: u8,
    calibration: &[u8],
    global: u8,
    individual: &[u16],
    should: Figure,
) -> io::Result<()> {
    let mut figures = [0; 3];
    let sign = current::bb_current(
        part,
        1,
        configuration,
        calibration,
        global,
        individual,
        &mut figures,
    );
    let [total, average, remainder] = figures;
    let device = figure_of(total, average, remainder);
    let same = device == should && is_answer(sign, should);
    cases::line(rt, name, should, device, same)
}

// An accepted answer with these figures.
pub fn is_answer(sign: Current, should: Figure) -> bool {
    sign.refusal == 0 && Figure::from(sign) == should
}
