// A part is told by its number, as C and the record have it, and no enum: the definitions speak of any number. A number that is no part's is read
// as the last row's; `is_known` tells them apart.
// Each part carries its own constants, as a rule of the project wants it: a trait for them would only name each once more, for its clauses.
// What is looked up by a part's number is found by tests, and not in a table by `row_of`, which was tried: it misses limits of speed (a record is
// judged in a third more time, and restores of the 6972 are over twice plain Rust).
ghost use Rattle.std.specs.Prelude.{◌≡◌};
ghost use Rattle.parts.specs.Parts.{known, part_of, row_index, outputs, limit, subframes, frame_clocks, constants_of};

#[derive(Clone, Copy)]
pub struct Max6972;

impl Max6972 {
    pub const NUMBER: u16 = 6972;

    // Banks of eight outputs.
    pub const BANKS: u16 = 2;

    // Bits in a value.
    pub const WIDTH: u32 = 12;

    // Clocks at each end of a subframe in which nothing is lit.
    pub const EDGE: u16 = 16;

    // Clocks per subframe.
    pub const CLOCKS: u16 = 4096;

    // Subframes per frame: plain, multiplexed, with GLB4, both.
    pub const SUBFRAMES: [u16; 4] = Max6974::SUBFRAMES;

    // Current of a lit sink at calibration byte 0, in eighths of a microamp.
    pub const LEAST_CURRENT: u32 = 88000;

    // What each 1 of the calibration byte adds to it.
    pub const CURRENT_STEP: u32 = 1375;
}

#[derive(Clone, Copy)]
pub struct Max6973;

impl Max6973 {
    pub const NUMBER: u16 = 6973;

    pub const BANKS: u16 = 2;

    pub const WIDTH: u32 = 14;

    pub const EDGE: u16 = 32;

    pub const CLOCKS: u16 = 16384;

    pub const SUBFRAMES: [u16; 4] = Max6975::SUBFRAMES;

    pub const LEAST_CURRENT: u32 = Max6972::LEAST_CURRENT;

    pub const CURRENT_STEP: u32 = Max6972::CURRENT_STEP;
}

#[derive(Clone, Copy)]
pub struct Max6974;

impl Max6974 {
    pub const NUMBER: u16 = 6974;

    pub const BANKS: u16 = 3;

    pub const WIDTH: u32 = 12;

    pub const EDGE: u16 = 16;

    pub const CLOCKS: u16 = 4096;

    pub const SUBFRAMES: [u16; 4] = [128, 64, 128, 64];

    pub const LEAST_CURRENT: u32 = 48000;

    pub const CURRENT_STEP: u32 = 750;
}

#[derive(Clone, Copy)]
pub struct Max6975;

impl Max6975 {
    pub const NUMBER: u16 = 6975;

    pub const BANKS: u16 = 3;

    pub const WIDTH: u32 = 14;

    pub const EDGE: u16 = 32;

    pub const CLOCKS: u16 = 16384;

    pub const SUBFRAMES: [u16; 4] = [32, 16, 8, 4];

    pub const LEAST_CURRENT: u32 = Max6974::LEAST_CURRENT;

    pub const CURRENT_STEP: u32 = Max6974::CURRENT_STEP;
}

// A part's constants, as numbers.
#[derive(Clone, Copy)]
pub struct Constants {
    pub number: u16,
    pub banks: u16,
    pub width: u32,
    pub edge: u16,
    pub clocks: u16,
    pub least: u32,
    pub step: u32,
}

// What a part's type says, by its number.
pub fn constants_of(part: u16) -> Constants
    ensures { result ≡ constants_of (part_of part) }
{
    if part == Max6972::NUMBER {
        Constants {
            number: Max6972::NUMBER,
            banks: Max6972::BANKS,
            width: Max6972::WIDTH,
            edge: Max6972::EDGE,
            clocks: Max6972::CLOCKS,
            least: Max6972::LEAST_CURRENT,
            step: Max6972::CURRENT_STEP,
        }
    } else if part == Max6973::NUMBER {
        Constants {
            number: Max6973::NUMBER,
            banks: Max6973::BANKS,
            width: Max6973::WIDTH,
            edge: Max6973::EDGE,
            clocks: Max6973::CLOCKS,
            least: Max6973::LEAST_CURRENT,
            step: Max6973::CURRENT_STEP,
        }
    } else if part == Max6974::NUMBER {
        Constants {
            number: Max6974::NUMBER,
            banks: Max6974::BANKS,
            width: Max6974::WIDTH,
            edge: Max6974::EDGE,
            clocks: Max6974::CLOCKS,
            least: Max6974::LEAST_CURRENT,
            step: Max6974::CURRENT_STEP,
        }
    } else {
        Constants {
            number: Max6975::NUMBER,
            banks: Max6975::BANKS,
            width: Max6975::WIDTH,
            edge: Max6975::EDGE,
            clocks: Max6975::CLOCKS,
            least: Max6975::LEAST_CURRENT,
            step: Max6975::CURRENT_STEP,
        }
    }
}

// A number is a part's where the row that it is read as has it.
pub fn is_known(part: u16) -> bool
    ensures { result ≡ known part }
{
    part == constants_of(part).number
}

// Its place among the rows.
pub fn row_of(part: u16) -> usize
    ensures { result ≡ row_index part }
{
    if part == Max6972::NUMBER {
        0
    } else if part == Max6973::NUMBER {
        1
    } else if part == Max6974::NUMBER {
        2
    } else {
        3
    }
}

// A value is below this: a subframe has as many clocks as a value has values.
pub fn value_limit(part: u16) -> u16
    ensures { result ≡ limit (part_of part) }
{
    constants_of(part).clocks
}

// Its outputs.
pub fn outputs_of(part: u16) -> usize
    ensures { result ≡ outputs (part_of part) }
{
    8 * (constants_of(part).banks as usize)
}

// Subframes per frame.
pub fn subframes_of(part: u16, configuration: u8) -> u16
    ensures { result ≡ subframes (part_of part) configuration }
{
    let column = (configuration % 2 + 2 * (configuration / 16 % 2)) as usize;
    if part == Max6972::NUMBER {
        Max6972::SUBFRAMES[column]
    } else if part == Max6973::NUMBER {
        Max6973::SUBFRAMES[column]
    } else if part == Max6974::NUMBER {
        Max6974::SUBFRAMES[column]
    } else {
        Max6975::SUBFRAMES[column]
    }
}

// Clocks of a frame.
pub fn frame_clocks(part: u16, configuration: u8) -> u32
    ensures { result ≡ frame_clocks (part_of part) configuration }
{
    let subframes = subframes_of(part, configuration) as u32;
    let phases = 1 + (configuration % 2) as u32;
    subframes * (phases * (constants_of(part).clocks as u32))
}
