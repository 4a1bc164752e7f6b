// Where a clock stands in the schedule.
ghost use Rattle.std.specs.Prelude.{◌≡◌};
ghost use Rattle.parts.specs.Parts.{part_of};
ghost use Rattle.schedule.specs.Moments.{moment_at};

use parts::{constants_of, frame_clocks};

// A clock of a subframe, in a phase: 0 MUX0, 1 MUX1.
#[derive(Clone, Copy)]
pub struct Moment {
    pub subframe: u32,
    pub clock: u32,
    pub phase: u32,
}

// Of clock t, counted from 0 where a frame begins.
pub fn moment_at(part: u16, configuration: u8, t: u64) -> Moment
    ensures { result ≡ moment_at (part_of part) configuration t }
{
    let frame = frame_clocks(part, configuration) as u64;
    let clocks = constants_of(part).clocks as u64;
    let phases = 1 + (configuration % 2) as u64;
    Moment {
        subframe: (t % frame / (phases * clocks)) as u32,
        clock: (t % clocks) as u32,
        phase: (t / clocks % phases) as u32,
    }
}
