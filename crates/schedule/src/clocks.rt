// The clocks at which an output is lit.
ghost use Rattle.std.specs.Prelude.{◌≡◌};
ghost use Rattle.parts.specs.Parts.{part_of};
ghost use Rattle.schedule.specs.Light.{lit_at, is_even, is_lit};

use crate::moments::Moment;
use crate::output::Output;
use parts::constants_of;

impl Output {
    // In an OFF subframe at none.
    pub fn is_lit_at(self, moment: Moment) -> bool
        ensures { result
            ≡ is_lit (part_of self.intensity.part) self.intensity.configuration self.intensity.global self.value self.number
            moment.subframe moment.clock }
    {
        self.intensity.is_subframe_on(moment.subframe) && self.is_clock_lit(moment.clock)
    }

    // In an ON subframe at those of its value, outside the edge zones.
    fn is_clock_lit(self, clock: u32) -> bool
        ensures { result ≡ lit_at (part_of self.intensity.part) self.value self.number clock }
    {
        let constants = constants_of(self.intensity.part);
        let edge = u32::from(constants.edge);
        let clocks = u32::from(constants.clocks);
        let value = u32::from(self.value);
        if clock < edge {
            return false;
        }
        if clock >= clocks - edge {
            return false;
        }
        if self.is_even() {
            clock < value
        } else {
            clock >= clocks.saturating_sub(value)
        }
    }

    // By the number in its name: of a bank's eight, the first is output 7.
    pub fn is_even(self) -> bool
        ensures { result ≡ is_even self.number }
    {
        self.number % 2 == 1
    }
}
