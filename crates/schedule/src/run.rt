// The clocks at which an output is lit, as one run: no walk over the clocks.
ghost use Rattle.std.specs.Prelude.{◌≡◌};
ghost use Rattle.parts.specs.Parts.{part_of};
ghost use Rattle.schedule.specs.Light.{is_even, lit_from, lit_to};
ghost use Rattle.schedule.specs.Answers.{lit_run};

use crate::output::{Clocks, Output};
use parts::constants_of;

impl Output {
    // In an OFF subframe, and with a value within the edge zone, at none.
    pub fn lit_run(self, subframe: u32) -> Clocks
        ensures { result
            ≡ lit_run (part_of self.intensity.part) self.intensity.configuration self.intensity.global self.value
            self.number subframe }
    {
        if !self.intensity.is_subframe_on(subframe) {
            return Clocks { first: 0, end: 0 };
        }
        let first = self.lit_from();
        let end = self.lit_to();
        if first >= end {
            return Clocks { first: 0, end: 0 };
        }
        Clocks { first, end }
    }

    // The first clock: an even output's is the one after the edge zone, an odd one's goes by its value and is not before that.
    fn lit_from(self) -> u32
        ensures { result ≡ lit_from (part_of self.intensity.part) self.value (is_even self.number) }
    {
        let constants = constants_of(self.intensity.part);
        let edge = u32::from(constants.edge);
        if self.is_even() {
            return edge;
        }
        edge.max(u32::from(constants.clocks).saturating_sub(self.value.into()))
    }

    // The clock after the last: an odd output's is the first of the other edge zone, an even one's goes by its value and is not after that.
    fn lit_to(self) -> u32
        ensures { result ≡ lit_to (part_of self.intensity.part) self.value (is_even self.number) }
    {
        let constants = constants_of(self.intensity.part);
        let other_edge = u32::from(constants.clocks) - u32::from(constants.edge);
        if self.is_even() {
            other_edge.min(self.value.into())
        } else {
            other_edge
        }
    }
}
