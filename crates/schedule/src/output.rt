// An output, and the questions about its light. Subframes, clocks, outputs and phases are counted from 0, outputs in wire order (Z7 of a 6972
// and B7 of a 6974 are 0, Y0 is 15 and R0 is 23).
ghost use Rattle.std.specs.Prelude.{◌≡◌};
ghost use Rattle.tables.specs.Refusals.{numbered};
ghost use Rattle.schedule.specs.Answers.{lit_answer, lit_clocks_answer};

use crate::judge::judge_lit;
use crate::moments::Moment;
use subframes::Intensity;
use tables::Refusal;

// What drives it: its value in the phase that is asked for, and what dims the sign. Any numbers may stand here: they are judged.
#[derive(Clone, Copy, Debug, PartialEq, Eq)]
pub struct Output {
    pub intensity: Intensity,
    pub value: u16,
    pub number: u32,
}

// The clocks of a subframe at which an output is lit, from the first one on and before the end: both 0 where it is lit at none.
#[derive(Clone, Copy, Debug, PartialEq, Eq)]
pub struct Clocks {
    pub first: u32,
    pub end: u32,
}

impl Output {
    // Is it lit at a moment? Inlined, so that neither the output nor the moment goes through memory to be asked about.
    #[inline(always)]
    #[tactic(auto, unfolding(crate::specs::Answers::lit_answer))]
    pub fn is_lit(self, moment: Moment) -> Result<bool, Refusal>
        ensures { numbered result
            ≡ lit_answer self.intensity.part self.intensity.configuration self.intensity.global self.value self.number
            moment.subframe moment.clock moment.phase }
    {
        judge_lit(self, moment)?;
        Ok(self.is_lit_at(moment))
    }

    // At which clocks of a subframe is it lit? Refused as the question about clock 0, which every part has. Inlined for the same reason.
    #[inline(always)]
    #[tactic(auto, unfolding(crate::specs::Answers::lit_clocks_answer))]
    pub fn lit_clocks(self, subframe: u32, phase: u32) -> Result<Clocks, Refusal>
        ensures { numbered result
            ≡ lit_clocks_answer self.intensity.part self.intensity.configuration self.intensity.global self.value
            self.number subframe phase }
    {
        judge_lit(
            self,
            Moment {
                subframe,
                clock: 0,
                phase,
            },
        )?;
        Ok(self.lit_run(subframe))
    }
}
