// What dims a sign: which subframes are ON, and how far a window of them leads.
ghost use Rattle.std.specs.Prelude.{◌≡◌};
ghost use Rattle.tables.specs.Refusals.{numbered};
ghost use Rattle.subframes.specs.Answers.{on_answer, lead_answer};

use crate::judge::{judge_subframe, judge_window};
use crate::subframe::window_lead;
use tables::Refusal;

// A part, its configuration and a global byte: any numbers. Subframes are counted from 0.
#[derive(Clone, Copy, Debug, PartialEq, Eq)]
pub struct Intensity {
    pub part: u16,
    pub configuration: u8,
    pub global: u8,
}

impl Intensity {
    // Is a subframe ON, at any byte as global?
    #[tactic(auto, unfolding(crate::specs::Answers::on_answer))]
    pub fn is_on(self, subframe: u32) -> Result<bool, Refusal>
        ensures { numbered result ≡ on_answer self.part self.configuration self.global subframe }
    {
        judge_subframe(self, subframe)?;
        Ok(self.is_subframe_on(subframe))
    }

    // How far does a window of subframes lead, negative where its light lags?
    #[tactic(auto, unfolding(crate::specs::Answers::lead_answer))]
    pub fn lead_of(self, from: u32, w: u32) -> Result<i32, Refusal>
        ensures { numbered result ≡ lead_answer self.part self.configuration self.global from w }
    {
        judge_window(self, from, w)?;
        Ok(window_lead(self, from.into(), w.into()))
    }
}
