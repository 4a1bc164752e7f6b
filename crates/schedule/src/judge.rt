// The refusals: the first of their table.
ghost use Rattle.std.specs.Prelude.{◌≡◌};
ghost use Rattle.tables.specs.Refusals.{first, carried};
ghost use Rattle.parts.specs.Parts.{part_of};
ghost use Rattle.schedule.specs.Answers.{lit_rows, position_over};

use crate::moments::Moment;
use crate::output::Output;
use parts::{constants_of, is_known, outputs_of, subframes_of, value_limit};
use tables::Refusal;

pub fn judge_lit(output: Output, moment: Moment) -> Result<(), Refusal>
    ensures { carried result
        ≡ first
        (lit_rows output.intensity.part output.intensity.configuration output.value output.number moment.subframe
        moment.clock moment.phase) }
{
    if !is_known(output.intensity.part) {
        return Err(Refusal::UnknownPart);
    }
    if output.value >= value_limit(output.intensity.part) {
        return Err(Refusal::HighValue);
    }
    if is_position_over(output, moment) {
        return Err(Refusal::OutOfRange);
    }
    Ok(())
}

// The part and its configuration do not have the position.
#[tactic(auto, unfolding(crate::specs::Answers::position_over))]
fn is_position_over(output: Output, moment: Moment) -> bool
    ensures { result
        ≡ position_over (part_of output.intensity.part) output.intensity.configuration output.number moment.subframe
        moment.clock moment.phase }
{
    let part = output.intensity.part;
    let configuration = output.intensity.configuration;
    output.number as usize >= outputs_of(part)
        || moment.subframe >= u32::from(subframes_of(part, configuration))
        || moment.clock >= u32::from(constants_of(part).clocks)
        || moment.phase > u32::from(configuration % 2)
}
