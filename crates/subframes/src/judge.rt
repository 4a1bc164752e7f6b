// The refusals: each gives the first of its table.
ghost use Rattle.std.specs.Prelude.{◌≡◌};
ghost use Rattle.tables.specs.Refusals.{first, carried};
ghost use Rattle.subframes.specs.Answers.{on_rows, lead_rows};

use crate::intensity::Intensity;
use parts::{is_known, subframes_of};
use tables::Refusal;

pub fn judge_subframe(intensity: Intensity, subframe: u32) -> Result<(), Refusal>
    ensures { carried result ≡ first (on_rows intensity.part intensity.configuration subframe) }
{
    if !is_known(intensity.part) {
        return Err(Refusal::UnknownPart);
    }
    let subframes = u32::from(subframes_of(intensity.part, intensity.configuration));
    if subframe >= subframes {
        return Err(Refusal::OutOfRange);
    }
    Ok(())
}

// A window of no subframes may stand at the frame's end.
pub fn judge_window(intensity: Intensity, from: u32, w: u32) -> Result<(), Refusal>
    ensures { carried result ≡ first (lead_rows intensity.part intensity.configuration from w) }
{
    if !is_known(intensity.part) {
        return Err(Refusal::UnknownPart);
    }
    let subframes = u32::from(subframes_of(intensity.part, intensity.configuration));
    if w > subframes || from > subframes - w {
        return Err(Refusal::OutOfRange);
    }
    Ok(())
}
