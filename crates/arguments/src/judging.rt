// The two arguments judged.
ghost use Rattle.std.specs.Prelude.{◌≡◌};
ghost use Rattle.tables.specs.Refusals.{numbered};
ghost use Rattle.arguments.specs.Arguments.{asked};

use crate::decimal::parse;
use tables::Refusal;

// So many devices of a part.
#[derive(Clone, Copy)]
pub struct Chain {
    pub part: u16,
    pub devices: u16,
}

// The chain that the texts of the two arguments ask for; a missing one is empty.
#[tactic(auto, unfolding(crate::specs::Arguments::judged))]
pub fn ask(part: &[u8], devices: &[u8]) -> Result<Chain, Refusal>
    ensures { numbered result ≡ asked part.now devices.now }
{
    let part = parse(part)
        .filter(|number| parts::is_known(*number))
        .ok_or(Refusal::UnknownPart)?;
    let devices = parse(devices)
        .filter(|count| (1..=512).contains(count))
        .ok_or(Refusal::WrongDeviceCount)?;
    Ok(Chain { part, devices })
}
