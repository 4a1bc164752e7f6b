// The four commands, and their bits.
ghost use Rattle.std.specs.Prelude.{◌≡◌, ◌*◌};
ghost use Rattle.parts.specs.Parts.{code, command_at};

#[derive(Clone, Copy, Debug, PartialEq, Eq)]
pub enum Command {
    Individual,
    Calibration,
    Global,
    Configuration,
}

// C1 C0.
impl From<Command> for u8 {
    ghost from_gives = { λ command number. number ≡ code command };

    fn from(command: Command) -> u8 {
        match command {
            Command::Individual => 0,
            Command::Calibration => 1,
            Command::Global => 2,
            Command::Configuration => 3,
        }
    }
}

// The command of C1 C0: of a number over 3, by its two low bits.
impl From<u8> for Command {
    ghost from_gives = { λ number command. command ≡ command_at number };

    fn from(number: u8) -> Command {
        match number % 4 {
            0 => Command::Individual,
            1 => Command::Calibration,
            2 => Command::Global,
            _ => Command::Configuration,
        }
    }
}

// C1 C0 three times, as a number.
pub fn pairs_of(command: Command) -> u8
    ensures { result ≡ 21 * code command }
{
    match command {
        Command::Individual => 0,
        Command::Calibration => 21,
        Command::Global => 42,
        Command::Configuration => 63,
    }
}
