// j, k and r: the clocks at which an output is lit, each clock asked for and counted. s: outputs that a part has, and that it does not have.
ghost use Rattle.std.specs.Prelude.{◌≡◌, ◌≤◌, ◌+◌};

use cases::{Outcome, case};
use schedule::{Moment, Output};
use std::{fmt, io};
use subframes::Intensity;

// The first output in wire order, B7 or Z7, is odd. The last is even: R0 of a part with three banks, Y0 of one with two.
const FIRST: u32 = 0;

const R0: u32 = 23;

const Y0: u32 = 15;

// The clocks at which an output is lit in one subframe: how many, the first and the last.
#[derive(Clone, Copy, PartialEq)]
struct Lit {
    count: usize,
    first: u32,
    last: u32,
}

impl fmt::Display for Lit {
    fn fmt<W: fmt::Write>(&self, f: &mut fmt::Formatter<W>) -> fmt::Result {
        match self.count {
            0 => write!(f, " never lit"),
            1 => write!(f, " lit at {} only", self.first),
            count => write!(f, " lit at {} to {}, {count} clocks", self.first, self.last),
        }
    }
}

pub fn run(rt: &impl Print) -> io::Result<()> {
    narrow_cases(rt, "j ", 6974, R0, "R0 (even)", "B7 (odd)")?;
    wide_cases(rt, "k ", 6975, R0, "R0 (even)", "B7 (odd)")?;
    narrow_cases(rt, "r ", 6972, Y0, "Y0 (even)", "Z7 (odd)")?;
    wide_cases(rt, "r ", 6973, Y0, "Y0 (even)", "Z7 (odd)")?;
    output_case(rt, "s ", 6972, Y0 + 1, 13)?;
    output_case(rt, "s ", 6974, Y0 + 1, 0)?;
    output_case(rt, "- ", 6974, R0 + 1, 13)?;
    output_case(rt, "- ", 6971, FIRST, 1)?;
    output_case(rt, "- ", 6976, FIRST, 1)
}

// A part with values of 12 bits.
fn narrow_cases(
    rt: &impl Print,
    letter: &str,
    part: u16,
    last: u32,
    even: &str,
    odd: &str,
) -> io::Result<()> {
    lit_case(rt, letter, part, 2560, last, even, lit_for(2544, 16, 2559))?;
    lit_case(
        rt,
        letter,
        part,
        2560,
        FIRST,
        odd,
        lit_for(2544, 1536, 4079),
    )
}

// A part with values of 14 bits.
fn wide_cases(
    rt: &impl Print,
    letter: &str,
    part: u16,
    last: u32,
    even: &str,
    odd: &str,
) -> io::Result<()> {
    lit_case(rt, letter, part, 32, last, even, lit_for(0, 0, 0))?;
    lit_case(rt, letter, part, 32, FIRST, odd, lit_for(0, 0, 0))?;
    lit_case(rt, letter, part, 33, last, even, lit_for(1, 32, 32))?;
    lit_case(rt, letter, part, 33, FIRST, odd, lit_for(1, 16351, 16351))
}

fn lit_for(count: usize, first: u32, last: u32) -> Lit
    ensures { result.count ≡ count }
{
    Lit { count, first, last }
}

fn lit_case(
    rt: &impl Print,
    letter: &str,
    part: u16,
    value: u16,
    output: u32,
    name: &str,
    should: Lit,
) -> io::Result<()> {
    let name = format_args!("{letter} {part}, v = {value}, {name}");
    case(rt, name, should, lit_clocks(part, value, output))
}

// Every clock of subframe 0 is asked for, once. It is ON: the global byte is the highest.
fn lit_clocks(part: u16, value: u16, output: u32) -> Lit {
    let output = output_of(part, value, output);
    let mut came = lit_for(0, 0, 0);
    for clock in 0..u32::from(parts::constants_of(part).clocks) {
        if output.is_lit(at_clock(clock)) == Ok(true) {
            came = with_clock(came, clock);
        }
    }
    came
}

// A clock more, behind all that were asked for.
fn with_clock(lit: Lit, clock: u32) -> Lit
    requires { lit.count ≤ clock }
    ensures { result.count ≤ clock + 1 }
{
    Lit {
        count: lit.count + 1,
        first: if lit.count == 0 { clock } else { lit.first },
        last: clock,
    }
}

fn output_of(part: u16, value: u16, number: u32) -> Output {
    Output {
        intensity: Intensity {
            part,
            configuration: 0,
            global: 255,
        },
        value,
        number,
    }
}

fn at_clock(clock: u32) -> Moment {
    Moment {
        subframe: 0,
        clock,
        phase: 0,
    }
}

// The line of a question about an output.
fn output_case(
    rt: &impl Print,
    letter: &str,
    part: u16,
    output: u32,
    should: u8,
) -> io::Result<()> {
    let came = output_of(part, 0, output).is_lit(at_clock(0));
    case(
        rt,
        format_args!("{letter} {part}, output {output}"),
        Outcome(should),
        Outcome::from(came),
    )
}
