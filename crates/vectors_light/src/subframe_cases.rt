// i, and the same of the 16-output part with as many subframes: ON subframes at g = 96, and leads.
use cases::case;
use std::{array, fmt, io};
use subframes::Intensity;
use tables::Refusal;

pub fn run(rt: &impl Print) -> io::Result<()> {
    of_part(rt, "i ", 6974)?;
    of_part(rt, "- ", 6972)
}

fn of_part(rt: &impl Print, letter: &str, part: u16) -> io::Result<()> {
    on_case(rt, letter, part)?;
    lead_case(rt, letter, part, "lead of subframe 0 alone", 0, 1, -97)?;
    lead_case(rt, letter, part, "lead of subframes 1 to 3", 1, 3, 93)
}

// Are the subframes 0 to 4 ON?
#[derive(Clone, Copy, PartialEq)]
struct FirstFive([Result<bool, Refusal>; 5]);

impl fmt::Display for FirstFive {
    fn fmt<W: fmt::Write>(&self, f: &mut fmt::Formatter<W>) -> fmt::Result {
        for asked in self.0 {
            match asked {
                Ok(false) => write!(f, " off")?,
                Ok(true) => write!(f, " ON")?,
                Err(_) => write!(f, " refused")?,
            }
        }
        Ok(())
    }
}

fn on_case(rt: &impl Print, letter: &str, part: u16) -> io::Result<()> {
    let intensity = of_96(part);
    case(
        rt,
        format_args!("{letter} {part}, g = 96, subframes 0 to 4"),
        FirstFive([Ok(false), Ok(true), Ok(true), Ok(true), Ok(false)]),
        FirstFive(array::from_fn(|subframe| { intensity.is_on(subframe as u32) })),
    )
}

fn of_96(part: u16) -> Intensity {
    Intensity {
        part,
        configuration: 0,
        global: 96,
    }
}

// How far a window of subframes leads.
#[derive(Clone, Copy, PartialEq)]
struct Lead(Result<i32, Refusal>);

impl fmt::Display for Lead {
    fn fmt<W: fmt::Write>(&self, f: &mut fmt::Formatter<W>) -> fmt::Result {
        match self.0 {
            Ok(lead) => write!(f, " {lead}"),
            Err(refusal) => write!(f, " {refusal}"),
        }
    }
}

fn lead_case(
    rt: &impl Print,
    letter: &str,
    part: u16,
    question: &str,
    start: u32,
    length: u32,
    should: i32,
) -> io::Result<()> {
    case(
        rt,
        format_args!("{letter} {part}, g = 96, {question}"),
        Lead(Ok(should)),
        Lead(of_96(part).lead_of(start, length)),
    )
}
