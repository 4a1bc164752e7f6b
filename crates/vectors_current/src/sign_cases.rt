// Two devices: the figures of each, and those of the sign. Its average is its total divided: here 1 more than the sum of the devices' averages.
use crate::device_cases::{Figure, figure_of, is_answer};
use cases::verdict;
use std::io;

pub fn run(rt: &impl Print) -> io::Result<()> {
    let each = figure_of(3650707456000, 6963171, 458752);
    let sign = figure_of(7301414912000, 13926343, 393216);
    let mut figures = [0; 7];
    figures[6] = 77;
    let came = current::bb_current(
        6972,
        2,
        0x00,
        b"\xFF\xFF\xFF\xFF",
        127,
        &[4095; 32],
        &mut figures,
    );
    let [a, b, c, d, e, f, last] = figures;
    case(rt, "device 1", each, figure_of(a, b, c))?;
    case(rt, "device 2", each, figure_of(d, e, f))?;
    case(rt, "the sign", sign, Figure::from(came))?;
    let verdict = verdict(last == 77 && is_answer(came, sign));
    println!(rt;
        "-  6972, two devices, all largest, a list of 7 numbers: the last should be 77, came out {last}: {verdict}"
    )
}

fn case(rt: &impl Print, name: &str, should: Figure, came: Figure) -> io::Result<()> {
    let name = format_args!("-  6972, two devices, all largest, {name}");
    cases::case(rt, name, should, came)
}
