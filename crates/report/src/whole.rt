// The whole report.
ghost use Rattle.std.specs.Prelude.{◌≡◌, ◌+◌, ◌≤◌, ◌++◌, length};
ghost use Rattle.arrayvec.specs.ArrayVec.{array_vec_len};
ghost use Rattle.bits.specs.Bits.{over};
ghost use Rattle.frames.specs.Frames.{told_of};
ghost use Rattle.report.specs.Report.{lines_of, later_commands, all_lines, configuration_of, answer_of, report_of};

use crate::lines::{put_frame, put_part, put_refused, put_trailing};
use crate::reading::{back, byte_in, frame_size, read_front};
use crate::text::Lines;
use arguments::Chain;
use frames::Told;
use parts::Command;

// Puts the lines into `out`, and answers how many bytes they are. A refusal is told by its number, and not by name: what is written for any number is
// promised.
#[tactic(auto, unfolding(bits::specs::Bits::over))]
pub fn report(asked: Result<Chain, u8>, input: &[u8], out: &mut [u8; 640]) -> usize
    ensures value { result ≡ length (report_of asked input.now) }
    ensures out_after { out.new ≡ over (report_of asked input.now) out.old }
    ensures room { result ≤ 640 }
{
    let lines = gathered(asked, input);
    out[..lines.len()].copy_from_slice(lines.as_slice());
    lines.len()
}

// The lines for what is asked.
#[tactic(auto, unfolding(crate::specs::Report::report_of))]
fn gathered(asked: Result<Chain, u8>, input: &[u8]) -> Lines
    ensures { result.items ≡ report_of asked input.now }
{
    let mut lines = Lines::new();
    match asked {
        Ok(chain) => put_all(&mut lines, chain, input),
        Err(number) => put_refused(&mut lines, number),
    }
    lines
}

// The lines of all four frames.
fn put_all(lines: &mut Lines, chain: Chain, input: &[u8])
    requires { array_vec_len lines.old + 640 ≤ 640 }
    ensures { lines.new.items ≡ lines.old.items
        ++ all_lines chain.part chain.devices input.now (answer_of (configuration_of chain.part chain.devices) input.now) }
{
    let told = told_of(chain, Command::Configuration, 0);
    let bits = frame_size(told);
    let answer = read_front(told, input);
    let Some(configuration) = byte_in(answer) else {
        return put_frame(lines, Command::Configuration, bits, answer);
    };
    put_part(lines, chain, configuration % 2);
    put_frame(lines, Command::Configuration, bits, answer);
    put_rest(lines, chain, configuration, back(input, bits.div_ceil(8)));
}

// The lines of the frames behind the configuration frame, in restore order.
fn put_rest(lines: &mut Lines, chain: Chain, configuration: u8, input: &[u8])
    requires { array_vec_len lines.old + 448 ≤ 640 }
    ensures { lines.new.items ≡ lines.old.items ++ lines_of chain.part chain.devices configuration later_commands input.now }
{
    let mut rest = input;
    for command in [Command::Calibration, Command::Global, Command::Individual] {
        let told = told_of(chain, command, configuration);
        let bits = frame_size(told);
        let answer = read_front(told, rest);
        put_frame(lines, command, bits, answer);
        if answer.is_err() {
            return;
        }
        rest = back(rest, bits.div_ceil(8));
    }
    if !rest.is_empty() {
        put_trailing(lines);
    }
}

// What a frame of the chain is told by.
fn told_of(chain: Chain, command: Command, configuration: u8) -> Told
    ensures { result ≡ told_of chain.part chain.devices command configuration }
{
    Told {
        part: chain.part,
        devices: usize::from(chain.devices),
        command,
        configuration,
    }
}
