// The bench program: bench PART N reads four frames from standard input and writes a line for each. What its arguments ask is
// worked out by the crate `arguments`, all that it writes by `report`.
#![tactic(auto)]

ghost use Rattle.std.specs.Prelude.{◌≤◌, length};

use arguments::Chain;
use std::env::Env;
use std::io;
use std::io::Read;

fn main(rt: HostRuntime) -> io::Result<()> {
    // Linux hands over no argument that is longer.
    let mut part = [0u8; 131072];
    let mut devices = [0u8; 131072];
    let first = argument(&rt, 1, &mut part);
    let second = argument(&rt, 2, &mut devices);
    let asked = arguments::ask(&part[..first], &devices[..second]).map_err(u8::from);
    if asked.is_err() {
        return print(&rt, asked, b"");
    }
    // The frames of 512 multiplexed devices of the part with the longest slices, and one byte by which left-over input is seen.
    let mut input = [0u8; 47629];
    let got = read_full(&mut rt.stdin(), &mut input);
    print(&rt, asked, &input[..got])
}

// Puts an argument at the start of `text`, and answers how long it is: 0 where it is missing.
fn argument(rt: &impl Env, place: usize, text: &mut [u8]) -> usize
    ensures { result ≤ length text.new }
{
    rt.arg(place, text).unwrap_or(0)
}

// Reads until `input` is full, the input ends or a read fails, and answers how many bytes it put at the start of `input`.
fn read_full(from: &mut impl Read, input: &mut [u8]) -> usize
    ensures { result ≤ length input.new }
{
    let mut got = 0;
    // By how many bytes each read gives: std has no method that reads until the room is full or the input ends.
    while got < input.len() {
        let more = from.read(&mut input[got..]).unwrap_or(0);
        if more == 0 {
            break;
        }
        got += more;
    }
    got
}

fn print(rt: &impl Print, asked: Result<Chain, u8>, input: &[u8]) -> io::Result<()> {
    let mut lines = [0; 640];
    let length = report::report(asked, input, &mut lines);
    rt.write_all(&lines[..length])
}
