// The frame writer.
ghost use Rattle.std.specs.Prelude.{◌≡◌, false, ◌+◌, ◌≤◌, length};
ghost use Rattle.bits.specs.Bits.{bytes_for, over, over_at};
ghost use Rattle.tables.specs.Refusals.{first, numbered, carried};
ghost use Rattle.parts.specs.Parts.{most_devices};
ghost use Rattle.frames.specs.Frames.{field_count, slices_bits, frame_of};
ghost use Rattle.frame_writer.specs.Writing.{settings, slices_of, header_number, list_wrong, value_high, write_rows, write_refusal, written, written_out};

use crate::put::{put_bytes, put_number, put_same, put_values};
use frames::{Tail, Told, is_tail_high, judge_told, told_fields, told_length};
use parts::Command;
use tables::Refusal;

// What a command is given: a list, or one byte. Those of other commands are not looked at.
#[derive(Clone, Copy)]
struct Settings<'a> {
    byte: u8,
    bytes: &'a [u8],
    values: &'a [u16],
}

// A frame from its settings: those of its own command alone are looked at. The answer is how many bytes it has.
#[tactic(auto, unfolding(crate::specs::Writing::written, crate::specs::Writing::written_out))]
pub fn write(
    told: Told,
    tail: Tail,
    byte: u8,
    bytes: &[u8],
    values: &[u16],
    out: &mut [u8],
) -> Result<usize, Refusal>
    ensures value { numbered result ≡ written told tail byte bytes.now values.now (length out.old) }
    ensures out_after { out.new ≡ written_out told tail byte bytes.now values.now out.old }
{
    let given = Settings {
        byte,
        bytes,
        values,
    };
    judge_write(told, tail, given, out.len())?;
    Ok(put_frame(told, tail, given, out))
}

// The first refusal that applies.
#[tactic(auto, unfolding(crate::specs::Writing::write_refusal))]
fn judge_write(told: Told, tail: Tail, given: Settings<'_>, room: usize) -> Result<(), Refusal>
    ensures { carried result ≡ write_refusal told tail given.entry.byte given.entry.bytes.now given.entry.values.now room }
{
    judge_told(told.part, told.devices, tail)?;
    judge_settings(told, tail, given, room)
}

// Refusals 4 to 6 of a writer.
#[tactic(auto, unfolding(frames::specs::Frames::told_fields, frames::specs::Frames::told_length))]
fn judge_settings(told: Told, tail: Tail, given: Settings<'_>, room: usize) -> Result<(), Refusal>
    requires { (told.devices ≤ most_devices) × (tail.length ≤ 64) }
    ensures { carried result ≡ first (write_rows told tail given.entry.byte given.entry.bytes.now given.entry.values.now room) }
{
    if is_list_wrong(
        told.command,
        told_fields(told),
        given.bytes.len(),
        given.values.len(),
    ) {
        return Err(Refusal::WrongLength);
    }
    if room < told_length(told, tail) {
        return Err(Refusal::NoRoom);
    }
    if is_value_high(told, given) || is_tail_high(tail) {
        return Err(Refusal::HighValue);
    }
    Ok(())
}

// The command's settings list has not n elements.
fn is_list_wrong(command: Command, n: usize, bytes: usize, values: usize) -> bool
    ensures { result ≡ list_wrong command n bytes values }
{
    match command {
        Command::Individual => values != n,
        Command::Calibration => bytes != n,
        _ => false,
    }
}

// A value or a global byte is out of range.
fn is_value_high(told: Told, given: Settings<'_>) -> bool
    ensures { result ≡ value_high told told.command given.entry.byte given.entry.values.now }
{
    match told.command {
        Command::Individual => !tables::values_below(given.values, parts::value_limit(told.part)),
        Command::Calibration => false,
        Command::Global => given.byte as u16 >= parts::subframes_of(told.part, told.configuration),
        Command::Configuration => false, // any byte may be one
    }
}

// The frame's bytes: header, slices, tail, each from a byte's start. The answer is how many they are.
fn put_frame(told: Told, tail: Tail, given: Settings<'_>, out: &mut [u8]) -> usize
    requires { write_refusal told tail given.byte given.bytes.now given.values.now (length out.old) ≡ 0 }
    ensures { (out.new ≡ over (frame_of told tail (settings told given.entry.byte given.entry.bytes.now given.entry.values.now)) out.old)
        × (result ≡ length (frame_of told tail (settings told given.entry.byte given.entry.bytes.now given.entry.values.now))) }
{
    let start = put_number(header_of(told.command), 24, out, 0);
    let end = put_slices(told, given, out, start);
    put_number(tail.number, tail.length, out, end)
}

// SYNC, the command three times, and the count 0.
fn header_of(command: Command) -> u64
    ensures { result ≡ header_number command }
{
    0xE8_0000 + parts::pairs_of(command) as u64 * 1024
}

// The slices from the byte `at` on. The answer is the byte behind them.
fn put_slices(told: Told, given: Settings<'_>, out: &mut [u8], at: usize) -> usize
    requires { (told.devices ≤ most_devices)
        × (list_wrong told.command (field_count told) (length given.bytes.now) (length given.values.now) ≡ false)
        × (at + bytes_for (slices_bits told) ≤ length out.old) }
    ensures { (out.new
        ≡ over_at at (slices_of told told.command given.entry.byte given.entry.bytes.now given.entry.values.now) out.old)
        × (result ≡ at + bytes_for (slices_bits told)) }
{
    let n = told_fields(told);
    let width = slices::field_width(told.command, told.part);
    match told.command {
        Command::Individual => put_values(given.values, width, out, at),
        Command::Calibration => put_bytes(given.bytes, out, at),
        Command::Global | Command::Configuration => put_same(given.byte, n, out, at),
    }
}
