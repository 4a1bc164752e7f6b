// The frame reader.
ghost use Rattle.std.specs.Prelude.{◌≡◌, false, ◌+◌, ◌*◌, ◌<◌, ◌≤◌, length};
ghost use Rattle.tables.specs.Refusals.{first, numbered, carried};
ghost use Rattle.parts.specs.Parts.{most_devices};
ghost use Rattle.frames.specs.Frames.{field_count, slices_bits, frame_length};
ghost use Rattle.frame_reader.specs.Reading.{held_fields, room_short, copy_high, copies_differ, length_rows, range_rows, slice_rows, body_rows};
ghost use Rattle.frame_reader.specs.Reading.{read_refusal, found, bytes_found, values_found, read, read_bytes, read_values};

use crate::answer::Read;
use crate::lists::{held_below, held_same};
use crate::take::{take_bytes, take_values};
use frames::{
    Tail, Told, field_at, is_tail_high, judge_end, judge_head, judge_told, told_bits, told_fields,
    told_length,
};
use parts::Command;
use tables::Refusal;

// The settings that a frame holds. Calibration bytes and individual values go to the front of the lent lists.
#[tactic(auto, unfolding(crate::specs::Reading::read, crate::specs::Reading::read_bytes, crate::specs::Reading::read_values))]
pub fn read(
    told: Told,
    tail: Tail,
    frame: &[u8],
    bytes: &mut [u8],
    values: &mut [u16],
) -> Result<Read, Refusal>
    ensures value { numbered result ≡ read told tail frame.now (length bytes.old) (length values.old) }
    ensures bytes_after { bytes.new ≡ read_bytes told tail frame.now bytes.old (length values.old) }
    ensures values_after { values.new ≡ read_values told tail frame.now (length bytes.old) values.old }
{
    judge_read(told, tail, frame, bytes.len(), values.len())?;
    Ok(take_fields(told, frame, bytes, values))
}

// The first refusal that applies.
#[tactic(auto, unfolding(crate::specs::Reading::read_refusal))]
fn judge_read(
    told: Told,
    tail: Tail,
    frame: &[u8],
    bytes: usize,
    values: usize,
) -> Result<(), Refusal>
    ensures { carried result ≡ read_refusal told tail frame.now bytes values }
{
    judge_told(told.part, told.devices, tail)?;
    judge_lengths(told, tail, frame.len(), bytes, values)?;
    judge_body(told, tail, frame)
}

// Refusals 4 and 5 of a reader.
#[tactic(auto, unfolding(frames::specs::Frames::told_fields, frames::specs::Frames::told_length))]
fn judge_lengths(
    told: Told,
    tail: Tail,
    long: usize,
    bytes: usize,
    values: usize,
) -> Result<(), Refusal>
    requires { (told.devices ≤ most_devices) × (tail.length ≤ 64) }
    ensures { carried result ≡ first (length_rows told tail long bytes values) }
{
    if long != told_length(told, tail) {
        return Err(Refusal::WrongLength);
    }
    if is_room_short(told.command, told_fields(told), bytes, values) {
        return Err(Refusal::NoRoom);
    }
    Ok(())
}

// The command's lent list has fewer than n places.
fn is_room_short(command: Command, n: usize, bytes: usize, values: usize) -> bool
    ensures { result ≡ room_short command n bytes values }
{
    match command {
        Command::Individual => values < n,
        Command::Calibration => bytes < n,
        _ => false,
    }
}

// Refusals 6 to 12 of a reader.
#[tactic(auto, using(frames::proofs::Lengths::bits_small), unfolding(frames::specs::Frames::told_bits, frames::specs::Frames::head_table, frames::specs::Frames::end_table))]
fn judge_body(told: Told, tail: Tail, frame: &[u8]) -> Result<(), Refusal>
    requires { (0 < told.devices) × (told.devices ≤ most_devices) × (tail.length ≤ 64) × (length frame.now ≡ frame_length told tail) }
    ensures { carried result ≡ first (body_rows told tail frame.now) }
{
    judge_range(told, tail, frame)?;
    judge_head(frame, told.command)?;
    judge_slices(told, frame)?;
    judge_end(frame, (24 + told_bits(told)) as u32, tail)
}

// Refusal 6 of a reader.
fn judge_range(told: Told, tail: Tail, frame: &[u8]) -> Result<(), Refusal>
    requires { (told.devices ≤ most_devices) × (tail.length ≤ 64) × (3 + field_count told ≤ length frame.now) }
    ensures { carried result ≡ first (range_rows told tail frame.now) }
{
    if is_copy_high(told, frame) || is_tail_high(tail) {
        return Err(Refusal::HighValue);
    }
    Ok(())
}

// A copy of a global byte is out of range.
fn is_copy_high(told: Told, frame: &[u8]) -> bool
    requires { (told.devices ≤ most_devices) × (3 + field_count told ≤ length frame.now) }
    ensures { result ≡ copy_high told told.command (held_fields told frame.now) }
{
    let limit = parts::subframes_of(told.part, told.configuration) as u8;
    match told.command {
        Command::Global => !held_below(frame, told_fields(told), limit),
        _ => false,
    }
}

// Refusals 9 and 10 of a reader.
#[tactic(auto, using(frames::proofs::Judged::field_within))]
fn judge_slices(told: Told, frame: &[u8]) -> Result<(), Refusal>
    requires { (0 < told.devices) × (told.devices ≤ most_devices) × (3 + field_count told ≤ length frame.now) }
    ensures { carried result ≡ first (slice_rows told frame.now) }
{
    if field_at(frame, 14, 10) != 0 {
        return Err(Refusal::WrongCount);
    }
    if do_copies_differ(told, frame) {
        return Err(Refusal::UnequalCopies);
    }
    Ok(())
}

// Copies of a global or configuration byte differ.
fn do_copies_differ(told: Told, frame: &[u8]) -> bool
    requires { (0 < told.devices) × (told.devices ≤ most_devices) × (3 + field_count told ≤ length frame.now) }
    ensures { result ≡ copies_differ told.command (held_fields told frame.now) }
{
    match told.command {
        Command::Individual | Command::Calibration => false,
        Command::Global | Command::Configuration => !held_same(frame, told_fields(told)),
    }
}

// The fields of an accepted frame.
fn take_fields(told: Told, frame: &[u8], bytes: &mut [u8], values: &mut [u16]) -> Read
    requires { (0 < told.devices)
        × (told.devices ≤ most_devices)
        × (24 + slices_bits told ≤ 8 * length frame.now)
        × (room_short told.command (field_count told) (length bytes.old) (length values.old) ≡ false) }
    ensures { (result ≡ found told told.command (held_fields told frame.now))
        × (bytes.new ≡ bytes_found told.command (held_fields told frame.now) bytes.old)
        × (values.new ≡ values_found told.command (held_fields told frame.now) values.old) }
{
    let n = told_fields(told);
    let width = slices::field_width(told.command, told.part);
    match told.command {
        Command::Individual => {
            take_values(frame, n, width, values);
            Read::Values(n)
        }
        Command::Calibration => {
            take_bytes(frame, n, bytes);
            Read::Bytes(n)
        }
        Command::Global | Command::Configuration => Read::Byte(frame[3]),
    }
}
