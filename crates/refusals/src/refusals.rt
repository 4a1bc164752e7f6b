// When each call is refused, by what one pass over the records found and their number.
ghost use Rattle.std.specs.Prelude.{◌≡◌, ◌&&◌, ltb};
ghost use Rattle.tables.specs.Lists.{all_below};
ghost use Rattle.tables.specs.Refusals.{first, carried};
ghost use Rattle.calls.specs.Calls.{fresh_table, room_for};
ghost use Rattle.watch.specs.Watch.{is_bit, is_limit};
ghost use Rattle.refusals.specs.Rows.{judged_rows, run_rows, is_device, has_output, fault_rows, output_rows};

use judgement::Judged;
use tables::Refusal;

// A run.
pub fn judge_run(judged: Judged, n: usize, states: &[u8], room: usize) -> Result<(), Refusal>
    ensures { carried result ≡ first (run_rows judged n states.now room) }
{
    judge_records(judged, n)?;
    if lacks_room(states.len(), room) {
        return Err(Refusal::NoRoom);
    }
    // Line states are 0 to 3.
    if !(tables::bytes_below(states, 4) && judged.fits) {
        return Err(Refusal::OutOfRange);
    }
    Ok(())
}

// A call for a fresh chain.
pub fn judge_fresh(part: u16, bit: u8, limit: u32, n: usize) -> Result<(), Refusal>
    ensures { carried result ≡ first (fresh_table part bit limit n) }
{
    if !parts::is_known(part) {
        return Err(Refusal::UnknownPart);
    }
    if !parts::is_count(n) {
        return Err(Refusal::WrongDeviceCount);
    }
    if !(watch::is_bit(bit) && watch::is_limit(limit)) {
        return Err(Refusal::OutOfRange);
    }
    Ok(())
}

// A fault setting: there is such a device, and such a fault.
pub fn judge_fault(judged: Judged, n: usize, device: usize, kind: u8) -> Result<(), Refusal>
    ensures { carried result ≡ first (fault_rows judged n device kind) }
{
    judge_records(judged, n)?;
    if !(is_device(n, device) && kind < 2 && judged.fits) {
        return Err(Refusal::OutOfRange);
    }
    Ok(())
}

// A question about an output: there is such a device, and such an output.
pub fn judge_output(judged: Judged, n: usize, device: usize, output: u32) -> Result<(), Refusal>
    ensures { carried result ≡ first (output_rows judged n device output) }
{
    judge_records(judged, n)?;
    if !(is_device(n, device) && has_output(judged.part, output) && judged.fits) {
        return Err(Refusal::OutOfRange);
    }
    Ok(())
}

// The records by themselves.
fn judge_records(judged: Judged, n: usize) -> Result<(), Refusal>
    ensures { carried result ≡ first (judged_rows judged n) }
{
    if !judged.known {
        return Err(Refusal::UnknownPart);
    }
    if !parts::is_count(n) {
        return Err(Refusal::WrongDeviceCount);
    }
    if !judged.same {
        return Err(Refusal::WrongLength);
    }
    Ok(())
}

// There is no room for n + 23 states.
fn lacks_room(n: usize, room: usize) -> bool
    ensures { result ≡ ltb room (room_for n) }
{
    room < 23 || room - 23 < n
}

fn is_device(n: usize, device: usize) -> bool
    ensures { result ≡ is_device n device }
{
    1 <= device && device <= n
}

// A chain of that part has such an output: without a record, of what 0 is read as.
fn has_output(part: Option<u16>, output: u32) -> bool
    ensures { result ≡ has_output part output }
{
    (output as usize) < parts::outputs_of(part.unwrap_or(0))
}
