// What leaves the chain: the 24 states of a header, and the high states that every device passes.
ghost use Rattle.std.specs.Prelude.{◌≡◌, ◌<◌, ◌≤◌, ◌+◌, ◌/◌, ◌%◌, length, drop, take};
ghost use Rattle.parts.specs.Wire.{header, states_of};
ghost use Rattle.phases.specs.declared.phase.Sent.TheVariants.{Nothing};
ghost use Rattle.cursor.specs.Cursor.{next_turn};
ghost use Rattle.turns.specs.Front.{put_all, put_end, high_count, passed_to, leave_cursor, leave_out};

use cursor::Cursor;
use parts::Command;
use phases::Sent;

// A header that the last device sent, or the high states.
pub fn leave(cursor: Cursor, states: &[u8], returned: &mut [u8]) -> Cursor
    requires { (cursor.at ≤ length states.now) × (cursor.written ≤ length returned.old) }
    ensures { (result ≡ leave_cursor cursor.pending cursor states.now (length returned.old)) × (returned.new ≡ leave_out cursor states.now returned.old) }
{
    match cursor.pending {
        Sent::Header { command, count } => leave_header(cursor, command, count, states, returned),
        _ => leave_states(cursor, states, returned),
    }
}

// A header leaves the chain.
fn leave_header(
    cursor: Cursor,
    command: Command,
    count: u16,
    states: &[u8],
    returned: &mut [u8],
) -> Cursor
    requires { cursor.written ≤ length returned.old }
    ensures { (result ≡ next_turn cursor.count cursor.front cursor.at (put_end (length returned.old) cursor.written 24) Nothing (drop cursor.at states.now)) × (returned.new ≡ put_all returned.old cursor.written (states_of (header command count))) }
{
    let written = append(returned, cursor.written, &header_states(command, count));
    cursor::next_turn(
        cursor.count,
        cursor.front,
        cursor.at,
        written,
        Sent::Nothing,
        states,
    )
}

// The high states leave the chain.
fn leave_states(cursor: Cursor, states: &[u8], returned: &mut [u8]) -> Cursor
    requires { (cursor.at ≤ length states.now) × (cursor.written ≤ length returned.old) }
    ensures { (result ≡ passed_to cursor states.now (length returned.old)) × (returned.new ≡ put_all returned.old cursor.written (take (high_count (drop cursor.at states.now)) (drop cursor.at states.now))) }
{
    let end = intake::highs_end(states, cursor.at);
    let written = append(returned, cursor.written, &states[cursor.at..end]);
    cursor::next_turn(
        cursor.count,
        cursor.front,
        end,
        written,
        Sent::Nothing,
        states,
    )
}

// States are written from a place on, as many as there is room for.
fn append(returned: &mut [u8], from: usize, states: &[u8]) -> usize
    requires { from ≤ length returned.old }
    ensures { (result ≡ put_end (length returned.old) from (length states.now)) × (returned.new ≡ put_all returned.old from states.now) }
{
    from + bits::copy_over(&mut returned[from..], states)
}

// The 24 states of a header: SYNC at low load, command and count at high.
fn header_states(command: Command, count: u16) -> [u8; 24]
    ensures { result ≡ states_of (header command count) }
{
    let code = u16::from(u8::from(command));
    let a = high_bit(code, 2);
    let b = high_bit(code, 1);
    // One line a state, as the layout has it: a loop over the bits would be no plainer, as SYNC, the command's pairs and the count differ.
    [
        1,
        1,
        1,
        0,
        1,
        0,
        0,
        0,
        a,
        b,
        a,
        b,
        a,
        b,
        high_bit(count, 512),
        high_bit(count, 256),
        high_bit(count, 128),
        high_bit(count, 64),
        high_bit(count, 32),
        high_bit(count, 16),
        high_bit(count, 8),
        high_bit(count, 4),
        high_bit(count, 2),
        high_bit(count, 1),
    ]
}

// A data bit of a number, at high load.
fn high_bit(n: u16, below: u16) -> u8
    requires { 0 < below }
    ensures { result ≡ n / below % 2 + 2 }
{
    ((n / below) % 2) as u8 + 2
}
