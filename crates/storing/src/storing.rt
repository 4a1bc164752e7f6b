// What the last bit of a slice stores: the individual values, the calibration, the waiting global byte or the configuration. Only the places that
// the part uses are written.
ghost use Rattle.std.specs.Prelude.{◌≡◌, ◌+◌, ◌*◌, ◌<◌, ◌≤◌, ◌==◌, get_or};
ghost use Rattle.std.specs.List.{list_all};
ghost use Rattle.std.specs.Bool.{then_some};
ghost use Rattle.bits.specs.Bits.{over};
ghost use Rattle.registers.specs.Held.{with_slice};
ghost use Rattle.parts.specs.Parts.{part_of};
ghost use Rattle.tables.specs.Lists.{all_same};
ghost use Rattle.storing.specs.Stored.{byte_of, bytes_of, strided, stored, stored_values, stored_calibration, stored_global, stored_configuration};

use parts::Command;
use registers::Registers;

// Values of the slice, from a first one on, each a stride after the last, over the first values that a device holds. The loop goes over all
// places by their index, since the two arrays are out of step, and so that it is vectorised.
fn over_first(
    slice: [u16; 48],
    first: usize,
    stride: usize,
    outputs: usize,
    held: [u16; 24],
) -> [u16; 24]
    requires { (first + stride * 23 < 48) × (outputs ≤ 24) }
    ensures { result ≡ over (strided slice first stride outputs) held }
{
    let mut values = held;
    for i in 0..24 {
        let at = first + stride * i;
        values[i] = if i < outputs { slice[at] } else { values[i] };
    }
    values
}

// The low bytes of the first fields of the slice, over the first bytes that a device holds.
fn store_bytes(held: &mut [u8; 3], slice: &[u16; 48], banks: usize)
    requires { banks ≤ 3 }
    ensures { held.new ≡ over (bytes_of slice.now banks) held.old }
{
    for (i, byte) in held.iter_mut().enumerate() {
        *byte = if i < banks {
            (slice[i] % 256) as u8
        } else {
            *byte
        };
    }
}

// Each of the fields has this low byte.
fn all_have(fields: &[u16], byte: u8) -> bool
    ensures { result ≡ list_all (λ v. byte_of v == byte) fields.now }
{
    fields.iter().all(|field| field % 256 == u16::from(byte))
}

// The low byte of the first fields of the slice, one for each bank, where it is the same in all of them.
fn agreed_byte(slice: &[u16; 48], part: u16) -> Option<u8>
    ensures { result
        ≡ then_some (all_same (bytes_of slice.now (part_of part).banks) (byte_of (get_or slice.now 0 0))) (byte_of (get_or slice.now 0 0)) }
{
    let banks = parts::constants_of(part).banks as usize;
    let first = (slice[0] % 256) as u8;
    all_have(&slice[..banks], first).then_some(first)
}

// The values become MUX0, and MUX1 stays; multiplexed, each second value becomes MUX0, and the others MUX1.
fn store_values(registers: &mut Registers)
    ensures { registers.new ≡ stored_values registers.old }
{
    let outputs = parts::outputs_of(registers.part);
    let slice = registers.slice;
    if registers.configuration % 2 == 0 {
        let values = over_first(slice, 0, 1, outputs, registers.waiting0);
        registers.waiting0 = values;
    } else {
        let even = over_first(slice, 0, 2, outputs, registers.waiting0);
        let odd = over_first(slice, 1, 2, outputs, registers.waiting1);
        registers.waiting0 = even;
        registers.waiting1 = odd;
    }
}

// The bytes become the calibration of the banks.
fn store_calibration(registers: &mut Registers)
    ensures { registers.new ≡ stored_calibration registers.old }
{
    let banks = parts::constants_of(registers.part).banks as usize;
    store_bytes(&mut registers.calibration, &registers.slice, banks);
}

// The byte becomes the waiting global byte, where its copies are the same.
fn store_global(registers: &mut Registers)
    ensures { registers.new ≡ stored_global registers.old }
{
    if let Some(byte) = agreed_byte(&registers.slice, registers.part) {
        registers.waiting = byte;
    }
}

// The byte becomes the configuration, where its copies are the same.
fn store_configuration(registers: &mut Registers)
    ensures { registers.new ≡ stored_configuration registers.old }
{
    if let Some(byte) = agreed_byte(&registers.slice, registers.part) {
        registers.configuration = byte;
    }
}

// The configuration that a slice leaves, for who must know it before the slice is stored.
pub fn configuration_after(registers: Registers, slice: [u16; 48], command: Command) -> u8
    ensures { result ≡ (stored (with_slice registers slice) command).configuration }
{
    match command {
        Command::Configuration => agreed_byte(&slice, registers.part).unwrap_or(
            registers.configuration,
        ),
        _ => registers.configuration,
    }
}

// The last bit of a slice stores it. The slice is given beside the registers, whose own is the one before, so that a record is moved once.
pub fn store(registers: Registers, slice: [u16; 48], command: Command) -> Registers
    ensures { result ≡ stored (with_slice registers slice) command }
{
    let mut next = registers;
    next.slice = slice;
    match command {
        Command::Individual => store_values(&mut next),
        Command::Calibration => store_calibration(&mut next),
        Command::Global => store_global(&mut next),
        Command::Configuration => store_configuration(&mut next),
    }
    next
}
