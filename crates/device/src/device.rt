// The single step of a device, by value, and the events that are no clock.
ghost use Rattle.std.specs.Prelude.{◌≡◌, ◌&&◌};
ghost use Rattle.watch.specs.Watch.{watch_fits};
ghost use Rattle.positions.specs.Positions.{position_fits};
ghost use Rattle.device.specs.Step.{sending, collected, step_high, step, single_step, faulted, fresh_device};
ghost use Rattle.tables.specs.Refusals.{first, carried};
ghost use Rattle.device.specs.Judgement.{contents_fit, fits, judgement, step_refusals, answered, step_answer};

use parts::Command;
use phases::{Phase, Place, Sent};
use registers::Registers;
use tables::Refusal;

#[repr(C)]
#[derive(Clone, Copy)]
pub struct Device {
    pub registers: Registers,
    pub place: Place,
}

// The next device, and what it sends on.
#[derive(Clone, Copy)]
pub struct Stepped {
    pub device: Device,
    pub sent: Sent,
}

impl Device {
    // One line state. A refused device stays as it is, and sends nothing.
    pub fn step(self, state: u8) -> Result<Stepped, Refusal>
        ensures { answered self result ≡ step_answer self state }
    {
        self.judge_step(state)?;
        Ok(self.single_step(state))
    }

    // The refusals of a step: its record's, and a line state over 3.
    fn judge_step(self, state: u8) -> Result<(), Refusal>
        ensures { carried result ≡ first (step_refusals self state) }
    {
        if !parts::is_known(self.registers.part) {
            return Err(Refusal::UnknownPart);
        }
        if !(self.fits() && state < 4) {
            return Err(Refusal::OutOfRange);
        }
        Ok(())
    }

    // The step of any record: what `step` does once nothing is refused.
    fn single_step(self, state: u8) -> Stepped
        ensures { result ≡ single_step self state }
    {
        let mut next = self.act(state);
        next.device.registers = positions::refit(self.registers, next.device.registers);
        next
    }

    // Number 13 does not apply to the record.
    pub fn fits(self) -> bool
        ensures { result ≡ fits self }
    {
        self.contents_fit() && clocks_fit(self.registers)
    }

    // Its place, flags and values are ones that a device can come to.
    fn contents_fit(self) -> bool
        ensures { result ≡ contents_fit self }
    {
        crate::judgement::place_fits(self.place, self.registers)
            && widths::registers_fit(self.registers)
    }

    // What a line state does to any record, at its position.
    pub fn act(self, state: u8) -> Stepped
        ensures { result ≡ step self state }
    {
        let phase = Phase::from(self.place);
        if state < 2 {
            sending(self.registers, phases::hear(phase, state), Sent::Nothing)
        } else {
            high(self.registers, phase, state)
        }
    }

    // The fault of a kind is set: 0 overtemperature, else open LED.
    pub fn set_fault(self, kind: u8, flag: u8) -> Device
        ensures { result ≡ faulted self kind flag }
    {
        Device {
            registers: self.registers.flag(kind, flag),
            ..self
        }
    }

    // A fresh device of a part: zeros, no faults, hunting, and a watchdog of a bit and a limit.
    pub fn fresh(part: u16, bit: u8, limit: u32) -> Device
        ensures { result ≡ fresh_device part bit limit }
    {
        Device {
            registers: Registers::zero(part, watch::fresh(bit, limit)),
            place: Phase::Hunting { window: 0 }.into(),
        }
    }
}

// The position is below the frame's length, and the watchdog's numbers are in range.
fn clocks_fit(registers: Registers) -> bool
    ensures { result ≡ (position_fits registers && watch_fits registers.watch) }
{
    positions::position_fits(registers) && watch::watch_fits(registers.watch)
}

// High load.
fn high(registers: Registers, phase: Phase, state: u8) -> Stepped
    ensures { result ≡ step_high registers phase state }
{
    match phase {
        Phase::Slice {
            command,
            count,
            taken,
        } => collect(registers, command, count, taken, state % 2),
        Phase::Passing => sending(registers, Phase::Passing, Sent::One(state)),
        _ => sending(
            registers,
            phases::header_bit(phase, state % 2),
            Sent::Nothing,
        ),
    }
}

// A bit of a slice. The last one stores it and sends the header on.
fn collect(registers: Registers, command: Command, count: u16, taken: u16, bit: u8) -> Stepped
    ensures { result ≡ collected registers command count taken bit }
{
    let length = slices::slice_bits(command, registers.part, registers.configuration);
    let next = registers.take_bit(command, taken, bit);
    if u32::from(taken) + 1 < u32::from(length) {
        let more = Phase::Slice {
            command,
            count,
            taken: taken + 1,
        };
        return sending(next, more, Sent::Nothing);
    }
    let count = registers::raise(count, next.fault_of(command));
    let slice = next.slice;
    let stored = storing::store(next, slice, command);
    sending(stored, Phase::Passing, Sent::Header { command, count })
}

// The next device, by its registers and its phase, and what it sends on.
fn sending(registers: Registers, phase: Phase, sent: Sent) -> Stepped
    ensures { result ≡ sending registers phase sent }
{
    Stepped {
        device: Device {
            registers,
            place: phase.into(),
        },
        sent,
    }
}

// The refusals of a record.
pub fn judge(device: Device) -> Result<(), Refusal>
    ensures { carried result ≡ first (judgement device) }
{
    if !parts::is_known(device.registers.part) {
        return Err(Refusal::UnknownPart);
    }
    if !device.fits() {
        return Err(Refusal::OutOfRange);
    }
    Ok(())
}
