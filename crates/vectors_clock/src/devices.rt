// Devices at a position. Global 7 and the values 1 and 2 wait at output 0; global 9 and the values 3 and 4 are active.
use device::Device;
use parts::Command;
use phases::{Phase, Place};
use three::fresh_of;

// A device that waits for SYNC.
pub fn waiting_at(part: u16, configuration: u8, position: u64) -> Device {
    let mut device = fresh_of(part);
    device.registers.configuration = configuration;
    device.registers.waiting = 7;
    device.registers.waiting0[0] = 1;
    device.registers.waiting1[0] = 2;
    device.registers.active = 9;
    device.registers.active0[0] = 3;
    device.registers.active1[0] = 4;
    device.registers.position = position;
    device
}

// The same device, which lacks the last bit of a slice of three bytes.
pub fn storing_at(
    mut device: Device,
    command: Command,
    first: u8,
    second: u8,
    third: u8,
) -> Device {
    device.registers.slice[0] = u16::from(first);
    device.registers.slice[1] = u16::from(second);
    device.registers.slice[2] = u16::from(third / 2);
    device.place = Place::from(Phase::Slice {
        command,
        count: 0,
        taken: 23,
    });
    device
}
