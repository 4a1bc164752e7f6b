// Devices with a watchdog that bit 1 of the configuration enables. Global 7 and the values 1 and 2 wait at output 0; global 9 and the values 3
// and 4 are active.
use device::Device;
use parts::Command;
use phases::{Phase, Place};
use watch::{Line, Watch};

// A device that waits for SYNC. Both its lines have stood still for so many clocks, at these levels.
pub fn still_for(configuration: u8, limit: u32, clocks: u64, data: u8, load: u8) -> Device {
    let mut device = Device::fresh(6974, 1, limit);
    device.registers.configuration = configuration;
    device.registers.waiting = 7;
    device.registers.active = 9;
    device.registers.watch = Watch {
        din: line_of(clocks, data),
        loadi: line_of(clocks, load),
        limit,
        bit: 1,
    };
    with_values(device)
}

fn line_of(still: u64, level: u8) -> Line {
    Line { still, level }
}

// The same device with its individual values.
pub fn with_values(mut device: Device) -> Device {
    device.registers.waiting0[0] = 1;
    device.registers.waiting1[0] = 2;
    device.registers.active0[0] = 3;
    device.registers.active1[0] = 4;
    device
}

// The same device with another configuration.
pub fn configured(mut device: Device, configuration: u8) -> Device {
    device.registers.configuration = configuration;
    device
}

// The same device at another position.
pub fn at(mut device: Device, position: u64) -> Device {
    device.registers.position = position;
    device
}

// The same device, which lacks the last bit of a slice of three bytes that are the same.
pub fn storing(mut device: Device, command: Command, byte: u8) -> Device {
    device.registers.slice[0] = u16::from(byte);
    device.registers.slice[1] = u16::from(byte);
    device.registers.slice[2] = u16::from(byte / 2);
    slicing(device, command, 23)
}

// The same device, which lacks the last bit of an individual slice: 5 for output 0, and 0 for the others.
pub fn storing_values(mut device: Device) -> Device {
    device.registers.slice[0] = 5;
    slicing(device, Command::Individual, 287)
}

fn slicing(mut device: Device, command: Command, taken: u16) -> Device {
    device.place = Place::from(Phase::Slice {
        command,
        count: 0,
        taken,
    });
    device
}
