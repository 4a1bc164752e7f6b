// One device, stepped by value.
use capi_device::{Stepped, bb_step};
use device::Device;

// What the last step gives. A record that is refused stays as it is, and is refused at every step that follows.
pub fn step_all(device: Device, states: &[u8]) -> Stepped {
    let mut stepped = Stepped {
        device,
        count: 0,
        command: 0,
        state: 0,
        sent: 0,
        refusal: 0,
    };
    for state in states {
        stepped = bb_step(stepped.device, *state);
    }
    stepped
}
