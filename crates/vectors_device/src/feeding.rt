// A device that is given line states. Each frame is given as its bytes, SYNC at low load.
use cases::front;
use device::Device;
use phases::Sent;

// A device that was given states, with what it sent on. The refusal is a number, 0 where there is none, as docs/RULES.md says it.
#[derive(Clone, Copy)]
pub struct Fed {
    pub device: Device,
    pub refusal: u8,
    pub sent: u32,
    pub count: u16,
}

// A device that is given a frame, of 51 bytes at most.
pub fn feed(device: Device, frame: &[u8]) -> Fed {
    let mut states = [0; 408];
    let bits = frame.len().min(51) * 8;
    let _ = serial::frame_states(frame, bits, serial::EXACT, &mut states);
    steps(device, front(&states, bits))
}

pub fn steps(device: Device, states: &[u8]) -> Fed {
    let mut fed = start(device);
    for state in states {
        fed = step(fed, *state);
    }
    fed
}

pub fn start(device: Device) -> Fed {
    Fed {
        device,
        refusal: 0,
        sent: 0,
        count: 0,
    }
}

// One state more. A refusal stays.
pub fn step(fed: Fed, state: u8) -> Fed {
    if fed.refusal != 0 {
        return fed;
    }
    let next = match fed.device.step(state) {
        Ok(next) => next,
        Err(refusal) => {
            return Fed {
                refusal: refusal.into(),
                ..fed
            };
        }
    };
    let (states, count) = match next.sent {
        Sent::Nothing => (0, fed.count),
        Sent::One(_) => (1, fed.count),
        Sent::Header { count, .. } => (24, count),
    };
    Fed {
        device: next.device,
        refusal: 0,
        sent: fed.sent.saturating_add(states),
        count,
    }
}
