// The call on a lent chain. It reads one record; what it does with it is by value.
ghost use Rattle.std.specs.Prelude.{◌≡◌};
ghost use Rattle.lit_now.specs.LitNow.{lit_now};

use crate::now::{LitNow, ask_now, refuse};
use device::Device;

// Is an output, counted from 0 in wire order, of a device, 1 to N, lit at the device's position, and in which phase?
#[unsafe(no_mangle)]
pub extern "C" fn bb_lit_now(chain: &[Device], device: usize, output: u32) -> LitNow
    ensures { result ≡ lit_now chain.now device output }
{
    let judged = judgement::judge(chain);
    match refusals::judge_output(judged, chain.len(), device, output) {
        Ok(()) => ask_now(chain[device - 1], output),
        Err(refusal) => refuse(refusal),
    }
}
