// The calls on a lent chain.
ghost use Rattle.std.specs.Prelude.{◌≡◌, length, not, eqb};
ghost use Rattle.calls.specs.Calls.{fresh_refusal, fresh_after, run_after, run_room, fault_refusal, fault_after};
ghost use Rattle.cursor.specs.Answer.{run_answer};
ghost use Rattle.lit_now.specs.LitNow.{lit_now};

use cursor::Ran;
use device::Device;
use lit_now::LitNow;

// Makes a chain fresh: told the part, and the bit and the limit of every watchdog, it takes the records whatever they hold. The refusal's
// number, or 0.
#[unsafe(no_mangle)]
pub extern "C" fn bb_fresh(chain: &mut [Device], part: u16, bit: u8, limit: u32) -> u8
    ensures { (result ≡ fresh_refusal part bit limit (length chain.old)) × (chain.new ≡ fresh_after part bit limit chain.old) }
{
    chain::bb_fresh(chain, part, bit, limit)
}

// Gives the chain line states, one to a clock: in each every device advances by one, and then the state acts. What the last device sends is
// returned into the lent room. How many states came back, and the refusal's number: one of them is 0.
#[unsafe(no_mangle)]
pub extern "C" fn bb_run(chain: &mut [Device], states: &[u8], returned: &mut [u8]) -> Ran
    ensures { (result ≡ run_answer chain.old states.now (length returned.old)) × (chain.new ≡ run_after chain.old states.now (length returned.old)) × (returned.new ≡ run_room chain.old states.now returned.old) }
{
    chain::bb_run(chain, states, returned)
}

// Sets the fault flag of a kind, 0 overtemperature or 1 open LED, of one device, by its number, 1 to N: 0 takes the flag away, any other
// number raises it. The refusal's number, or 0.
#[unsafe(no_mangle)]
pub extern "C" fn bb_set_fault(chain: &mut [Device], device: usize, kind: u8, flag: u8) -> u8
    ensures { (result ≡ fault_refusal chain.old device kind) × (chain.new ≡ fault_after chain.old device kind (not (eqb flag 0))) }
{
    chain::bb_set_fault(chain, device, kind, flag)
}

// Is an output, counted from 0 in wire order, of a device, 1 to N, lit at the device's position, and in which phase?
#[unsafe(no_mangle)]
pub extern "C" fn bb_lit_now(chain: &[Device], device: usize, output: u32) -> LitNow
    ensures { result ≡ lit_now chain.now device output }
{
    lit_now::bb_lit_now(chain, device, output)
}
