// Chains of three devices, by value: each function lends its array to one call of the crate chain.
#![tactic(auto)]

ghost use Rattle.std.specs.Prelude.{◌≡◌, not, eqb, length, replicate};
ghost use Rattle.device.specs.Step.{fresh_device};
ghost use Rattle.calls.specs.Calls.{fresh_after, fault_after, run_after, run_room};
ghost use Rattle.cursor.specs.Answer.{run_answer};

use cursor::Ran;
use device::Device;

// A fresh chain, told its part and the bit and the limit of its watchdogs, whatever the records hold.
pub fn fresh_three(mut chain: [Device; 3], part: u16, bit: u8, limit: u32) -> [Device; 3]
    ensures { result ≡ fresh_after part bit limit chain }
{
    chain::bb_fresh(&mut chain, part, bit, limit);
    chain
}

// The fault of a kind is set at one device, by its number, 1 to 3.
pub fn fault_three(mut chain: [Device; 3], device: usize, kind: u8, flag: u8) -> [Device; 3]
    ensures { result ≡ fault_after chain device kind (not (eqb flag 0)) }
{
    chain::bb_set_fault(&mut chain, device, kind, flag);
    chain
}

// A run: how many states came back, and the chain afterwards. What the last device sends goes to the lent room.
pub fn run_three(mut chain: [Device; 3], states: &[u8], returned: &mut [u8]) -> (Ran, [Device; 3])
    ensures ran { result.0 ≡ run_answer chain states.now (length returned.old) }
    ensures after { result.1 ≡ run_after chain states.now (length returned.old) }
    ensures room { returned.new ≡ run_room chain states.now returned.old }
{
    let ran = chain::bb_run(&mut chain, states, returned);
    (ran, chain)
}

// A fresh device. Its watchdog is enabled by bit 1 of the configuration, which no vector sets.
pub fn fresh_of(part: u16) -> Device
    ensures { result ≡ fresh_device part 1 2000000 }
{
    Device::fresh(part, 1, 2000000)
}

// A chain of them, whose records told another part before.
pub fn fresh_chain(part: u16) -> [Device; 3]
    ensures { result ≡ fresh_after part 1 2000000 (replicate 3 (fresh_device 0 1 2000000)) }
{
    fresh_three([fresh_of(0); 3], part, 1, 2000000)
}
