// The three calls on a lent chain of device records, changed in place, for C and Rust. Each function here walks the records; what it does
// with one of them is by value, in the crates device, judgement, changes and turns.
#![tactic(auto)]

ghost use Rattle.std.specs.Prelude.{◌≡◌, not, map, eqb, length, Ok, Err};
ghost use Rattle.calls.specs.Chain.{through};
ghost use Rattle.calls.specs.Calls.{fresh_refusal, fresh_after, run_refusal, run_after, run_room, fault_refusal, fault_after};
ghost use Rattle.cursor.specs.Answer.{run_answer};
ghost use Rattle.tables.specs.Refusals.{answer, numbered};
ghost use Rattle.turns.specs.Ending.{by_clock_device};

use cursor::Ran;
use device::Device;
use tables::Refusal;

// Makes a chain fresh: told the part, and the bit and the limit of every watchdog, it takes the records whatever they hold. The refusal's
// number, or 0.
#[unsafe(no_mangle)]
pub extern "C" fn bb_fresh(chain: &mut [Device], part: u16, bit: u8, limit: u32) -> u8
    ensures { (result ≡ fresh_refusal part bit limit (length chain.old)) × (chain.new ≡ fresh_after part bit limit chain.old) }
{
    match refusals::judge_fresh(part, bit, limit, chain.len()) {
        Ok(()) => {
            chain.fill(Device::fresh(part, bit, limit));
            0
        }
        Err(refusal) => u8::from(refusal),
    }
}

// Gives the chain line states, one to a clock: in each every device advances by one, and then the state acts. What the last device sends is
// returned into the lent room. How many states came back, and the refusal's number: one of them is 0.
#[unsafe(no_mangle)]
pub extern "C" fn bb_run(chain: &mut [Device], states: &[u8], returned: &mut [u8]) -> Ran
    ensures { (result ≡ run_answer chain.old states.now (length returned.old)) × (chain.new ≡ run_after chain.old states.now (length returned.old)) × (returned.new ≡ run_room chain.old states.now returned.old) }
{
    run(chain, states, returned).into()
}

// How many states came back.
fn run(chain: &mut [Device], states: &[u8], returned: &mut [u8]) -> Result<usize, Refusal>
    ensures value { numbered result ≡ answer (run_refusal chain.old states.now (length returned.old)) Err (Ok (length (through chain.old states.now).1)) }
    ensures chain_after { chain.new ≡ run_after chain.old states.now (length returned.old) }
    ensures returned_after { returned.new ≡ run_room chain.old states.now returned.old }
{
    let judged = judgement::judge(chain);
    let mut cursor = cursor::enter(judged, chain.len(), states, returned.len())?;
    // A run goes to and fro among the devices as its cursor says: there is no list that it goes over.
    while cursor.going {
        let i = cursor.index;
        let taken = turns::take_turn(chain[i], cursor, states);
        let next = turns::turn_after(cursor, taken.at, taken.sent, taken.ear, states, returned);
        chain[i] = taken.device;
        cursor = next;
    }
    close(chain, states.len());
    Ok(cursor.written)
}

// Brings every device up to the last clock of a run.
fn close(chain: &mut [Device], clock: usize)
    ensures { chain.new ≡ map (by_clock_device clock) chain.old }
{
    for device in chain.iter_mut() {
        *device = turns::bring(*device, clock);
    }
}

// Sets the fault flag of a kind, 0 overtemperature or 1 open LED, of one device, by its number, 1 to N: 0 takes the flag away, any other
// number raises it. The refusal's number, or 0.
#[unsafe(no_mangle)]
pub extern "C" fn bb_set_fault(chain: &mut [Device], device: usize, kind: u8, flag: u8) -> u8
    ensures { (result ≡ fault_refusal chain.old device kind) × (chain.new ≡ fault_after chain.old device kind (not (eqb flag 0))) }
{
    let judged = judgement::judge(chain);
    match refusals::judge_fault(judged, chain.len(), device, kind) {
        Ok(()) => {
            let place = device - 1;
            chain[place] = changes::with_fault(chain[place], kind, flag);
            0
        }
        Err(refusal) => u8::from(refusal),
    }
}
