// A field of a slice takes high states: four at a time, moved together as one word, and the others one by one.
ghost use Rattle.std.specs.Prelude.{◌≡◌, ◌-◌, ◌<◌, ◌≤◌, IfSome, length, get_or, drop};
ghost use Rattle.intake.specs.Intake.{filled};
ghost use Rattle.intake.specs.Words.{four_bits};

// A field's value, and the place of the next state. One generic pair for this, `Headed` and those of the crate turns would be no plainer: it would
// call a value, a phase and a window by one name.
#[derive(Clone, Copy)]
pub struct Filled {
    pub value: u16,
    pub at: usize,
}

// A field takes the high states up to a place.
pub fn fill(value: u16, states: &[u8], from: usize, end: usize) -> Filled
    requires { (from ≤ end) × (end ≤ length states.now) }
    ensures { result ≡ filled value (end - from) (drop from states.now) from }
{
    let mut value = value;
    let mut at = from;
    for four in states[from..end].chunks_exact(4) {
        let Some(bits) = four_bits(four) else {
            break;
        };
        value = ((u32::from(value) * 16 + bits) % 65536) as u16;
        at += 4;
    }
    fill_each(value, states, at, end)
}

// One by one.
#[tactic(auto, using(crate::proofs::Clauses::filled_clauses))]
fn fill_each(value: u16, states: &[u8], from: usize, end: usize) -> Filled
    requires { (from ≤ end) × (end ≤ length states.now) }
    ensures { result ≡ filled value (end - from) (drop from states.now) from }
{
    let mut value = value;
    for at in from..end {
        let state = states[at];
        if state < 2 {
            return Filled { value, at };
        }
        value = ((u32::from(value) * 2 + u32::from(state % 2)) % 65536) as u16;
    }
    Filled { value, at: end }
}

// The data bits of four states at high load, the first one on top. Each state's bit is the lowest of its byte; the product brings
// the four together.
#[tactic(auto, using(crate::proofs::Four::bits_high, crate::proofs::Four::bits_other, crate::proofs::Four::word_least))]
fn four_bits(states: &[u8]) -> Option<u32>
    requires { length states.now ≡ 4 }
    ensures bits { result ≡ four_bits (get_or states.now 0 0) (get_or states.now 1 0) (get_or states.now 2 0) (get_or states.now 3 0) }
    ensures bound { IfSome result (λ n. n < 16) }
{
    let a = u64::from(states[0]);
    let b = u64::from(states[1]);
    let c = u64::from(states[2]);
    let d = u64::from(states[3]);
    let word = a + b * 0x100 + c * 0x1_0000 + d * 0x100_0000;
    if word & 0xfefe_fefe != 0x0202_0202 {
        return None;
    }
    Some(((((word - 0x0202_0202) * 0x0804_0201) / 0x100_0000) % 16) as u32)
}
