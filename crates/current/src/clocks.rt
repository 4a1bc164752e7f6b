// How many clocks of an ON subframe are lit: those outside the edge zones.
ghost use Rattle.std.specs.Prelude.{◌≡◌, ◌+◌, ◌≤◌, length};
ghost use Rattle.current.specs.Closed.{inside, bank_clocks};

// Of an output with a value: even or odd, as many.
fn lit_count(value: u16, edge: u16, end: u16) -> u16
    ensures { result ≡ inside edge end value }
{
    value.min(end).saturating_sub(edge)
}

// Of the `each` values of a bank, from `from` on, added up.
#[tactic(auto, using(crate::proofs::Bounds::adding))]
pub fn bank_clocks(values: &[u16], from: usize, each: usize, edge: u16, end: u16) -> u32
    requires { (each ≤ 16) × (from + each ≤ length values.now) }
    ensures { result ≡ bank_clocks edge end values.now from each }
{
    let mut sum = 0;
    for value in &values[from..from + each] {
        sum += lit_count(*value, edge, end) as u32;
    }
    sum
}
