// Tests of whole lists. No early end, so that the loops are vectorised. Values and bytes have a function each: one for both is no plainer, since
// it needs a trait by which both are numbers, with its law, which is longer than the loop.
ghost use Rattle.std.specs.Prelude.{◌≡◌};
ghost use Rattle.tables.specs.Lists.{all_below, or_all};

// Each value is below a limit.
pub fn values_below(values: &[u16], limit: u16) -> bool
    ensures { result ≡ all_below values.now limit }
{
    let mut over: u16 = 0;
    for value in values {
        if *value >= limit {
            over = 1;
        }
    }
    over == 0
}

// Each byte is below a limit.
pub fn bytes_below(bytes: &[u8], limit: u8) -> bool
    ensures { result ≡ all_below bytes.now limit }
{
    let mut over: u8 = 0;
    for byte in bytes {
        if *byte >= limit {
            over = 1;
        }
    }
    over == 0
}

// The bits of all values, and of a number before them: below a power of two exactly where each of these is.
pub fn or_all(values: &[u16], before: u16) -> u16
    ensures { result ≡ or_all values.now before }
{
    let mut bits = before;
    for value in values {
        bits |= *value;
    }
    bits
}
