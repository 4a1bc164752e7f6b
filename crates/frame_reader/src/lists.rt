// Tests of the bytes of a frame.
ghost use Rattle.std.specs.Prelude.{◌≡◌, ◌+◌, ◌<◌, ◌≤◌, length, take, drop, get_or};
ghost use Rattle.tables.specs.Lists.{all_below, all_same};

// Every byte is the given one. No early end, so that the loop is vectorised.
fn bytes_same(bytes: &[u8], byte: u8) -> bool
    ensures { result ≡ all_same bytes.now byte }
{
    let mut other: u8 = 0;
    for held in bytes {
        if *held != byte {
            other = 1;
        }
    }
    other == 0
}

// The n bytes behind a frame's header are below the limit.
pub fn held_below(frame: &[u8], n: usize, limit: u8) -> bool
    requires { 3 + n ≤ length frame.now }
    ensures { result ≡ all_below (take n (drop 3 frame.now)) limit }
{
    tables::bytes_below(&frame[3..3 + n], limit)
}

// The n bytes behind a frame's header are all as the first of them.
pub fn held_same(frame: &[u8], n: usize) -> bool
    requires { (0 < n) × (3 + n ≤ length frame.now) }
    ensures { result ≡ all_same (take n (drop 3 frame.now)) (get_or frame.now 3 0) }
{
    bytes_same(&frame[3..3 + n], frame[3])
}
