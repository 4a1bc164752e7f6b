// A device's watchdog, as it stands in the record.
ghost use Rattle.std.specs.Prelude.{◌≡◌};
ghost use Rattle.watch.specs.Watch.{is_bit, is_limit, line_fits, watch_fits, enabled, fresh_watch};

// A line that is watched.
#[repr(C)]
#[derive(Clone, Copy)]
pub struct Line {
    // The clocks for which it has stood still.
    pub still: u64,
    // The level last seen.
    pub level: u8,
}

#[repr(C)]
#[derive(Clone, Copy)]
pub struct Watch {
    pub din: Line,
    pub loadi: Line,
    // A line that has stood still for so many clocks has stopped.
    pub limit: u32,
    // The number of the configuration bit that enables it.
    pub bit: u8,
}

// A configuration bit that may enable a watchdog.
pub fn is_bit(bit: u8) -> bool
    ensures { result ≡ is_bit bit }
{
    matches!(bit, 1..=3 | 5..=7)
}

// A limit that a watchdog may have.
pub fn is_limit(limit: u32) -> bool
    ensures { result ≡ is_limit limit }
{
    (1..=2000000).contains(&limit)
}

fn line_fits(line: Line) -> bool
    ensures { result ≡ line_fits line }
{
    line.level < 2 && line.still <= 2000000
}

// Bit, limit, levels and counts are in range.
pub fn watch_fits(watch: Watch) -> bool
    ensures { result ≡ watch_fits watch }
{
    is_bit(watch.bit) && is_limit(watch.limit) && line_fits(watch.din) && line_fits(watch.loadi)
}

// The configuration has the enabling bit.
pub fn is_enabled(watch: Watch, configuration: u8) -> bool
    ensures { result ≡ enabled watch configuration }
{
    watch.bit < 8 && (configuration >> watch.bit) % 2 == 1
}

// Told a bit and a limit: levels and counts 0.
pub fn fresh(bit: u8, limit: u32) -> Watch
    ensures { result ≡ fresh_watch bit limit }
{
    Watch {
        din: Line { still: 0, level: 0 },
        loadi: Line { still: 0, level: 0 },
        limit,
        bit,
    }
}
