// N, the number of devices in a chain.
ghost use Rattle.std.specs.Prelude.{◌≡◌};
ghost use Rattle.parts.specs.Parts.{is_count};

// The most devices of a chain.
pub const MOST_DEVICES: usize = 1023;

pub fn is_count(devices: usize) -> bool
    ensures { result ≡ is_count devices }
{
    1 <= devices && devices <= MOST_DEVICES
}
