// The judgement of a lent chain in one pass over its records.
ghost use Rattle.std.specs.Prelude.{◌≡◌};
ghost use Rattle.judgement.specs.Judging.{unjudged, judged_with, judged_from};

use device::Device;

// What one pass over the records finds.
#[derive(Clone, Copy)]
pub struct Judged {
    // The first record's part, where there is a record.
    pub part: Option<u16>,
    pub known: bool,
    pub same: bool,
    pub fits: bool,
}

// All records, in their order.
pub fn judge(chain: &[Device]) -> Judged
    ensures { result ≡ judged_from unjudged chain.now }
{
    chain.iter().fold(Judged::before_all(), |judged, device| judged.with(*device))
}

impl Judged {
    // Before the first record.
    fn before_all() -> Judged
        ensures { result ≡ unjudged }
    {
        Judged {
            part: None,
            known: true,
            same: true,
            fits: true,
        }
    }

    // One record more. A first record's part is the chain's.
    fn with(self, device: Device) -> Judged
        ensures { result ≡ judged_with self device }
    {
        let part = device.registers.part;
        Judged {
            part: self.part.or(Some(part)),
            known: self.known && parts::is_known(part),
            same: self.same && self.part.is_none_or(|first| part == first),
            fits: self.fits && device.fits(),
        }
    }
}
