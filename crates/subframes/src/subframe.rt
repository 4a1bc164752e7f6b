// ON subframes by quotients: no walk over a window. In 64 bits, where any subframe's product with a level fits.
ghost use Rattle.std.specs.Prelude.{◌≡◌, ◌+◌, ◌≤◌, ◌<◌, pos, ◌-ℤ◌};
ghost use Rattle.parts.specs.Parts.{part_of, subframes};
ghost use Rattle.subframes.specs.Subframes.{on_first, level, is_on, lead_of};

use crate::intensity::Intensity;
use parts::subframes_of;

impl Intensity {
    // Any number as subframe.
    pub fn is_subframe_on(self, subframe: u32) -> bool
        ensures { result ≡ is_on (part_of self.part) self.configuration self.global subframe }
    {
        let subframes = subframes_of(self.part, self.configuration).into();
        let level = self.level();
        let subframe = u64::from(subframe);
        on_first(subframes, level, subframe) < on_first(subframes, level, subframe + 1)
    }

    // Any byte, modulo the subframes.
    fn level(self) -> u64
        ensures { result ≡ level (part_of self.part) self.configuration self.global }
    {
        u64::from(self.global) % u64::from(subframes_of(self.part, self.configuration))
    }
}

// S times the ON count, a difference of two quotients, less what the window is due.
pub fn window_lead(intensity: Intensity, from: u64, w: u64) -> i32
    requires { from + w ≤ subframes (part_of intensity.part) intensity.configuration }
    ensures { result ≡ lead_of (part_of intensity.part) intensity.configuration intensity.global from w }
{
    let subframes = u64::from(subframes_of(intensity.part, intensity.configuration));
    let level = intensity.level();
    let count = on_first(subframes, level, from + w) - on_first(subframes, level, from);
    difference(subframes * count, w * (level + 1))
}

// The ON subframes before subframe s of a frame of n, at level g.
fn on_first(n: u64, g: u64, s: u64) -> u64
    requires { (0 < n) × (g < 128) × (s < 0x200000000) }
    ensures { result ≡ on_first n g s }
{
    s * (g + 1) / n
}

fn difference(a: u64, b: u64) -> i32
    requires { (a < 32768) × (b < 32768) }
    ensures { result ≡ pos a -ℤ pos b }
{
    a as i32 - b as i32
}
