// A device's watchdog: what it watches, and how a run keeps it.
#![tactic(auto)]

mod blocks;
mod ear;
mod kept;
mod watch;

pub use ear::{Ear, Followed, follow, join, no_ear};
pub use kept::{Listened, bring, has_expired, hear, listen, move_lines};
pub use watch::{Line, Watch, fresh, is_bit, is_enabled, is_limit, watch_fits};
