//! The schedule of a plan, merged while its rounds go by.
#![tactic(auto)]

mod apart;
mod changed;
mod copies;
mod counts;
mod hyperperiods;
mod laps;
mod looks;
mod marks;
mod passes;
mod recurrences;
mod releases;
mod replays;
mod searches;
mod shown;
mod sources;
mod standings;
mod sums;
mod tick_column;
mod turns;

pub use counts::round_count;
pub use hyperperiods::hyperperiod_of;
pub use passes::merged_of;
pub use recurrences::{Recurrence, recurrence_of};
pub use sums::{RoundSum, add_changed, all_rounds, no_rounds};
