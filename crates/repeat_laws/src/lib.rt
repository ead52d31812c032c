//! Schedules that begin anew: the laws, and whether a set has such.
//!
//! Each function whose name ends in `law` does nothing: its clauses are the law.
#![tactic(auto)]

mod repeats;
mod sets;

pub use repeats::{horizon_law, repeat_from_law, repeat_law, repeat_unit_law};
pub use sets::{can_repeat, first_late, first_open, up_to};
