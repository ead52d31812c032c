//! Sets that are drawn from a number.
#![tactic(auto)]

mod drill;
mod words;

pub use drill::{drill_law, make};
pub use words::words_of;
