//! The schedule of a plan that falls into parts, merged while the rounds of its parts go by.
#![tactic(auto)]

mod kept;
mod merging;
mod parted;
mod placed;
mod sources;

pub use merging::merged_by_parts;
