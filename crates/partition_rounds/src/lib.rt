//! The schedule of a partitioned plan, merged while the rounds of its processors go by.
#![tactic(auto)]

mod kept;
mod merging;
mod own_rounds;
mod partitions;

pub use merging::merged_of;
