//! The laws of plans that fall into parts: each part of a plan's tree runs what a plan of its own does, and so does each processor where every
//! pack of level 0 is a root.
//!
//! Each function does nothing: its clauses are the law.
#![tactic(auto)]

mod partitions;
mod parts;

pub use partitions::{own_events_law, own_leaf_law, own_runs_law};
pub use parts::{part_events_law, part_leaf_law, part_runs_law};
