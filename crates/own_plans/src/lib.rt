//! A plan whose packs of level 0 are all roots, as plans of one processor: what each processor does alone.
#![tactic(auto)]

mod leaves;
mod likeness;
mod own_sets;
mod owns;
mod partitions;

pub use owns::{OwnPlan, own_plans};
