//! The laws of the compiled tree: first fit and idle fill at level 0, and first fit over the duals at each further level,
//! make a reduction tree of every set that fits. They speak of the definitions alone; nothing here runs.
#![tactic(auto)]

mod laws;

pub use laws::{homes_law, no_migration_premise, sizes_law, tree_law};
