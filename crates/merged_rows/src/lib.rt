//! The merged rows of each processor, kept while rounds go by: memory goes by how often processors change what they show, and
//! not by the number of rounds.
#![tactic(auto)]

mod columns;
mod forms;
mod growth;
mod lanes;
mod merging;
mod neighbours;
mod totals;

pub use merging::MergedRows;
pub use neighbours::{first_merged, is_shown_alike};
pub use totals::totals_of_merged;
