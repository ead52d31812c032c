//! Reduction trees, plans, and the definitions of RUN over them.
#![tactic(auto)]

mod boundaries;
mod growth;
mod kinds;
mod maker;
mod nodes;
mod plans;
mod tree;

pub use boundaries::next_boundary;
pub use kinds::Kind;
pub use maker::TreeMaker;
pub use plans::Plan;
pub use tree::Tree;
