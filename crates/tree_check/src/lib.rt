//! Foreign trees: a tree text that anybody wrote is checked, and followed.
#![tactic(auto)]

mod check;
mod faults;
mod laws;
mod levels;
mod marks;
mod names;
mod plan;
mod rates;
mod written;

pub use check::check_tree;
pub use faults::{TreeKind, TreeRefused};
pub use laws::{fault_law, no_fault_law, text_law, tree_law};
pub use written::{Level, Member, Pack, ReadTree};
