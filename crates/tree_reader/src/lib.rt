//! Reads a tree text that anybody wrote.
#![tactic(auto)]

mod faults;
mod head;
mod idles;
mod levels;
mod members;
mod packs;
mod reading;

pub use faults::TreeFault;
pub use reading::read_tree;
pub use tree_check::ReadTree;
