//! The text of a plan's tree.
#![tactic(auto)]

mod idles;
mod members;
mod packs;
mod pieces;
mod text;

pub use text::write_tree;
