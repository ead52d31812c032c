//! Kinds of nodes.

use sched_base::{Leaf, NodeId};

/// What a node of a tree is.
#[derive(Clone, Copy, PartialEq, Eq)]
pub enum Kind {
    /// A task, or an idle leaf.
    Leaf(Leaf),
    /// A server as a node, with the level that it is in.
    Pack(u32),
    /// The dual of a pack.
    Dual(NodeId),
}
