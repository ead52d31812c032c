//! Whether two plans are the same.
ghost use Rattle.std.specs.Prelude.{◌≡◌, ◌<◌, ◌↔◌, length, IsTrue};
ghost use Rattle.run_tree.specs.Tree.{node as node_in};

use run_tree::{Plan, Tree};
use sched_base::NodeId;

/// Whether both are the same plan: the same set, and the same tree node by node.
pub fn is_same_plan(a: &Plan, b: &Plan) -> bool
    ensures { IsTrue result ↔ (a.now ≡ b.now) }
{
    a.set().is_same(b.set()) && is_same_tree(a.tree(), b.tree())
}

// Whether both are the same tree.
fn is_same_tree(a: &Tree, b: &Tree) -> bool
    ensures { IsTrue result ↔ (a.now ≡ b.now) }
{
    if !has_same_size(a, b) {
        return false;
    }
    for n in 0..a.nodes() {
        if !is_same_node(a, b, NodeId(n)) {
            return false;
        }
    }
    true
}

// Whether both have as many processors, ticks of a unit, levels and nodes.
fn has_same_size(a: &Tree, b: &Tree) -> bool
    ensures { IsTrue result ↔ ((a.now.processors ≡ b.now.processors) × (a.now.scale ≡ b.now.scale) × (a.now.levels ≡ b.now.levels)
        × (length a.now.nodes ≡ length b.now.nodes)) }
{
    a.processors() == b.processors()
        && a.scale() == b.scale()
        && a.levels() == b.levels()
        && a.nodes() == b.nodes()
}

// Whether node n of both is the same.
fn is_same_node(a: &Tree, b: &Tree, n: NodeId) -> bool
    requires first { n.0 < length a.now.nodes }
    requires second { n.0 < length b.now.nodes }
    ensures { IsTrue result ↔ (node_in a.now n.0 ≡ node_in b.now n.0) }
{
    if a.kind(n) != b.kind(n) || a.rate(n) != b.rate(n) {
        return false;
    }
    if a.home(n).0 != b.home(n).0 || a.place(n) != b.place(n) {
        return false;
    }
    is_same_list(a.members(n), b.members(n)) && is_same_dual(a.dual(n), b.dual(n))
}

// Whether both lists are the same.
fn is_same_list(left: &[NodeId], right: &[NodeId]) -> bool
    ensures { IsTrue result ↔ (left.now ≡ right.now) }
{
    if left.len() != right.len() {
        return false;
    }
    for i in 0..left.len() {
        if left[i].0 != right[i].0 {
            return false;
        }
    }
    true
}

// Whether both are the same dual, or neither is one.
fn is_same_dual(a: Option<NodeId>, b: Option<NodeId>) -> bool
    ensures { IsTrue result ↔ (a ≡ b) }
{
    match (a, b) {
        (Some(a), Some(b)) => a.0 == b.0,
        (None, None) => true,
        _ => false,
    }
}
