//! Leaves of nodes, and what the likes of the nodes of a part show.
ghost use Rattle.std.specs.Prelude.{ℕ, ◌≡◌, ◌<◌, length, slice_index, slice_index_or, IfOk};
ghost use Rattle.sched_base.specs.declared.rows.Leaf.TheVariants.{Empty};
ghost use Rattle.run_tree.specs.Tree.{leaf};

use run_tree::{Kind, Tree};
use sched_base::{Leaf, NoMemory, NodeId};
use std::alloc::Global;

/// The leaf that node n is, or `Leaf::Empty`.
pub fn leaf_of(tree: &Tree, n: NodeId) -> Leaf
    requires { n.0 < length tree.now.nodes }
    ensures { result ≡ leaf tree.now n.0 }
{
    match tree.kind(n) {
        Kind::Leaf(leaf) => leaf,
        Kind::Pack(_) | Kind::Dual(_) => Leaf::Empty,
    }
}

/// Of each node of a part what its like in the whole tree shows.
pub(crate) fn leaves_of(alloc: Global, whole: &Tree, onto: &[u32]) -> Result<Vec<Leaf>, NoMemory>
    requires { (x : ℕ) → x < length onto.now → slice_index onto.now x < length whole.now.nodes }
    ensures long { IfOk result (λ leaves. length leaves.items ≡ length onto.now) }
    ensures leaves { IfOk result (λ leaves. (x : ℕ) → x < length onto.now →
        slice_index_or leaves.items x Empty ≡ leaf whole.now (slice_index onto.now x)) }
{
    let mut leaves = Vec::new(alloc);
    for x in 0..onto.len() {
        leaves.push(leaf_of(whole, NodeId(onto[x])))?;
    }
    Ok(leaves)
}
