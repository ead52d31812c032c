//! Whether a plan is partitioned.
ghost use Rattle.std.specs.Prelude.{◌≡◌, ◌<◌, true, length};
ghost use Rattle.run_tree.specs.Tree.{at_level};
ghost use Rattle.partition_laws.specs.Partitions.{IsPartitioned};

use run_tree::{Kind, Tree};
use sched_base::NodeId;

// Whether node n is a pack of level 0.
fn is_first_pack(tree: &Tree, n: NodeId) -> bool
    requires { n.0 < length tree.now.nodes }
    ensures { result ≡ at_level tree.now 0 n.0 }
{
    match tree.kind(n) {
        Kind::Pack(level) => level == 0,
        Kind::Leaf(_) | Kind::Dual(_) => false,
    }
}

/// Whether every pack of level 0 is a root.
pub(crate) fn is_partitioned(tree: &Tree) -> bool
    ensures { result ≡ true → IsPartitioned tree.now }
{
    for n in 0..tree.nodes() {
        let node = NodeId(n);
        if is_first_pack(tree, node) && tree.dual(node).is_some() {
            return false;
        }
    }
    true
}
