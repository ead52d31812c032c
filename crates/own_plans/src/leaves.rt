//! Leaves of nodes, and what the members of a pack show.
ghost use Rattle.std.specs.Prelude.{ℕ, ◌≡◌, ◌<◌, length, slice_index_or, IfOk};
ghost use Rattle.sched_base.specs.declared.rows.Leaf.TheVariants.{Empty};
ghost use Rattle.run_tree.specs.Tree.{IsPack, leaf, member, members};

use part_plans::leaf_of;
use run_tree::Tree;
use sched_base::{Leaf, NoMemory, NodeId};
use std::alloc::Global;

// Writes for each member of pack q of the own tree the leaf of the like member of pack p of the whole one.
fn write_leaves(whole: &Tree, own: &Tree, p: NodeId, q: NodeId, leaves: &mut [Leaf])
    requires whole { IsPack whole.now p.0 }
    requires own { IsPack own.now q.0 }
    requires same { length (members own.now q.0) ≡ length (members whole.now p.0) }
    requires long { length leaves.old ≡ length own.now.nodes }
    ensures { (k : ℕ) → k < length (members own.now q.0) →
        slice_index_or leaves.new (member own.now q.0 k) Empty ≡ leaf whole.now (member whole.now p.0 k) }
{
    whole.know_lawful();
    own.know_lawful();
    for k in 0..own.members(q).len() {
        leaves[own.member(q, k).0 as usize] = leaf_of(whole, whole.member(p, k));
    }
}

/// Of each node of the own tree what the like node of the whole one shows, where the members of pack q are like those of pack p in turn.
pub(crate) fn leaves_of(
    alloc: Global,
    whole: &Tree,
    own: &Tree,
    p: NodeId,
    q: NodeId,
) -> Result<Vec<Leaf>, NoMemory>
    requires whole { IsPack whole.now p.0 }
    requires own { IsPack own.now q.0 }
    requires same { length (members own.now q.0) ≡ length (members whole.now p.0) }
    ensures long { IfOk result (λ leaves. length leaves.items ≡ length own.now.nodes) }
    ensures leaves { IfOk result (λ leaves. (k : ℕ) → k < length (members own.now q.0) →
        slice_index_or leaves.items (member own.now q.0 k) Empty ≡ leaf whole.now (member whole.now p.0 k)) }
{
    let mut leaves = vec![in alloc; Leaf::Empty; own.nodes() as usize]?;
    write_leaves(whole, own, p, q, &mut leaves);
    Ok(leaves)
}
