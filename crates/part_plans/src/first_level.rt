//! The packs of level 0 of a tree.
ghost use Rattle.std.specs.Prelude.{ℕ, ◌≡◌, ◌<◌, length, slice_index, IfOk};
ghost use Rattle.run_tree.specs.Schedule.{packs_at};
ghost use Rattle.run_tree.specs.Tree.{IsPack};

use run_tree::Tree;
use sched_base::{NoMemory, NodeId};
use std::alloc::Global;

/// How many packs of level 0 a tree has.
pub fn first_packs(tree: &Tree) -> u32
    ensures { result ≡ length (packs_at tree.now 0) }
{
    tree.know_lawful();
    tree.packs(0)
}

/// Pack i of level 0.
pub fn first_pack(tree: &Tree, i: u32) -> NodeId
    requires { i < length (packs_at tree.now 0) }
    ensures value { result.0 ≡ slice_index (packs_at tree.now 0) i }
    ensures pack { IsPack tree.now result.0 }
{
    tree.know_lawful();
    tree.pack(0, i)
}

/// The numbers of those packs of level 0 that stand in part c, in order.
pub(crate) fn packs_of(
    alloc: Global,
    tree: &Tree,
    part: &[u32],
    c: u32,
) -> Result<Vec<u32>, NoMemory>
    requires { length part.now ≡ length tree.now.nodes }
    ensures { IfOk result (λ packs. (k : ℕ) → k < length packs.items → slice_index packs.items k < length (packs_at tree.now 0)) }
{
    let mut packs = Vec::new(alloc);
    for i in 0..first_packs(tree) {
        if part[first_pack(tree, i).0 as usize] == c {
            packs.push(i)?;
        }
    }
    Ok(packs)
}
