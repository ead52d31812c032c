//! The likes of the nodes of a part in the whole tree, as they are looked for: what is found is checked thereafter.
ghost use Rattle.std.specs.Prelude.{ℕ, ◌≡◌, ◌<◌, true, length, slice_index, IfOk};
ghost use Rattle.run_tree.specs.Schedule.{packs_at};
ghost use Rattle.run_tree.specs.Tree.{IsPack};

use crate::first_level::{first_pack, first_packs};
use run_tree::Tree;
use sched_base::{NoMemory, NodeId};
use std::alloc::Global;

/// Stands where a node has no like yet.
const NO_LIKE: u32 = u32::MAX;

// Writes the likes of the packs of level 0 of the own tree, which are these ones of the whole tree in turn.
fn embed_first(whole: &Tree, own: &Tree, packs: &[u32], onto: &mut [u32])
    requires packs { (k : ℕ) → k < length packs.now → slice_index packs.now k < length (packs_at whole.now 0) }
    requires long { length onto.old ≡ length own.now.nodes }
    ensures { length onto.new ≡ length own.now.nodes }
{
    for k in 0..first_packs(own) {
        if (k as usize) < packs.len() {
            onto[first_pack(own, k).0 as usize] = first_pack(whole, packs[k as usize]).0;
        }
    }
}

// Writes the likes of the members of pack p of the own tree, and that of the home of its dual, where pack q of the whole tree is its like.
fn embed_pack(whole: &Tree, own: &Tree, p: NodeId, q: NodeId, onto: &mut [u32])
    requires whole { IsPack whole.now q.0 }
    requires own { IsPack own.now p.0 }
    requires long { length onto.old ≡ length own.now.nodes }
    ensures { length onto.new ≡ length own.now.nodes }
{
    whole.know_lawful();
    own.know_lawful();
    for k in 0..own.members(p).len() {
        if k < whole.members(q).len() {
            onto[own.member(p, k).0 as usize] = whole.member(q, k).0;
        }
    }
    if let (Some(d), Some(e)) = (own.dual(p), whole.dual(q)) {
        onto[own.home(d).0 as usize] = whole.home(e).0;
    }
}

// Whether there is a node n, and it is a pack.
fn is_pack(tree: &Tree, n: NodeId) -> bool
    ensures { result ≡ true → IsPack tree.now n.0 }
{
    n.0 < tree.nodes() && !tree.is_member(n)
}

/// The likes of the nodes of the own tree, from level to level, where those of its packs of level 0 are these ones in turn.
pub(crate) fn embedding(
    alloc: Global,
    whole: &Tree,
    own: &Tree,
    packs: &[u32],
) -> Result<Vec<u32>, NoMemory>
    requires { (k : ℕ) → k < length packs.now → slice_index packs.now k < length (packs_at whole.now 0) }
    ensures { IfOk result (λ onto. length onto.items ≡ length own.now.nodes) }
{
    let mut onto = vec![in alloc; NO_LIKE; own.nodes() as usize]?;
    embed_first(whole, own, packs, &mut onto);
    for n in 0..own.nodes() {
        let p = NodeId(n);
        let q = NodeId(onto[n as usize]);
        if is_pack(own, p) && is_pack(whole, q) {
            embed_pack(whole, own, p, q, &mut onto);
        }
    }
    Ok(onto)
}
