//! Whether a plan is that of a part of another.
ghost use Rattle.std.specs.Prelude.{ℕ, ◌≡◌, ◌<◌, ◌*◌, true, length, slice_index, IfSome};
ghost use Rattle.run_tree.specs.Schedule.{packs_at};
ghost use Rattle.partition_laws.specs.Parts.{IsPartPlan};
ghost use Rattle.part_plans.specs.Likeness.{ArePacksLike, IsNodeLike};

use crate::first_level::{first_pack, first_packs};
use crate::likeness::{are_leaves_alike, are_rates_alike, is_pack_like};
use run_tree::{Kind, Plan, Tree};
use sched_base::NodeId;

/// How many ticks of the whole plan are one of the own plan, if that is a whole number.
pub fn factor_of(whole: &Plan, own: &Plan) -> Option<u128>
    ensures { IfSome result (λ factor. whole.now.tree.scale ≡ factor * own.now.tree.scale) }
{
    own.know_lawful();
    let ticks = own.scale();
    if whole.scale() % ticks != 0 {
        return None;
    }
    Some(whole.scale() / ticks)
}

// Whether node n of the own plan is like the node of the whole one that is noted as its like.
fn is_node_like(whole: &Plan, own: &Plan, onto: &[u32], n: NodeId, factor: u128) -> bool
    requires own { n.0 < length own.now.tree.nodes }
    requires long { length onto.now ≡ length own.now.tree.nodes }
    requires scale { whole.now.tree.scale ≡ factor * own.now.tree.scale }
    ensures { result ≡ true → IsNodeLike whole.now own.now onto.now factor n.0 }
{
    let x = NodeId(onto[n.0 as usize]);
    if x.0 >= whole.tree().nodes() {
        return false;
    }
    match own.tree().kind(n) {
        Kind::Pack(_) => is_pack_like(whole.tree(), own.tree(), onto, x, n),
        Kind::Leaf(_) => {
            are_rates_alike(whole, own, x, n, factor) && are_leaves_alike(whole, own, x, n)
        }
        Kind::Dual(_) => are_rates_alike(whole, own, x, n, factor),
    }
}

/// Whether a plan is that of the part that the likes of its nodes are.
pub(crate) fn is_part(whole: &Plan, own: &Plan, onto: &[u32], factor: u128) -> bool
    requires long { length onto.now ≡ length own.now.tree.nodes }
    requires scale { whole.now.tree.scale ≡ factor * own.now.tree.scale }
    requires horizon { whole.now.set.horizon ≡ own.now.set.horizon }
    ensures part { result ≡ true → IsPartPlan whole.now own.now (λ x. slice_index onto.now x) factor }
    ensures within { result ≡ true → (x : ℕ) → x < length onto.now → slice_index onto.now x < length whole.now.tree.nodes }
{
    whole.know_lawful();
    own.know_lawful();
    for n in 0..own.tree().nodes() {
        if !is_node_like(whole, own, onto, NodeId(n), factor) {
            return false;
        }
    }
    true
}

/// Whether these packs of level 0 of the whole tree are in turn the likes of those of the own one.
pub(crate) fn are_packs_like(whole: &Tree, own: &Tree, onto: &[u32], packs: &[u32]) -> bool
    requires long { length onto.now ≡ length own.now.nodes }
    requires packs { (k : ℕ) → k < length packs.now → slice_index packs.now k < length (packs_at whole.now 0) }
    ensures { result ≡ true → ArePacksLike whole.now own.now onto.now packs.now }
{
    let count = first_packs(own);
    if packs.len() != count as usize {
        return false;
    }
    for k in 0..count {
        let like = first_pack(whole, packs[k as usize]);
        if like.0 != onto[first_pack(own, k).0 as usize] {
            return false;
        }
    }
    true
}
