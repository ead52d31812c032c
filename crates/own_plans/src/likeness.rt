//! Whether a plan is the own plan of a pack.
ghost use Rattle.std.specs.Prelude.{◌≡◌, ◌<◌, ◌*◌, true, length};
ghost use Rattle.run_tree.specs.Schedule.{packs_at};
ghost use Rattle.run_tree.specs.Tree.{IsPack, leaf, rate};
ghost use Rattle.partition_laws.specs.Partitions.{AreAlike, IsOwnPlan};
ghost use Rattle.own_plans.specs.OwnPlans.{AreMembersAlike};

use crate::partitions::is_partitioned;
use part_plans::{are_leaves_alike, are_rates_alike, first_pack, first_packs};
use run_tree::Plan;
use sched_base::NodeId;

// Whether node x of the whole plan and node y of the own one are leaves that are alike, and so are their rates.
fn are_alike(whole: &Plan, own: &Plan, x: NodeId, y: NodeId, factor: u128) -> bool
    requires whole { x.0 < length whole.now.tree.nodes }
    requires own { y.0 < length own.now.tree.nodes }
    requires scale { whole.now.tree.scale ≡ factor * own.now.tree.scale }
    ensures rates { result ≡ true → rate whole.now.tree x.0 ≡ factor * rate own.now.tree y.0 }
    ensures leaves { result ≡ true → AreAlike whole.now.set.tasks own.now.set.tasks (leaf whole.now.tree x.0) (leaf own.now.tree y.0) }
{
    are_rates_alike(whole, own, x, y, factor) && are_leaves_alike(whole, own, x, y)
}

// Whether the members of pack p of the whole plan are like those of pack q of the own one in turn.
fn are_members_alike(whole: &Plan, own: &Plan, p: NodeId, q: NodeId, factor: u128) -> bool
    requires whole { IsPack whole.now.tree p.0 }
    requires own { IsPack own.now.tree q.0 }
    requires scale { whole.now.tree.scale ≡ factor * own.now.tree.scale }
    ensures { result ≡ true → AreMembersAlike whole.now own.now p.0 q.0 factor }
{
    whole.know_lawful();
    own.know_lawful();
    let count = own.tree().members(q).len();
    if whole.tree().members(p).len() != count {
        return false;
    }
    for k in 0..count {
        let x = whole.tree().member(p, k);
        let y = own.tree().member(q, k);
        if !are_alike(whole, own, x, y, factor) {
            return false;
        }
    }
    true
}

/// Whether a plan is the own plan of pack i of level 0.
pub(crate) fn is_own(whole: &Plan, own: &Plan, i: u32, factor: u128) -> bool
    requires pack { i < length (packs_at whole.now.tree 0) }
    requires scale { whole.now.tree.scale ≡ factor * own.now.tree.scale }
    requires horizon { whole.now.set.horizon ≡ own.now.set.horizon }
    ensures { result ≡ true → IsOwnPlan whole.now own.now i factor }
{
    whole.know_lawful();
    let tree = own.tree();
    if first_packs(tree) != 1 || !is_partitioned(tree) {
        return false;
    }
    are_members_alike(
        whole,
        own,
        first_pack(whole.tree(), i),
        first_pack(tree, 0),
        factor,
    )
}
