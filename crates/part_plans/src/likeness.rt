//! Whether a node of one plan is like a node of another.
ghost use Rattle.std.specs.Prelude.{◌≡◌, ◌<◌, ◌*◌, true, length};
ghost use Rattle.sched_base.specs.Sets.{task_at};
ghost use Rattle.run_tree.specs.Tree.{IsPack, leaf, rate};
ghost use Rattle.partition_laws.specs.Partitions.{AreAlike};
ghost use Rattle.part_plans.specs.Likeness.{AreMembersLike, IsDualLike, IsPackLike};

use crate::leaves::leaf_of;
use run_tree::{Plan, Tree};
use sched_base::{Leaf, NodeId, TaskId, TaskSet};

// Whether task a of one set has the period and the offset of task b of another.
fn are_released_alike(whole: &TaskSet, own: &TaskSet, a: TaskId, b: TaskId) -> bool
    requires whole { a.0 < length whole.now.tasks }
    requires own { b.0 < length own.now.tasks }
    ensures period { result ≡ true → (task_at whole.now.tasks a.0).period ≡ (task_at own.now.tasks b.0).period }
    ensures offset { result ≡ true → (task_at whole.now.tasks a.0).offset ≡ (task_at own.now.tasks b.0).offset }
{
    let one = &whole.tasks()[a.0 as usize];
    let other = &own.tasks()[b.0 as usize];
    one.period == other.period && one.offset == other.offset
}

/// Whether node x of the whole plan and node y of the own one are leaves that are alike.
pub fn are_leaves_alike(whole: &Plan, own: &Plan, x: NodeId, y: NodeId) -> bool
    requires whole { x.0 < length whole.now.tree.nodes }
    requires own { y.0 < length own.now.tree.nodes }
    ensures { result ≡ true → AreAlike whole.now.set.tasks own.now.set.tasks (leaf whole.now.tree x.0) (leaf own.now.tree y.0) }
{
    whole.know_lawful();
    own.know_lawful();
    match (leaf_of(whole.tree(), x), leaf_of(own.tree(), y)) {
        (Leaf::Task(a), Leaf::Task(b)) => are_released_alike(whole.set(), own.set(), a, b),
        (Leaf::Idle(_), Leaf::Idle(_)) => true,
        _ => false,
    }
}

/// Whether the rate of node x of the whole plan is that of node y of the own one, whose ticks are `factor` ticks each.
pub fn are_rates_alike(whole: &Plan, own: &Plan, x: NodeId, y: NodeId, factor: u128) -> bool
    requires whole { x.0 < length whole.now.tree.nodes }
    requires own { y.0 < length own.now.tree.nodes }
    requires scale { whole.now.tree.scale ≡ factor * own.now.tree.scale }
    ensures { result ≡ true → rate whole.now.tree x.0 ≡ factor * rate own.now.tree y.0 }
{
    whole.know_lawful();
    whole.tree().rate(x) == factor * own.tree().rate(y)
}

// Whether the members of pack q of the whole tree are the likes of those of pack p of the own one in turn.
fn are_members_like(whole: &Tree, own: &Tree, onto: &[u32], q: NodeId, p: NodeId) -> bool
    requires whole { IsPack whole.now q.0 }
    requires own { IsPack own.now p.0 }
    requires long { length onto.now ≡ length own.now.nodes }
    ensures { result ≡ true → AreMembersLike whole.now own.now onto.now q.0 p.0 }
{
    whole.know_lawful();
    own.know_lawful();
    let count = own.members(p).len();
    if whole.members(q).len() != count {
        return false;
    }
    for k in 0..count {
        if whole.member(q, k).0 != onto[own.member(p, k).0 as usize] {
            return false;
        }
    }
    true
}

// Whether the dual of pack q of the whole tree is the like of that of pack p of the own one, or both have none.
fn is_dual_like(whole: &Tree, own: &Tree, onto: &[u32], q: NodeId, p: NodeId) -> bool
    requires whole { IsPack whole.now q.0 }
    requires own { IsPack own.now p.0 }
    requires long { length onto.now ≡ length own.now.nodes }
    ensures { result ≡ true → IsDualLike whole.now own.now onto.now q.0 p.0 }
{
    own.know_lawful();
    match (whole.dual(q), own.dual(p)) {
        (Some(e), Some(d)) => e.0 == onto[d.0 as usize],
        (None, None) => true,
        _ => false,
    }
}

/// Whether node x of the whole tree is a pack, with members and dual that are the likes of those of pack n of the own one.
pub(crate) fn is_pack_like(whole: &Tree, own: &Tree, onto: &[u32], x: NodeId, n: NodeId) -> bool
    requires whole { x.0 < length whole.now.nodes }
    requires own { IsPack own.now n.0 }
    requires long { length onto.now ≡ length own.now.nodes }
    ensures { result ≡ true → IsPackLike whole.now own.now onto.now x.0 n.0 }
{
    !whole.is_member(x)
        && are_members_like(whole, own, onto, x, n)
        && is_dual_like(whole, own, onto, x, n)
}
