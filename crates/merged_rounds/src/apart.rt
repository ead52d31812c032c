//! Whether a plan's schedule can come round.
ghost use Rattle.std.specs.Prelude.{ℕ, ◌≡◌, ◌<◌, ◌≤◌, true, length, slice_index_or};
ghost use Rattle.std.specs.List.{AllByRecursion};
ghost use Rattle.run_tree.specs.Tree.{leaf, numbers, IsPack};
ghost use Rattle.run_tree.specs.TreeOfSet.{is_idle};
ghost use Rattle.hyperperiod_laws.specs.Hyperperiods.{IdlesApart};
ghost use Rattle.merged_rounds.specs.Laps.{IsApartAt};

use repeat_laws::first_late;
use run_tree::{Kind, Plan, Tree};
use sched_base::{Leaf, NodeId};

/// Whether node n is an idle leaf.
pub(crate) fn is_idle(tree: &Tree, n: NodeId) -> bool
    requires { n.0 < length tree.now.nodes }
    ensures { result ≡ is_idle (leaf tree.now n.0) }
{
    match tree.kind(n) {
        Kind::Leaf(Leaf::Idle(_)) => true,
        Kind::Leaf(Leaf::Task(_) | Leaf::Wait(_) | Leaf::Empty) => false,
        Kind::Pack(_) | Kind::Dual(_) => false,
    }
}

// The place of the first idle leaf among these nodes, from place `from` on, or their number.
fn first_idle(tree: &Tree, members: &[NodeId], from: usize) -> usize
    requires members { (k : ℕ) → k < length members.now → slice_index_or (numbers members.now) k 0 < length tree.now.nodes }
    requires from { from ≤ length members.now }
    ensures above { from ≤ result }
    ensures within { result ≤ length members.now }
    ensures first { (k : ℕ) → from ≤ k → k < result → is_idle (leaf tree.now (slice_index_or (numbers members.now) k 0)) ≡ true → ⊥ }
{
    for k in from..members.len() {
        if is_idle(tree, members[k]) {
            return k;
        }
    }
    members.len()
}

// Whether pack n holds no two idle leaves, and more than an idle leaf where it isn't a root.
fn is_apart(tree: &Tree, n: NodeId) -> bool
    requires { IsPack tree.now n.0 }
    ensures { result ≡ true → IsApartAt tree.now n.0 }
{
    tree.know_lawful();
    let members = tree.members(n);
    let count = members.len();
    let first = first_idle(tree, members, 0);
    if first == count {
        return true;
    }
    if count == 1 {
        return tree.dual(n).is_none();
    }
    first_idle(tree, members, first + 1) == count
}

/// Whether no pack holds two idle leaves, and one that holds an idle leaf alone is a root.
pub(crate) fn are_idles_apart(tree: &Tree) -> bool
    ensures { result ≡ true → IdlesApart tree.now }
{
    for n in 0..tree.nodes() {
        let node = NodeId(n);
        if !tree.is_member(node) && !is_apart(tree, node) {
            return false;
        }
    }
    true
}

/// Whether no task of a plan has an offset.
pub(crate) fn is_on_time(plan: &Plan) -> bool
    ensures { result ≡ true → AllByRecursion (λ t. t.offset ≡ 0) plan.now.set.tasks }
{
    first_late(plan.set().tasks()).is_none()
}

/// Whether no task of a plan has an offset, and the idle leaves of its tree stand apart: then what runs comes round.
pub(crate) fn comes_round(plan: &Plan) -> bool
    ensures on_time { result ≡ true → AllByRecursion (λ t. t.offset ≡ 0) plan.now.set.tasks }
    ensures apart { result ≡ true → IdlesApart plan.now.tree }
{
    is_on_time(plan) && are_idles_apart(plan.tree())
}
