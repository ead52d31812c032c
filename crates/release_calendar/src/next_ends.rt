//! Where windows that begin at a unit end, by the ends of the windows below them.
ghost use Rattle.std.specs.Prelude.{◌≡◌, ◌≤◌, ◌<◌, ◌^◌, true, length};
ghost use Rattle.sched_base.specs.Sets.{task_at, IsLawful, IsLawfulTask};
ghost use Rattle.sched_base.specs.Boundaries.{task_boundary};
ghost use Rattle.run_tree.specs.declared.kinds.Kind.TheVariants as kind;
ghost use Rattle.run_tree.specs.Tree.{kind_at, IsMember, IsPack};
ghost use Rattle.run_tree.specs.Windows.{window_end};
ghost use Rattle.run_tree.specs.Plans.{IsPlan, boundary_of};
ghost use Rattle.release_calendar.specs.Calendars.{AreEnds};

use run_tree::{Kind, Plan, next_boundary};
use sched_base::{Leaf, NodeId, Task, TaskId, TaskSet};

// Where the window of a task that begins at a unit ends: at the offset, or a period later.
fn period_end(task: &Task, at: u64) -> u64
    requires lawful { IsLawfulTask task.now }
    requires at { at < 2 ^ 32 }
    requires begins { task_boundary task.now at ≡ true }
    ensures { result ≡ window_end (task_boundary task.now) at }
{
    if at < task.offset {
        task.offset
    } else {
        at + task.period
    }
}

// Where the window of a set's task that begins at a unit ends.
fn task_end(set: &TaskSet, id: TaskId, at: u64) -> u64
    requires lawful { IsLawful set.now }
    requires task { id.0 < length set.now.tasks }
    requires at { at < 2 ^ 32 }
    requires begins { task_boundary (task_at set.now.tasks id.0) at ≡ true }
    ensures { result ≡ window_end (task_boundary (task_at set.now.tasks id.0)) at }
{
    period_end(&set.tasks()[id.0 as usize], at)
}

// Where the window of a leaf that begins at a unit ends.
fn leaf_end(plan: &Plan, n: NodeId, leaf: Leaf, at: u64) -> u64
    requires plan { IsPlan plan.now }
    requires member { IsMember plan.now.tree n.0 }
    requires leaf { kind_at plan.now.tree n.0 ≡ kind.Leaf leaf }
    requires at { at ≤ plan.now.set.horizon }
    requires begins { boundary_of plan.now n.0 at ≡ true }
    ensures { result ≡ window_end (boundary_of plan.now n.0) at }
{
    match leaf {
        Leaf::Task(id) => task_end(plan.set(), id, at),
        Leaf::Wait(_) => next_boundary(plan, n, at),
        Leaf::Idle(_) => next_boundary(plan, n, at),
        Leaf::Empty => next_boundary(plan, n, at),
    }
}

// Where the window of member m that holds a unit ends. It is known unless the one before ended there.
fn member_end(plan: &Plan, m: NodeId, at: u64, ends: &[u128]) -> u64
    requires plan { IsPlan plan.now }
    requires member { IsMember plan.now.tree m.0 }
    requires at { at ≤ plan.now.set.horizon }
    requires ends { length ends.now ≡ length plan.now.tree.nodes }
    requires known { AreEnds plan.now ends.now at }
    ensures { result ≡ window_end (boundary_of plan.now m.0) at }
{
    let end = ends[m.0 as usize];
    if end == u128::from(at) {
        next_boundary(plan, m, at)
    } else {
        end as u64
    }
}

// The first end of the windows of a pack's members.
fn pack_end(plan: &Plan, p: NodeId, at: u64, ends: &[u128]) -> u64
    requires plan { IsPlan plan.now }
    requires pack { IsPack plan.now.tree p.0 }
    requires at { at ≤ plan.now.set.horizon }
    requires ends { length ends.now ≡ length plan.now.tree.nodes }
    requires known { AreEnds plan.now ends.now at }
    ensures { result ≡ window_end (boundary_of plan.now p.0) at }
{
    let mut first = u64::MAX;
    for member in plan.tree().members(p) {
        first = first.min(member_end(plan, *member, at, ends));
    }
    first
}

/// Where the window of leaf or dual n that begins at a unit ends: for a dual this is the first end of the windows of its primal's
/// members, most of which are known.
#[inline(never)]
pub(crate) fn end_from(plan: &Plan, n: NodeId, at: u64, ends: &[u128]) -> u64
    requires plan { IsPlan plan.now }
    requires member { IsMember plan.now.tree n.0 }
    requires at { at ≤ plan.now.set.horizon }
    requires begins { boundary_of plan.now n.0 at ≡ true }
    requires ends { length ends.now ≡ length plan.now.tree.nodes }
    requires known { AreEnds plan.now ends.now at }
    ensures { result ≡ window_end (boundary_of plan.now n.0) at }
{
    match plan.tree().kind(n) {
        Kind::Leaf(leaf) => leaf_end(plan, n, leaf, at),
        Kind::Pack(_) => next_boundary(plan, n, at),
        Kind::Dual(primal) => pack_end(plan, primal, at, ends),
    }
}
