//! Steps: of the windows that are all as long, how long they are.
ghost use Rattle.std.specs.Prelude.{◌≡◌, ℕ, ◌<◌, ◌+◌, true, length, replicate, slice_index, IfOk};
ghost use Rattle.sched_base.specs.Sets.{task_at, IsLawful, IsLawfulTask};
ghost use Rattle.sched_base.specs.Boundaries.{task_boundary};
ghost use Rattle.run_tree.specs.declared.kinds.Kind.TheVariants as kind;
ghost use Rattle.run_tree.specs.Tree.{kind_at};
ghost use Rattle.run_tree.specs.Plans.{IsPlan, boundary_of};
ghost use Rattle.release_calendar.specs.Calendars.{AreSteps, IsStep};

use run_tree::{Kind, Plan};
use sched_base::{Leaf, NoMemory, NodeId, Task, TaskId, TaskSet};
use std::alloc::Global;

// The period of a task without offset, or 0.
fn period_step(task: &Task) -> u64
    requires lawful { IsLawfulTask task.now }
    ensures { IsStep (task_boundary task.now) result }
{
    if task.offset > 0 { 0 } else { task.period }
}

// The step of a set's task.
fn task_step(set: &TaskSet, id: TaskId) -> u64
    requires lawful { IsLawful set.now }
    requires task { id.0 < length set.now.tasks }
    ensures { IsStep (task_boundary (task_at set.now.tasks id.0)) result }
{
    period_step(&set.tasks()[id.0 as usize])
}

// The step of a leaf, or 0.
fn leaf_step(plan: &Plan, n: NodeId, leaf: Leaf) -> u64
    requires plan { IsPlan plan.now }
    requires node { n.0 < length plan.now.tree.nodes }
    requires leaf { kind_at plan.now.tree n.0 ≡ kind.Leaf leaf }
    ensures { IsStep (boundary_of plan.now n.0) result }
{
    let _node = n;
    match leaf {
        Leaf::Task(id) => task_step(plan.set(), id),
        Leaf::Wait(_) => 0,
        Leaf::Idle(_) => 0,
        Leaf::Empty => 0,
    }
}

// The step of node n, or 0.
fn step_of(plan: &Plan, n: NodeId) -> u64
    requires plan { IsPlan plan.now }
    requires node { n.0 < length plan.now.tree.nodes }
    ensures { IsStep (boundary_of plan.now n.0) result }
{
    match plan.tree().kind(n) {
        Kind::Leaf(leaf) => leaf_step(plan, n, leaf),
        Kind::Pack(_) => 0,
        Kind::Dual(_) => 0,
    }
}

// Each node gets its step.
fn put_steps(plan: &Plan, steps: &mut [u64])
    requires plan { IsPlan plan.now }
    requires long { length steps.old ≡ length plan.now.tree.nodes }
    ensures { AreSteps plan.now steps.new }
{
    for x in 0..steps.len() {
        steps[x] = step_of(plan, NodeId(x as u32));
    }
}

/// The period of each leaf with a task without offset, and 0 for any other node.
pub(crate) fn steps_of(alloc: Global, plan: &Plan) -> Result<Vec<u64>, NoMemory>
    requires plan { IsPlan plan.now }
    ensures { IfOk result (λ v. AreSteps plan.now v.items) }
{
    let mut steps = vec![in alloc; 0u64; plan.tree().nodes() as usize]?;
    put_steps(plan, &mut steps);
    Ok(steps)
}
