//! Points: the units at which slices begin.
ghost use Rattle.std.specs.Prelude.{ℕ, ◌≡◌, ◌<◌, ◌^◌, true, false};
ghost use Rattle.sched_base.specs.Boundaries.{task_boundary};
ghost use Rattle.sched_base.specs.Sets.{IsLawfulTask};
ghost use Rattle.wrap_sched.specs.Steps.{IsNext};
ghost use Rattle.wrap_sched.specs.Wrapped.{is_point};

use sched_base::{Task, TaskSet};

// The next boundary of a task above unit x.
fn next_boundary(task: &Task, x: u64) -> u64
    requires lawful { IsLawfulTask task.now }
    requires early { x < 2 ^ 32 }
    ensures above { x < result }
    ensures at { task_boundary task.now result ≡ true }
    ensures none { (k : ℕ) → x < k → k < result → task_boundary task.now k ≡ false }
{
    if x < task.offset {
        task.offset
    } else {
        x - (x - task.offset) % task.period + task.period
    }
}

/// The next point above unit x, or the horizon where there is none below it.
pub(crate) fn next_point(set: &TaskSet, x: u64) -> u64
    requires { x < set.now.horizon }
    ensures { IsNext (is_point set.now.tasks) set.now.horizon x result }
{
    let tasks = set.tasks();
    let mut next = set.horizon();
    for task in tasks {
        next = next.min(next_boundary(task, x));
    }
    next
}
