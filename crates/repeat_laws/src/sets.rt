//! Whether a set's schedules can be repeated, and the set up to another horizon.
ghost use Rattle.std.specs.Prelude.{◌≡◌, ◌≢◌, ◌≤◌, ◌<◌, ◌^◌, ◌↔◌, IfNone, IfOk, IfSome, IsTrue};
ghost use Rattle.std.specs.Int.{◌∣◌};
ghost use Rattle.std.specs.List.{AllByRecursion};
ghost use Rattle.sched_base.specs.Scale.{PeriodsDivide};
ghost use Rattle.repeat_laws.specs.Repeats.{CanRepeat, IsFirstTask, can_repeat, up_to};

use sched_base::{NoMemory, Task, TaskSet};
use std::alloc::Global;

/// The first task that isn't released at unit 0.
pub fn first_late(tasks: &[Task]) -> Option<usize>
    ensures some { IfSome result (λ i. IsFirstTask (λ t. t.offset ≢ 0) tasks.now i) }
    ensures none { IfNone result (AllByRecursion (λ t. t.offset ≡ 0) tasks.now) }
{
    for (i, task) in tasks.iter().enumerate() {
        if task.offset != 0 {
            return Some(i);
        }
    }
    None
}

/// The first task whose period doesn't divide the horizon, which is in units.
pub fn first_open(tasks: &[Task], horizon: u64) -> Option<usize>
    requires { AllByRecursion (λ t. 1 ≤ t.period) tasks.now }
    ensures some { IfSome result (λ i. IsFirstTask (λ t. t.period ∣ horizon → ⊥) tasks.now i) }
    ensures none { IfNone result (PeriodsDivide tasks.now horizon) }
{
    for (i, task) in tasks.iter().enumerate() {
        if horizon % task.period != 0 {
            return Some(i);
        }
    }
    None
}

/// Whether no period is open at the start of the set's schedule or at its horizon, so that each valid one can be repeated.
pub fn can_repeat(set: &TaskSet) -> bool
    ensures value { result ≡ can_repeat set.now }
    ensures means { IsTrue result ↔ CanRepeat set.now }
{
    is_closed(set)
}

fn is_closed(set: &TaskSet) -> bool
    ensures { IsTrue result ↔ CanRepeat set.now }
{
    if let Some(_task) = first_late(set.tasks()) {
        return false;
    }
    if let Some(_task) = first_open(set.tasks(), set.horizon()) {
        return false;
    }
    true
}

/// The set's copy up to another horizon, in units.
pub fn up_to(alloc: Global, set: &TaskSet, horizon: u64) -> Result<TaskSet, NoMemory>
    requires some { 1 ≤ horizon }
    requires fits { horizon < 2 ^ 32 }
    ensures { IfOk result (λ s. s ≡ up_to horizon set.now) }
{
    set.know_lawful();
    let mut again = TaskSet::start(alloc, set.processors(), horizon);
    for task in set.tasks() {
        again.add_late(task.name.as_slice(), task.work, task.period, task.offset)?;
    }
    Ok(again)
}
