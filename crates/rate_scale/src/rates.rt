//! The rates of tasks, and whether they fit on the processors.
ghost use Rattle.std.specs.Prelude.{◌≡◌, ◌≤◌, ◌<◌, ◌^◌, ◌*◌, ◌/◌, ◌↔◌, All, IfOk, IsTrue, map};
ghost use Rattle.std.specs.Int.{◌∣◌};
ghost use Rattle.sched_base.specs.Limits.{task_limit};
ghost use Rattle.sched_base.specs.Scale.{IsScale, Fits, rate_of, total_of};

use sched_base::{NoMemory, TaskSet};
use std::alloc::Global;

/// The ticks that a task of this work and period, both in units, is given in each unit of `scale` ticks.
pub fn rate(work: u64, period: u64, scale: u128) -> u128
    requires work_fits { work ≤ period }
    requires some_period { 1 ≤ period }
    requires divides { period ∣ scale }
    requires scale_fits { scale ≤ 2 ^ 94 }
    ensures value { result ≡ work * scale / period }
    ensures exact { result * period ≡ work * scale }
    ensures within { result ≤ scale }
{
    u128::from(work) * (scale / u128::from(period))
}

/// The rates of a set's tasks, in ticks per unit, in the order of the set. It is refused for want of memory alone.
pub fn rates_of(alloc: Global, set: &TaskSet, scale: u128) -> Result<Vec<u128>, NoMemory>
    requires scale { IsScale set.now.tasks scale }
    requires scale_fits { scale ≤ 2 ^ 94 }
    ensures value { IfOk result (λ rates. rates.items ≡ map (rate_of scale) set.now.tasks) }
    ensures within { IfOk result (λ rates. All (λ rate. rate ≤ scale) rates.items) }
{
    let tasks = set.tasks();
    let mut rates = Vec::with_capacity(alloc, tasks.len())?;
    for task in tasks {
        rates.push_reserved(rate(task.work, task.period, scale));
    }
    Ok(rates)
}

/// The sum of the rates of a set's tasks, in ticks per unit.
pub fn total(set: &TaskSet, scale: u128) -> u128
    requires scale { IsScale set.now.tasks scale }
    requires scale_fits { scale ≤ 2 ^ 94 }
    ensures value { result ≡ total_of scale set.now.tasks }
    ensures within { result ≤ task_limit * scale }
{
    let tasks = set.tasks();
    let mut sum: u128 = 0;
    for task in tasks {
        sum += rate(task.work, task.period, scale);
    }
    sum
}

/// Whether a set's tasks ask for no more ticks than its processors have.
pub fn fits(set: &TaskSet, scale: u128) -> bool
    requires scale { IsScale set.now.tasks scale }
    requires scale_fits { scale ≤ 2 ^ 94 }
    ensures { IsTrue result ↔ Fits scale set.now }
{
    total(set, scale) <= u128::from(set.processors()) * scale
}
