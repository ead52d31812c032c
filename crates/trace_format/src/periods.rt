//! The periods of a task: how many end by the horizon, and where each begins.
ghost use Rattle.std.specs.Prelude.{◌≡◌, ◌+◌, ◌*◌, ◌^◌, ◌<◌, ◌≤◌};
ghost use Rattle.sched_base.specs.Valid.{period_start};
ghost use Rattle.trace_format.specs.Finishes.{ended_count};

use sched_base::{Task, TaskSet};

/// How many periods of the task end by the horizon.
pub fn ended_count(set: &TaskSet, task: &Task) -> u64
    requires { 1 ≤ task.now.period }
    ensures { result ≡ ended_count set.now task.now }
{
    set.horizon().saturating_sub(task.offset) / task.period
}

/// The tick at which period k of the task begins, of `scale` ticks per unit. In units it is less than 2^33.
pub fn period_start(task: &Task, scale: u128, k: u64) -> u128
    requires scale { scale ≤ 2 ^ 94 }
    requires fits { task.now.offset + k * task.now.period < 2 ^ 33 }
    ensures { result ≡ period_start scale task.now k }
{
    u128::from(task.offset + k * task.period) * scale
}
