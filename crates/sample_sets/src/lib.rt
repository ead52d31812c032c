//! Sets of named tasks. Only tests need it.
#![tactic(auto)]

ghost use Rattle.std.specs.Prelude.{◌≡◌, ◌∷◌, [], ◌++◌, IfOk, OnOk, OnErr};

use sched_base::{NoMemory, PROCESSOR_LIMIT, TASK_LIMIT, TaskSet, UNIT_LIMIT, lawful_name};
use std::alloc::Global;

/// The most units of a horizon, a period or an offset.
const MOST_UNITS: u64 = UNIT_LIMIT as u64;

/// A task's name, work, period and offset, the numbers in units.
pub type NamedTask<'a> = (&'a str, u64, u64, u64);

/// Why there is no set of these tasks.
#[derive(Clone, Copy, Debug, PartialEq, Eq)]
pub enum NoSet {
    /// The numbers or the names are no lawful set.
    Unlawful,
    /// Memory was refused.
    NoMemory,
}

impl From<NoMemory> for NoSet {
    fn from(_: NoMemory) -> NoSet {
        NoSet::NoMemory
    }
}

/// The set of these tasks, in this order.
pub fn set_of(
    alloc: Global,
    processors: u32,
    horizon: u64,
    tasks: &[NamedTask],
) -> Result<TaskSet, NoSet>
    ensures processors { IfOk result (λ s. s.processors ≡ processors) }
    ensures horizon { IfOk result (λ s. s.horizon ≡ horizon) }
{
    if processors < 1 || PROCESSOR_LIMIT < processors || horizon < 1 || MOST_UNITS < horizon {
        return Err(NoSet::Unlawful);
    }
    let mut set = TaskSet::start(alloc, processors, horizon);
    for (name, work, period, offset) in tasks {
        add_task(&mut set, name.as_bytes(), *work, *period, *offset)?;
    }
    Ok(set)
}

/// Adds a task at the end of a set, where it may be added.
pub fn add_task(
    set: &mut TaskSet,
    name: &[u8],
    work: u64,
    period: u64,
    offset: u64,
) -> Result<(), NoSet>
    ensures ok { OnOk result (set.new ≡ record set.old {
      tasks = set.old.tasks ++ (record { name = name.now; work = work; period = period; offset = offset }) ∷ [];
    }) }
    ensures err { OnErr result (set.new ≡ set.old) }
{
    if !lawful_name(name) || set.find(name).is_some() || TASK_LIMIT <= set.count() {
        return Err(NoSet::Unlawful);
    }
    if work < 1 || period < work || MOST_UNITS < period || MOST_UNITS < offset {
        return Err(NoSet::Unlawful);
    }
    Ok(set.add_late(name, work, period, offset)?)
}
