//! The refusals for numbers and names, of a document with the right keys and kinds.
ghost use Rattle.std.specs.Prelude.{◌≡◌, ◌≤◌, ◌<◌, length, None, IfSome};
ghost use Rattle.std.specs.List.{position};
ghost use Rattle.toml.specs.View.{table_view, items_view};
ghost use Rattle.sched_base.specs.Limits.{task_limit};
ghost use Rattle.task_reader.specs.Tree.{number_at};
ghost use Rattle.task_reader.specs.Written.{natural, written_tasks};
ghost use Rattle.task_reader.specs.Limits.{is_within, is_repeated, bad_processors, bad_horizon, too_many, same_name};
ghost use Rattle.task_reader.specs.Flaws.{has_flaw, refusal_at, first_flaw};

use crate::refusals::{Key, ReadSet};
use crate::tree::number_at;
use crate::written::WrittenTask;
use sched_base::{PROCESSOR_LIMIT, TASK_LIMIT, UNIT_LIMIT, lawful_name};
use toml::Value;
use toml::value::Table;

/// The most units of a horizon, a period or an offset.
const MOST_UNITS: i64 = UNIT_LIMIT as i64;

/// The most processors of a set.
const MOST_PROCESSORS: i64 = PROCESSOR_LIMIT as i64;

/// The most tasks of a set.
const MOST_TASKS: usize = TASK_LIMIT as usize;

/// Whether the value lies between 1 and the other number.
fn is_within(value: i64, high: i64) -> bool
    ensures { result ≡ is_within 1 (natural high) value }
{
    1 <= value && value <= high
}

/// The refusal of the number of processors, if any.
pub(crate) fn bad_processors(top: &Table) -> Option<ReadSet>
    ensures { result ≡ bad_processors (number_at Key.Processors (table_view top.now)) }
{
    let value = number_at(top, Key::Processors);
    (!is_within(value, MOST_PROCESSORS)).then_some(ReadSet::BadProcessors { value })
}

/// The refusal of the horizon, if any.
pub(crate) fn bad_horizon(top: &Table) -> Option<ReadSet>
    ensures { result ≡ bad_horizon (number_at Key.Horizon (table_view top.now)) }
{
    let value = number_at(top, Key::Horizon);
    (!is_within(value, MOST_UNITS)).then_some(ReadSet::BadHorizon { value })
}

/// The refusal of that many tasks, if any.
pub(crate) fn too_many(tasks: &[Value]) -> Option<ReadSet>
    ensures value { result ≡ too_many (written_tasks (items_view tasks.now)) }
    ensures few { result ≡ None → length tasks.now ≤ task_limit }
{
    if tasks.len() <= MOST_TASKS {
        None
    } else {
        Some(ReadSet::TooManyTasks {
            count: tasks.len() as u64,
        })
    }
}

/// What may be wrong with a task by itself.
#[derive(Clone, Copy)]
pub(crate) enum Flaw {
    Name,
    Period,
    Work,
    Offset,
}

impl Flaw {
    fn is_in(self, task: &WrittenTask) -> bool
        ensures { result ≡ has_flaw self task.now }
    {
        match self {
            Flaw::Name => !lawful_name(task.name()),
            Flaw::Period => !is_within(task.period, MOST_UNITS),
            Flaw::Work => !is_within(task.work, task.period),
            Flaw::Offset => task.offset < 0 || MOST_UNITS < task.offset,
        }
    }

    fn refusal(self, index: u32) -> ReadSet
        ensures { result ≡ refusal_at self index }
    {
        match self {
            Flaw::Name => ReadSet::BadName { index },
            Flaw::Period => ReadSet::BadPeriod { index },
            Flaw::Work => ReadSet::BadWork { index },
            Flaw::Offset => ReadSet::BadOffset { index },
        }
    }
}

// The place of the first task that has this flaw.
fn place_of(tasks: &[WrittenTask], flaw: Flaw) -> Option<usize>
    ensures first { result ≡ position (has_flaw flaw) tasks.now }
    ensures within { IfSome result (λ i. i < length tasks.now) }
{
    tasks.iter().position(|task| flaw.is_in(task))
}

/// The refusal of the first task that has this flaw, if any.
pub(crate) fn first_flaw(tasks: &[WrittenTask], flaw: Flaw) -> Option<ReadSet>
    requires { length tasks.now ≤ task_limit }
    ensures { result ≡ first_flaw flaw tasks.now }
{
    match place_of(tasks, flaw) {
        Some(i) => Some(flaw.refusal(i as u32)),
        None => None,
    }
}

fn is_repeated(earlier: &[WrittenTask], task: &WrittenTask) -> bool
    ensures { result ≡ is_repeated earlier.now task.now }
{
    earlier.iter().any(|other| other.name() == task.name())
}

/// The first task that has an earlier one's name.
pub(crate) fn same_name(tasks: &[WrittenTask]) -> Option<ReadSet>
    requires { length tasks.now ≤ task_limit }
    ensures { result ≡ same_name tasks.now }
{
    for (i, task) in tasks.iter().enumerate() {
        if is_repeated(&tasks[..i], task) {
            return Some(ReadSet::SameName { index: i as u32 });
        }
    }
    None
}
