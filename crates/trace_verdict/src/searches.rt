//! The searches for the first row and for the first task at fault.
ghost use Rattle.std.specs.Prelude.{◌≡◌, ◌*◌, ◌<◌, ◌≤◌, ◌^◌, length};
ghost use Rattle.std.specs.List.{IsDistinct};
ghost use Rattle.sched_base.specs.Sets.{task_at};
ghost use Rattle.trace_verdict.specs.Orders.{processor_key, task_key, IsOrder};
ghost use Rattle.trace_verdict.specs.Overlaps.{clash};
ghost use Rattle.trace_verdict.specs.Faults.{IsTrace, IsTraceRow};
ghost use Rattle.trace_verdict.specs.Supply.{AreLawful};
ghost use Rattle.trace_verdict.specs.Searches.{is_early, is_fit, periods_of, IsAllWithin, IsFirstHit, IsFirstUnfit, IsFirstUnsupplied};

use crate::entries::{Entry, first_clash};
use crate::orders::front_len;
use crate::row_list::RowList;
use crate::supply::{Periods, is_supplied};
use sched_base::{Leaf, Row, Task, TaskSet};

// The tick at which a task begins.
fn begin_of(set: &TaskSet, task: u32, scale: u128) -> u128
    requires known { task < length set.now.tasks }
    requires scale { scale ≤ 2 ^ 94 }
    ensures { result ≡ (task_at set.now.tasks task).offset * scale }
{
    u128::from(set.tasks()[task as usize].offset) * scale
}

/// Whether the row begins before its task does.
pub(crate) fn is_early(set: &TaskSet, scale: u128, row: &Row) -> bool
    requires row { IsTraceRow set.now row.now }
    requires scale { scale ≤ 2 ^ 94 }
    ensures { result ≡ is_early set.now scale row.now }
{
    match row.leaf {
        Leaf::Task(id) => row.start < begin_of(set, id.0, scale),
        _ => false,
    }
}

/// Whether the row has no fault by itself.
pub fn is_fit(set: &TaskSet, scale: u128, row: &Row) -> bool
    requires row { IsTraceRow set.now row.now }
    requires scale { scale ≤ 2 ^ 94 }
    ensures { result ≡ is_fit set.now scale row.now }
{
    row.processor < set.processors()
        && row.end <= u128::from(set.horizon()) * scale
        && !is_early(set, scale, row)
}

/// The first row that has a fault by itself, or the number of rows.
pub fn first_unfit(set: &TaskSet, scale: u128, rows: &RowList) -> u32
    requires trace { IsTrace set.now scale rows.now }
    ensures { IsFirstUnfit set.now scale rows.now result }
{
    for i in 0..rows.len() {
        if !is_fit(set, scale, &rows.get(i)) {
            return i as u32;
        }
    }
    rows.len() as u32
}

/// The first row that overlaps an earlier one of its processor, or the number of rows.
pub fn first_processor_hit(
    set: &TaskSet,
    scale: u128,
    rows: &RowList,
    by_processor: &[Entry],
) -> u32
    requires trace { IsTrace set.now scale rows.now }
    requires order { IsOrder processor_key rows.now by_processor.now }
    ensures { IsFirstHit processor_key rows.now result }
{
    let count = rows.len() as u32;
    first_clash(by_processor, count).unwrap_or(count)
}

/// The first row that overlaps an earlier one of its task, or the number of rows.
pub fn first_task_hit(set: &TaskSet, scale: u128, rows: &RowList, by_task: &[Entry]) -> u32
    requires trace { IsTrace set.now scale rows.now }
    requires order { IsOrder task_key rows.now by_task.now }
    ensures { IsFirstHit task_key rows.now result }
{
    let count = rows.len() as u32;
    first_clash(by_task, count).unwrap_or(count)
}

/// The periods of a task, in ticks. `scale` is in ticks per unit.
pub fn periods_of(set: &TaskSet, scale: u128, task: &Task) -> Periods
    requires work { task.now.work ≤ task.now.period }
    requires period { task.now.period < 2 ^ 32 }
    requires offset { task.now.offset < 2 ^ 32 }
    requires scale { scale ≤ 2 ^ 94 }
    ensures { result ≡ periods_of set.now scale task.now }
{
    Periods {
        base: u128::from(task.offset) * scale,
        period: u128::from(task.period) * scale,
        due: u128::from(task.work) * scale,
        stop: u128::from(set.horizon()) * scale,
    }
}

/// The periods of a task of the set.
pub fn task_periods(set: &TaskSet, scale: u128, task: u32) -> Periods
    requires known { task < length set.now.tasks }
    requires some_scale { 0 < scale }
    requires scale { scale ≤ 2 ^ 94 }
    ensures periods { result ≡ periods_of set.now scale (task_at set.now.tasks task) }
    ensures lawful { AreLawful result }
{
    periods_of(set, scale, &set.tasks()[task as usize])
}

/// The first task with a period that has not what it is to have, or the number of tasks. The rows have no fault.
pub fn first_unsupplied(set: &TaskSet, scale: u128, rows: &RowList, by_task: &[Entry]) -> u32
    requires trace { IsTrace set.now scale rows.now }
    requires order { IsOrder task_key rows.now by_task.now }
    requires within { IsAllWithin set.now scale (length rows.now) by_task.now }
    requires apart { IsDistinct (clash (length rows.now)) by_task.now }
    ensures { IsFirstUnsupplied set.now scale rows.now result }
{
    let mut rest = by_task;
    for task in 0..set.count() {
        let (mine, later) = rest.split_at(front_len(rest, task));
        if !is_supplied(&task_periods(set, scale, task), mine) {
            return task;
        }
        rest = later;
    }
    set.count()
}
