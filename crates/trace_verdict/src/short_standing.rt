//! Rows in few bytes that stand in the order of processors, and have no fault by themselves.
ghost use Rattle.std.specs.Prelude.{◌≡◌, ◌*◌, ◌≤◌, ◌<◌, ◌^◌, true, None, Some, length, map, IsTrue, IfSome};
ghost use Rattle.std.specs.List.{AllByRecursion};
ghost use Rattle.trace_verdict.specs.Faults.{IsTraceRow};
ghost use Rattle.trace_verdict.specs.Orders.{task_key, entries_from};
ghost use Rattle.trace_verdict.specs.RowLists.{row_for};
ghost use Rattle.trace_verdict.specs.Searches.{is_fit, HaveBegun, IsFirstUnfit};
ghost use Rattle.trace_verdict.specs.Standing.{comes_after, stand};

use crate::row_list::ShortRow;
use crate::searches::is_early;
use crate::tally::one_if;
use sched_base::TaskSet;

/// The greatest tick of 64 bits.
const MOST: u128 = u64::MAX as u128;

// Whether a row comes after the one before it.
#[inline(always)]
fn comes_after(before: &ShortRow, row: &ShortRow) -> bool
    ensures { result ≡ comes_after (Some (row_for before.now)) (row_for row.now) }
{
    let (last, own) = (before.processor(), row.processor());
    last < own || (last == own && before.ends_by(row.start))
}

// A tick by which each task has begun.
fn latest_begin(set: &TaskSet, scale: u128) -> u128
    requires scale { scale ≤ 2 ^ 94 }
    ensures { HaveBegun set.now.tasks scale result }
{
    let mut latest = 0;
    for task in set.tasks() {
        latest = (u128::from(task.offset) * scale).max(latest);
    }
    latest
}

// Whether the row has no fault by itself, where the schedule goes on to `stop` and all tasks have begun at `latest`.
#[inline(always)]
fn is_fit(set: &TaskSet, scale: u128, stop: u64, latest: u128, row: &ShortRow) -> bool
    requires row { IsTraceRow set.now (row_for row.now) }
    requires scale { scale ≤ 2 ^ 94 }
    requires stop { stop ≤ set.now.horizon * scale }
    requires latest { HaveBegun set.now.tasks scale latest }
    ensures { IsTrue result → is_fit set.now scale (row_for row.now) ≡ true }
{
    row.processor() < set.processors()
        && row.ends_by(stop)
        && (u128::from(row.start) >= latest || !is_early(set, scale, &row.row()))
}

// Whether a row comes after the one before it, and has no fault by itself.
#[inline(always)]
fn goes_on(
    set: &TaskSet,
    scale: u128,
    stop: u64,
    latest: u128,
    before: &ShortRow,
    row: &ShortRow,
) -> bool
    requires row { IsTraceRow set.now (row_for row.now) }
    requires scale { scale ≤ 2 ^ 94 }
    requires stop { stop ≤ set.now.horizon * scale }
    requires latest { HaveBegun set.now.tasks scale latest }
    ensures after { IsTrue result → comes_after (Some (row_for before.now)) (row_for row.now) ≡ true }
    ensures fit { IsTrue result → is_fit set.now scale (row_for row.now) ≡ true }
{
    comes_after(before, row) && is_fit(set, scale, stop, latest, row)
}

/// How many rows of tasks there are, where all rows stand by processor, those of one in the order of time, and none has a fault
/// by itself.
#[inline(never)]
pub fn count_short(set: &TaskSet, scale: u128, rows: &[ShortRow]) -> Option<u64>
    requires each { AllByRecursion (IsTraceRow set.now) (map row_for rows.now) }
    requires scale { scale ≤ 2 ^ 94 }
    requires few { length rows.now < 2 ^ 32 }
    ensures stands { IfSome result (λ _. stand None (map row_for rows.now) ≡ true) }
    ensures fit { IfSome result (λ _. IsFirstUnfit set.now scale (map row_for rows.now) (length (map row_for rows.now))) }
    ensures total { IfSome result (λ total. total ≡ length (entries_from task_key 0 (map row_for rows.now))) }
{
    let stop = (u128::from(set.horizon()) * scale).min(MOST) as u64;
    let latest = latest_begin(set, scale);
    let mut total = 0;
    let mut last = ShortRow::none();
    for row in rows {
        if !goes_on(set, scale, stop, latest, &last, row) {
            return None;
        }
        total += one_if(row.is_of_task());
        last = *row;
    }
    Some(total)
}
