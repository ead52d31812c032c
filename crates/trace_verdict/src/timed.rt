//! The rows of all tasks, gone through once in the order of time.
ghost use Rattle.std.specs.Prelude.{ℕ, ◌≡◌, ◌<◌, ◌≤◌, ◌^◌, List, length, map, slice_index_or, IfOk, IfSome, IsTrue};
ghost use Rattle.sched_base.specs.declared.rows.Row.{Row};
ghost use Rattle.sched_base.specs.Sets.{SetContents};
ghost use Rattle.trace_verdict.specs.declared.task_walks.TaskWalk.{TaskWalk};
ghost use Rattle.trace_verdict.specs.Faults.{IsTrace};
ghost use Rattle.trace_verdict.specs.Orders.{task_key, entries_from};
ghost use Rattle.trace_verdict.specs.RowLists.{row_for};
ghost use Rattle.trace_verdict.specs.ShortWalks.{wide_of};
ghost use Rattle.trace_verdict.specs.Timed.{HasGone, AreGoing, AreTimed};

use crate::findings::Findings;
use crate::hands::Hands;
use crate::orders::task_key;
use crate::row_list::{RowList, ShortRow};
use crate::searches::task_periods;
use crate::short_walks::ShortWalk;
use crate::task_walks::TaskWalk;
use sched_base::{NoMemory, TaskSet};
use std::alloc::Global;

// A walk for each task.
fn all_walks(alloc: Global, set: &TaskSet, scale: u128) -> Result<Vec<TaskWalk>, NoMemory>
    requires some_scale { 0 < scale }
    requires scale { scale ≤ 2 ^ 94 }
    ensures count { IfOk result (λ v. length v.items ≡ length set.now.tasks) }
    ensures going { IfOk result (λ v. (rows : List Row) → AreGoing set.now scale rows 0 v.items) }
{
    let mut walks = Vec::new(alloc);
    for task in 0..set.count() {
        walks.push(TaskWalk::new(&task_periods(set, scale, task)))?;
    }
    Ok(walks)
}

// The row at this place goes by, where it is one of a task. It is false where it may not.
fn go_by(walks: &mut [TaskWalk], rows: &RowList, place: usize) -> bool
    requires { (i : ℕ) (none : TaskWalk) → i < length walks.old → HasGone rows.now i (slice_index_or walks.old i none) }
    ensures { IsTrue result → (s : SetContents) (l : ℕ) → AreGoing s l rows.now 0 walks.old → AreGoing s l rows.now 0 walks.new }
{
    if place >= rows.len() {
        return false;
    }
    let row = rows.get(place);
    let Some(task) = task_key(&row) else {
        return true;
    };
    if task as usize >= walks.len() {
        return false;
    }
    walks[task as usize].step(rows, task, place, &row)
}

// The walks in 64 bits, where they do for all.
fn short_walks(alloc: Global, walks: &[TaskWalk]) -> Result<Option<Vec<ShortWalk>>, NoMemory>
    ensures { IfOk result (λ o. IfSome o (λ v. map wide_of v.items ≡ walks.now)) }
{
    let mut all = Vec::new(alloc);
    for walk in walks {
        let Some(short) = ShortWalk::of(walk) else {
            return Ok(None);
        };
        all.push(short)?;
    }
    Ok(Some(all))
}

// The walks in numbers of any size.
fn wide_walks(alloc: Global, walks: &[ShortWalk]) -> Result<Vec<TaskWalk>, NoMemory>
    ensures { IfOk result (λ v. v.items ≡ map wide_of walks.now) }
{
    let mut all = Vec::new(alloc);
    for walk in walks {
        all.push(walk.wide())?;
    }
    Ok(all)
}

// The short row at this place goes by, where it is one of a task. It is false where it may not.
#[inline(always)]
fn go_by_short(walks: &mut [ShortWalk], _rows: &RowList, short: &[ShortRow], place: usize) -> bool
    requires short { _rows.now ≡ map row_for short.now }
    requires each { (i : ℕ) (none : TaskWalk) → i < length walks.old → HasGone _rows.now i (slice_index_or (map wide_of walks.old) i none) }
    ensures gone { IsTrue result → (s : SetContents) (l : ℕ) → AreGoing s l _rows.now 0 (map wide_of walks.old) →
        AreGoing s l _rows.now 0 (map wide_of walks.new) }
    ensures count { length walks.new ≡ length walks.old }
{
    if place >= short.len() {
        return false;
    }
    let row = short[place];
    let Some(task) = row.task() else {
        return true;
    };
    if task as usize >= walks.len() {
        return false;
    }
    walks[task as usize].step(_rows, task, place, &row)
}

// What the rows that went by tell, where all have gone by and give each task what it is to have.
fn found_of(
    alloc: Global,
    set: &TaskSet,
    scale: u128,
    rows: &RowList,
    total: u64,
    walks: &[TaskWalk],
) -> Result<Option<Vec<Findings>>, NoMemory>
    requires trace { IsTrace set.now scale rows.now }
    requires total { total ≡ length (entries_from task_key 0 rows.now) }
    requires count { length walks.now ≡ length set.now.tasks }
    requires going { AreGoing set.now scale rows.now 0 walks.now }
    ensures { IfOk result (λ o. IfSome o (λ v. AreTimed set.now scale rows.now v.items)) }
{
    let mut found = Vec::new(alloc);
    let mut count = 0;
    for task in 0..set.count() as usize {
        let Some(told) = walks[task].ends() else {
            return Ok(None);
        };
        found.push(told)?;
        count += u64::from(walks[task].count);
    }
    if count < total {
        return Ok(None);
    }
    Ok(Some(found))
}

// What the rows of each task tell, where all are short and no walk needs more than 64 bits.
#[inline(never)]
fn short_findings(
    alloc: Global,
    set: &TaskSet,
    scale: u128,
    rows: &RowList,
    total: u64,
    short: &[ShortRow],
    walks: Vec<ShortWalk>,
) -> Result<Option<Vec<Findings>>, NoMemory>
    requires trace { IsTrace set.now scale rows.now }
    requires total { total ≡ length (entries_from task_key 0 rows.now) }
    requires short { rows.now ≡ map row_for short.now }
    requires count { length walks.items ≡ length set.now.tasks }
    requires going { AreGoing set.now scale rows.now 0 (map wide_of walks.items) }
    ensures { IfOk result (λ o. IfSome o (λ v. AreTimed set.now scale rows.now v.items)) }
{
    let mut walks = walks;
    let mut hands = Hands::new(rows);
    'rows: for _ in 0..short.len() {
        let place = hands.next(rows);
        if !go_by_short(&mut walks, rows, short, place) {
            return Ok(None);
        }
    }
    let wide = wide_walks(alloc, &walks)?;
    found_of(alloc, set, scale, rows, total, &wide)
}

/// What the rows of each task tell, of which there are so many, where each task has what it is to have and no two rows of one overlap. Where it finds
/// nothing, that says nothing: it goes through the rows as if they stood by processor, those of one in the order of time.
pub fn timed_findings(
    alloc: Global,
    set: &TaskSet,
    scale: u128,
    rows: &RowList,
    total: u64,
) -> Result<Option<Vec<Findings>>, NoMemory>
    requires trace { IsTrace set.now scale rows.now }
    requires total { total ≡ length (entries_from task_key 0 rows.now) }
    ensures { IfOk result (λ o. IfSome o (λ v. AreTimed set.now scale rows.now v.items)) }
{
    let mut walks = all_walks(alloc, set, scale)?;
    if let Some(short) = rows.all_short() {
        if let Some(walks) = short_walks(alloc, &walks)? {
            return short_findings(alloc, set, scale, rows, total, short, walks);
        }
    }
    let mut hands = Hands::new(rows);
    'rows: for _ in 0..rows.len() {
        let place = hands.next(rows);
        if !go_by(&mut walks, rows, place) {
            return Ok(None);
        }
    }
    found_of(alloc, set, scale, rows, total, &walks)
}
