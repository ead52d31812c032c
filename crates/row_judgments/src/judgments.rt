//! The verdict on the rows of a trace, with the orders that are made for it.
ghost use Rattle.std.specs.Prelude.{◌≡◌, ◌*◌, true, None, ◌≤◌, ◌<◌, ◌^◌, min, length, not, nat_lt, nat_le, IfOk, IfSome, ◌↔◌};
ghost use Rattle.sched_base.specs.Valid.{IsValid};
ghost use Rattle.trace_verdict.specs.Orders.{processor_key, task_key, entries_from, IsOrder, IsProcessorOrder, IsTaskOrder};
ghost use Rattle.trace_verdict.specs.Faults.{IsTrace, IsVerdict};
ghost use Rattle.trace_verdict.specs.Findings.{AreTold};
ghost use Rattle.trace_verdict.specs.Standing.{stand};
ghost use Rattle.trace_verdict.specs.Searches.{kind_of, IsFirstHit, IsFirstUnfit};

use sched_base::{NoMemory, Row, TaskSet};
use std::alloc::Global;
use trace_verdict::{
    Entry, FIRST_TASK_LINE, FaultKind, Findings, RowKey, RowList, TaskOrder, Verdict, all_places,
    are_apart, comes_after, count_short, findings_at, first_processor_hit, first_task_hit,
    first_unfit, first_unsupplied, front_len, hits_last, is_fit, order_by_processor, order_by_task,
    places_of, stand, standing_len, starts_of, supplied_order, task_key, task_periods,
    timed_findings,
};

/// What is made of the rows of a trace: their orders and the verdict on them.
#[derive(Drop)]
pub struct Judgment {
    /// The places of all rows, in the order of processor, then start, then place.
    pub by_processor: Vec<u32>,
    /// The places of the rows of tasks, in the order of task, then start, then place.
    pub by_task: Vec<u32>,
    /// Where each task's part of `by_task` begins, and at its end where the last one ends.
    pub task_starts: Vec<u32>,
    /// For each task what its rows tell of its jobs, where none is at fault.
    pub found: Vec<Findings>,
    pub verdict: Verdict,
}

/// What is told of the rows of a trace where nobody asks for their orders.
#[derive(Drop)]
pub struct Judged {
    /// For each task what its rows tell of its jobs, where none is at fault.
    pub found: Vec<Findings>,
    pub verdict: Verdict,
}

fn row_kind(set: &TaskSet, scale: u128, row: &Row, hit: bool, task_hit: bool) -> FaultKind
    requires scale { scale ≤ 2 ^ 94 }
    ensures { result ≡ kind_of (not (nat_lt row.now.processor set.now.processors)) (not (nat_le row.now.end (set.now.horizon * scale))) hit task_hit }
{
    if row.processor >= set.processors() {
        FaultKind::Processor
    } else if row.end > u128::from(set.horizon()) * scale {
        FaultKind::End
    } else if hit {
        FaultKind::ProcessorOverlap
    } else if task_hit {
        FaultKind::TaskOverlap
    } else {
        FaultKind::Early
    }
}

// The verdict, once the first row is known that has a fault by itself, and the first that overlaps an earlier one of its
// processor. The row lines stand before the totals, so the tasks are looked at only where no row is at fault.
fn verdict_of(
    set: &TaskSet,
    scale: u128,
    rows: &RowList,
    unfit: u32,
    hit: u32,
    by_task: &[Entry],
) -> Verdict
    requires trace { IsTrace set.now scale rows.now }
    requires unfit { IsFirstUnfit set.now scale rows.now unfit }
    requires hit { IsFirstHit processor_key rows.now hit }
    requires by_task { IsOrder task_key rows.now by_task.now }
    ensures { IsVerdict set.now scale rows.now result }
{
    let count = rows.len() as u32;
    let task_hit = first_task_hit(set, scale, rows, by_task);
    let first = unfit.min(hit).min(task_hit);
    if first < count {
        let kind = row_kind(
            set,
            scale,
            &rows.get(first as usize),
            hit == first,
            task_hit == first,
        );
        return Verdict::Fault {
            line: FIRST_TASK_LINE + u64::from(set.count()) + u64::from(first),
            kind,
        };
    }
    let task = first_unsupplied(set, scale, rows, by_task);
    if task < set.count() {
        return Verdict::Fault {
            line: FIRST_TASK_LINE + u64::from(set.count()) + u64::from(count) + u64::from(task),
            kind: FaultKind::Supply,
        };
    }
    Verdict::Valid
}

// The order by processor, and the first row that overlaps an earlier one of its processor. Where the rows
// stand in order no entries are made, and else they are let go before those of the tasks are made.
fn processor_order(
    alloc: Global,
    set: &TaskSet,
    scale: u128,
    rows: &RowList,
) -> Result<(Vec<u32>, u32), NoMemory>
    requires trace { IsTrace set.now scale rows.now }
    ensures order { IfOk result (λ r. IsProcessorOrder rows.now r.0.items) }
    ensures hit { IfOk result (λ r. IsFirstHit processor_key rows.now r.1) }
{
    if stand(rows) {
        return Ok((all_places(alloc, rows)?, rows.len() as u32));
    }
    let entries = order_by_processor(alloc, rows)?;
    let hit = first_processor_hit(set, scale, rows, &entries);
    let places = places_of(alloc, &entries)?;
    Ok((places, hit))
}

// The order of tasks' rows, what they tell, and the verdict, once the first row is known that has a fault by itself, and the first
// that overlaps an earlier one of its processor. Where no row is at fault and each task has what it is to have, no entries are
// made for tasks, and it is found what their rows tell; else entries find the first fault.
fn judge_tasks(
    alloc: Global,
    set: &TaskSet,
    scale: u128,
    rows: &RowList,
    unfit: u32,
    hit: u32,
) -> Result<(TaskOrder, Verdict), NoMemory>
    requires trace { IsTrace set.now scale rows.now }
    requires unfit { IsFirstUnfit set.now scale rows.now unfit }
    requires hit { IsFirstHit processor_key rows.now hit }
    ensures order { IfOk result (λ j. IsTaskOrder (length set.now.tasks) rows.now j.0.places.items j.0.starts.items) }
    ensures found { IfOk result (λ j. AreTold set.now scale rows.now j.0.found.items) }
    ensures all { IfOk result (λ j. j.1 ≡ Verdict.Valid → length j.0.found.items ≡ length set.now.tasks) }
    ensures verdict { IfOk result (λ j. IsVerdict set.now scale rows.now j.1) }
{
    if unfit.min(hit) as usize == rows.len() {
        if let Some(order) = supplied_order(alloc, set, scale, rows)? {
            return Ok((order, Verdict::Valid));
        }
    }
    let entries = order_by_task(alloc, rows)?;
    let verdict = verdict_of(set, scale, rows, unfit, hit, &entries);
    let order = TaskOrder {
        places: places_of(alloc, &entries)?,
        starts: starts_of(alloc, &entries, set.count())?,
        found: found_by(alloc, set, scale, rows, &entries, verdict)?,
    };
    Ok((order, verdict))
}

// What the rows of each task tell, by their entries, where none is at fault.
fn found_by(
    alloc: Global,
    set: &TaskSet,
    scale: u128,
    rows: &RowList,
    by_task: &[Entry],
    verdict: Verdict,
) -> Result<Vec<Findings>, NoMemory>
    requires trace { IsTrace set.now scale rows.now }
    requires by_task { IsOrder task_key rows.now by_task.now }
    requires verdict { IsVerdict set.now scale rows.now verdict }
    ensures told { IfOk result (λ v. AreTold set.now scale rows.now v.items) }
    ensures all { IfOk result (λ v. verdict ≡ Verdict.Valid → length v.items ≡ length set.now.tasks) }
{
    match verdict {
        Verdict::Valid => found_in(alloc, set, scale, rows, by_task),
        Verdict::Fault { .. } => Ok(Vec::new(alloc)),
    }
}

// What the rows of each task tell, by their entries.
fn found_in(
    alloc: Global,
    set: &TaskSet,
    scale: u128,
    rows: &RowList,
    by_task: &[Entry],
) -> Result<Vec<Findings>, NoMemory>
    requires trace { IsTrace set.now scale rows.now }
    requires by_task { IsOrder task_key rows.now by_task.now }
    requires valid { IsVerdict set.now scale rows.now Verdict.Valid }
    ensures told { IfOk result (λ v. AreTold set.now scale rows.now v.items) }
    ensures all { IfOk result (λ v. length v.items ≡ length set.now.tasks) }
{
    let mut found = Vec::new(alloc);
    let mut left = by_task;
    for task in 0..set.count() {
        let (mine, later) = left.split_at(front_len(left, task));
        let places = places_of(alloc, mine)?;
        let periods = task_periods(set, scale, task);
        found.push(findings_at(&periods, rows, &places))?;
        left = later;
    }
    Ok(found)
}

/// The orders of the rows of a trace and the verdict on them.
pub fn judge(
    alloc: Global,
    set: &TaskSet,
    scale: u128,
    rows: &RowList,
) -> Result<Judgment, NoMemory>
    requires trace { IsTrace set.now scale rows.now }
    ensures by_processor { IfOk result (λ j. IsProcessorOrder rows.now j.by_processor.items) }
    ensures by_task { IfOk result (λ j. IsTaskOrder (length set.now.tasks) rows.now j.by_task.items j.task_starts.items) }
    ensures found { IfOk result (λ j. AreTold set.now scale rows.now j.found.items) }
    ensures all { IfOk result (λ j. j.verdict ≡ Verdict.Valid → length j.found.items ≡ length set.now.tasks) }
    ensures verdict { IfOk result (λ j. IsVerdict set.now scale rows.now j.verdict) }
    ensures valid { IfOk result (λ j. (j.verdict ≡ Verdict.Valid) ↔ IsValid set.now scale (set.now.horizon * scale) (set.now.horizon * scale) rows.now) }
{
    let (by_processor, hit) = processor_order(alloc, set, scale, rows)?;
    let unfit = first_unfit(set, scale, rows);
    let (order, verdict) = judge_tasks(alloc, set, scale, rows, unfit, hit)?;
    Ok(Judgment {
        by_processor,
        by_task: order.places,
        task_starts: order.starts,
        found: order.found,
        verdict,
    })
}

/// The verdict on the rows of a trace, and what they tell, without their orders. Rows that stand by processor, and those of one in
/// the order of time, as those of a valid schedule mostly do, are gone through once; else their orders are made.
pub fn judge_rows(
    alloc: Global,
    set: &TaskSet,
    scale: u128,
    rows: &RowList,
) -> Result<Judged, NoMemory>
    requires trace { IsTrace set.now scale rows.now }
    ensures found { IfOk result (λ j. AreTold set.now scale rows.now j.found.items) }
    ensures all { IfOk result (λ j. j.verdict ≡ Verdict.Valid → length j.found.items ≡ length set.now.tasks) }
    ensures verdict { IfOk result (λ j. IsVerdict set.now scale rows.now j.verdict) }
{
    if let Some(found) = found_in_time(alloc, set, scale, rows)? {
        return Ok(Judged {
            found,
            verdict: Verdict::Valid,
        });
    }
    judge_unordered(alloc, set, scale, rows)
}

// The verdict where no two rows of a task overlap, and this row is the first that has a fault by itself or overlaps an earlier one of its processor.
fn verdict_at(
    set: &TaskSet,
    scale: u128,
    rows: &RowList,
    _unfit: u32,
    hit: u32,
    first: u32,
) -> Verdict
    requires trace { IsTrace set.now scale rows.now }
    requires unfit { IsFirstUnfit set.now scale rows.now _unfit }
    requires hit { IsFirstHit processor_key rows.now hit }
    requires apart { IsFirstHit task_key rows.now (length rows.now) }
    requires first { first ≡ min _unfit hit }
    requires within { first < length rows.now }
    ensures verdict { IsVerdict set.now scale rows.now result }
    ensures fault { result ≡ Verdict.Valid → ⊥ }
{
    let kind = row_kind(set, scale, &rows.get(first as usize), hit == first, false);
    Verdict::Fault {
        line: FIRST_TASK_LINE + u64::from(set.count()) + u64::from(first),
        kind,
    }
}

// Judges rows that are at fault or stand in another order.
fn judge_unordered(
    alloc: Global,
    set: &TaskSet,
    scale: u128,
    rows: &RowList,
) -> Result<Judged, NoMemory>
    requires trace { IsTrace set.now scale rows.now }
    ensures found { IfOk result (λ j. AreTold set.now scale rows.now j.found.items) }
    ensures all { IfOk result (λ j. j.verdict ≡ Verdict.Valid → length j.found.items ≡ length set.now.tasks) }
    ensures verdict { IfOk result (λ j. IsVerdict set.now scale rows.now j.verdict) }
{
    let hit = processor_hit(alloc, set, scale, rows)?;
    let unfit = first_unfit(set, scale, rows);
    let first = unfit.min(hit);
    if (first as usize) < rows.len() && are_apart(alloc, RowKey::Task, rows)? {
        return Ok(Judged {
            found: Vec::new(alloc),
            verdict: verdict_at(set, scale, rows, unfit, hit, first),
        });
    }
    let (order, verdict) = judge_tasks(alloc, set, scale, rows, unfit, hit)?;
    Ok(Judged {
        found: order.found,
        verdict,
    })
}

// The first row that overlaps an earlier one of its processor, or the number of rows. Where the rows stand in order up to one that
// overlaps the one before it, it is that one; where it or no row does, no entries are made.
fn processor_hit(alloc: Global, set: &TaskSet, scale: u128, rows: &RowList) -> Result<u32, NoMemory>
    requires trace { IsTrace set.now scale rows.now }
    ensures hit { IfOk result (λ hit. IsFirstHit processor_key rows.now hit) }
{
    let front = standing_len(rows);
    if front == rows.len() {
        return Ok(front as u32);
    }
    if hits_last(rows, front) {
        return Ok(front as u32);
    }
    if are_apart(alloc, RowKey::Processor, rows)? {
        return Ok(rows.len() as u32);
    }
    let entries = order_by_processor(alloc, rows)?;
    Ok(first_processor_hit(set, scale, rows, &entries))
}

// What the rows of each task tell, where they stand by processor, those of one in the order of time, and none is at fault. Where
// it finds nothing, that says nothing.
fn found_in_time(
    alloc: Global,
    set: &TaskSet,
    scale: u128,
    rows: &RowList,
) -> Result<Option<Vec<Findings>>, NoMemory>
    requires trace { IsTrace set.now scale rows.now }
    ensures found { IfOk result (λ o. IfSome o (λ v. AreTold set.now scale rows.now v.items)) }
    ensures all { IfOk result (λ o. IfSome o (λ v. length v.items ≡ length set.now.tasks)) }
    ensures valid { IfOk result (λ o. IfSome o (λ _. IsVerdict set.now scale rows.now Verdict.Valid)) }
{
    match count_standing(set, scale, rows) {
        Some(total) => timed_findings(alloc, set, scale, rows, total),
        None => Ok(None),
    }
}

// How many rows of tasks there are, where all rows stand by processor, those of one in the order of time, and none has a fault by
// itself.
fn count_standing(set: &TaskSet, scale: u128, rows: &RowList) -> Option<u64>
    requires trace { IsTrace set.now scale rows.now }
    ensures stands { IfSome result (λ _. stand None rows.now ≡ true) }
    ensures fit { IfSome result (λ _. IsFirstUnfit set.now scale rows.now (length rows.now)) }
    ensures total { IfSome result (λ total. total ≡ length (entries_from task_key 0 rows.now)) }
{
    match rows.all_short() {
        Some(short) => count_short(set, scale, short),
        None => count_any(set, scale, rows),
    }
}

// How many rows stand where a valid schedule has them, of which some may be long.
fn count_any(set: &TaskSet, scale: u128, rows: &RowList) -> Option<u64>
    requires trace { IsTrace set.now scale rows.now }
    ensures stands { IfSome result (λ _. stand None rows.now ≡ true) }
    ensures fit { IfSome result (λ _. IsFirstUnfit set.now scale rows.now (length rows.now)) }
    ensures total { IfSome result (λ total. total ≡ length (entries_from task_key 0 rows.now)) }
{
    let mut total = 0;
    let mut last: Option<Row> = None;
    for i in 0..rows.len() {
        let row = rows.get(i);
        if !comes_after(&last, &row) || !is_fit(set, scale, &row) {
            return None;
        }
        if task_key(&row).is_some() {
            total += 1;
        }
        last = Some(row);
    }
    Some(total)
}
