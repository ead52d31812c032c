//! What rows give of the periods that are open at a unit.
ghost use Rattle.std.specs.Prelude.{ℕ, ◌≡◌, ◌<◌, ◌≤◌, ◌^◌, ◌+◌, ◌*◌, [], ◌∷◌, length, replicate, slice_index, IfOk, vec_len};
ghost use Rattle.std.specs.List.{AllByRecursion};
ghost use Rattle.sched_base.specs.Rows.{overlap};
ghost use Rattle.sched_base.specs.Tables.{all_rows, lane_of, row_limit};
ghost use Rattle.row_totals.specs.Sums.{IsAmong, NamesAmong};
ghost use Rattle.repeat_laws.specs.Repeats.{open_since};
ghost use Rattle.table_text.specs.Given.{given_at, AddsGiven, HaveRoomFor, IsSmall};

use merged_rows::MergedRows;
use sched_base::{Leaf, NoMemory, Row, Task};
use std::alloc::Global;

/// Which periods are looked at: those that are open at unit `from`, or those that are open `shift` units later and began so much later.
#[derive(Clone, Copy)]
pub(crate) struct Look {
    /// In ticks per unit.
    pub(crate) scale: u128,
    pub(crate) from: u128,
    pub(crate) shift: u128,
}

/// For each task, in order, the ticks that the rows give of such a period up to where it is looked at.
pub(crate) fn given_each(
    alloc: Global,
    tasks: &[Task],
    look: Look,
    rows: &MergedRows,
) -> Result<Vec<u128>, NoMemory>
    requires small { IsSmall look }
    requires periods { AllByRecursion (λ t. (1 ≤ t.period) × (t.offset < 2 ^ 32)) tasks.now }
    requires names { AllByRecursion (NamesAmong (length tasks.now)) rows.now.lanes }
    requires few { length (all_rows rows.now.lanes) ≤ row_limit }
    ensures long { IfOk result (λ sums. vec_len sums ≡ length tasks.now) }
    ensures sums { IfOk result (λ sums. (j : ℕ) → j < length tasks.now →
        slice_index sums.items j ≡ given_at look tasks.now (all_rows rows.now.lanes) j) }
{
    let mut sums = zeros(alloc, tasks.len())?;
    add_lanes(&mut sums, tasks, look, rows);
    Ok(sums)
}

fn zeros(alloc: Global, count: usize) -> Result<Vec<u128>, NoMemory>
    ensures { IfOk result (λ sums. sums.items ≡ replicate count 0) }
{
    Ok(vec![in alloc; 0u128; count]?)
}

// Adds what the rows of all processors give.
fn add_lanes(sums: &mut [u128], tasks: &[Task], look: Look, rows: &MergedRows)
    requires long { length sums.old ≡ length tasks.now }
    requires small { IsSmall look }
    requires periods { AllByRecursion (λ t. (1 ≤ t.period) × (t.offset < 2 ^ 32)) tasks.now }
    requires names { AllByRecursion (NamesAmong (length tasks.now)) rows.now.lanes }
    requires room { HaveRoomFor look tasks.now (all_rows rows.now.lanes) sums.old }
    ensures { AddsGiven look tasks.now (all_rows rows.now.lanes) sums.old sums.new }
{
    for p in 0..rows.processors() {
        add_lane(sums, tasks, look, rows, p);
    }
}

// Adds what the rows of processor p give.
fn add_lane(sums: &mut [u128], tasks: &[Task], look: Look, rows: &MergedRows, p: u32)
    requires processor { p < length rows.now.lanes }
    requires long { length sums.old ≡ length tasks.now }
    requires small { IsSmall look }
    requires periods { AllByRecursion (λ t. (1 ≤ t.period) × (t.offset < 2 ^ 32)) tasks.now }
    requires names { NamesAmong (length tasks.now) (lane_of rows.now.lanes p) }
    requires room { HaveRoomFor look tasks.now (lane_of rows.now.lanes p) sums.old }
    ensures { AddsGiven look tasks.now (lane_of rows.now.lanes p) sums.old sums.new }
{
    for i in 0..rows.count(p) {
        add_row(sums, tasks, look, &rows.row(p, i));
    }
}

// Adds what a row gives; a row in which no task runs gives nothing.
fn add_row(sums: &mut [u128], tasks: &[Task], look: Look, row: &Row)
    requires long { length sums.old ≡ length tasks.now }
    requires small { IsSmall look }
    requires periods { AllByRecursion (λ t. (1 ≤ t.period) × (t.offset < 2 ^ 32)) tasks.now }
    requires among { IsAmong (length tasks.now) row.now.leaf }
    requires room { HaveRoomFor look tasks.now (row.now ∷ []) sums.old }
    ensures { AddsGiven look tasks.now (row.now ∷ []) sums.old sums.new }
{
    if let Leaf::Task(id) = row.leaf {
        let j = id.0 as usize;
        sums[j] += ticks_of(row, &tasks[j], look);
    }
}

// The ticks of a row that lie in the looked-at part of a task's period.
fn ticks_of(row: &Row, task: &Task, look: Look) -> u128
    requires small { IsSmall look }
    requires period { 1 ≤ task.now.period }
    requires offset { task.now.offset < 2 ^ 32 }
    ensures { result ≡ overlap row.now.start row.now.end ((open_since look.from task.now + look.shift) * look.scale)
        ((look.from + look.shift) * look.scale) }
{
    let begin = (open_since(task, look.from) + look.shift) * look.scale;
    let end = (look.from + look.shift) * look.scale;
    row.end.min(end).saturating_sub(row.start.max(begin))
}

// The unit at which the period of a task began that is open at this unit.
fn open_since(task: &Task, from: u128) -> u128
    requires period { 1 ≤ task.now.period }
    requires from { from < 2 ^ 32 }
    requires offset { task.now.offset < 2 ^ 32 }
    ensures value { result ≡ open_since from task.now }
    ensures small { result < 2 ^ 33 }
{
    let offset = u128::from(task.offset);
    let period = u128::from(task.period);
    offset + from.saturating_sub(offset) / period * period
}
