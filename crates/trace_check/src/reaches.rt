//! How far the rows of each task reach that start before the end of each of its periods: what its `met` lines tell. The rows are
//! gone through once, in the order of their lines.
ghost use Rattle.std.specs.Prelude.{ℕ, ◌≡◌, ◌+◌, ◌*◌, ◌<◌, ◌≤◌, ◌^◌, true, List, [], ◌∷◌, ◌++◌, length, IfOk, OnOk};
ghost use Rattle.sched_base.specs.declared.rows.Row.{Row};
ghost use Rattle.sched_base.specs.declared.sets.Task.{Task};
ghost use Rattle.sched_base.specs.Rows.{is_of_task};
ghost use Rattle.sched_base.specs.Sets.{IsLawfulTask};
ghost use Rattle.trace_check.specs.Reaches.{reach_rows, reach_to, AreEnds, HaveEnds, IsReachOf, AreReachesOf};

use crate::period_ends::Ends;
use sched_base::{Leaf, NoMemory, Row, Task, TaskSet};
use std::alloc::{AllocError, Global};
use trace_format::ended_count;
use trace_verdict::RowList;

/// The periods of a task, in ticks, and for those at the front the greatest end of the rows that start in each; in the first one
/// count those that start before it too. It stands at the period of a row that it took in.
#[derive(Drop)]
pub(crate) struct TaskReach {
    pub base: u128,
    pub span: u128,
    pub number: u128,
    pub begin: u128,
    pub ends: Ends,
}

fn is_of_task(row: &Row, task: u32) -> bool
    ensures { result ≡ is_of_task task row.now.leaf }
{
    match row.leaf {
        Leaf::Task(id) => id.0 == task,
        _ => false,
    }
}

// The greatest end of the rows of a task that start before this tick.
fn reach_by_rows(rows: &RowList, task: u32, tick: u128) -> u128
    ensures { result ≡ reach_rows rows.now task tick }
{
    let mut reach = 0;
    for i in 0..rows.len() {
        let row = rows.get(i);
        if is_of_task(&row, task) && row.start < tick {
            reach = row.end.max(reach);
        }
    }
    reach
}

impl TaskReach {
    // No rows yet of a task, of whose periods so many are looked at.
    fn new(alloc: Global, scale: u128, task: &Task, count: usize) -> Result<TaskReach, NoMemory>
        requires scale { scale ≤ 2 ^ 94 }
        requires task { IsLawfulTask task.now }
        ensures periods { IfOk result (IsReachOf scale task.now) }
        ensures ends { IfOk result (λ t. (j : ℕ) → AreEnds [] j t) }
    {
        let base = u128::from(task.offset) * scale;
        let span = u128::from(task.period) * scale;
        let count = if span == 0 { 0 } else { count };
        let ends = Ends::new(alloc, count)?;
        Ok(TaskReach {
            base,
            span,
            number: 0,
            begin: base,
            ends,
        })
    }

    // The number of the period that has this tick, 0 for one before the first.
    fn seek(&mut self, tick: u128) -> u128
        requires some { 0 < self.old.span }
        requires begin { self.old.begin ≡ self.old.base + self.old.number * self.old.span }
        ensures number { (k : ℕ) → (tick < self.old.base + (k + 1) * self.old.span → result ≤ k)
            × (result ≤ k → tick < self.old.base + (k + 1) * self.old.span) }
        ensures base { self.new.base ≡ self.old.base }
        ensures span { self.new.span ≡ self.old.span }
        ensures ends { self.new.ends ≡ self.old.ends }
        ensures begin { self.new.begin ≡ self.new.base + self.new.number * self.new.span }
    {
        if self.begin <= tick && tick - self.begin < self.span {
            return self.number;
        }
        if tick < self.base {
            return 0;
        }
        self.number = (tick - self.base) / self.span;
        self.begin = self.base + self.number * self.span;
        self.number
    }

    // Takes in a row of the task.
    fn add(&mut self, row: &Row) -> Result<(), AllocError>
        requires { (done : List Row) × (j : ℕ) × AreEnds done j self.old }
        ensures base { OnOk result (self.new.base ≡ self.old.base) }
        ensures span { OnOk result (self.new.span ≡ self.old.span) }
        ensures ends { OnOk result ((done : List Row) (j : ℕ) → is_of_task j row.now.leaf ≡ true → AreEnds done j self.old
            → AreEnds (done ++ row.now ∷ []) j self.new) }
    {
        if self.ends.len() == 0 {
            return Ok(());
        }
        let number = self.seek(row.start);
        if number < self.ends.len() as u128 {
            self.ends.raise(number as usize, row.end)?;
        }
        Ok(())
    }

    /// The greatest end of the task's rows that start before the end of its period k, which is `end`, where that of those that start
    /// before the end of the last one is known.
    pub fn reach(&self, rows: &RowList, task: u32, k: u64, before: u128, end: u128) -> u128
        requires ends { AreEnds rows.now task self.now }
        requires before { before ≡ reach_to rows.now task self.now k }
        requires end { end ≡ self.now.base + (k + 1) * self.now.span }
        ensures { result ≡ reach_to rows.now task self.now (k + 1) }
    {
        if k < self.ends.len() as u64 {
            before.max(self.ends.get(k as usize))
        } else {
            reach_by_rows(rows, task, end)
        }
    }
}

// Takes in a row, where it is one of these tasks.
fn add_row(reaches: &mut [TaskReach], row: &Row) -> Result<(), AllocError>
    requires { (done : List Row) × HaveEnds done reaches.old }
    ensures periods { OnOk result ((scale : ℕ) (tasks : List Task) → AreReachesOf scale tasks reaches.old → AreReachesOf scale tasks reaches.new) }
    ensures count { OnOk result (length reaches.new ≡ length reaches.old) }
    ensures ends { OnOk result ((done : List Row) → HaveEnds done reaches.old → HaveEnds (done ++ row.now ∷ []) reaches.new) }
{
    if let Leaf::Task(id) = row.leaf {
        let place = id.0 as usize;
        if place < reaches.len() {
            reaches[place].add(row)?;
        }
    }
    Ok(())
}

// Takes in all rows.
fn add_rows(reaches: &mut [TaskReach], rows: &RowList) -> Result<(), AllocError>
    requires { HaveEnds [] reaches.old }
    ensures periods { OnOk result ((scale : ℕ) (tasks : List Task) → AreReachesOf scale tasks reaches.old → AreReachesOf scale tasks reaches.new) }
    ensures count { OnOk result (length reaches.new ≡ length reaches.old) }
    ensures ends { OnOk result (HaveEnds rows.now reaches.new) }
{
    for i in 0..rows.len() {
        add_row(reaches, &rows.get(i))?;
    }
    Ok(())
}

// How many periods of a task are looked at, where so many are left for it and the tasks that follow.
fn looked_at(set: &TaskSet, task: &Task, room: u64) -> u64
    requires { 1 ≤ task.now.period }
    ensures { result ≤ room }
{
    ended_count(set, task).min(room)
}

// No rows yet.
fn no_reaches(
    alloc: Global,
    set: &TaskSet,
    scale: u128,
    most: u64,
) -> Result<Vec<TaskReach>, NoMemory>
    requires scale { scale ≤ 2 ^ 94 }
    ensures periods { IfOk result (λ v. AreReachesOf scale set.now.tasks v.items) }
    ensures count { IfOk result (λ v. length v.items ≡ length set.now.tasks) }
    ensures ends { IfOk result (λ v. HaveEnds [] v.items) }
{
    let mut reaches = Vec::new(alloc);
    let mut room = most;
    for task in set.tasks() {
        let count = looked_at(set, task, room);
        room -= count;
        reaches.push(TaskReach::new(alloc, scale, task, count as usize)?)?;
    }
    Ok(reaches)
}

/// How far the rows of each task reach. Of so many periods it is kept, of more it is found when it is asked for.
pub(crate) fn reaches_of(
    alloc: Global,
    set: &TaskSet,
    scale: u128,
    rows: &RowList,
    most: u64,
) -> Result<Vec<TaskReach>, NoMemory>
    requires scale { scale ≤ 2 ^ 94 }
    ensures periods { IfOk result (λ v. AreReachesOf scale set.now.tasks v.items) }
    ensures count { IfOk result (λ v. length v.items ≡ length set.now.tasks) }
    ensures ends { IfOk result (λ v. HaveEnds rows.now v.items) }
{
    let mut reaches = no_reaches(alloc, set, scale, most)?;
    add_rows(&mut reaches, rows)?;
    Ok(reaches)
}
