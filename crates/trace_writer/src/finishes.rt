//! When the periods of tasks were done, kept while rows go by.
ghost use Rattle.std.specs.Prelude.{◌≡◌, ◌≤◌, ◌<◌, ◌+◌, ◌*◌, ◌^◌, [], ℕ, List, true, length, replicate, max, min, IfOk};
ghost use Rattle.sched_base.specs.Rows.{is_of_task};
ghost use Rattle.sched_base.specs.Sets.{IsLawfulTask};
ghost use Rattle.sched_base.specs.Valid.{period_start};
ghost use Rattle.row_totals.specs.Sums.{IsAmong};
ghost use Rattle.trace_writer.specs.Finishes.{HaveRoom, ends_of, AreDoneBy, AreDoneWith, IsDoneBy, IsDoneWith};

use sched_base::{Leaf, NoMemory, Row, Task, TaskSet};
use std::alloc::Global;
use std::marker::Model;
use trace_format::{ended_count, period_start};

/// Room for a tick for each period of each task that ends by the horizon: when it was done.
///
/// Seen as these ticks, task by task. They take 16 bytes each, all of which is taken when the room is made.
#[derive(Drop)]
pub struct Finishes {
    tasks: Vec<TaskFinishes>,
}

impl Model for Finishes {
    ghost use Rattle.std.specs.Prelude.{ℕ, List};

    ghost Value = { List (List ℕ) };

    ghost view = { λ f. f.tasks.items };
}

impl Finishes {
    /// No room, which takes no memory.
    pub fn none(alloc: Global) -> Finishes
        ensures { result ≡ [] }
    {
        Finishes {
            tasks: Vec::new(alloc),
        }
    }

    /// Room for the periods of the tasks of this set.
    pub fn with_room(alloc: Global, set: &TaskSet) -> Result<Finishes, NoMemory>
        ensures { IfOk result (HaveRoom set.now) }
    {
        let mut tasks = Vec::new(alloc);
        for task in set.tasks() {
            tasks.push(TaskFinishes::with_room(alloc, ended_count(set, task))?)?;
        }
        Ok(Finishes { tasks })
    }

    /// No row went by yet: each period is told to be done when it begins.
    pub(crate) fn begin(&mut self, set: &TaskSet, scale: u128)
        requires scale { scale ≤ 2 ^ 94 }
        requires room { HaveRoom set.now self.old }
        ensures room { HaveRoom set.now self.new }
        ensures none { AreDoneBy scale set.now.tasks [] self.new }
    {
        begin_tasks(self.tasks.as_mut_slice(), set, scale);
    }

    /// One row more went by.
    pub(crate) fn note(&mut self, set: &TaskSet, scale: u128, row: &Row)
        requires scale { scale ≤ 2 ^ 94 }
        requires room { HaveRoom set.now self.old }
        requires among { IsAmong (length set.now.tasks) row.now.leaf }
        ensures room { HaveRoom set.now self.new }
        ensures done { AreDoneWith scale set.now.tasks row.now self.old self.new }
    {
        note_row(self.tasks.as_mut_slice(), set, scale, row);
    }

    /// When the periods of task j were done, in order.
    pub(crate) fn of_task(&self, j: usize) -> &[u128]
        requires { j < length self.now }
        ensures { result.now ≡ ends_of self.now j }
    {
        self.tasks[j].ends.as_slice()
    }
}

fn begin_tasks(finishes: &mut [TaskFinishes], set: &TaskSet, scale: u128)
    requires scale { scale ≤ 2 ^ 94 }
    requires room { HaveRoom set.now finishes.old }
    ensures room { HaveRoom set.now finishes.new }
    ensures none { AreDoneBy scale set.now.tasks [] finishes.new }
{
    for (j, task) in set.tasks().iter().enumerate() {
        finishes[j].begin(scale, task);
    }
}

fn note_row(finishes: &mut [TaskFinishes], set: &TaskSet, scale: u128, row: &Row)
    requires scale { scale ≤ 2 ^ 94 }
    requires room { HaveRoom set.now finishes.old }
    requires among { IsAmong (length set.now.tasks) row.now.leaf }
    ensures room { HaveRoom set.now finishes.new }
    ensures done { AreDoneWith scale set.now.tasks row.now finishes.old finishes.new }
{
    if let Leaf::Task(id) = row.leaf {
        let j = id.0 as usize;
        let task = &set.tasks()[j];
        finishes[j].note(scale, task, id.0, row);
    }
}

/// When the periods of one task were done.
#[derive(Drop)]
struct TaskFinishes {
    ends: Vec<u128>,
    /// The period that the latest row reached, or any other: rows of a processor go on from there.
    at: usize,
}

impl Model for TaskFinishes {
    ghost use Rattle.std.specs.Prelude.{ℕ, List};

    ghost Value = { List ℕ };

    ghost view = { λ f. f.ends.items };
}

impl TaskFinishes {
    fn with_room(alloc: Global, periods: u64) -> Result<TaskFinishes, NoMemory>
        ensures { IfOk result (λ f. f ≡ replicate periods 0) }
    {
        Ok(TaskFinishes {
            ends: vec![in alloc; 0u128; periods as usize]?,
            at: 0,
        })
    }

    // Each period is told to be done when it begins.
    fn begin(&mut self, scale: u128, task: &Task)
        requires scale { scale ≤ 2 ^ 94 }
        requires fits { task.now.offset + length self.old * task.now.period < 2 ^ 33 }
        ensures same { length self.new ≡ length self.old }
        ensures none { (j : ℕ) → IsDoneBy scale task.now j [] self.new }
    {
        begin_each(self.ends.as_mut_slice(), scale, task);
    }

    // One row more of the task of this number went by.
    fn note(&mut self, scale: u128, task: &Task, number: u32, row: &Row)
        requires scale { scale ≤ 2 ^ 94 }
        requires some { 1 ≤ task.now.period }
        requires fits { task.now.offset + length self.old * task.now.period < 2 ^ 33 }
        requires own { is_of_task number row.now.leaf ≡ true }
        ensures same { length self.new ≡ length self.old }
        ensures done { IsDoneWith scale task.now number row.now self.old self.new }
    {
        let first = first_period(task, scale, self.ends.len(), self.at, row.start);
        self.at = note_each(self.ends.as_mut_slice(), first, scale, task, number, row);
    }
}

fn begin_each(ends: &mut [u128], scale: u128, task: &Task)
    requires scale { scale ≤ 2 ^ 94 }
    requires fits { task.now.offset + length ends.old * task.now.period < 2 ^ 33 }
    ensures { (j : ℕ) → IsDoneBy scale task.now j [] ends.new }
{
    for k in 0..ends.len() {
        ends[k] = period_start(task, scale, k as u64);
    }
}

// One row more of the task of this number went by, and no period before `first` goes on past its start. Says which period it reached last.
fn note_each(
    ends: &mut [u128],
    first: usize,
    scale: u128,
    task: &Task,
    _number: u32,
    row: &Row,
) -> usize
    requires scale { scale ≤ 2 ^ 94 }
    requires fits { task.now.offset + length ends.old * task.now.period < 2 ^ 33 }
    requires own { is_of_task _number row.now.leaf ≡ true }
    requires within { first ≤ length ends.old }
    requires past { (k : ℕ) → k < first → period_start scale task.now (k + 1) ≤ row.now.start }
    ensures { IsDoneWith scale task.now _number row.now ends.old ends.new }
{
    let mut reached = first;
    let mut begin = period_start(task, scale, first as u64);
    for k in first..ends.len() {
        if begin >= row.end {
            return reached;
        }
        let end = period_start(task, scale, k as u64 + 1);
        ends[k] = later_end(ends[k], row, end);
        reached = k;
        begin = end;
    }
    reached
}

// When a period was done that ends at tick `end`, where it was done by `done` before this row of its task.
fn later_end(done: u128, row: &Row, end: u128) -> u128
    ensures early { row.now.start < end → result ≡ max done (min row.now.end end) }
    ensures late { end ≤ row.now.start → result ≡ done }
{
    if row.start < end {
        done.max(row.end.min(end))
    } else {
        done
    }
}

// A period, or the number of periods, before which none goes on past this tick. It is period `at` where that one began not long ago.
fn first_period(task: &Task, scale: u128, periods: usize, at: usize, tick: u128) -> usize
    requires scale { scale ≤ 2 ^ 94 }
    requires some { 1 ≤ task.now.period }
    requires fits { task.now.offset + periods * task.now.period < 2 ^ 33 }
    ensures within { result ≤ periods }
    ensures past { (k : ℕ) → k < result → period_start scale task.now (k + 1) ≤ tick }
{
    if at <= periods && began_lately(task, scale, at as u64, tick) {
        return at;
    }
    period_at(task, scale, tick).min(periods as u128) as usize
}

// Whether period k began by this tick, at most four periods ago.
fn began_lately(task: &Task, scale: u128, k: u64, tick: u128) -> bool
    requires scale { scale ≤ 2 ^ 94 }
    requires fits { task.now.offset + k * task.now.period < 2 ^ 33 }
    ensures { result ≡ true → period_start scale task.now k ≤ tick }
{
    let begin = period_start(task, scale, k);
    begin <= tick && (tick - begin) / 4 <= u128::from(task.period).wrapping_mul(scale)
}

// The period in which this tick lies, or 0 before the first one.
fn period_at(task: &Task, scale: u128, tick: u128) -> u128
    requires some { 1 ≤ task.now.period }
    ensures { 1 ≤ result → period_start scale task.now result ≤ tick }
{
    if scale == 0 {
        return 0;
    }
    (tick / scale).saturating_sub(u128::from(task.offset)) / u128::from(task.period)
}
