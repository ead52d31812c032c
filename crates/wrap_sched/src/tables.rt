//! The table of the wrapped schedule.
ghost use Rattle.std.specs.Prelude.{◌≡◌, ◌<◌, ◌≤◌, ◌+◌, ◌*◌, ◌-◌, ◌^◌, IfOk};
ghost use Rattle.std.specs.Prelude.{List, [], ◌++◌, length, replicate};
ghost use Rattle.sched_base.specs.Scale.{IsScale, Fits};
ghost use Rattle.sched_base.specs.Tables.{all_rows, end_of, rounds_in};
ghost use Rattle.sched_base.specs.Valid.{IsValid};
ghost use Rattle.sched_base.specs.declared.rows.Row.{Row as DeclaredRow};
ghost use Rattle.sched_base.specs.Lanes.{lanes_of};
ghost use Rattle.wrap_sched.specs.Slices.{AreSlices};
ghost use Rattle.wrap_sched.specs.Steps.{stretched_rows};
ghost use Rattle.wrap_sched.specs.Wrapped.{leaf_of, slice_rows, wrapped, wrapped_rounds};

use crate::points::next_point;
use crate::units::{Slices, UnitRound};
use sched_base::{Leaf, NoMemory, Row, RowTable, TaskId, TaskSet, blank_rows};
use std::alloc::Global;

// What a processor runs in a slice from unit x on, where this task holds its place.
fn leaf_of(set: &TaskSet, x: u64, processor: u32, holder: u32) -> Leaf
    ensures { result ≡ leaf_of set.now.tasks x processor holder }
{
    let tasks = set.tasks();
    if (holder as usize) < tasks.len() {
        if x < tasks[holder as usize].offset {
            Leaf::Wait(TaskId(holder))
        } else {
            Leaf::Task(TaskId(holder))
        }
    } else {
        Leaf::Idle(processor)
    }
}

/// Writes the rows of a round of the slice from unit x up to unit y, which starts at the tick `start`.
pub(crate) fn write_rows(
    set: &TaskSet,
    x: u64,
    y: u64,
    start: u128,
    round: &UnitRound,
    rows: &mut [Row],
)
    requires forward { x < y }
    requires places { round.now.begin ≤ round.now.end }
    requires fits { start + (y - x) * round.now.end < 2 ^ 128 }
    requires holders { length round.now.holders ≡ set.now.processors }
    requires rows { length rows.old ≡ set.now.processors }
    ensures { rows.new ≡ stretched_rows set.now x y start round.now }
{
    set.know_lawful();
    let units = u128::from(y - x);
    let end = start + units * round.end;
    let begin = start + units * round.begin;
    let holders = round.holders.as_slice();
    for p in 0..rows.len() {
        rows[p] = Row {
            processor: p as u32,
            start: begin,
            end,
            leaf: leaf_of(set, x, p as u32, holders[p]),
        };
    }
}

// Appends the rounds of the slice from unit x up to unit y.
fn push_slice(slices: &Slices, x: u64, y: u64, rows: &mut [Row], table: &mut RowTable)
    requires slices { AreSlices slices.now }
    requires forward { x < y }
    requires early { y ≤ slices.now.set.now.horizon }
    requires rows { length rows.old ≡ slices.now.set.now.processors }
    requires whole { length table.old.lanes ≡ slices.now.set.now.processors }
    requires start { end_of table.old.lanes ≡ x * slices.now.scale }
    requires room { length slices.now.pattern.items ≤ table.old.room }
    ensures lanes { let m = slices.now.set.now.processors in (done : List DeclaredRow) → table.old.lanes ≡ lanes_of m done →
        table.new.lanes ≡ lanes_of m (done ++ slice_rows slices.now.scale slices.now.set.now.tasks m (record { begin = x; end = y })) }
    ensures end { end_of table.new.lanes ≡ y * slices.now.scale }
    ensures whole { length table.new.lanes ≡ slices.now.set.now.processors }
    ensures count { rounds_in table.new.lanes ≡ rounds_in table.old.lanes + length slices.now.pattern.items }
    ensures room { table.new.room + length slices.now.pattern.items ≡ table.old.room }
{
    let set = slices.set;
    set.know_lawful();
    let start = u128::from(x) * slices.scale;
    for round in &slices.pattern {
        write_rows(set, x, y, start, round, rows);
        table.push_round(rows);
    }
}

// Appends the rounds of all slices.
fn push_slices(slices: &Slices, rows: &mut [Row], table: &mut RowTable)
    requires slices { AreSlices slices.now }
    requires rows { length rows.old ≡ slices.now.set.now.processors }
    requires none { table.old.lanes ≡ replicate slices.now.set.now.processors [] }
    requires room { table.old.room ≡ wrapped_rounds slices.now.scale slices.now.set.now }
    ensures lanes { table.new.lanes ≡ lanes_of slices.now.set.now.processors (wrapped slices.now.scale slices.now.set.now) }
    ensures count { rounds_in table.new.lanes ≡ wrapped_rounds slices.now.scale slices.now.set.now }
    ensures full { table.new.room ≡ 0 }
{
    let set = slices.set;
    set.know_lawful();
    let mut x: u64 = 0;
    'slices: while x < set.horizon() {
        let y = next_point(set, x);
        push_slice(slices, x, y, rows, table);
        x = y;
    }
}

/// The table of the wrapped schedule, where `rounds` is the number of its rounds. It goes over each round once. Its rows,
/// lane after lane, are a valid schedule of the set up to its horizon.
pub fn wrap(alloc: Global, set: &TaskSet, scale: u128, rounds: u64) -> Result<RowTable, NoMemory>
    requires scale { IsScale set.now.tasks scale }
    requires scale_fits { scale ≤ 2 ^ 94 }
    requires fits { Fits scale set.now }
    requires rounds { rounds ≡ wrapped_rounds scale set.now }
    ensures lanes { IfOk result (λ t. t.lanes ≡ lanes_of set.now.processors (wrapped scale set.now)) }
    ensures rounds { IfOk result (λ t. rounds_in t.lanes ≡ rounds) }
    ensures full { IfOk result (λ t. t.room ≡ 0) }
    ensures valid { IfOk result (λ t. IsValid set.now scale (set.now.horizon * scale) (set.now.horizon * scale) (all_rows t.lanes)) }
{
    let processors = set.processors();
    let mut rows = blank_rows(alloc, processors)?;
    let slices = Slices::of(alloc, set, scale)?;
    let mut table = RowTable::new(alloc, processors, rounds)?;
    push_slices(&slices, &mut rows, &mut table);
    table.know_whole();
    Ok(table)
}
