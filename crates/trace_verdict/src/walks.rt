//! A walk through the rows of a task in the order of time: whether they are in order, apart, and give each period its due, and
//! what they tell of its jobs.
ghost use Rattle.std.specs.Prelude.{ℕ, ◌≡◌, ◌+◌, ◌-◌, ◌<◌, ◌≤◌, ◌&&◌, List, [], ◌∷◌, Some, IsTrue, IfSome, length, map, take};
ghost use Rattle.sched_base.specs.declared.rows.Row.{Row};
ghost use Rattle.std.specs.List.{AllByRecursion};
ghost use Rattle.trace_verdict.specs.declared.supply.Periods.{Periods};
ghost use Rattle.trace_verdict.specs.Orders.{task_key};
ghost use Rattle.trace_verdict.specs.Supply.{AreLawful, gap_holds, row_holds, holds_from};
ghost use Rattle.trace_verdict.specs.Faults.{row_at};
ghost use Rattle.trace_verdict.specs.Findings.{IsRowIn, IsTold};
ghost use Rattle.trace_verdict.specs.Supplied.{IsPlaceOf, entry_for, entries_at, GoSupplied, StandsAt, GoesPast, WentThrough};

use crate::clock::Clock;
use crate::fetching::{are_within, fetch, next_part, no_rows};
use crate::findings::Findings;
use crate::orders::task_key;
use crate::row_list::RowList;
use crate::supply::{Periods, Stretch, gap_holds, row_holds};
use crate::tally::Tally;
use sched_base::Row;

/// The tick that a walk has come to, the ticks that were done by then, and a clock at the period of that tick.
#[derive(Drop)]
pub(crate) struct Walk {
    pub clock: Clock,
    pub tick: u128,
    pub done: u128,
}

impl Walk {
    // A walk at the first tick of the first period.
    pub(crate) fn new(periods: &Periods) -> Walk
        requires lawful { AreLawful periods.now }
        ensures stands { periods.now.base ≤ periods.now.stop → StandsAt periods.now result }
        ensures tick { result.tick ≡ periods.now.base }
        ensures done { result.done ≡ 0 }
    {
        Walk {
            clock: Clock::new(periods.base, periods.period),
            tick: periods.base,
            done: 0,
        }
    }

    // Goes past the ticks from `start` up to `end`, where they and the gap before them keep to what is due.
    pub(crate) fn pass(&mut self, periods: &Periods, start: u128, end: u128) -> bool
        requires lawful { AreLawful periods.now }
        requires stands { StandsAt periods.now self.old }
        requires apart { self.old.tick ≤ start }
        requires long { start < end }
        requires ends { end ≤ periods.now.stop }
        ensures due { result ≡ (gap_holds periods.now self.old.done self.old.tick start && row_holds periods.now self.old.done start end) }
        ensures stands { IsTrue result → StandsAt periods.now self.new }
        ensures tick { IsTrue result → self.new.tick ≡ end }
        ensures done { IsTrue result → self.new.done ≡ self.old.done + (end - start) }
    {
        let ended = self.clock.number();
        let before = self.clock.seek(start);
        let gap = Stretch {
            from: self.tick,
            to: start,
            before: ended,
            after: before,
        };
        if !gap_holds(periods, self.done, &gap) {
            return false;
        }
        let after = self.clock.seek(end);
        let ticks = Stretch {
            from: start,
            to: end,
            before,
            after,
        };
        if !row_holds(periods, self.done, &ticks) {
            return false;
        }
        self.done += end - start;
        self.tick = end;
        true
    }

    /// Goes past a row, where it is one of the task, begins no sooner than the last one has ended, and keeps to what is due.
    pub(crate) fn step(&mut self, periods: &Periods, task: u32, row: &Row) -> bool
        requires lawful { AreLawful periods.now }
        requires stands { StandsAt periods.now self.old }
        ensures key { IsTrue result → task_key row.now ≡ Some task }
        ensures row { IsTrue result → IsRowIn periods.now row.now }
        ensures past { IsTrue result → (place : ℕ) → GoesPast periods.now (entry_for task row.now place ∷ []) self.old self.new }
        ensures tick { IsTrue result → self.new.tick ≡ row.now.end }
    {
        if task_key(row) != Some(task) {
            return false;
        }
        if row.start < self.tick || row.end <= row.start || row.end > periods.stop {
            return false;
        }
        self.pass(periods, row.start, row.end)
    }

    // Goes past the rows at these places, at most as many as `part` has room for.
    fn steps(
        &mut self,
        periods: &Periods,
        task: u32,
        rows: &RowList,
        part: &mut [Row],
        places: &[u32],
    ) -> bool
        requires lawful { AreLawful periods.now }
        requires room { length places.now ≤ length part.old }
        requires stands { StandsAt periods.now self.old }
        ensures own { IsTrue result → AllByRecursion (IsPlaceOf rows.now task) places.now }
        ensures past { IsTrue result → GoesPast periods.now (entries_at rows.now task places.now) self.old self.new }
        ensures room { length part.new ≡ length part.old }
        ensures fetched { IsTrue result → take (length places.now) part.new ≡ map (row_at rows.now) places.now }
        ensures rows { IsTrue result → AllByRecursion (IsRowIn periods.now) (map (row_at rows.now) places.now) }
    {
        if !are_within(places, rows.len()) {
            return false;
        }
        fetch(part, rows, places);
        for i in 0..places.len() {
            if !self.step(periods, task, &part[i]) {
                return false;
            }
        }
        true
    }

    // Whether what was done is what is due by the end of the schedule.
    pub(crate) fn ends(&mut self, periods: &Periods) -> bool
        requires lawful { AreLawful periods.now }
        requires stands { StandsAt periods.now self.old }
        ensures { result ≡ holds_from periods.now self.old.done self.old.tick [] }
    {
        let ended = self.clock.number();
        let last = self.clock.seek(periods.stop);
        let gap = Stretch {
            from: self.tick,
            to: periods.stop,
            before: ended,
            after: last,
        };
        gap_holds(periods, self.done, &gap) && self.done <= (last + 1) * periods.due
    }
}

// Walks over all places, of which the first is given, where a period begins by the end of the schedule, and what the rows
// there tell of the task's jobs.
fn walk_on(
    periods: &Periods,
    task: u32,
    rows: &RowList,
    first: u32,
    places: &[u32],
) -> Option<Findings>
    requires lawful { AreLawful periods.now }
    requires begun { periods.now.base ≤ periods.now.stop }
    ensures { IfSome result (WentThrough periods.now rows.now task (first ∷ places.now)) }
{
    if first as usize >= rows.len() {
        return None;
    }
    let row = rows.get(first as usize);
    let mut walk = Walk::new(periods);
    if !walk.step(periods, task, &row) {
        return None;
    }
    let mut tally = Tally::new(periods, &row);
    let mut part = no_rows();
    let mut left = places;
    while !left.is_empty() {
        let (now, later) = next_part(left);
        if !walk.steps(periods, task, rows, &mut part, now) {
            return None;
        }
        tally.steps(periods, &part[..now.len()]);
        left = later;
    }
    if walk.ends(periods) {
        Some(tally.found)
    } else {
        None
    }
}

// What is found of a task without rows.
fn walk_none(periods: &Periods) -> Option<Findings>
    requires lawful { AreLawful periods.now }
    requires begun { periods.now.base ≤ periods.now.stop }
    ensures { (rows : List Row) (j : ℕ) → IfSome result (WentThrough periods.now rows j []) }
{
    if Walk::new(periods).ends(periods) {
        Some(Findings::none())
    } else {
        None
    }
}

// What is found of a task whose rows stand at these places.
fn walk_all(periods: &Periods, task: u32, rows: &RowList, places: &[u32]) -> Option<Findings>
    requires lawful { AreLawful periods.now }
    requires begun { periods.now.base ≤ periods.now.stop }
    ensures { IfSome result (WentThrough periods.now rows.now task places.now) }
{
    match places.split_first() {
        Some((first, later)) => walk_on(periods, task, rows, *first, later),
        None => walk_none(periods),
    }
}

/// What the rows at these places tell of the task's jobs, where they are the task's, in the order of time, apart, and give each
/// of its periods its due. Else nothing.
pub(crate) fn go_supplied(
    periods: &Periods,
    task: u32,
    rows: &RowList,
    places: &[u32],
) -> Option<Findings>
    requires lawful { AreLawful periods.now }
    ensures supplied { IfSome result (λ _. GoSupplied periods.now rows.now task places.now) }
    ensures told { IfSome result (IsTold periods.now (map (row_at rows.now) places.now)) }
{
    if periods.stop < periods.base {
        return none_at(places);
    }
    walk_all(periods, task, rows, places)
}

// What no rows tell, where there are none.
fn none_at(places: &[u32]) -> Option<Findings>
    ensures none { IfSome result (λ _. places.now ≡ []) }
    ensures told { IfSome result (λ found. (p : Periods) → IsTold p [] found) }
{
    if places.is_empty() {
        Some(Findings::none())
    } else {
        None
    }
}
