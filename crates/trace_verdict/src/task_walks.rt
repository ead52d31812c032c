//! What has gone by of the rows of one task, where the rows of all tasks go by in the order of time.
ghost use Rattle.std.specs.Prelude.{ℕ, ◌≡◌, ◌≢◌, ◌∷◌, [], ◌+◌, ◌-◌, ◌*◌, ◌^◌, ◌<◌, ◌≤◌, ◌&&◌, max, List, length, Some, false, IsTrue, IfSome};
ghost use Rattle.sched_base.specs.Counting.{bit};
ghost use Rattle.sched_base.specs.declared.rows.Row.{Row};
ghost use Rattle.trace_verdict.specs.Faults.{row_at};
ghost use Rattle.trace_verdict.specs.Findings.{is_preemption, is_migration, IsRowIn};
ghost use Rattle.trace_verdict.specs.Orders.{task_key};
ghost use Rattle.trace_verdict.specs.Supplied.{StandsAt};
ghost use Rattle.trace_verdict.specs.Supply.{AreLawful, bound_at, ended_by};
ghost use Rattle.trace_verdict.specs.Tally.{Goes};
ghost use Rattle.trace_verdict.specs.Timed.{walk_of, tally_of, finished, Tallied, IsReady, IsPaced, BeginsIn, IsNear, HasGone, EndsAs};

use crate::clock::Clock;
use crate::findings::Findings;
use crate::orders::task_key;
use crate::row_list::RowList;
use crate::supply::Periods;
use crate::tally::{Tally, is_migration, is_preemption, one_if};
use crate::walks::Walk;
use sched_base::{Leaf, Row};

/// The periods of a task, what is known at the last of so many of its rows, and how many may go by: none where the task begins
/// after the end of the schedule.
#[derive(Drop)]
pub(crate) struct TaskWalk {
    pub periods: Periods,
    /// Where the last row ends, and the ticks that were done by then.
    pub tick: u128,
    pub done: u128,
    /// The period of the last row's last tick, and what is due by its end.
    pub begin: u128,
    pub next: u128,
    pub owed: u128,
    pub before: Row,
    pub found: Findings,
    pub count: u32,
    pub limit: u32,
}

/// The period that a row lies in, what is due by its end, and whether it is that of the last row.
#[derive(Clone, Copy)]
pub(crate) struct Near {
    pub begin: u128,
    pub next: u128,
    pub owed: u128,
    pub same: bool,
}

// How many rows may go by.
fn most_rows(periods: &Periods) -> u32
    ensures { periods.now.stop < periods.now.base → result ≡ 0 }
{
    if periods.stop < periods.base {
        0
    } else {
        u32::MAX
    }
}

impl Near {
    // The period of this number.
    fn numbered(periods: &Periods, number: u128) -> Near
        requires lawful { AreLawful periods.now }
        requires fits { bound_at periods.now number < 2 ^ 127 }
        ensures begin { result.begin ≡ bound_at periods.now number }
        ensures next { result.next ≡ result.begin + periods.now.period }
        ensures owed { result.owed ≡ (number + 1) * periods.now.due }
    {
        let begin = periods.base + number * periods.period;
        Near {
            begin,
            next: begin + periods.period,
            owed: (number + 1) * periods.due,
            same: false,
        }
    }

    // The ticks from the period's begin to this tick, where the period ends by the end of the schedule.
    #[inline(always)]
    fn finished(&self, stop: u128, tick: u128) -> u128
        requires { self.now.begin ≤ tick }
        ensures { result ≡ finished self.now stop tick }
    {
        if self.next <= stop {
            tick - self.begin
        } else {
            0
        }
    }
}

impl TaskWalk {
    /// No row has gone by.
    pub(crate) fn new(periods: &Periods) -> TaskWalk
        requires lawful { AreLawful periods.now }
        ensures periods { result.periods ≡ periods.now }
        ensures gone { (rows : List Row) (j : ℕ) → HasGone rows j result }
    {
        TaskWalk {
            periods: *periods,
            tick: periods.base,
            done: 0,
            begin: 0,
            next: 0,
            owed: 0,
            before: Row {
                processor: 0,
                start: 0,
                end: 0,
                leaf: Leaf::Idle(0),
            },
            found: Findings::none(),
            count: 0,
            limit: most_rows(periods),
        }
    }

    // The walk that has gone past the same rows.
    fn walk(&self) -> Walk
        requires lawful { AreLawful self.now.periods }
        requires begun { self.now.periods.base ≤ self.now.tick }
        ensures { result ≡ walk_of self.now }
    {
        let mut clock = Clock::new(self.periods.base, self.periods.period);
        let _number = clock.seek(self.tick);
        Walk {
            clock,
            tick: self.tick,
            done: self.done,
        }
    }

    // The tally of the same rows.
    fn tally(&self) -> Tally
        requires lawful { AreLawful self.now.periods }
        requires begun { self.now.periods.base < self.now.before.end }
        ensures { result ≡ tally_of self.now }
    {
        let mut clock = Clock::new(self.periods.base, self.periods.period);
        let last = clock.seek(self.before.end - 1);
        let ended = self.periods.stop.saturating_sub(self.periods.base) / self.periods.period;
        Tally {
            clock,
            before: self.before,
            last,
            ended,
            found: self.found,
        }
    }

    // The tally of the same rows and one more.
    fn tally_with(&self, row: &Row) -> Tally
        requires lawful { AreLawful self.now.periods }
        requires row { IsRowIn self.now.periods row.now }
        requires begun { self.now.count ≢ 0 → self.now.periods.base < self.now.before.end }
        requires few_preempted { self.now.count ≢ 0 → self.now.found.preemptions < 2 ^ 63 }
        requires few_moved { self.now.count ≢ 0 → self.now.found.migrations < 2 ^ 63 }
        ensures first { self.now.count ≡ 0 → Tallied self.now.periods (row.now ∷ []) result }
        ensures later { self.now.count ≢ 0 → Goes self.now.periods (row.now ∷ []) (tally_of self.now) result }
        ensures before { result.before ≡ row.now }
        ensures last { result.last ≡ ended_by self.now.periods (row.now.end - 1) }
    {
        if self.count == 0 {
            return Tally::new(&self.periods, row);
        }
        let mut tally = self.tally();
        tally.step(&self.periods, row);
        tally
    }

    // The row goes by, wherever it lies.
    #[inline(never)]
    fn step_far(&mut self, _rows: &RowList, task: u32, place: usize, row: &Row) -> bool
        requires gone { HasGone _rows.now task self.old }
        requires begun { self.old.periods.base ≤ self.old.periods.stop }
        requires room { self.old.count < self.old.limit }
        requires within { place < length _rows.now }
        requires row { row.now ≡ row_at _rows.now place }
        ensures periods { self.new.periods ≡ self.old.periods }
        ensures gone { IsTrue result → HasGone _rows.now task self.new }
    {
        let mut walk = self.walk();
        if !walk.step(&self.periods, task, row) {
            return false;
        }
        let tally = self.tally_with(row);
        let near = Near::numbered(&self.periods, tally.last);
        self.tick = walk.tick;
        self.done = walk.done;
        self.begin = near.begin;
        self.next = near.next;
        self.owed = near.owed;
        self.before = tally.before;
        self.found = tally.found;
        self.count += 1;
        true
    }

    // The period that has this tick, where it is that of the last row, or the next one and what was due is done.
    #[inline(always)]
    fn period_of(&self, tick: u128) -> Option<Near>
        requires lawful { AreLawful self.now.periods }
        requires stands { StandsAt self.now.periods (walk_of self.now) }
        requires paced { IsPaced self.now }
        requires apart { self.now.tick ≤ tick }
        requires ends { tick < self.now.periods.stop }
        ensures { IfSome result (BeginsIn self.now tick) }
    {
        if tick < self.next {
            return Some(Near {
                begin: self.begin,
                next: self.next,
                owed: self.owed,
                same: true,
            });
        }
        if self.done != self.owed || tick - self.next >= self.periods.period {
            return None;
        }
        Some(Near {
            begin: self.next,
            next: self.next + self.periods.period,
            owed: self.owed + self.periods.due,
            same: false,
        })
    }

    // The period that a row lies in, which may end with it.
    #[inline(always)]
    fn near(&self, row: &Row) -> Option<Near>
        requires lawful { AreLawful self.now.periods }
        requires stands { StandsAt self.now.periods (walk_of self.now) }
        requires paced { IsPaced self.now }
        requires apart { self.now.tick ≤ row.now.start }
        requires long { row.now.start < row.now.end }
        requires ends { row.now.end ≤ self.now.periods.stop }
        ensures { IfSome result (IsNear self.now row.now) }
    {
        let near = self.period_of(row.start)?;
        let done = self.done + (row.end - row.start);
        if row.end < near.next {
            return Some(near);
        }
        if done == near.owed && row.end == near.next {
            return Some(near);
        }
        None
    }

    // What is found once a row more has gone by, which lies in this period.
    #[inline(always)]
    fn found_with(&self, row: &Row, near: &Near) -> Findings
        requires few_preempted { self.now.found.preemptions < 2 ^ 63 }
        requires few_moved { self.now.found.migrations < 2 ^ 63 }
        requires begun { near.now.begin ≤ row.now.end }
        ensures preemptions { result.preemptions ≡ self.now.found.preemptions + bit (near.now.same && is_preemption self.now.before row.now) }
        ensures migrations { result.migrations ≡ self.now.found.migrations + bit (near.now.same && is_migration self.now.before row.now) }
        ensures response { result.response ≡ max self.now.found.response (finished near.now self.now.periods.stop row.now.end) }
    {
        let preempted = is_preemption(&self.before, row);
        let moved = is_migration(&self.before, row);
        let finished = near.finished(self.periods.stop, row.end);
        Findings {
            preemptions: self.found.preemptions + one_if(near.same & preempted),
            migrations: self.found.migrations + one_if(near.same & moved),
            response: self.found.response.max(finished),
        }
    }

    // The row goes by, which lies in this period.
    #[inline(always)]
    fn step_near(&mut self, _rows: &RowList, _task: u32, _place: usize, row: &Row, near: &Near)
        requires gone { HasGone _rows.now _task self.old }
        requires some { 0 < self.old.count }
        requires room { self.old.count < self.old.limit }
        requires within { _place < length _rows.now }
        requires row { row.now ≡ row_at _rows.now _place }
        requires key { task_key row.now ≡ Some _task }
        requires apart { self.old.tick ≤ row.now.start }
        requires long { row.now.start < row.now.end }
        requires ends { row.now.end ≤ self.old.periods.stop }
        requires small { self.old.done ≤ row.now.start }
        requires fits { row.now.end < 2 ^ 127 }
        requires few_preempted { self.old.found.preemptions < 2 ^ 63 }
        requires few_moved { self.old.found.migrations < 2 ^ 63 }
        requires near { IsNear self.old row.now near.now }
        ensures periods { self.new.periods ≡ self.old.periods }
        ensures gone { HasGone _rows.now _task self.new }
    {
        self.found = self.found_with(row, near);
        self.tick = row.end;
        self.done += row.end - row.start;
        self.begin = near.begin;
        self.next = near.next;
        self.owed = near.owed;
        self.before = *row;
        self.count += 1;
    }

    // Whether a row that begins in this period ends in the next one, and has what is due by then where that begins.
    #[inline(always)]
    fn crosses(&self, row: &Row, near: &Near) -> bool
        requires lawful { AreLawful self.now.periods }
        requires begins { BeginsIn self.now row.now.start near.now }
        requires ends { row.now.end ≤ self.now.periods.stop }
        requires small { self.now.done ≤ row.now.start }
        ensures past { IsTrue result → near.now.next < row.now.end }
        ensures within { IsTrue result → row.now.end < near.now.next + self.now.periods.period }
        ensures due { IsTrue result → self.now.done + (near.now.next - row.now.start) ≡ near.now.owed }
    {
        near.next < row.end
            && row.end - near.next < self.periods.period
            && self.done + (near.next - row.start) == near.owed
    }

    // The row goes by, where it begins in the period of the last row or in the next one, and ends in the one after that.
    #[inline(never)]
    fn step_over(&mut self, _rows: &RowList, _task: u32, _place: usize, row: &Row) -> bool
        requires gone { HasGone _rows.now _task self.old }
        requires some { 0 < self.old.count }
        requires room { self.old.count < self.old.limit }
        requires within { _place < length _rows.now }
        requires row { row.now ≡ row_at _rows.now _place }
        requires key { task_key row.now ≡ Some _task }
        requires apart { self.old.tick ≤ row.now.start }
        requires long { row.now.start < row.now.end }
        requires ends { row.now.end ≤ self.old.periods.stop }
        requires lawful { AreLawful self.old.periods }
        requires stands { StandsAt self.old.periods (walk_of self.old) }
        requires paced { IsPaced self.old }
        requires few_preempted { self.old.found.preemptions < 2 ^ 63 }
        requires few_moved { self.old.found.migrations < 2 ^ 63 }
        ensures periods { self.new.periods ≡ self.old.periods }
        ensures gone { HasGone _rows.now _task self.new }
        ensures same { result ≡ false → self.new ≡ self.old }
    {
        let Some(near) = self.period_of(row.start) else {
            return false;
        };
        if !self.crosses(row, &near) {
            return false;
        }
        self.found = Findings {
            preemptions: self.found.preemptions
                + one_if(near.same & is_preemption(&self.before, row)),
            migrations: self.found.migrations + one_if(near.same & is_migration(&self.before, row)),
            response: self.found.response.max(self.periods.period),
        };
        self.tick = row.end;
        self.done += row.end - row.start;
        self.begin = near.next;
        self.next = near.next + self.periods.period;
        self.owed = near.owed + self.periods.due;
        self.before = *row;
        self.count += 1;
        true
    }

    /// The row at this place goes by, where it is one of the task, begins no sooner than the last one has ended, and keeps to
    /// what is due.
    pub(crate) fn step(&mut self, _rows: &RowList, task: u32, place: usize, row: &Row) -> bool
        requires gone { HasGone _rows.now task self.old }
        requires within { place < length _rows.now }
        requires row { row.now ≡ row_at _rows.now place }
        ensures periods { self.new.periods ≡ self.old.periods }
        ensures gone { IsTrue result → HasGone _rows.now task self.new }
    {
        if self.count >= self.limit || task_key(row) != Some(task) {
            return false;
        }
        if row.start < self.tick || row.end <= row.start || row.end > self.periods.stop {
            return false;
        }
        // In the period of the last row little changes: each of both ways is compiled by itself.
        if self.count > 0 {
            if row.start < self.next {
                if let Some(near) = self.near(row) {
                    self.step_near(_rows, task, place, row, &near);
                    return true;
                }
            } else if let Some(near) = self.near(row) {
                self.step_near(_rows, task, place, row, &near);
                return true;
            }
        }
        // What is called by its address is a copy, so that the row itself stays in registers.
        let other = *row;
        if self.count > 0 && self.step_over(_rows, task, place, &other) {
            return true;
        }
        self.step_far(_rows, task, place, &other)
    }

    /// What the rows that went by tell, where they give each period its due.
    pub(crate) fn ends(&self) -> Option<Findings>
        requires ready { IsReady self.now }
        ensures { (rows : List Row) (j : ℕ) → HasGone rows j self.now → IfSome result (EndsAs self.now.periods rows j self.now.count) }
    {
        if self.periods.stop < self.periods.base {
            return Some(self.found);
        }
        let mut walk = self.walk();
        if walk.ends(&self.periods) {
            Some(self.found)
        } else {
            None
        }
    }
}
