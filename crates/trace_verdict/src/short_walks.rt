//! What has gone by of the rows of one task, in numbers of 64 bits: as `TaskWalk`, which takes the rows for which they don't do.
ghost use Rattle.std.specs.Prelude.{◌≡◌, ◌+◌, ◌-◌, ◌^◌, ◌<◌, ◌≤◌, length, Some, false, IsTrue, IfSome};
ghost use Rattle.trace_verdict.specs.Faults.{row_at};
ghost use Rattle.trace_verdict.specs.Findings.{is_preemption, is_migration};
ghost use Rattle.trace_verdict.specs.Orders.{task_key};
ghost use Rattle.trace_verdict.specs.RowLists.{row_for};
ghost use Rattle.trace_verdict.specs.ShortWalks.{wide_of, near_of};
ghost use Rattle.trace_verdict.specs.Supplied.{StandsAt};
ghost use Rattle.trace_verdict.specs.Supply.{AreLawful};
ghost use Rattle.trace_verdict.specs.Timed.{walk_of, finished, IsPaced, BeginsIn, IsNear, HasGone};

use crate::findings::Findings;
use crate::row_list::{RowList, ShortRow, short_for};
use crate::supply::Periods;
use crate::tally::one_if;
use crate::task_walks::TaskWalk;

/// What a `TaskWalk` keeps, where each number has 64 bits.
#[derive(Clone, Copy)]
pub(crate) struct ShortWalk {
    /// The first period's begin, the ticks of each and what is due in it, and the end of the schedule.
    pub base: u64,
    pub period: u64,
    pub due: u64,
    pub stop: u64,
    /// Where the last row ends, and the ticks that were done by then.
    pub tick: u64,
    pub done: u64,
    /// The period of the last row's last tick, and what is due by its end.
    pub begin: u64,
    pub next: u64,
    pub owed: u64,
    pub before: ShortRow,
    pub preemptions: u64,
    pub migrations: u64,
    pub response: u64,
    pub count: u32,
    pub limit: u32,
}

/// The period that a tick lies in, what is due by its end, and whether it is that of the last row.
#[derive(Clone, Copy)]
pub(crate) struct ShortNear {
    pub begin: u64,
    pub next: u64,
    pub owed: u64,
    pub same: bool,
}

// A number in 64 bits, where it has no more.
fn short(number: u128) -> Option<u64>
    ensures { IfSome result (λ n. n ≡ number) }
{
    if number <= u128::from(u64::MAX) {
        Some(number as u64)
    } else {
        None
    }
}

impl ShortNear {
    // The ticks from the period's begin to this tick, where the period ends by the end of the schedule.
    #[inline(always)]
    fn finished(&self, stop: u64, tick: u64) -> u64
        requires { self.now.begin ≤ tick }
        ensures { result ≡ finished (near_of self.now) stop tick }
    {
        if self.next <= stop {
            tick - self.begin
        } else {
            0
        }
    }
}

impl ShortWalk {
    /// The walk in numbers of 64 bits, where none has more.
    pub(crate) fn of(walk: &TaskWalk) -> Option<ShortWalk>
        ensures { IfSome result (λ w. wide_of w ≡ walk.now) }
    {
        Some(ShortWalk {
            base: short(walk.periods.base)?,
            period: short(walk.periods.period)?,
            due: short(walk.periods.due)?,
            stop: short(walk.periods.stop)?,
            tick: short(walk.tick)?,
            done: short(walk.done)?,
            begin: short(walk.begin)?,
            next: short(walk.next)?,
            owed: short(walk.owed)?,
            before: short_for(&walk.before)?,
            preemptions: walk.found.preemptions,
            migrations: walk.found.migrations,
            response: short(walk.found.response)?,
            count: walk.count,
            limit: walk.limit,
        })
    }

    /// The walk in numbers of any size.
    pub(crate) fn wide(&self) -> TaskWalk
        ensures { result ≡ wide_of self.now }
    {
        TaskWalk {
            periods: Periods {
                base: u128::from(self.base),
                period: u128::from(self.period),
                due: u128::from(self.due),
                stop: u128::from(self.stop),
            },
            tick: u128::from(self.tick),
            done: u128::from(self.done),
            begin: u128::from(self.begin),
            next: u128::from(self.next),
            owed: u128::from(self.owed),
            before: self.before.row(),
            found: Findings {
                preemptions: self.preemptions,
                migrations: self.migrations,
                response: u128::from(self.response),
            },
            count: self.count,
            limit: self.limit,
        }
    }

    // The period that has this tick, where it is that of the last row, or the next one and what was due is done.
    #[inline(always)]
    fn period_of(&self, tick: u64) -> Option<ShortNear>
        requires lawful { AreLawful (wide_of self.now).periods }
        requires stands { StandsAt (wide_of self.now).periods (walk_of (wide_of self.now)) }
        requires paced { IsPaced (wide_of self.now) }
        requires apart { self.now.tick ≤ tick }
        ensures { IfSome result (λ n. BeginsIn (wide_of self.now) tick (near_of n)) }
    {
        if tick < self.next {
            return Some(ShortNear {
                begin: self.begin,
                next: self.next,
                owed: self.owed,
                same: true,
            });
        }
        if self.done != self.owed || tick - self.next >= self.period {
            return None;
        }
        let next = self.next.checked_add(self.period)?;
        let owed = self.owed.checked_add(self.due)?;
        Some(ShortNear {
            begin: self.next,
            next,
            owed,
            same: false,
        })
    }

    // Whether a row that begins in this period ends in it too, and has what is due where it ends with it.
    #[inline(always)]
    fn is_near(&self, row: &ShortRow, end: u64, near: &ShortNear) -> bool
        requires lawful { AreLawful (wide_of self.now).periods }
        requires begun { self.now.base ≤ row.now.start }
        requires begins { BeginsIn (wide_of self.now) row.now.start (near_of near.now) }
        requires end { end ≡ (row_for row.now).end }
        requires long { row.now.start < end }
        requires small { self.now.done ≤ row.now.start }
        ensures { IsTrue result → IsNear (wide_of self.now) (row_for row.now) (near_of near.now) }
    {
        if end < near.next {
            return true;
        }
        end == near.next && self.done + (end - row.start) == near.owed
    }

    // Whether the task is set aside between its last row and this one.
    #[inline(always)]
    fn is_preempted(&self, row: &ShortRow) -> bool
        requires { self.now.tick ≡ (row_for self.now.before).end }
        ensures { result ≡ is_preemption (row_for self.now.before) (row_for row.now) }
    {
        self.tick < row.start
    }

    // Whether the task moves from its last row to this one.
    #[inline(always)]
    fn is_moved(&self, row: &ShortRow) -> bool
        ensures { result ≡ is_migration (row_for self.now.before) (row_for row.now) }
    {
        self.before.processor() != row.processor()
    }

    // The row goes by, which lies in this period.
    #[inline(always)]
    fn step_near(
        &mut self,
        _rows: &RowList,
        _task: u32,
        _place: usize,
        row: &ShortRow,
        end: u64,
        near: &ShortNear,
    )
        requires gone { HasGone _rows.now _task (wide_of self.old) }
        requires some { 0 < self.old.count }
        requires room { self.old.count < self.old.limit }
        requires within { _place < length _rows.now }
        requires row { row_for row.now ≡ row_at _rows.now _place }
        requires key { task_key (row_for row.now) ≡ Some _task }
        requires end { end ≡ (row_for row.now).end }
        requires apart { self.old.tick ≤ row.now.start }
        requires long { row.now.start < end }
        requires ends { end ≤ self.old.stop }
        requires small { self.old.done ≤ row.now.start }
        requires paced { self.old.tick ≡ (row_for self.old.before).end }
        requires few_preempted { self.old.preemptions < 2 ^ 63 }
        requires few_moved { self.old.migrations < 2 ^ 63 }
        requires near { IsNear (wide_of self.old) (row_for row.now) (near_of near.now) }
        ensures periods { (wide_of self.new).periods ≡ (wide_of self.old).periods }
        ensures gone { HasGone _rows.now _task (wide_of self.new) }
    {
        let preempted = near.same & self.is_preempted(row);
        let moved = near.same & self.is_moved(row);
        self.preemptions += one_if(preempted);
        self.migrations += one_if(moved);
        self.response = self.response.max(near.finished(self.stop, end));
        self.tick = end;
        self.done += end - row.start;
        self.begin = near.begin;
        self.next = near.next;
        self.owed = near.owed;
        self.before = *row;
        self.count += 1;
    }

    // Whether a row that begins in this period ends in the next one, and has what is due by then where that begins.
    #[inline(always)]
    fn crosses(&self, row: &ShortRow, end: u64, near: &ShortNear) -> bool
        requires begins { BeginsIn (wide_of self.now) row.now.start (near_of near.now) }
        requires small { self.now.done ≤ row.now.start }
        ensures past { IsTrue result → near.now.next < end }
        ensures within { IsTrue result → end < near.now.next + self.now.period }
        ensures due { IsTrue result → self.now.done + (near.now.next - row.now.start) ≡ near.now.owed }
    {
        near.next < end
            && end - near.next < self.period
            && self.done + (near.next - row.start) == near.owed
    }

    // The row goes by, which begins in this period and ends in the one after it.
    #[inline(always)]
    fn step_over(
        &mut self,
        _rows: &RowList,
        _task: u32,
        _place: usize,
        row: &ShortRow,
        end: u64,
        near: &ShortNear,
    ) -> bool
        requires gone { HasGone _rows.now _task (wide_of self.old) }
        requires some { 0 < self.old.count }
        requires room { self.old.count < self.old.limit }
        requires within { _place < length _rows.now }
        requires row { row_for row.now ≡ row_at _rows.now _place }
        requires key { task_key (row_for row.now) ≡ Some _task }
        requires end { end ≡ (row_for row.now).end }
        requires apart { self.old.tick ≤ row.now.start }
        requires long { row.now.start < end }
        requires ends { end ≤ self.old.stop }
        requires small { self.old.done ≤ row.now.start }
        requires paced { self.old.tick ≡ (row_for self.old.before).end }
        requires few_preempted { self.old.preemptions < 2 ^ 63 }
        requires few_moved { self.old.migrations < 2 ^ 63 }
        requires begins { BeginsIn (wide_of self.old) row.now.start (near_of near.now) }
        requires past { near.now.next < end }
        requires below { end < near.now.next + self.old.period }
        requires due { self.old.done + (near.now.next - row.now.start) ≡ near.now.owed }
        ensures periods { (wide_of self.new).periods ≡ (wide_of self.old).periods }
        ensures gone { IsTrue result → HasGone _rows.now _task (wide_of self.new) }
        ensures same { result ≡ false → self.new ≡ self.old }
    {
        let Some(next) = near.next.checked_add(self.period) else {
            return false;
        };
        let Some(owed) = near.owed.checked_add(self.due) else {
            return false;
        };
        let preempted = near.same & self.is_preempted(row);
        let moved = near.same & self.is_moved(row);
        self.preemptions += one_if(preempted);
        self.migrations += one_if(moved);
        self.response = self.response.max(self.period);
        self.tick = end;
        self.done += end - row.start;
        self.begin = near.next;
        self.next = next;
        self.owed = owed;
        self.before = *row;
        self.count += 1;
        true
    }

    // The row goes by, wherever it lies.
    #[inline(never)]
    fn step_far(&mut self, _rows: &RowList, task: u32, place: usize, row: &ShortRow) -> bool
        requires gone { HasGone _rows.now task (wide_of self.old) }
        requires within { place < length _rows.now }
        requires row { row_for row.now ≡ row_at _rows.now place }
        ensures periods { (wide_of self.new).periods ≡ (wide_of self.old).periods }
        ensures gone { IsTrue result → HasGone _rows.now task (wide_of self.new) }
    {
        let mut wide = self.wide();
        if !wide.step(_rows, task, place, &row.row()) {
            return false;
        }
        match ShortWalk::of(&wide) {
            Some(walk) => {
                *self = walk;
                true
            }
            None => false,
        }
    }

    // The row goes by, where it begins in the period of the last row or in the next one.
    #[inline(always)]
    fn step_close(&mut self, _rows: &RowList, task: u32, place: usize, row: &ShortRow) -> bool
        requires gone { HasGone _rows.now task (wide_of self.old) }
        requires within { place < length _rows.now }
        requires row { row_for row.now ≡ row_at _rows.now place }
        requires key { task_key (row_for row.now) ≡ Some task }
        ensures periods { (wide_of self.new).periods ≡ (wide_of self.old).periods }
        ensures gone { IsTrue result → HasGone _rows.now task (wide_of self.new) }
        ensures same { result ≡ false → self.new ≡ self.old }
    {
        if self.count == 0 || self.count >= self.limit || row.start < self.tick {
            return false;
        }
        let Some(end) = row.end_by(self.stop) else {
            return false;
        };
        if end <= row.start {
            return false;
        }
        let Some(near) = self.period_of(row.start) else {
            return false;
        };
        if self.is_near(row, end, &near) {
            self.step_near(_rows, task, place, row, end, &near);
            return true;
        }
        if !self.crosses(row, end, &near) {
            return false;
        }
        self.step_over(_rows, task, place, row, end, &near)
    }

    /// The row at this place goes by, which is one of the task, where it begins no sooner than the last one has ended and keeps to what is due.
    #[inline(always)]
    pub(crate) fn step(&mut self, _rows: &RowList, task: u32, place: usize, row: &ShortRow) -> bool
        requires gone { HasGone _rows.now task (wide_of self.old) }
        requires within { place < length _rows.now }
        requires row { row_for row.now ≡ row_at _rows.now place }
        requires key { task_key (row_for row.now) ≡ Some task }
        ensures periods { (wide_of self.new).periods ≡ (wide_of self.old).periods }
        ensures gone { IsTrue result → HasGone _rows.now task (wide_of self.new) }
    {
        if self.step_close(_rows, task, place, row) {
            return true;
        }
        self.step_far(_rows, task, place, row)
    }
}
