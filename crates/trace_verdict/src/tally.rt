//! A tally of what the rows of a task tell of its jobs, in the order of time.
ghost use Rattle.std.specs.Prelude.{◌≡◌, ◌+◌, ◌-◌, ◌<◌, ◌≤◌, ◌^◌, ◌&&◌, ◌==◌, [], ◌∷◌, length};
ghost use Rattle.std.specs.List.{AllByRecursion};
ghost use Rattle.sched_base.specs.Counting.{bit};
ghost use Rattle.trace_verdict.specs.Supply.{bound_at, ended_by};
ghost use Rattle.trace_verdict.specs.Findings.{is_preemption, is_migration, row_response, IsRowIn, IsTold};
ghost use Rattle.trace_verdict.specs.Tally.{KeepsPace, Goes};

use crate::clock::Clock;
use crate::findings::Findings;
use crate::supply::Periods;
use sched_base::Row;

/// What was found of the rows gone through, the last of them, the number of the period of its last tick, and how many periods
/// end by the end of the schedule.
#[derive(Drop)]
pub(crate) struct Tally {
    pub clock: Clock,
    pub before: Row,
    pub last: u128,
    pub ended: u128,
    pub found: Findings,
}

pub(crate) fn one_if(test: bool) -> u64
    ensures { result ≡ bit test }
{
    if test { 1 } else { 0 }
}

pub(crate) fn is_preemption(before: &Row, row: &Row) -> bool
    ensures { result ≡ is_preemption before.now row.now }
{
    before.end < row.start
}

pub(crate) fn is_migration(before: &Row, row: &Row) -> bool
    ensures { result ≡ is_migration before.now row.now }
{
    before.processor != row.processor
}

// The response of a row, by the numbers of the periods of its first and its last tick and the begin of the last.
fn response_of(
    periods: &Periods,
    ended: u128,
    row: &Row,
    first: u128,
    last: u128,
    begin: u128,
) -> u128
    requires long { row.now.start < row.now.end }
    requires ended { ended ≡ ended_by periods.now periods.now.stop }
    requires first { first ≡ ended_by periods.now row.now.start }
    requires last { last ≡ ended_by periods.now (row.now.end - 1) }
    requires begin { begin ≡ bound_at periods.now last }
    requires within { begin ≤ row.now.end }
    ensures { result ≡ row_response periods.now row.now }
{
    let crossed = if first < last { periods.period } else { 0 };
    let finished = if last < ended { row.end - begin } else { 0 };
    crossed.max(finished)
}

/// What is told of one row: the numbers of the periods of its first and of its last tick, and its response.
#[derive(Clone, Copy)]
struct Seen {
    first: u128,
    last: u128,
    response: u128,
}

fn see(clock: &mut Clock, periods: &Periods, ended: u128, row: &Row) -> Seen
    requires some { 0 < periods.now.period }
    requires base { clock.old.base ≡ periods.now.base }
    requires span { clock.old.span ≡ periods.now.period }
    requires ended { ended ≡ ended_by periods.now periods.now.stop }
    requires row { IsRowIn periods.now row.now }
    ensures first { result.first ≡ ended_by periods.now row.now.start }
    ensures last { result.last ≡ ended_by periods.now (row.now.end - 1) }
    ensures response { result.response ≡ row_response periods.now row.now }
    ensures base { clock.new.base ≡ periods.now.base }
    ensures span { clock.new.span ≡ periods.now.period }
{
    let first = clock.seek(row.start);
    let last = clock.seek(row.end - 1);
    let response = response_of(periods, ended, row, first, last, clock.begin());
    Seen {
        first,
        last,
        response,
    }
}

impl Tally {
    /// A tally that begins with this row.
    pub(crate) fn new(periods: &Periods, row: &Row) -> Tally
        requires some { 0 < periods.now.period }
        requires row { IsRowIn periods.now row.now }
        ensures pace { KeepsPace periods.now result }
        ensures before { result.before ≡ row.now }
        ensures preemptions { result.found.preemptions ≡ 0 }
        ensures migrations { result.found.migrations ≡ 0 }
        ensures response { result.found.response ≡ row_response periods.now row.now }
    {
        let ended = periods.stop.saturating_sub(periods.base) / periods.period;
        let mut clock = Clock::new(periods.base, periods.period);
        let seen = see(&mut clock, periods, ended, row);
        Tally {
            clock,
            before: *row,
            last: seen.last,
            ended,
            found: Findings {
                preemptions: 0,
                migrations: 0,
                response: seen.response,
            },
        }
    }

    /// Goes through one row.
    pub(crate) fn step(&mut self, periods: &Periods, row: &Row)
        requires pace { KeepsPace periods.now self.old }
        requires row { IsRowIn periods.now row.now }
        requires few_preempted { self.old.found.preemptions < 2 ^ 63 }
        requires few_moved { self.old.found.migrations < 2 ^ 63 }
        ensures goes { Goes periods.now (row.now ∷ []) self.old self.new }
        ensures before { self.new.before ≡ row.now }
    {
        let seen = see(&mut self.clock, periods, self.ended, row);
        let goes_on = self.last == seen.first;
        let preempted = goes_on && is_preemption(&self.before, row);
        let moved = goes_on && is_migration(&self.before, row);
        self.found.preemptions += one_if(preempted);
        self.found.migrations += one_if(moved);
        self.found.response = self.found.response.max(seen.response);
        self.last = seen.last;
        self.before = *row;
    }

    /// Goes through these rows.
    pub(crate) fn steps(&mut self, periods: &Periods, rows: &[Row])
        requires pace { KeepsPace periods.now self.old }
        requires rows { AllByRecursion (IsRowIn periods.now) rows.now }
        requires few_preempted { self.old.found.preemptions + length rows.now < 2 ^ 63 }
        requires few_moved { self.old.found.migrations + length rows.now < 2 ^ 63 }
        ensures { Goes periods.now rows.now self.old self.new }
    {
        for row in rows {
            self.step(periods, row);
        }
    }
}
