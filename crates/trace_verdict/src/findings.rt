//! What the rows of a task tell of its jobs.
ghost use Rattle.std.specs.Prelude.{[], ◌∷◌, ◌<◌, ◌^◌, length, map};
ghost use Rattle.trace_verdict.specs.declared.supply.Periods.{Periods};
ghost use Rattle.trace_verdict.specs.Faults.{row_at};
ghost use Rattle.trace_verdict.specs.Findings.{IsRowIn, AreInPeriods, IsTold};

use crate::fetching::{fetch, next_part, no_rows};
use crate::row_list::RowList;
use crate::supply::Periods;
use crate::tally::Tally;
use sched_base::Row;

/// What the rows of a task tell of its jobs.
#[derive(Clone, Copy)]
pub struct Findings {
    /// How often a job was set aside and went on later.
    pub preemptions: u64,
    /// How often a job went on on another processor.
    pub migrations: u64,
    /// The most ticks from the start of a period that ends by the end of the schedule to when its job was done.
    pub response: u128,
}

impl Findings {
    /// What no rows tell.
    pub(crate) fn none() -> Findings
        ensures { (p : Periods) → IsTold p [] result }
    {
        Findings {
            preemptions: 0,
            migrations: 0,
            response: 0,
        }
    }
}

// What the rows at these places tell, of which the first is given.
fn findings_from(periods: &Periods, rows: &RowList, first: &Row, places: &[u32]) -> Findings
    requires first { IsRowIn periods.now first.now }
    requires rows { AreInPeriods periods.now rows.now places.now }
    requires some { 0 < periods.now.period }
    requires few { length places.now < 2 ^ 32 }
    ensures { IsTold periods.now (first.now ∷ map (row_at rows.now) places.now) result }
{
    let mut tally = Tally::new(periods, first);
    let mut part = no_rows();
    let mut left = places;
    while !left.is_empty() {
        let (now, later) = next_part(left);
        fetch(&mut part, rows, now);
        tally.steps(periods, &part[..now.len()]);
        left = later;
    }
    tally.found
}

/// What the rows at these places tell: those of one task, in the order of time, apart.
pub fn findings_at(periods: &Periods, rows: &RowList, places: &[u32]) -> Findings
    requires rows { AreInPeriods periods.now rows.now places.now }
    requires some { 0 < periods.now.period }
    requires few { length places.now < 2 ^ 32 }
    ensures { IsTold periods.now (map (row_at rows.now) places.now) result }
{
    match places.split_first() {
        Some((first, later)) => findings_from(periods, rows, &rows.get(*first as usize), later),
        None => Findings::none(),
    }
}
