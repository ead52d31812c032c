//! Rounds that come again, lap after lap.
ghost use Rattle.std.specs.Prelude.{ℕ, ◌≡◌, ◌<◌, ◌≤◌, ◌+◌, ◌*◌, ◌^◌, ◌++◌, ◌∷◌, [], length, min, IfErr, IfOk, None, slice_index, slice_index_or};
ghost use Rattle.run_tree.specs.Plans.{IsPlan, stop_of};
ghost use Rattle.event_core.specs.Counts.{IsCountFault};
ghost use Rattle.merged_rounds.specs.Laps.{IsLapAgain, IsLapFrom, IsSumUpTo, lap_end, round_start};
ghost use Rattle.merged_rounds.specs.Replays.{IsSourceOf};

use crate::looks::look_all;
use crate::sources::Source;
use crate::sums::{RoundSum, add_round};
use event_core::CountFault;
use run_tree::Plan;
use sched_base::{Leaf, NoMemory};
use std::alloc::Global;

/// Rounds that follow one another: where each ends, and what each processor shows in each.
#[derive(Drop)]
pub(crate) struct Lap {
    pub(crate) ends: Vec<u128>,
    pub(crate) told: Vec<Option<Leaf>>,
}

/// From when on rounds come again, and how many ticks later.
#[derive(Clone, Copy)]
pub(crate) struct Later {
    pub(crate) from: u128,
    pub(crate) ticks: u128,
}

/// No round yet.
pub(crate) fn no_lap(alloc: Global) -> Lap
    ensures ends { result.ends.items ≡ [] }
    ensures told { result.told.items ≡ [] }
{
    Lap {
        ends: Vec::new(alloc),
        told: Vec::new(alloc),
    }
}

impl Lap {
    // One round more, up to tick `end`.
    fn keep_round(&mut self, end: u128, told: &[Option<Leaf>]) -> Result<(), NoMemory>
        ensures ends { IfOk result (λ _. self.new.ends.items ≡ self.old.ends.items ++ end ∷ []) }
        ensures told { IfOk result (λ _. self.new.told.items ≡ self.old.told.items ++ told.now) }
    {
        self.ends.push(end)?;
        self.told.extend_from_slice(told)?;
        Ok(())
    }
}

/// Goes on with rounds up to the first that begins at tick `until` or later, and keeps them as a lap, of no round yet. The list `told` is
/// overwritten.
pub(crate) fn merge_lap(
    plan: &Plan,
    source: &mut Source,
    told: &mut [Option<Leaf>],
    sum: &mut RoundSum,
    lap: &mut Lap,
    until: u128,
) -> Result<(), CountFault>
    requires belongs { IsSourceOf plan.now source.old }
    requires sum { IsSumUpTo plan.now source.old.tick sum.old }
    requires told { length told.old ≡ plan.now.tree.processors }
    requires ends { lap.old.ends.items ≡ [] }
    requires none { lap.old.told.items ≡ [] }
    requires until { until ≤ stop_of plan.now }
    ensures belongs { IfOk result (λ _. IsSourceOf plan.now source.new) }
    ensures sum { IfOk result (λ _. IsSumUpTo plan.now source.new.tick sum.new) }
    ensures lap { IfOk result (λ _. IsLapFrom plan.now source.old.tick lap.new) }
    ensures end { IfOk result (λ _. lap_end source.old.tick lap.new ≡ source.new.tick) }
    ensures fault { IfErr result (λ fault. IsCountFault plan.now fault) }
{
    'rounds: while source.now() < until {
        let start = source.now();
        source.go(plan);
        look_all(plan, source, start, told);
        let end = source.now();
        add_round(plan, sum, start, end, told)?;
        lap.keep_round(end, told)?;
    }
    Ok(())
}

// What each of so many processors shows in round i of a lap.
fn told_in(told: &[Option<Leaf>], processors: usize, i: usize) -> &[Option<Leaf>]
    requires { (i + 1) * processors ≤ length told.now }
    ensures long { length result.now ≡ processors }
    ensures each { (q : ℕ) → q < processors → slice_index_or result.now q None ≡ slice_index_or told.now (i * processors + q) None }
{
    let from = i * processors;
    &told[from..from + processors]
}

/// The tick at which round i of a lap begins.
pub(crate) fn start_of(ends: &[u128], from: u128, i: usize) -> u128
    requires { i ≤ length ends.now }
    ensures { result ≡ round_start from ends.now i }
{
    if i == 0 { from } else { ends[i - 1] }
}

/// The tick at which round i of a lap ends, so many ticks later; or the end of all rounds where that is sooner.
pub(crate) fn end_of(ends: &[u128], i: usize, shift: u128, stop: u128) -> u128
    requires round { i < length ends.now }
    requires fits { slice_index ends.now i + shift < 2 ^ 128 }
    ensures { result ≡ min (slice_index ends.now i + shift) stop }
{
    (ends[i] + shift).min(stop)
}

// Adds round i of a lap that comes again: cut at the end of all rounds, and no round behind that.
#[inline(always)]
fn add_lap_round(
    plan: &Plan,
    lap: &Lap,
    again: Later,
    sum: &mut RoundSum,
    i: usize,
) -> Result<(), CountFault>
    requires again { IsLapAgain plan.now again lap.now }
    requires early { again.ticks ≤ stop_of plan.now }
    requires round { i < length lap.now.ends.items }
    requires sum { IsSumUpTo plan.now (min (round_start again.from lap.now.ends.items i + again.ticks) (stop_of plan.now)) sum.old }
    ensures sum { IfOk result (λ _. IsSumUpTo plan.now (min (round_start again.from lap.now.ends.items (i + 1) + again.ticks) (stop_of plan.now)) sum.new) }
    ensures fault { IfErr result (λ fault. IsCountFault plan.now fault) }
{
    let stop = plan.rounds_end();
    let start = start_of(&lap.ends, again.from, i) + again.ticks;
    if start >= stop {
        return Ok(());
    }
    let end = end_of(&lap.ends, i, again.ticks, stop);
    let told = told_in(&lap.told, plan.tree().processors() as usize, i);
    add_round(plan, sum, start, end, told)
}

// With the rounds of a lap that comes again, up to the end of all rounds.
fn with_lap(plan: &Plan, lap: &Lap, again: Later, sum: &mut RoundSum) -> Result<(), CountFault>
    requires again { IsLapAgain plan.now again lap.now }
    requires early { again.from + again.ticks < stop_of plan.now }
    requires sum { IsSumUpTo plan.now (again.from + again.ticks) sum.old }
    ensures sum { IfOk result (λ _. IsSumUpTo plan.now (min (lap_end again.from lap.now + again.ticks) (stop_of plan.now)) sum.new) }
    ensures fault { IfErr result (λ fault. IsCountFault plan.now fault) }
{
    for i in 0..lap.ends.len() {
        add_lap_round(plan, lap, again, sum, i)?;
    }
    Ok(())
}

/// With a lap again and again, so many ticks later each time, up to the end of all rounds. The rounds so far are those up to its end.
pub(crate) fn with_laps(
    plan: &Plan,
    lap: &Lap,
    again: Later,
    sum: &mut RoundSum,
) -> Result<(), CountFault>
    requires again { IsLapAgain plan.now again lap.now }
    requires some { 0 < again.ticks }
    requires within { again.from + again.ticks ≤ stop_of plan.now }
    requires end { lap_end again.from lap.now ≡ again.from + again.ticks }
    requires sum { IsSumUpTo plan.now (again.from + again.ticks) sum.old }
    ensures sum { IfOk result (λ _. IsSumUpTo plan.now (stop_of plan.now) sum.new) }
    ensures fault { IfErr result (λ fault. IsCountFault plan.now fault) }
{
    let stop = plan.rounds_end();
    let Later { from, ticks } = again;
    let mut shift = ticks;
    'laps: while from + shift < stop {
        with_lap(plan, lap, Later { from, ticks: shift }, sum)?;
        shift += ticks;
    }
    Ok(())
}
