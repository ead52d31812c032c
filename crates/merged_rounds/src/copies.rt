//! The last rounds of a schedule that stands as a while before, by the merged rows of that while.
ghost use Rattle.std.specs.Prelude.{ℕ, ◌≡◌, ◌<◌, ◌≤◌, ◌+◌, ◌-◌, ◌*◌, ◌^◌, [], true, length, IfErr, IfOk, Some, slice_get, slice_index_or, slice_set};
ghost use Rattle.sched_base.specs.Tables.{row_limit};
ghost use Rattle.run_tree.specs.Plans.{rounds_of, stop_of};
ghost use Rattle.event_core.specs.Counts.{IsCountFault};
ghost use Rattle.event_core.specs.Rounds.{IsRoundUpTo};
ghost use Rattle.merged_rows.specs.Columns.{Begun};
ghost use Rattle.merged_rounds.specs.Copies.{AreCopied, IsLastLap, copied, copy_on};
ghost use Rattle.merged_rounds.specs.Laps.{AreTurns, CanComeRound, IsSumUpTo, round_start};
ghost use Rattle.merged_rounds.specs.Replays.{IsSourceOf, IsTurnOf, turn_end};
ghost use Rattle.merged_rounds.specs.Standings.{StandsAlike};

use crate::counts::count_all;
use crate::passes::are_turns;
use crate::sources::Source;
use crate::sums::RoundSum;
use crate::turns::Turn;
use event_core::CountFault;
use merged_rows::MergedRows;
use run_tree::Plan;
use sched_base::{NoMemory, ROW_LIMIT};

/// Rows that begin behind one tick and before another come again, so many ticks later.
#[derive(Clone, Copy)]
pub(crate) struct Window {
    pub(crate) from: u128,
    pub(crate) until: u128,
    pub(crate) ticks: u128,
}

// How many rounds begin before this tick, which isn't behind the end of the last one.
fn starts_before(kept: &Turn, tick: u128) -> usize
    requires some { 0 < length kept.now.ends }
    requires above { 0 < tick }
    requires below { tick ≤ round_start 0 kept.now.ends (length kept.now.ends) }
    ensures some { 0 < result }
    ensures within { result ≤ length kept.now.ends }
    ensures begun { round_start 0 kept.now.ends (result - 1) < tick }
    ensures next { tick ≤ round_start 0 kept.now.ends result }
{
    let mut low = 0;
    let mut high = kept.rounds();
    'halves: while low + 1 < high {
        let middle = low + (high - low) / 2;
        if kept.start(middle) < tick {
            low = middle;
        } else {
            high = middle;
        }
    }
    high
}

// The number of all rounds, by the kept ones.
fn count_by_kept(plan: &Plan, kept: &Turn) -> Result<u64, CountFault>
    requires can { CanComeRound plan.now }
    requires kept { IsTurnOf plan.now kept.now }
    requires turns { AreTurns plan.now (turn_end kept.now) }
    requires few { length kept.now.ends ≤ row_limit }
    requires within { turn_end kept.now < stop_of plan.now }
    ensures count { IfOk result (λ count. (count ≡ rounds_of plan.now) × (count * plan.now.tree.processors ≤ row_limit)) }
    ensures fault { IfErr result (λ fault. IsCountFault plan.now fault) }
{
    plan.know_lawful();
    let turn = kept.end();
    let last = plan.rounds_end() - 1;
    let rest = starts_before(kept, last % turn + 1);
    count_all(plan, last / turn, kept.rounds() as u64, rest as u64)
}

// Row i of processor q comes again, where it begins in the window.
#[inline(always)]
fn copy_row(rows: &mut MergedRows, q: u32, i: usize, window: Window) -> Result<(), NoMemory>
    requires processor { q < length rows.old.begun }
    requires row { i < length (slice_index_or rows.old.begun q []) }
    requires fits { window.until + window.ticks < 2 ^ 128 }
    ensures copied { IfOk result (λ _. (b : Begun) → slice_get (slice_index_or rows.old.begun q []) i ≡ Some b →
        rows.new.begun ≡ slice_set rows.old.begun q (copy_on window (slice_index_or rows.old.begun q []) b)) }
{
    rows.know_begun();
    let row = rows.row(q, i);
    if window.from < row.start && row.start < window.until {
        rows.go_to(row.start + window.ticks);
        rows.show(q, row.leaf)?;
    }
    Ok(())
}

// The rows of processor q that begin in the window come again.
fn copy_lane(rows: &mut MergedRows, q: u32, window: Window) -> Result<(), NoMemory>
    requires processor { q < length rows.old.begun }
    requires fits { window.until + window.ticks < 2 ^ 128 }
    ensures copied { IfOk result (λ _. rows.new.begun ≡
        slice_set rows.old.begun q (copied window (slice_index_or rows.old.begun q []) (slice_index_or rows.old.begun q []))) }
{
    rows.know_begun();
    for i in 0..rows.count(q) {
        copy_row(rows, q, i, window)?;
    }
    Ok(())
}

// Each processor shows what it does in the round just gone, which began at tick `now`, and then its rows of the window come again.
fn copy_lanes(
    plan: &Plan,
    source: &Source,
    rows: &mut MergedRows,
    now: u128,
    window: Window,
) -> Result<(), NoMemory>
    requires belongs { IsSourceOf plan.now source.now }
    requires round { IsRoundUpTo plan.now now source.now.tick }
    requires many { length rows.old.begun ≡ plan.now.tree.processors }
    requires fits { window.until + window.ticks < 2 ^ 128 }
    ensures copied { IfOk result (λ _. AreCopied plan.now now window rows.old.begun rows.new.begun plan.now.tree.processors) }
{
    for q in 0..plan.tree().processors() {
        rows.go_to(now);
        rows.show(q, source.leaf_on(plan, now, q))?;
        copy_lane(rows, q, window)?;
    }
    Ok(())
}

// Whether there are few enough kept rounds, and they end before all rounds do.
fn is_short(plan: &Plan, kept: &Turn) -> bool
    ensures few { result ≡ true → length kept.now.ends ≤ row_limit }
    ensures within { result ≡ true → turn_end kept.now < stop_of plan.now }
{
    kept.rounds() as u64 <= ROW_LIMIT && kept.end() < plan.rounds_end()
}

/// Whether kept rounds come again, and so many ticks are hyperperiods of `turn` ticks each, no more than went by, and no fewer than are left.
pub(crate) fn is_last_lap(plan: &Plan, source: &Source, turn: u128, ticks: u128) -> bool
    requires belongs { IsSourceOf plan.now source.now }
    requires turn { turn ≡ plan.now.tree.scale * plan.now.tree.scale }
    ensures { result ≡ true → IsLastLap plan.now source.now ticks }
{
    if !source.replays(plan) {
        return false;
    }
    let now = source.now();
    let stop = plan.rounds_end();
    now < stop
        && ticks <= now
        && stop - now <= ticks
        && are_turns(plan, turn, ticks)
        && is_short(plan, source.kept(plan))
}

/// Goes on up to the end of all rounds where the schedule stands as so many ticks before, and no fewer than are left: the rows of these come
/// again.
pub(crate) fn merge_copies(
    plan: &Plan,
    source: &mut Source,
    sum: &mut RoundSum,
    ticks: u128,
) -> Result<(), CountFault>
    requires belongs { IsSourceOf plan.now source.old }
    requires sum { IsSumUpTo plan.now source.old.tick sum.old }
    requires last { IsLastLap plan.now source.old ticks }
    requires alike { StandsAlike plan.now (source.old.tick - ticks) source.old.tick }
    ensures sum { IfOk result (λ _. IsSumUpTo plan.now (stop_of plan.now) sum.new) }
    ensures fault { IfErr result (λ fault. IsCountFault plan.now fault) }
{
    plan.know_lawful();
    let rounds = count_by_kept(plan, source.kept(plan))?;
    let now = source.now();
    let stop = plan.rounds_end();
    source.go(plan);
    let window = Window {
        from: now - ticks,
        until: stop - ticks,
        ticks,
    };
    sum.rows.know_begun();
    copy_lanes(plan, source, &mut sum.rows, now, window)?;
    sum.rows.go_to(stop);
    sum.rows.know_begun();
    sum.rounds = rounds;
    Ok(())
}
