//! The rounds so far, merged and counted.
ghost use Rattle.std.specs.Prelude.{ℕ, ◌≡◌, ◌<◌, ◌≤◌, ◌+◌, ◌*◌, true, length, IfErr, IfOk, Some, slice_get, slice_index};
ghost use Rattle.sched_base.specs.declared.rows.Row.{Row as DeclaredRow};
ghost use Rattle.sched_base.specs.Tables.{lane_of, row_limit};
ghost use Rattle.run_tree.specs.Plans.{IsPlan, rounds_of, stop_of};
ghost use Rattle.event_core.specs.Counts.{IsCountFault};
ghost use Rattle.event_core.specs.Rounds.{IsRoundUpTo, rows_of_round};
ghost use Rattle.merged_rows.specs.Columns.{AreChangesTold, AreGoingOn, AreShown, ends_showing};
ghost use Rattle.merged_rows.specs.Lawful.{AreLawful};
ghost use Rattle.merged_rounds.specs.Changes.{AreLeavesOf, leaves_in};
ghost use Rattle.merged_rounds.specs.Passes.{AreMergedOf};
ghost use Rattle.merged_rounds.specs.Replays.{IsSourceOf};
ghost use Rattle.merged_rounds.specs.Laps.{IsSumUpTo};

use crate::sources::Source;
use event_core::CountFault;
use merged_rows::MergedRows;
use run_tree::Plan;
use sched_base::{Leaf, NoMemory, ROW_LIMIT};
use std::alloc::Global;

/// The merged rows of the rounds up to a tick, and how many rounds they are.
pub struct RoundSum {
    pub rows: MergedRows,
    pub rounds: u64,
}

impl Drop for RoundSum {
    fn drop(self) {
        let Self {
            rows: _rows,
            rounds: _rounds,
        } = self;
    }
}

impl RoundSum {
    // The merged rows alone.
    fn into_rows(self) -> MergedRows
        ensures { result ≡ self.rows }
    {
        let Self {
            rows,
            rounds: _rounds,
        } = self;
        rows
    }
}

/// No round yet.
pub fn no_rounds(alloc: Global, plan: &Plan) -> Result<RoundSum, NoMemory>
    ensures { IfOk result (λ sum. IsSumUpTo plan.now 0 sum) }
{
    Ok(RoundSum {
        rows: MergedRows::new(alloc, plan.tree().processors())?,
        rounds: 0,
    })
}

// How many rounds there are with the one from `start` up to tick `end`, where there is room for its rows. The ticks are only spoken of.
#[inline(always)]
fn next_count(plan: &Plan, sum: &RoundSum, start: u128, end: u128) -> Result<u64, CountFault>
    requires sum { IsSumUpTo plan.now start sum.now }
    requires round { IsRoundUpTo plan.now start end }
    ensures lawful { IfOk result (λ _. IsPlan plan.now) }
    ensures count { IfOk result (λ count. count ≡ sum.now.rounds + 1) }
    ensures few { IfOk result (λ count. count * plan.now.tree.processors ≤ row_limit) }
    ensures fault { IfErr result (λ fault. IsCountFault plan.now fault) }
{
    let _start = start;
    let _end = end;
    let count = sum.rounds + 1;
    let rows = count * u64::from(plan.tree().processors());
    if rows > ROW_LIMIT {
        return Err(CountFault::TooLong { rows });
    }
    Ok(count)
}

/// Adds the round from `start` up to tick `end`, where there is room for its rows. Of each processor it is told what it shows there, or
/// nothing where its last row shows the same. The start is only spoken of.
#[inline(always)]
pub(crate) fn add_round(
    plan: &Plan,
    sum: &mut RoundSum,
    start: u128,
    end: u128,
    told: &[Option<Leaf>],
) -> Result<(), CountFault>
    requires sum { IsSumUpTo plan.now start sum.old }
    requires round { IsRoundUpTo plan.now start end }
    requires told { AreChangesTold sum.old.rows.lanes told.now (rows_of_round plan.now start end) }
    ensures sum { IfOk result (λ _. IsSumUpTo plan.now end sum.new) }
    ensures ends { IfOk result (λ _. (q : ℕ) (r : DeclaredRow) → slice_get (rows_of_round plan.now start end) q ≡ Some r →
        ends_showing (lane_of sum.new.rows.lanes q) r.leaf ≡ true) }
    ensures fault { IfErr result (λ fault. IsCountFault plan.now fault) }
{
    let rounds = next_count(plan, sum, start, end)?;
    sum.rows.add_round(end, told)?;
    sum.rounds = rounds;
    Ok(())
}

/// Adds the round from `start` up to tick `end`, where there is room for its rows, given what each processor shows there. Those are listed
/// that may show something else than their last rows, and it costs time for these alone; one may stand there twice.
#[inline(always)]
pub fn add_changed(
    plan: &Plan,
    sum: &mut RoundSum,
    start: u128,
    end: u128,
    changed: &[u32],
    shown: &[Option<Leaf>],
) -> Result<(), CountFault>
    requires sum { IsSumUpTo plan.now start sum.old }
    requires round { IsRoundUpTo plan.now start end }
    requires shown { AreShown sum.old.rows.lanes changed.now shown.now (rows_of_round plan.now start end) }
    requires within { (k : ℕ) → k < length changed.now → slice_index changed.now k < plan.now.tree.processors }
    ensures sum { IfOk result (λ _. IsSumUpTo plan.now end sum.new) }
    ensures ends { IfOk result (λ _. (q : ℕ) (r : DeclaredRow) → slice_get (rows_of_round plan.now start end) q ≡ Some r →
        ends_showing (lane_of sum.new.rows.lanes q) r.leaf ≡ true) }
    ensures fault { IfErr result (λ fault. IsCountFault plan.now fault) }
{
    let rounds = next_count(plan, sum, start, end)?;
    sum.rows.add_changed(end, changed, shown)?;
    sum.rounds = rounds;
    Ok(())
}

// These processors show what they do in the round just gone, which began at tick `start`, given what each node shows.
#[inline(always)]
fn show_seen(
    plan: &Plan,
    rows: &mut MergedRows,
    source: &Source,
    leaves: &[Leaf],
    start: u128,
    changed: &[u32],
) -> Result<(), NoMemory>
    requires belongs { IsSourceOf plan.now source.now }
    requires round { IsRoundUpTo plan.now start source.now.tick }
    requires leaves { AreLeavesOf plan.now start leaves.now }
    requires within { (k : ℕ) → k < length changed.now → slice_index changed.now k < plan.now.tree.processors }
    requires many { length rows.old.begun ≡ plan.now.tree.processors }
    ensures going { IfOk result (λ _. AreGoingOn rows.old.begun rows.old.end changed.now (leaves_in plan.now start source.now.tick)
        rows.new.begun (length changed.now)) }
{
    for k in 0..changed.len() {
        let q = changed[k];
        rows.show(q, source.leaf_by(plan, leaves, start, q))?;
    }
    Ok(())
}

/// Adds the round just gone, which began at tick `start`, where there is room for its rows, given what each node shows. Those processors
/// are listed that may show something else than their last rows, and it costs time for these alone; one may stand there twice.
#[inline(always)]
pub(crate) fn add_seen(
    plan: &Plan,
    sum: &mut RoundSum,
    source: &Source,
    leaves: &[Leaf],
    start: u128,
    changed: &[u32],
) -> Result<(), CountFault>
    requires sum { IsSumUpTo plan.now start sum.old }
    requires belongs { IsSourceOf plan.now source.now }
    requires round { IsRoundUpTo plan.now start source.now.tick }
    requires leaves { AreLeavesOf plan.now start leaves.now }
    requires within { (k : ℕ) → k < length changed.now → slice_index changed.now k < plan.now.tree.processors }
    requires shown { AreShown sum.old.rows.lanes changed.now (leaves_in plan.now start source.now.tick)
        (rows_of_round plan.now start source.now.tick) }
    ensures sum { IfOk result (λ _. IsSumUpTo plan.now source.now.tick sum.new) }
    ensures ends { IfOk result (λ _. (q : ℕ) (r : DeclaredRow) → slice_get (rows_of_round plan.now start source.now.tick) q ≡ Some r →
        ends_showing (lane_of sum.new.rows.lanes q) r.leaf ≡ true) }
    ensures fault { IfErr result (λ fault. IsCountFault plan.now fault) }
{
    let end = source.now();
    let rounds = next_count(plan, sum, start, end)?;
    sum.rows.know_begun();
    show_seen(plan, &mut sum.rows, source, leaves, start, changed)?;
    sum.rows.go_to(end);
    sum.rows.know_begun();
    sum.rounds = rounds;
    Ok(())
}

/// The merged rows of all rounds.
pub fn all_rounds(plan: &Plan, sum: RoundSum) -> MergedRows
    requires sum { IsSumUpTo plan.now (stop_of plan.now) sum }
    ensures rows { AreMergedOf plan.now result.lanes }
    ensures lawful { AreLawful plan.now.set result.lanes }
    ensures few { rounds_of plan.now * plan.now.tree.processors ≤ row_limit }
{
    plan.know_lawful();
    sum.into_rows()
}
