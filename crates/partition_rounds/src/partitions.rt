//! The rounds of a partitioned plan.
ghost use Rattle.std.specs.Prelude.{ℕ, ◌≡◌, ◌<◌, ◌≤◌, length, slice_index, IfOk, IfSome};
ghost use Rattle.std.specs.List.{AllByRecursion};
ghost use Rattle.sched_base.specs.declared.rows.Row.{Row as DeclaredRow};
ghost use Rattle.run_tree.specs.Plans.{stop_of};
ghost use Rattle.event_core.specs.Rounds.{IsRoundUpTo};
ghost use Rattle.event_core.specs.Told.{IsTold};
ghost use Rattle.merged_rounds.specs.Laps.{IsAllTold};
ghost use Rattle.round_looks.specs.Looks.{leaf_at};
ghost use Rattle.partition_rounds.specs.OwnRounds.{IsOwnRoundsOf, IsPartitionOf};
ghost use Rattle.partition_rounds.specs.PartitionSteps.{HasGone, HasStayed};

use crate::own_rounds::{OwnRounds, own_rounds};
use own_plans::own_plans;
use run_tree::Plan;
use sched_base::{Leaf, NoMemory};
use std::alloc::Global;

/// The rounds of a partitioned plan, by those of its processors in order. They have gone by up to a tick.
pub(crate) struct Partition {
    lanes: Vec<OwnRounds>,
    tick: u128,
}

impl Drop for Partition {
    fn drop(self) {
        let Self {
            lanes: _lanes,
            tick: _,
        } = self;
    }
}

/// The rounds of a partitioned plan from tick 0 on, where those of some processor come round by themselves; else this way gains nothing, and there
/// may be none.
pub(crate) fn partition_of(alloc: Global, plan: &Plan) -> Result<Option<Partition>, NoMemory>
    requires on_time { AllByRecursion (λ t. t.offset ≡ 0) plan.now.set.tasks }
    ensures belongs { IfOk result (λ found. IfSome found (λ part. IsPartitionOf plan.now part)) }
    ensures first { IfOk result (λ found. IfSome found (λ part. part.tick ≡ 0)) }
{
    plan.know_lawful();
    let Some(plans) = own_plans(alloc, plan)? else {
        return Ok(None);
    };
    let mut lanes = Vec::new(alloc);
    let mut some = false;
    for own in plans {
        let q = lanes.len() as u32;
        let rounds = own_rounds(alloc, plan, q, own)?;
        rounds.own.plan.know_lawful();
        some = some || rounds.replays();
        lanes.push(rounds)?;
    }
    if some {
        Ok(Some(Partition { lanes, tick: 0 }))
    } else {
        Ok(None)
    }
}

// Moves processor q to the end of its next round where the present one ends at tick `now`, and tells it with what it shows. How many are told then.
#[inline(always)]
fn go_if(
    plan: &Plan,
    lane: &mut OwnRounds,
    q: u32,
    now: u128,
    told: &mut [u32],
    leaves: &mut [Option<Leaf>],
    count: usize,
) -> usize
    requires belongs { IsOwnRoundsOf plan.now q lane.old }
    requires early { now < stop_of plan.now }
    requires room { count < length told.old }
    requires many { q < length leaves.old }
    ensures belongs { IsOwnRoundsOf plan.now q lane.new }
    ensures own { lane.new.own ≡ lane.old.own }
    ensures due { lane.old.end ≡ now → HasGone q now lane.new told.old told.new leaves.old leaves.new count result }
    ensures kept { (lane.old.end ≡ now → ⊥) → HasStayed lane.old lane.new told.old told.new leaves.old leaves.new count result }
{
    if lane.end != now {
        return count;
    }
    lane.go(plan, q);
    leaves[q as usize] = Some(lane.shows);
    told[count] = q;
    count + 1
}

impl Partition {
    /// The tick at which the next round starts, or at which the last one ended.
    #[inline(always)]
    pub(crate) fn now(&self) -> u128
        ensures { result ≡ self.now.tick }
    {
        self.tick
    }

    /// Moves to the end of the next round, and tells the processors, numbered from 0, on which it may show something else than the one before. How
    /// many are told. Of each processor `leaves` has what it shows in the round. It takes no memory.
    #[inline(always)]
    pub(crate) fn go_telling(
        &mut self,
        plan: &Plan,
        told: &mut [u32],
        leaves: &mut [Option<Leaf>],
    ) -> usize
        requires belongs { IsPartitionOf plan.now self.old }
        requires early { self.old.tick < stop_of plan.now }
        requires room { length told.old ≡ plan.now.tree.processors }
        requires many { length leaves.old ≡ plan.now.tree.processors }
        requires before { (start : ℕ) → IsRoundUpTo plan.now start self.old.tick → IsAllTold plan.now start self.old.tick leaves.old }
        ensures belongs { IsPartitionOf plan.now self.new }
        ensures round { IsRoundUpTo plan.now self.old.tick self.new.tick }
        ensures within { result ≤ length told.new }
        ensures processors { (j : ℕ) → j < result → slice_index told.new j < plan.now.tree.processors }
        ensures all { IsAllTold plan.now self.old.tick self.new.tick leaves.new }
        ensures first { self.old.tick ≡ 0 → (q : ℕ) → q < plan.now.tree.processors → IsTold told.new result q }
        ensures others { (q start : ℕ) (none : DeclaredRow) → q < plan.now.tree.processors → (IsTold told.new result q → ⊥) →
            IsRoundUpTo plan.now start self.old.tick →
            leaf_at plan.now self.old.tick self.new.tick q none ≡ leaf_at plan.now start self.old.tick q none }
    {
        let now = self.tick;
        let mut count = 0;
        let mut end = plan.rounds_end();
        for q in 0..self.lanes.len() {
            count = go_if(plan, &mut self.lanes[q], q as u32, now, told, leaves, count);
            end = end.min(self.lanes[q].end);
        }
        self.tick = end;
        count
    }
}
