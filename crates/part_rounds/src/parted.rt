//! The rounds of a plan by those of its parts.
ghost use Rattle.std.specs.Prelude.{ℕ, ◌≡◌, ◌<◌, ◌≤◌, length, slice_index, IfOk, IfSome};
ghost use Rattle.std.specs.List.{AllByRecursion};
ghost use Rattle.sched_base.specs.declared.rows.Row.{Row as DeclaredRow};
ghost use Rattle.run_tree.specs.Plans.{IsPlan, stop_of};
ghost use Rattle.event_core.specs.Rounds.{IsRoundUpTo};
ghost use Rattle.event_core.specs.Told.{IsTold};
ghost use Rattle.merged_rounds.specs.Laps.{IsAllTold};
ghost use Rattle.merged_rounds.specs.Replays.{packs_of};
ghost use Rattle.round_looks.specs.Looks.{leaf_at};
ghost use Rattle.part_rounds.specs.PartRounds.{IsPartRound, IsPartRoundsOf};
ghost use Rattle.part_rounds.specs.Parted.{IsCovered, IsPartedOf};
ghost use Rattle.part_rounds.specs.PartedSteps.{AreLooked, ArePartsAt, IsTelling};
ghost use Rattle.part_rounds.specs.Placed.{AreShown, IsPlacedUpTo};

use crate::placed::{Placed, none_placed};
use crate::sources::{PartRounds, part_rounds};
use part_plans::{PartPlans, part_plans};
use run_tree::Plan;
use sched_base::{Leaf, NoMemory};
use std::alloc::Global;

/// The rounds of a plan by those of its parts, with the part of each node and its like there. They have gone by up to a tick. `shows` tells what
/// each pack of level 0 shows, by its number.
pub(crate) struct Parted {
    parts: Vec<PartRounds>,
    part: Vec<u32>,
    like: Vec<u32>,
    placed: Placed,
    shows: Vec<Option<Leaf>>,
    tick: u128,
}

impl Drop for Parted {
    fn drop(self) {
        let Self {
            parts: _parts,
            part: _part,
            like: _like,
            placed: _placed,
            shows: _shows,
            tick: _,
        } = self;
    }
}

/// The rounds of a plan from tick 0 on by those of its parts, where those of some part come round by themselves; else this way gains nothing, and
/// there may be none.
pub(crate) fn parted_of(alloc: Global, plan: &Plan) -> Result<Option<Parted>, NoMemory>
    requires on_time { AllByRecursion (λ t. t.offset ≡ 0) plan.now.set.tasks }
    ensures belongs { IfOk result (λ found. IfSome found (λ parted. IsPartedOf plan.now parted)) }
    ensures first { IfOk result (λ found. IfSome found (λ parted. parted.tick ≡ 0)) }
{
    plan.know_lawful();
    let Some(found) = part_plans(alloc, plan)? else {
        return Ok(None);
    };
    let PartPlans { parts, part, like } = found;
    let mut sources = Vec::new(alloc);
    let mut some = false;
    for own in parts {
        let rounds = part_rounds(alloc, plan, own)?;
        rounds.part.plan.know_lawful();
        some = some || rounds.replays();
        sources.push(rounds)?;
    }
    if !some {
        return Ok(None);
    }
    Ok(Some(Parted {
        parts: sources,
        part,
        like,
        placed: none_placed(alloc, plan)?,
        shows: vec![in alloc; None; plan.tree().packs(0) as usize]?,
        tick: 0,
    }))
}

// Moves a part to the end of its next round where the present one ends at tick `now`, and tells what its packs show by their numbers in the plan.
#[inline(always)]
fn go_if(plan: &Plan, rounds: &mut PartRounds, now: u128, shows: &mut [Option<Leaf>])
    requires belongs { IsPartRoundsOf plan.now rounds.old }
    requires lawful { IsPlan rounds.old.part.plan }
    requires early { now < stop_of plan.now }
    requires many { length shows.old ≡ packs_of plan.now }
    ensures belongs { IsPartRoundsOf plan.now rounds.new }
    ensures part { rounds.new.part ≡ rounds.old.part }
    ensures round { rounds.old.end ≡ now → IsPartRound rounds.new.part now rounds.new.end rounds.new.shows.items }
    ensures told { rounds.old.end ≡ now →
        IsTelling plan.now now rounds.new.part.packs.items (packs_of rounds.new.part.plan) shows.old shows.new }
    ensures kept { (rounds.old.end ≡ now → ⊥) → rounds.new ≡ rounds.old }
    ensures same { (rounds.old.end ≡ now → ⊥) → shows.new ≡ shows.old }
{
    if rounds.end != now {
        return;
    }
    plan.know_lawful();
    rounds.go(plan);
    for k in 0..rounds.shows.len() {
        shows[rounds.part.packs[k] as usize] = rounds.shows[k];
    }
}

// What the processors that are told show in the round just gone, from `start` up to `end`.
#[inline(always)]
fn look(
    plan: &Plan,
    placed: &Placed,
    start: u128,
    end: u128,
    told: &[u32],
    count: usize,
    leaves: &mut [Option<Leaf>],
)
    requires belongs { IsPlacedUpTo plan.now end placed.now }
    requires round { IsRoundUpTo plan.now start end }
    requires within { count ≤ length told.now }
    requires processors { (j : ℕ) → j < count → slice_index told.now j < plan.now.tree.processors }
    requires many { length leaves.old ≡ plan.now.tree.processors }
    ensures { AreLooked plan.now start end told.now count leaves.old leaves.new }
{
    for j in 0..count {
        let q = told[j];
        leaves[q as usize] = Some(placed.leaf_on(plan, start, end, q));
    }
}

impl Parted {
    /// The tick at which the next round starts, or at which the last one ended.
    #[inline(always)]
    pub(crate) fn now(&self) -> u128
        ensures { result ≡ self.now.tick }
    {
        self.tick
    }

    // Moves each part to the end of the round that goes on at the tick: the first of these ends.
    #[inline(always)]
    fn go_parts(&mut self, plan: &Plan) -> u128
        requires belongs { IsPartedOf plan.now self.old }
        requires early { self.old.tick < stop_of plan.now }
        ensures covered { IsCovered plan.now self.new.parts.items self.new.part.items self.new.like.items }
        ensures parts { ArePartsAt plan.now self.new.parts.items result self.new.shows.items }
        ensures shows { AreShown plan.now self.old.tick self.new.shows.items }
        ensures round { IsRoundUpTo plan.now self.old.tick result }
        ensures placed { self.new.placed ≡ self.old.placed }
    {
        let now = self.tick;
        let mut end = plan.rounds_end();
        for c in 0..self.parts.len() {
            go_if(plan, &mut self.parts[c], now, &mut self.shows);
            end = end.min(self.parts[c].end);
        }
        end
    }

    /// Moves to the end of the next round, and tells the processors, numbered from 0, on which it may show something else than the one before. How
    /// many are told; one may be told twice. Of each processor `leaves` has what it shows in the round. It takes no memory.
    #[inline(always)]
    pub(crate) fn go_telling(
        &mut self,
        plan: &Plan,
        told: &mut [u32],
        leaves: &mut [Option<Leaf>],
    ) -> usize
        requires belongs { IsPartedOf plan.now self.old }
        requires early { self.old.tick < stop_of plan.now }
        requires room { length told.old ≡ packs_of plan.now }
        requires many { length leaves.old ≡ plan.now.tree.processors }
        requires before { (start : ℕ) → IsRoundUpTo plan.now start self.old.tick → IsAllTold plan.now start self.old.tick leaves.old }
        ensures belongs { IsPartedOf plan.now self.new }
        ensures round { IsRoundUpTo plan.now self.old.tick self.new.tick }
        ensures long { length told.new ≡ length told.old }
        ensures within { result ≤ length told.new }
        ensures processors { (j : ℕ) → j < result → slice_index told.new j < plan.now.tree.processors }
        ensures all { IsAllTold plan.now self.old.tick self.new.tick leaves.new }
        ensures first { self.old.tick ≡ 0 → (q : ℕ) → q < plan.now.tree.processors → IsTold told.new result q }
        ensures others { (q start : ℕ) (none : DeclaredRow) → q < plan.now.tree.processors → (IsTold told.new result q → ⊥) →
            IsRoundUpTo plan.now start self.old.tick →
            leaf_at plan.now self.old.tick self.new.tick q none ≡ leaf_at plan.now start self.old.tick q none }
    {
        let start = self.tick;
        let end = self.go_parts(plan);
        let count = self.placed.place_telling(plan, start, &self.shows, told);
        look(plan, &self.placed, start, end, told, count, leaves);
        self.tick = end;
        count
    }
}
