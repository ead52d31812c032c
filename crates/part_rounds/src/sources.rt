//! The rounds of one part of a plan.
ghost use Rattle.std.specs.Prelude.{ℕ, ◌≡◌, ◌<◌, ◌≤◌, ◌+◌, ◌*◌, true, false, length, IfOk, IfSome, None, slice_index_or};
ghost use Rattle.run_tree.specs.Plans.{stop_of};
ghost use Rattle.event_core.specs.Cores.{IsCoreOf};
ghost use Rattle.merged_rounds.specs.Laps.{AreTurns, CanComeRound};
ghost use Rattle.merged_rounds.specs.Replays.{packs_of};
ghost use Rattle.part_plans.specs.PartPlans.{IsPartPlanOf};
ghost use Rattle.part_rounds.specs.PartRounds.{AreKeptOf, IsPartRound, IsPartRoundsOf, kept_end};

use crate::kept::{KeptRounds, keep_rounds, no_kept, run_part};
use event_core::Core;
use merged_rounds::hyperperiod_of;
use part_plans::PartPlan;
use run_tree::Plan;
use sched_base::{Leaf, NoMemory};
use std::alloc::Global;

// Rounds are kept where they come so many times.
const FEWEST_TURNS: u128 = 4;

/// The rounds of one part of a plan: a core of its own plan computes them, or those of its first hyperperiod come again. They have gone by up to
/// the end of the present one, at a tick of the whole plan. `shows` tells what the whole plan shows in it of each of the part's packs of level 0.
pub(crate) struct PartRounds {
    pub(crate) part: PartPlan,
    core: Core,
    kept: KeptRounds,
    replays: bool,
    next: usize,
    shift: u128,
    turn: u128,
    stop: u128,
    pub(crate) end: u128,
    pub(crate) shows: Vec<Option<Leaf>>,
}

impl Drop for PartRounds {
    fn drop(self) {
        let Self {
            part: _part,
            core: _core,
            kept: _kept,
            replays: _,
            next: _,
            shift: _,
            turn: _,
            stop: _,
            end: _,
            shows: _shows,
        } = self;
    }
}

// Room for what each pack shows.
fn no_shows(alloc: Global, part: &PartPlan) -> Result<Vec<Option<Leaf>>, NoMemory>
    ensures { IfOk result (λ v. length v.items ≡ packs_of part.now.plan) }
{
    part.plan.know_lawful();
    Ok(vec![in alloc; None; part.plan.tree().packs(0) as usize]?)
}

/// The rounds of a part from tick 0 on, none of which has gone by.
pub(crate) fn part_rounds(
    alloc: Global,
    plan: &Plan,
    part: PartPlan,
) -> Result<PartRounds, NoMemory>
    requires part { IsPartPlanOf plan.now part }
    ensures belongs { IfOk result (λ r. IsPartRoundsOf plan.now r) }
    ensures part { IfOk result (λ r. r.part ≡ part) }
    ensures first { IfOk result (λ r. r.end ≡ 0) }
{
    let mut shows = no_shows(alloc, &part)?;
    if let Some(turn) = turn_to_keep(&part.plan) {
        let mut core = Core::new(alloc, &part.plan)?;
        let kept = keep_rounds(alloc, plan, &part, &mut core, &mut shows, turn)?;
        if core.now() == turn {
            return Ok(coming_again(plan, part, core, kept, shows, turn));
        }
    }
    let core = Core::new(alloc, &part.plan)?;
    Ok(computed(alloc, plan, part, core, shows))
}

// The ticks of a hyperperiod of a part, where it comes round at least so many times up to the end of all rounds.
fn turn_to_keep(own: &Plan) -> Option<u128>
    ensures can { IfSome result (λ _. CanComeRound own.now) }
    ensures turns { IfSome result (AreTurns own.now) }
    ensures within { IfSome result (λ turn. turn < stop_of own.now) }
{
    let turn = hyperperiod_of(own)?;
    if turn <= own.rounds_end() / FEWEST_TURNS {
        Some(turn)
    } else {
        None
    }
}

// The rounds of a part, whose core computes them.
fn computed(
    alloc: Global,
    plan: &Plan,
    part: PartPlan,
    core: Core,
    shows: Vec<Option<Leaf>>,
) -> PartRounds
    requires part { IsPartPlanOf plan.now part }
    requires belongs { IsCoreOf part.plan core }
    requires first { core.tick ≡ 0 }
    requires long { length shows.items ≡ packs_of part.plan }
    ensures belongs { IsPartRoundsOf plan.now result }
    ensures part { result.part ≡ part }
    ensures first { result.end ≡ 0 }
{
    PartRounds {
        part,
        core,
        kept: no_kept(alloc),
        replays: false,
        next: 0,
        shift: 0,
        turn: 0,
        stop: plan.rounds_end(),
        end: 0,
        shows,
    }
}

// The rounds of a part, which are those of a hyperperiod of `turn` ticks of its own plan again and again; a core computed these.
fn coming_again(
    plan: &Plan,
    part: PartPlan,
    core: Core,
    kept: KeptRounds,
    shows: Vec<Option<Leaf>>,
    turn: u128,
) -> PartRounds
    requires part { IsPartPlanOf plan.now part }
    requires can { CanComeRound part.plan }
    requires turns { AreTurns part.plan turn }
    requires within { turn < stop_of part.plan }
    requires kept { AreKeptOf part kept }
    requires end { kept_end kept ≡ turn * part.factor }
    requires long { length shows.items ≡ packs_of part.plan }
    ensures belongs { IsPartRoundsOf plan.now result }
    ensures part { result.part ≡ part }
    ensures first { result.end ≡ 0 }
{
    part.plan.know_lawful();
    let stop = plan.rounds_end();
    let whole = turn * part.factor;
    PartRounds {
        part,
        core,
        kept,
        replays: true,
        next: 0,
        shift: 0,
        turn: whole,
        stop,
        end: 0,
        shows,
    }
}

// Of each pack it is told what is kept from place `base` on.
#[inline(always)]
fn tell_kept(kept: &[Option<Leaf>], base: usize, shows: &mut [Option<Leaf>])
    requires { base + length shows.old ≤ length kept.now }
    ensures long { length shows.new ≡ length shows.old }
    ensures each { (k : ℕ) → k < length shows.old → slice_index_or shows.new k None ≡ slice_index_or kept.now (base + k) None }
{
    let end = base + shows.len();
    shows.copy_from_slice(&kept[base..end]);
}

impl PartRounds {
    /// Whether kept rounds come again.
    pub(crate) fn replays(&self) -> bool
        ensures { result ≡ self.now.replays }
    {
        self.replays
    }

    /// Moves to the end of the next round of the part. It takes no memory.
    #[inline(always)]
    pub(crate) fn go(&mut self, plan: &Plan)
        requires belongs { IsPartRoundsOf plan.now self.old }
        requires early { self.old.end < stop_of plan.now }
        ensures belongs { IsPartRoundsOf plan.now self.new }
        ensures part { self.new.part ≡ self.old.part }
        ensures round { IsPartRound self.new.part self.old.end self.new.end self.new.shows.items }
    {
        if self.replays {
            self.replay(plan);
        } else {
            plan.know_lawful();
            run_part(plan, &self.part, &mut self.core, &mut self.shows);
            self.end = self.core.now() * self.part.factor;
        }
    }

    // So with a kept round, which comes again.
    #[inline(always)]
    fn replay(&mut self, plan: &Plan)
        requires belongs { IsPartRoundsOf plan.now self.old }
        requires again { self.old.replays ≡ true }
        requires early { self.old.end < stop_of plan.now }
        ensures belongs { IsPartRoundsOf plan.now self.new }
        ensures part { self.new.part ≡ self.old.part }
        ensures round { IsPartRound self.new.part self.old.end self.new.end self.new.shows.items }
    {
        plan.know_lawful();
        self.part.plan.know_lawful();
        let i = self.next;
        let count = self.shows.len();
        let base = i * count;
        tell_kept(&self.kept.shows, base, &mut self.shows);
        self.end = (self.kept.ends[i] + self.shift).min(self.stop);
        if i + 1 < self.kept.ends.len() {
            self.next = i + 1;
        } else {
            self.next = 0;
            self.shift += self.turn;
        }
    }
}
