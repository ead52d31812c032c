//! Where rounds come from: a core computes them, or those of the first hyperperiod come again.
ghost use Rattle.std.specs.Prelude.{ℕ, ◌≡◌, ◌<◌, ◌≤◌, ◌*◌, true, false, length, IfOk, None, Some, slice_index, slice_index_or};
ghost use Rattle.std.specs.List.{AllByRecursion};
ghost use Rattle.sched_base.specs.declared.rows.Leaf.TheVariants.{Empty as empty_leaf};
ghost use Rattle.sched_base.specs.declared.rows.NodeId.{NodeId as DeclaredNodeId};
ghost use Rattle.sched_base.specs.declared.rows.Row.{Row as DeclaredRow};
ghost use Rattle.run_tree.specs.Plans.{stop_of};
ghost use Rattle.event_core.specs.Cores.{IsCoreOf, places_of};
ghost use Rattle.event_core.specs.Rounds.{IsRoundUpTo};
ghost use Rattle.event_core.specs.Told.{AllReleased, IsTold};
ghost use Rattle.merged_rounds.specs.Changes.{AreLeavesOf};
ghost use Rattle.merged_rounds.specs.Laps.{AreTurns, CanComeRound};
ghost use Rattle.round_looks.specs.Looks.{leaf_at};
ghost use Rattle.merged_rounds.specs.Replays.{BeginsAgain, IsComputed, IsSourceOf, IsTurnOf, packs_of, turn_end};

use crate::passes::are_turns;
use crate::replays::{Replay, replay_of};
use crate::turns::Turn;
use cpu_assign::Places;
use event_core::Core;
use run_tree::Plan;
use sched_base::{Leaf, NoMemory, NodeId};
use std::alloc::Global;

/// Where rounds come from: a core computes them, or those of the first hyperperiod come again. They have gone by up to a tick.
pub(crate) struct Source {
    pub(crate) core: Core,
    pub(crate) tick: u128,
    replays: bool,
    replay: Replay,
}

impl Drop for Source {
    fn drop(self) {
        let Self {
            core: _core,
            tick: _tick,
            replays: _replays,
            replay: _replay,
        } = self;
    }
}

/// The rounds that a core computes from its tick on. Where others come again, this turn would tell which.
pub(crate) fn source_of(
    alloc: Global,
    plan: &Plan,
    core: Core,
    turn: Turn,
) -> Result<Source, NoMemory>
    requires belongs { IsCoreOf plan.now core }
    ensures belongs { IfOk result (λ source. IsSourceOf plan.now source) }
    ensures tick { IfOk result (λ source. source.tick ≡ core.tick) }
{
    let replay = replay_of(alloc, plan, &core, turn)?;
    let tick = core.now();
    Ok(Source {
        core,
        tick,
        replays: false,
        replay,
    })
}

/// The rounds of a hyperperiod of so many ticks come again, where it is over, and a core computed them.
pub(crate) fn replay_turn(
    alloc: Global,
    plan: &Plan,
    source: &mut Source,
    kept: Turn,
    turn: u128,
) -> Result<(), NoMemory>
    requires can { CanComeRound plan.now }
    requires belongs { IsSourceOf plan.now source.old }
    requires turn { turn ≡ plan.now.tree.scale * plan.now.tree.scale }
    requires kept { IsTurnOf plan.now kept }
    requires end { turn_end kept ≡ source.old.tick }
    ensures belongs { IfOk result (λ _. IsSourceOf plan.now source.new) }
    ensures tick { IfOk result (λ _. source.new.tick ≡ source.old.tick) }
{
    if source.replays(plan) || source.now() != turn || !are_turns(plan, turn, turn) {
        return Ok(());
    }
    source.replay = replay_of(alloc, plan, &source.core, kept)?;
    source.replays = true;
    Ok(())
}

impl Source {
    /// The tick at which the next round starts, or at which the last one ended.
    #[inline(always)]
    pub(crate) fn now(&self) -> u128
        ensures { result ≡ self.now.tick }
    {
        self.tick
    }

    /// Whether kept rounds come again.
    #[inline(always)]
    pub(crate) fn replays(&self, plan: &Plan) -> bool
        requires { IsSourceOf plan.now self.now }
        ensures again { result ≡ true → AllByRecursion (λ t. t.offset ≡ 0) plan.now.set.tasks }
        ensures computed { result ≡ false → IsComputed plan.now self.now }
        ensures off { result ≡ self.now.replays }
    {
        let _plan = plan;
        self.replays
    }

    /// The kept rounds that come again.
    #[inline(always)]
    pub(crate) fn kept(&self, plan: &Plan) -> &Turn
        requires belongs { IsSourceOf plan.now self.now }
        requires replays { self.now.replays ≡ true }
        ensures kept { result.now ≡ self.now.replay.lap }
        ensures turn { IsTurnOf plan.now result.now }
        ensures turns { AreTurns plan.now (turn_end result.now) }
        ensures can { CanComeRound plan.now }
    {
        let _plan = plan;
        self.replay.kept()
    }

    /// The places before the round that starts at this tick.
    #[inline(always)]
    pub(crate) fn places(&self, plan: &Plan) -> &Places
        requires { IsSourceOf plan.now self.now }
        ensures { result.now ≡ places_of plan.now self.now.tick }
    {
        let _plan = plan;
        if self.replays {
            self.replay.places()
        } else {
            self.core.places()
        }
    }

    /// Moves to the end of the next round. It takes no memory.
    #[inline(always)]
    pub(crate) fn go(&mut self, plan: &Plan)
        requires belongs { IsSourceOf plan.now self.old }
        requires early { self.old.tick < stop_of plan.now }
        ensures belongs { IsSourceOf plan.now self.new }
        ensures round { IsRoundUpTo plan.now self.old.tick self.new.tick }
    {
        if self.replays {
            self.tick = self.replay.go(plan, self.tick);
        } else {
            self.core.go(plan);
            self.tick = self.core.now();
        }
    }

    /// Moves to the end of the next round as `go` does, and tells the processors, numbered from 0, on which that round may show something
    /// else than the one before: each other one holds the same pack, and where no task is released late it shows the same. How many are
    /// told; one may be told twice. It takes no memory.
    #[inline(always)]
    pub(crate) fn go_telling(&mut self, plan: &Plan, told: &mut [u32]) -> usize
        requires belongs { IsSourceOf plan.now self.old }
        requires early { self.old.tick < stop_of plan.now }
        requires room { length told.old ≡ packs_of plan.now }
        ensures belongs { IsSourceOf plan.now self.new }
        ensures round { IsRoundUpTo plan.now self.old.tick self.new.tick }
        ensures within { result ≤ length told.new }
        ensures processors { (j : ℕ) → j < result → slice_index told.new j < plan.now.tree.processors }
        ensures others { (q start : ℕ) (none : DeclaredRow) → q < plan.now.tree.processors → (IsTold told.new result q → ⊥) →
            AllReleased plan.now start → IsRoundUpTo plan.now start self.old.tick →
            leaf_at plan.now self.old.tick self.new.tick q none ≡ leaf_at plan.now start self.old.tick q none }
        ensures placed { (q : ℕ) → q < plan.now.tree.processors → (IsTold told.new result q → ⊥) →
            slice_index_or (places_of plan.now self.new.tick).onto q None ≡ slice_index_or (places_of plan.now self.old.tick).onto q None }
    {
        if self.replays {
            let start = self.tick;
            let (end, count) = self.replay.go_telling(plan, start, told);
            self.tick = end;
            count
        } else {
            let count = self.core.go_telling(plan, told);
            self.tick = self.core.now();
            count
        }
    }

    /// What processor q, numbered from 0, shows in the round just gone, which began at tick `start`. It takes no memory.
    #[inline(always)]
    pub(crate) fn leaf_on(&self, plan: &Plan, start: u128, q: u32) -> Leaf
        requires belongs { IsSourceOf plan.now self.now }
        requires round { IsRoundUpTo plan.now start self.now.tick }
        requires processor { q < plan.now.tree.processors }
        ensures { (none : DeclaredRow) → leaf_at plan.now start self.now.tick q none ≡ result }
    {
        if self.replays {
            self.replay.leaf_on(plan, start, self.tick, q)
        } else {
            self.core.leaf_on(plan, start, q)
        }
    }

    /// What it shows where it is known what each node shows. It takes no memory.
    #[inline(always)]
    pub(crate) fn leaf_by(&self, plan: &Plan, leaves: &[Leaf], start: u128, q: u32) -> Leaf
        requires belongs { IsSourceOf plan.now self.now }
        requires round { IsRoundUpTo plan.now start self.now.tick }
        requires leaves { AreLeavesOf plan.now start leaves.now }
        requires processor { q < plan.now.tree.processors }
        ensures { (none : DeclaredRow) → leaf_at plan.now start self.now.tick q none ≡ result }
    {
        if self.replays {
            self.replay.leaf_on(plan, start, self.tick, q)
        } else {
            leaf_of(leaves, self.core.node_on(plan, start, q))
        }
    }
}

// What this node shows, where there is one.
#[inline(always)]
fn leaf_of(leaves: &[Leaf], node: Option<NodeId>) -> Leaf
    requires { (n : DeclaredNodeId) → node ≡ Some n → n.0 < length leaves.now }
    ensures none { node ≡ None → result ≡ empty_leaf }
    ensures some { (n : DeclaredNodeId) → node ≡ Some n → result ≡ slice_index_or leaves.now n.0 empty_leaf }
{
    match node {
        None => Leaf::Empty,
        Some(n) => leaves[n.0 as usize],
    }
}
