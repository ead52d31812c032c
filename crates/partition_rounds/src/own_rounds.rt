//! The rounds of one processor of a partitioned plan.
ghost use Rattle.std.specs.Prelude.{ℕ, ◌≡◌, ◌<◌, ◌≤◌, ◌*◌, true, false, IfOk, IfSome};
ghost use Rattle.run_tree.specs.Plans.{stop_of};
ghost use Rattle.event_core.specs.Cores.{IsCoreOf};
ghost use Rattle.merged_rounds.specs.Laps.{AreTurns, CanComeRound};
ghost use Rattle.own_plans.specs.OwnPlans.{IsOwnPlanOf};
ghost use Rattle.partition_rounds.specs.OwnRounds.{AreKeptOf, IsOwnRound, IsOwnRoundsOf, kept_end};

use crate::kept::{KeptRounds, keep_rounds, no_kept, run_own};
use event_core::Core;
use merged_rounds::hyperperiod_of;
use own_plans::OwnPlan;
use run_tree::Plan;
use sched_base::{Leaf, NoMemory};
use std::alloc::Global;

// Rounds are kept where they come so many times.
const FEWEST_TURNS: u128 = 4;

/// The rounds of one processor of a partitioned plan: a core of its own plan computes them, or those of its first hyperperiod come again.
/// They have gone by up to the end of the present one, at a tick of the whole plan.
pub(crate) struct OwnRounds {
    pub(crate) own: OwnPlan,
    core: Core,
    kept: KeptRounds,
    replays: bool,
    next: usize,
    shift: u128,
    turn: u128,
    stop: u128,
    pub(crate) end: u128,
    pub(crate) shows: Leaf,
}

impl Drop for OwnRounds {
    fn drop(self) {
        let Self {
            own: _own,
            core: _core,
            kept: _kept,
            replays: _,
            next: _,
            shift: _,
            turn: _,
            stop: _,
            end: _,
            shows: _,
        } = self;
    }
}

/// The rounds of processor q from tick 0 on, none of which has gone by.
pub(crate) fn own_rounds(
    alloc: Global,
    plan: &Plan,
    q: u32,
    own: OwnPlan,
) -> Result<OwnRounds, NoMemory>
    requires own { IsOwnPlanOf plan.now q own }
    ensures belongs { IfOk result (λ r. IsOwnRoundsOf plan.now q r) }
    ensures first { IfOk result (λ r. r.end ≡ 0) }
{
    if let Some(turn) = turn_to_keep(&own.plan) {
        let mut core = Core::new(alloc, &own.plan)?;
        let kept = keep_rounds(alloc, plan, q, &own, &mut core, turn)?;
        if core.now() == turn {
            return Ok(coming_again(plan, q, own, core, kept, turn));
        }
    }
    let core = Core::new(alloc, &own.plan)?;
    Ok(computed(alloc, plan, q, own, core))
}

// The ticks of a hyperperiod of an own plan, where it comes round at least so many times up to the end of all rounds.
fn turn_to_keep(own: &Plan) -> Option<u128>
    ensures can { IfSome result (λ _. CanComeRound own.now) }
    ensures turns { IfSome result (AreTurns own.now) }
    ensures within { IfSome result (λ turn. turn < stop_of own.now) }
{
    let turn = hyperperiod_of(own)?;
    if turn <= own.rounds_end() / FEWEST_TURNS {
        Some(turn)
    } else {
        None
    }
}

// The rounds of processor q, whose core computes them.
fn computed(alloc: Global, plan: &Plan, q: u32, own: OwnPlan, core: Core) -> OwnRounds
    requires own { IsOwnPlanOf plan.now q own }
    requires belongs { IsCoreOf own.plan core }
    requires first { core.tick ≡ 0 }
    ensures belongs { IsOwnRoundsOf plan.now q result }
    ensures first { result.end ≡ 0 }
{
    let _q = q;
    OwnRounds {
        own,
        core,
        kept: no_kept(alloc),
        replays: false,
        next: 0,
        shift: 0,
        turn: 0,
        stop: plan.rounds_end(),
        end: 0,
        shows: Leaf::Empty,
    }
}

// The rounds of processor q, which are those of a hyperperiod of `turn` ticks of its own plan again and again; a core computed these.
fn coming_again(
    plan: &Plan,
    q: u32,
    own: OwnPlan,
    core: Core,
    kept: KeptRounds,
    turn: u128,
) -> OwnRounds
    requires own { IsOwnPlanOf plan.now q own }
    requires can { CanComeRound own.plan }
    requires turns { AreTurns own.plan turn }
    requires within { turn < stop_of own.plan }
    requires kept { AreKeptOf own kept }
    requires end { kept_end kept ≡ turn * own.factor }
    ensures belongs { IsOwnRoundsOf plan.now q result }
    ensures first { result.end ≡ 0 }
{
    let _q = q;
    own.plan.know_lawful();
    let stop = plan.rounds_end();
    let whole = turn * own.factor;
    OwnRounds {
        own,
        core,
        kept,
        replays: true,
        next: 0,
        shift: 0,
        turn: whole,
        stop,
        end: 0,
        shows: Leaf::Empty,
    }
}

impl OwnRounds {
    /// Whether kept rounds come again.
    pub(crate) fn replays(&self) -> bool
        ensures { result ≡ self.now.replays }
    {
        self.replays
    }

    /// Moves to the end of the next round of processor q. It takes no memory.
    #[inline(always)]
    pub(crate) fn go(&mut self, plan: &Plan, q: u32)
        requires belongs { IsOwnRoundsOf plan.now q self.old }
        requires early { self.old.end < stop_of plan.now }
        ensures belongs { IsOwnRoundsOf plan.now q self.new }
        ensures own { self.new.own ≡ self.old.own }
        ensures round { IsOwnRound self.new.own self.old.end self.new.end self.new.shows }
    {
        if self.replays {
            self.replay(plan, q);
        } else {
            plan.know_lawful();
            self.shows = run_own(plan, q, &self.own, &mut self.core);
            self.end = self.core.now() * self.own.factor;
        }
    }

    // So with a kept round, which comes again.
    #[inline(always)]
    fn replay(&mut self, plan: &Plan, q: u32)
        requires belongs { IsOwnRoundsOf plan.now q self.old }
        requires again { self.old.replays ≡ true }
        requires early { self.old.end < stop_of plan.now }
        ensures belongs { IsOwnRoundsOf plan.now q self.new }
        ensures own { self.new.own ≡ self.old.own }
        ensures round { IsOwnRound self.new.own self.old.end self.new.end self.new.shows }
    {
        let _q = q;
        plan.know_lawful();
        self.own.plan.know_lawful();
        let i = self.next;
        self.shows = self.kept.shows[i];
        self.end = (self.kept.ends[i] + self.shift).min(self.stop);
        if i + 1 < self.kept.ends.len() {
            self.next = i + 1;
        } else {
            self.next = 0;
            self.shift += self.turn;
        }
    }
}
