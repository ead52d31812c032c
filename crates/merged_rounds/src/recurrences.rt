//! When the rounds of a plan come again.
ghost use Rattle.std.specs.Prelude.{◌≡◌, ◌≤◌, ◌<◌, ◌*◌, ◌^◌, IfOk, IfSome};
ghost use Rattle.run_tree.specs.Plans.{rounds_of, stop_of};
ghost use Rattle.event_core.specs.Cores.{IsCoreOf};
ghost use Rattle.event_core.specs.Rounds.{rounds_before};
ghost use Rattle.merged_rounds.specs.Laps.{CanComeRound};
ghost use Rattle.merged_rounds.specs.Recurrences.{IsRecurrence, IsSeen};

use crate::apart::comes_round;
use crate::passes::are_turns;
use crate::searches::turn_of;
use cpu_assign::Places;
use event_core::Core;
use run_tree::Plan;
use sched_base::NoMemory;
use std::alloc::Global;

/// When rounds come again: from tick `from` on a schedule is the same so many ticks and so many rounds later.
#[derive(Clone, Copy)]
pub struct Recurrence {
    /// The tick from which on they come again.
    pub from: u128,
    /// After how many ticks they do.
    pub ticks: u128,
    /// How many rounds those ticks have.
    pub rounds: u64,
}

/// The places at a tick, and how many rounds begin before it.
pub(crate) struct Seen {
    places: Places,
    tick: u128,
    rounds: u64,
}

impl Drop for Seen {
    fn drop(self) {
        let Self {
            places: _places,
            tick: _tick,
            rounds: _rounds,
        } = self;
    }
}

/// When the rounds of a plan come again, where that shows within an eighth of its ticks. It goes over the rounds up to there.
pub fn recurrence_of(alloc: Global, plan: &Plan) -> Result<Option<Recurrence>, NoMemory>
    requires { rounds_of plan.now < 2 ^ 64 }
    ensures { IfOk result (λ found. IfSome found (λ again. IsRecurrence plan.now again)) }
{
    if let Some(turn) = turn_of(plan) {
        if comes_round(plan) {
            let mut core = Core::new(alloc, plan)?;
            return search(alloc, plan, &mut core, turn);
        }
    }
    Ok(None)
}

// Looks at each multiple of a hyperperiod of `turn` ticks. Of the places at earlier ones one is kept, and a later one as soon as it is
// twice as late.
fn search(
    alloc: Global,
    plan: &Plan,
    core: &mut Core,
    turn: u128,
) -> Result<Option<Recurrence>, NoMemory>
    requires few { rounds_of plan.now < 2 ^ 64 }
    requires can { CanComeRound plan.now }
    requires turn { turn ≡ plan.now.tree.scale * plan.now.tree.scale }
    requires within { turn < stop_of plan.now }
    requires belongs { IsCoreOf plan.now core.old }
    requires first { core.old.tick ≡ 0 }
    ensures { IfOk result (λ found. IfSome found (λ again. IsRecurrence plan.now again)) }
{
    let most = plan.rounds_end() / 8;
    let mut rounds = 0;
    let mut seen = seen_at(alloc, plan, core, rounds)?;
    let mut at = turn;
    'turns: while at < most {
        rounds = go_up_to(plan, core, rounds, at);
        let found = recurrence_at(plan, core, rounds, &seen, turn);
        if found.is_some() {
            return Ok(found);
        }
        if at / 2 >= seen.tick {
            seen = seen_at(alloc, plan, core, rounds)?;
        }
        at += turn;
    }
    Ok(None)
}

// What is seen at the core's tick, before which so many rounds begin.
fn seen_at(alloc: Global, plan: &Plan, core: &Core, rounds: u64) -> Result<Seen, NoMemory>
    requires belongs { IsCoreOf plan.now core.now }
    requires here { rounds ≡ rounds_before plan.now core.now.tick }
    ensures { IfOk result (λ seen. IsSeen plan.now seen) }
{
    let _plan = plan;
    Ok(Seen {
        places: core.places().copy(alloc)?,
        tick: core.now(),
        rounds,
    })
}

// Goes on with rounds up to the first that begins at tick `until` or later, and counts them.
fn go_up_to(plan: &Plan, core: &mut Core, first: u64, until: u128) -> u64
    requires few { rounds_of plan.now < 2 ^ 64 }
    requires belongs { IsCoreOf plan.now core.old }
    requires here { first ≡ rounds_before plan.now core.old.tick }
    requires until { until ≤ stop_of plan.now }
    ensures belongs { IsCoreOf plan.now core.new }
    ensures here { result ≡ rounds_before plan.now core.new.tick }
{
    let mut count = first;
    'rounds: while core.now() < until {
        core.go(plan);
        count += 1;
    }
    count
}

// Whether the rounds come again at the core's tick, before which so many begin, as they came at the one that was seen.
fn recurrence_at(
    plan: &Plan,
    core: &Core,
    rounds: u64,
    seen: &Seen,
    turn: u128,
) -> Option<Recurrence>
    requires can { CanComeRound plan.now }
    requires turn { turn ≡ plan.now.tree.scale * plan.now.tree.scale }
    requires belongs { IsCoreOf plan.now core.now }
    requires here { rounds ≡ rounds_before plan.now core.now.tick }
    requires seen { IsSeen plan.now seen.now }
    ensures { IfSome result (λ again. IsRecurrence plan.now again) }
{
    let now = core.now();
    if seen.tick == 0 || now <= seen.tick || rounds < seen.rounds {
        return None;
    }
    let ticks = now - seen.tick;
    if !are_turns(plan, turn, ticks) || !core.places().is_same(&seen.places) {
        return None;
    }
    Some(Recurrence {
        from: seen.tick,
        ticks,
        rounds: rounds - seen.rounds,
    })
}
