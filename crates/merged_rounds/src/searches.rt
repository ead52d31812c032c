//! The search for a lap.
ghost use Rattle.std.specs.Prelude.{ℕ, ◌≡◌, ◌<◌, ◌≤◌, ◌-◌, ◌*◌, length, IfErr, IfOk, IfSome};
ghost use Rattle.run_tree.specs.Plans.{stop_of};
ghost use Rattle.event_core.specs.Counts.{IsCountFault};
ghost use Rattle.merged_rounds.specs.Replays.{IsMergingFrom, IsSourceOf};
ghost use Rattle.merged_rounds.specs.Standings.{IsStanding, StandsAlike};

use crate::passes::merge_up_to;
use crate::releases::last_release;
use crate::sources::Source;
use crate::standings::{Standing, standing_at};
use crate::sums::RoundSum;
use event_core::CountFault;
use run_tree::Plan;
use sched_base::{Leaf, NoMemory, NodeId};
use std::alloc::Global;

/// The ticks of a hyperperiod, where there are more up to the end of all rounds.
pub(crate) fn turn_of(plan: &Plan) -> Option<u128>
    ensures turn { IfSome result (λ turn. turn ≡ plan.now.tree.scale * plan.now.tree.scale) }
    ensures within { IfSome result (λ turn. turn < stop_of plan.now) }
{
    let scale = plan.scale();
    let horizon = u128::from(plan.set().horizon());
    if scale < horizon {
        Some(scale * scale)
    } else {
        None
    }
}

// The first multiple of `turn` at which no task waits, where that is before the end of all rounds.
fn first_turn(plan: &Plan, turn: u128) -> Option<u128>
    requires within { turn < stop_of plan.now }
    ensures { IfSome result (λ begin. begin < stop_of plan.now) }
{
    let stop = plan.rounds_end();
    let released = last_release(plan);
    if turn == 0 || released >= stop {
        return None;
    }
    let before = released / turn * turn;
    let begin = if before < released {
        before + turn
    } else {
        before
    };
    if begin < stop { Some(begin) } else { None }
}

// Goes on with rounds up to the first that begins at tick `until` or later, where the source isn't there yet.
fn merge_before(
    alloc: Global,
    plan: &Plan,
    source: &mut Source,
    kept: &mut [Option<NodeId>],
    told: &mut [Option<Leaf>],
    sum: &mut RoundSum,
    until: u128,
) -> Result<(), CountFault>
    requires merging { IsMergingFrom plan.now source.old sum.old kept.old }
    requires kept { length kept.old ≡ plan.now.tree.processors }
    requires told { length told.old ≡ plan.now.tree.processors }
    requires until { until ≤ stop_of plan.now }
    ensures merging { IfOk result (λ _. IsMergingFrom plan.now source.new sum.new kept.new) }
    ensures fault { IfErr result (λ fault. IsCountFault plan.now fault) }
{
    if source.now() >= until {
        return Ok(());
    }
    merge_up_to(alloc, plan, source, kept, told, sum, until)
}

// Tells where the schedule stands at the source's tick, once tick `at` is twice as late as where it was seen, and what it told until then.
fn see_later(
    alloc: Global,
    plan: &Plan,
    source: &Source,
    seen: &mut Standing,
    at: u128,
) -> Result<(), NoMemory>
    requires belongs { IsSourceOf plan.now source.now }
    requires seen { IsStanding plan.now seen.old }
    ensures { IfOk result (λ _. IsStanding plan.now seen.new) }
{
    if at / 2 < seen.tick {
        return Ok(());
    }
    *seen = standing_at(alloc, plan, source)?;
    Ok(())
}

/// Goes on with rounds up to a multiple of `turn` at which the schedule stands as so many ticks before, which it tells, or up to the last
/// multiple before the end. It looks from the first multiple on at which no task waits. Of where it stood at earlier ones one is kept, and
/// a later one as soon as it is twice as late.
pub(crate) fn merge_until_again(
    alloc: Global,
    plan: &Plan,
    source: &mut Source,
    kept: &mut [Option<NodeId>],
    told: &mut [Option<Leaf>],
    sum: &mut RoundSum,
    turn: u128,
) -> Result<Option<u128>, CountFault>
    requires merging { IsMergingFrom plan.now source.old sum.old kept.old }
    requires kept { length kept.old ≡ plan.now.tree.processors }
    requires told { length told.old ≡ plan.now.tree.processors }
    requires turn { turn ≡ plan.now.tree.scale * plan.now.tree.scale }
    requires within { turn < stop_of plan.now }
    ensures merging { IfOk result (λ _. IsMergingFrom plan.now source.new sum.new kept.new) }
    ensures again { IfOk result (λ again. IfSome again (λ ticks. StandsAlike plan.now (source.new.tick - ticks) source.new.tick)) }
    ensures fault { IfErr result (λ fault. IsCountFault plan.now fault) }
{
    plan.know_lawful();
    let Some(begin) = first_turn(plan, turn) else {
        return Ok(None);
    };
    merge_before(alloc, plan, source, kept, told, sum, begin)?;
    let mut seen = standing_at(alloc, plan, source)?;
    let at = begin + turn;
    merge_until_seen(alloc, plan, source, kept, told, sum, &mut seen, at, turn)
}

// So with the first look at the first round that begins at tick `first` or later, given where the schedule stood before.
fn merge_until_seen(
    alloc: Global,
    plan: &Plan,
    source: &mut Source,
    kept: &mut [Option<NodeId>],
    told: &mut [Option<Leaf>],
    sum: &mut RoundSum,
    seen: &mut Standing,
    first: u128,
    turn: u128,
) -> Result<Option<u128>, CountFault>
    requires merging { IsMergingFrom plan.now source.old sum.old kept.old }
    requires kept { length kept.old ≡ plan.now.tree.processors }
    requires told { length told.old ≡ plan.now.tree.processors }
    requires seen { IsStanding plan.now seen.old }
    requires turn { turn ≡ plan.now.tree.scale * plan.now.tree.scale }
    requires within { turn < stop_of plan.now }
    ensures merging { IfOk result (λ _. IsMergingFrom plan.now source.new sum.new kept.new) }
    ensures again { IfOk result (λ again. IfSome again (λ ticks. StandsAlike plan.now (source.new.tick - ticks) source.new.tick)) }
    ensures fault { IfErr result (λ fault. IsCountFault plan.now fault) }
{
    let stop = plan.rounds_end();
    let mut at = first;
    'turns: while at < stop {
        merge_up_to(alloc, plan, source, kept, told, sum, at)?;
        let again = seen.again_after(alloc, plan, source)?;
        if again.is_some() {
            return Ok(again);
        }
        see_later(alloc, plan, source, seen, at)?;
        at += turn;
    }
    Ok(None)
}
