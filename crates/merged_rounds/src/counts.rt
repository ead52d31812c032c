//! How many rounds a plan has, by those of one hyperperiod.
ghost use Rattle.std.specs.Prelude.{◌≡◌, ◌≤◌, ◌<◌, ◌+◌, ◌*◌, min, IfOk, IfErr};
ghost use Rattle.sched_base.specs.Tables.{row_limit};
ghost use Rattle.run_tree.specs.Plans.{rounds_of, stop_of};
ghost use Rattle.event_core.specs.Cores.{IsCoreOf};
ghost use Rattle.event_core.specs.Counts.{IsCountFault};
ghost use Rattle.event_core.specs.Rounds.{rounds_before};
ghost use Rattle.merged_rounds.specs.Laps.{CanComeRound};

use crate::apart::comes_round;
use crate::searches::turn_of;
use event_core::{Core, CountFault, count_rounds};
use run_tree::Plan;
use sched_base::ROW_LIMIT;
use std::alloc::Global;

/// The number of rounds of a plan, where their rows, one for each processor, are at most 2,097,152. Where what runs comes round it goes
/// over the rounds of one hyperperiod, and else over all.
pub fn round_count(alloc: Global, plan: &Plan) -> Result<u64, CountFault>
    ensures count { IfOk result (λ count. (count ≡ rounds_of plan.now) × (count * plan.now.tree.processors ≤ row_limit)) }
    ensures fault { IfErr result (λ fault. IsCountFault plan.now fault) }
{
    if let Some(turn) = turn_of(plan) {
        if comes_round(plan) {
            let mut core = Core::new(alloc, plan)?;
            return count_by_turn(plan, &mut core, turn);
        }
    }
    count_rounds(alloc, plan)
}

// Counts the rounds of one hyperperiod, of `turn` ticks, and with them those of all.
fn count_by_turn(plan: &Plan, core: &mut Core, turn: u128) -> Result<u64, CountFault>
    requires can { CanComeRound plan.now }
    requires turn { turn ≡ plan.now.tree.scale * plan.now.tree.scale }
    requires within { turn < stop_of plan.now }
    requires belongs { IsCoreOf plan.now core.old }
    requires first { core.old.tick ≡ 0 }
    ensures count { IfOk result (λ count. (count ≡ rounds_of plan.now) × (count * plan.now.tree.processors ≤ row_limit)) }
    ensures fault { IfErr result (λ fault. IsCountFault plan.now fault) }
{
    plan.know_lawful();
    let last = plan.rounds_end() - 1;
    let rest = count_up_to(plan, core, 0, last % turn + 1)?;
    let both = count_up_to(plan, core, rest, turn + 1)?;
    count_all(plan, last / turn, both - 1, rest)
}

// Goes on with rounds up to the first that begins at tick `until` or later. It gives how many begin before that tick, where there are so
// many up to the core's.
fn count_up_to(plan: &Plan, core: &mut Core, first: u64, until: u128) -> Result<u64, CountFault>
    requires belongs { IsCoreOf plan.now core.old }
    requires here { first ≡ rounds_before plan.now core.old.tick }
    requires before { first ≡ rounds_before plan.now (min core.old.tick until) }
    requires few { first * plan.now.tree.processors ≤ row_limit }
    requires until { until ≤ stop_of plan.now }
    ensures belongs { IfOk result (λ _. IsCoreOf plan.now core.new) }
    ensures here { IfOk result (λ count. count ≡ rounds_before plan.now core.new.tick) }
    ensures count { IfOk result (λ count. count ≡ rounds_before plan.now until) }
    ensures reached { IfOk result (λ _. until ≤ core.new.tick) }
    ensures few { IfOk result (λ count. count * plan.now.tree.processors ≤ row_limit) }
    ensures fault { IfErr result (λ fault. IsCountFault plan.now fault) }
{
    let processors = u64::from(plan.tree().processors());
    let mut count = first;
    'rounds: while core.now() < until {
        let next_rows = (count + 1) * processors;
        if next_rows > ROW_LIMIT {
            return Err(CountFault::TooLong { rows: next_rows });
        }
        core.go(plan);
        count += 1;
    }
    Ok(count)
}

// The number of all rounds: so many times `each`, and `rest`.
pub(crate) fn count_all(plan: &Plan, times: u128, each: u64, rest: u64) -> Result<u64, CountFault>
    requires all { rounds_of plan.now ≡ times * each + rest }
    requires few { each ≤ row_limit }
    requires rest { rest ≤ row_limit }
    ensures count { IfOk result (λ count. (count ≡ rounds_of plan.now) × (count * plan.now.tree.processors ≤ row_limit)) }
    ensures fault { IfErr result (λ fault. IsCountFault plan.now fault) }
{
    let processors = u64::from(plan.tree().processors());
    let most = ROW_LIMIT / processors;
    let times = times.min(u128::from(most) + 1) as u64;
    let count = times * each + rest;
    if count > most {
        return Err(CountFault::TooLong {
            rows: (most + 1) * processors,
        });
    }
    Ok(count)
}
