//! One pass over the rounds of a plan.
ghost use Rattle.std.specs.Prelude.{ℕ, ◌≡◌, ◌<◌, ◌≤◌, ◌+◌, ◌-◌, ◌*◌, true, false, [], length, replicate, slice_index_or, IfOk, IfErr, None};
ghost use Rattle.sched_base.specs.Tables.{row_limit};
ghost use Rattle.run_tree.specs.Plans.{rounds_of, stop_of};
ghost use Rattle.hyperperiod_laws.specs.Hyperperiods.{IdlesApart};
ghost use Rattle.event_core.specs.Cores.{IsCoreOf};
ghost use Rattle.event_core.specs.Counts.{IsCountFault};
ghost use Rattle.event_core.specs.Told.{AllReleased};
ghost use Rattle.merged_rows.specs.Lawful.{AreLawful};
ghost use Rattle.merged_rounds.specs.Laps.{AreTurns, IsMerging, IsSumUpTo};
ghost use Rattle.merged_rounds.specs.Passes.{AreMergedOf};
ghost use Rattle.merged_rounds.specs.Replays.{IsComputed, IsMergingFrom, IsSourceOf};
ghost use Rattle.merged_rounds.specs.Standings.{IsStanding, StandsAlike};

use crate::apart::{are_idles_apart, is_on_time};
use crate::changed::merge_released;
use crate::copies::{is_last_lap, merge_copies};
use crate::laps::{Lap, Later, merge_lap, no_lap, with_laps};
use crate::looks::no_leaves;
use crate::releases::last_release;
use crate::searches::{merge_until_again, turn_of};
use crate::sources::{Source, replay_turn, source_of};
use crate::standings::{Standing, standing_at};
use crate::sums::{RoundSum, add_round, all_rounds, no_rounds};
use crate::turns::{MOST_PACKS, merge_turn, no_turn, pack_count};
use event_core::{Core, CountFault};
use merged_rows::MergedRows;
use round_looks::look_each;
use run_tree::Plan;
use sched_base::{Leaf, NoMemory, NodeId};
use std::alloc::Global;

/// The merged rows of a plan's schedule, where it has at most 2,097,152 rows, one for each round and processor. It goes over each
/// round once, and keeps no row that is merged with the one before. Where all places come again at a multiple of the hyperperiod, it
/// computes one lap more, and repeats what that one shows; or where no whole lap is left, and no task has an offset, its merged rows come again. A
/// schedule with too many rows is refused with the number of rows up to the end of the first round without room.
pub fn merged_of(alloc: Global, plan: &Plan) -> Result<MergedRows, CountFault>
    ensures rows { IfOk result (λ merged. AreMergedOf plan.now merged.lanes) }
    ensures lawful { IfOk result (λ merged. AreLawful plan.now.set merged.lanes) }
    ensures few { IfOk result (λ _. rounds_of plan.now * plan.now.tree.processors ≤ row_limit) }
    ensures fault { IfErr result (λ fault. IsCountFault plan.now fault) }
{
    let mut kept = no_nodes(alloc, plan)?;
    let mut told = no_leaves(alloc, plan)?;
    let core = Core::new(alloc, plan)?;
    let sum = merge_rounds(alloc, plan, core, &mut kept, &mut told)?;
    Ok(all_rounds(plan, sum))
}

// Of no processor a node.
fn no_nodes(alloc: Global, plan: &Plan) -> Result<Vec<Option<NodeId>>, NoMemory>
    ensures { IfOk result (λ v. v.items ≡ replicate plan.now.tree.processors None) }
{
    Ok(vec![in alloc; None; plan.tree().processors() as usize]?)
}

// Of no processor a node is kept.
fn forget_nodes(kept: &mut [Option<NodeId>])
    ensures { (q : ℕ) → slice_index_or kept.new q None ≡ None }
{
    for q in 0..kept.len() {
        kept[q] = None;
    }
}

/// Goes on with rounds up to the first that begins at tick `until` or later, or to the end of all. Of each processor a node is kept
/// that shows what it did last; `told` is overwritten.
pub(crate) fn merge_up_to(
    alloc: Global,
    plan: &Plan,
    source: &mut Source,
    kept: &mut [Option<NodeId>],
    told: &mut [Option<Leaf>],
    sum: &mut RoundSum,
    until: u128,
) -> Result<(), CountFault>
    requires merging { IsMergingFrom plan.now source.old sum.old kept.old }
    requires kept { length kept.old ≡ plan.now.tree.processors }
    requires told { length told.old ≡ plan.now.tree.processors }
    requires until { until ≤ stop_of plan.now }
    ensures merging { IfOk result (λ _. IsMergingFrom plan.now source.new sum.new kept.new) }
    ensures reached { IfOk result (λ _. until ≤ source.new.tick) }
    ensures fault { IfErr result (λ fault. IsCountFault plan.now fault) }
{
    if source.replays(plan) {
        return merge_changes(alloc, plan, source, kept, told, sum, until);
    }
    let released = until.min(last_release(plan));
    merge_computed(plan, source, kept, told, sum, released)?;
    merge_changes(alloc, plan, source, kept, told, sum, until)
}

// So where no task waits from the source's tick on, and only processors are looked at that may show something else.
fn merge_changes(
    alloc: Global,
    plan: &Plan,
    source: &mut Source,
    kept: &mut [Option<NodeId>],
    told: &mut [Option<Leaf>],
    sum: &mut RoundSum,
    until: u128,
) -> Result<(), CountFault>
    requires released { source.old.tick < until → AllReleased plan.now source.old.tick }
    requires merging { IsMergingFrom plan.now source.old sum.old kept.old }
    requires kept { length kept.old ≡ plan.now.tree.processors }
    requires told { length told.old ≡ plan.now.tree.processors }
    requires until { until ≤ stop_of plan.now }
    ensures merging { IfOk result (λ _. IsMergingFrom plan.now source.new sum.new kept.new) }
    ensures reached { IfOk result (λ _. until ≤ source.new.tick) }
    ensures fault { IfErr result (λ fault. IsCountFault plan.now fault) }
{
    forget_nodes(kept);
    merge_released(alloc, plan, source, told, sum, until)
}

// So with rounds that a core computes, and a look at each processor in each of them.
fn merge_computed(
    plan: &Plan,
    source: &mut Source,
    kept: &mut [Option<NodeId>],
    told: &mut [Option<Leaf>],
    sum: &mut RoundSum,
    until: u128,
) -> Result<(), CountFault>
    requires computed { IsComputed plan.now source.old }
    requires off { source.old.replays ≡ false }
    requires merging { IsMergingFrom plan.now source.old sum.old kept.old }
    requires kept { length kept.old ≡ plan.now.tree.processors }
    requires told { length told.old ≡ plan.now.tree.processors }
    requires until { until ≤ stop_of plan.now }
    ensures merging { IfOk result (λ _. IsMergingFrom plan.now source.new sum.new kept.new) }
    ensures reached { IfOk result (λ _. until ≤ source.new.tick) }
    ensures fault { IfErr result (λ fault. IsCountFault plan.now fault) }
{
    merge_looking(plan, &mut source.core, kept, told, sum, until)?;
    source.tick = source.core.now();
    Ok(())
}

// So with a look at each processor in each round.
fn merge_looking(
    plan: &Plan,
    core: &mut Core,
    kept: &mut [Option<NodeId>],
    told: &mut [Option<Leaf>],
    sum: &mut RoundSum,
    until: u128,
) -> Result<(), CountFault>
    requires merging { IsMerging plan.now core.old sum.old kept.old }
    requires kept { length kept.old ≡ plan.now.tree.processors }
    requires told { length told.old ≡ plan.now.tree.processors }
    requires until { until ≤ stop_of plan.now }
    ensures merging { IfOk result (λ _. IsMerging plan.now core.new sum.new kept.new) }
    ensures reached { IfOk result (λ _. until ≤ core.new.tick) }
    ensures fault { IfErr result (λ fault. IsCountFault plan.now fault) }
{
    'rounds: while core.now() < until {
        let start = core.now();
        core.go(plan);
        look_each(plan, core, start, kept, told);
        let end = core.now();
        add_round(plan, sum, start, end, told)?;
    }
    Ok(())
}

// Goes on up to the end of all rounds.
fn merge_to_end(
    alloc: Global,
    plan: &Plan,
    source: &mut Source,
    kept: &mut [Option<NodeId>],
    told: &mut [Option<Leaf>],
    sum: &mut RoundSum,
) -> Result<(), CountFault>
    requires merging { IsMergingFrom plan.now source.old sum.old kept.old }
    requires kept { length kept.old ≡ plan.now.tree.processors }
    requires told { length told.old ≡ plan.now.tree.processors }
    ensures sum { IfOk result (λ _. IsSumUpTo plan.now (stop_of plan.now) sum.new) }
    ensures fault { IfErr result (λ fault. IsCountFault plan.now fault) }
{
    merge_up_to(alloc, plan, source, kept, told, sum, plan.rounds_end())
}

// Merges all rounds of the plan.
fn merge_rounds(
    alloc: Global,
    plan: &Plan,
    core: Core,
    kept: &mut [Option<NodeId>],
    told: &mut [Option<Leaf>],
) -> Result<RoundSum, CountFault>
    requires belongs { IsCoreOf plan.now core }
    requires first { core.tick ≡ 0 }
    requires kept { kept.old ≡ replicate plan.now.tree.processors None }
    requires told { length told.old ≡ plan.now.tree.processors }
    ensures sum { IfOk result (λ sum. IsSumUpTo plan.now (stop_of plan.now) sum) }
    ensures fault { IfErr result (λ fault. IsCountFault plan.now fault) }
{
    let mut source = computed(alloc, plan, core)?;
    let mut sum = no_rounds(alloc, plan)?;
    merge_all(alloc, plan, &mut source, kept, told, &mut sum)?;
    Ok(sum)
}

// So from a source that computes the first round.
fn merge_all(
    alloc: Global,
    plan: &Plan,
    source: &mut Source,
    kept: &mut [Option<NodeId>],
    told: &mut [Option<Leaf>],
    sum: &mut RoundSum,
) -> Result<(), CountFault>
    requires belongs { IsSourceOf plan.now source.old }
    requires first { source.old.tick ≡ 0 }
    requires sum { IsSumUpTo plan.now 0 sum.old }
    requires kept { kept.old ≡ replicate plan.now.tree.processors None }
    requires told { length told.old ≡ plan.now.tree.processors }
    ensures sum { IfOk result (λ _. IsSumUpTo plan.now (stop_of plan.now) sum.new) }
    ensures fault { IfErr result (λ fault. IsCountFault plan.now fault) }
{
    match turn_of(plan) {
        Some(turn) if are_idles_apart(plan.tree()) => {
            merge_first(alloc, plan, source, sum, turn)?;
            merge_with_laps(alloc, plan, source, kept, told, sum, turn)
        },
        _ => merge_to_end(alloc, plan, source, kept, told, sum),
    }
}

// The rounds that a core computes.
fn computed(alloc: Global, plan: &Plan, core: Core) -> Result<Source, NoMemory>
    requires belongs { IsCoreOf plan.now core }
    ensures belongs { IfOk result (λ source. IsSourceOf plan.now source) }
    ensures tick { IfOk result (λ source. source.tick ≡ core.tick) }
{
    source_of(alloc, plan, core, no_turn(alloc, plan, 0)?)
}

// With so few processors a round costs less than looking through what is kept of it.
const FEW: u32 = 2;

// Goes on for a hyperperiod of so many ticks, where there are more than a few processors, not too many packs, and no task has an offset,
// and tells where further rounds come from: by that one's where it is kept.
fn merge_first(
    alloc: Global,
    plan: &Plan,
    source: &mut Source,
    sum: &mut RoundSum,
    turn: u128,
) -> Result<(), CountFault>
    requires apart { IdlesApart plan.now.tree }
    requires belongs { IsSourceOf plan.now source.old }
    requires first { source.old.tick ≡ 0 }
    requires sum { IsSumUpTo plan.now 0 sum.old }
    requires turn { turn ≡ plan.now.tree.scale * plan.now.tree.scale }
    requires within { turn < stop_of plan.now }
    ensures belongs { IfOk result (λ _. IsSourceOf plan.now source.new) }
    ensures sum { IfOk result (λ _. IsSumUpTo plan.now source.new.tick sum.new) }
    ensures fault { IfErr result (λ fault. IsCountFault plan.now fault) }
{
    if plan.tree().processors() <= FEW || pack_count(plan) > MOST_PACKS || !is_on_time(plan) {
        return Ok(());
    }
    let kept = merge_turn(alloc, plan, source, sum, turn)?;
    replay_turn(alloc, plan, source, kept, turn)?;
    Ok(())
}

// Goes on up to the end of all rounds, of a plan whose idle leaves stand apart: then its schedule can come round.
fn merge_with_laps(
    alloc: Global,
    plan: &Plan,
    source: &mut Source,
    kept: &mut [Option<NodeId>],
    told: &mut [Option<Leaf>],
    sum: &mut RoundSum,
    turn: u128,
) -> Result<(), CountFault>
    requires apart { IdlesApart plan.now.tree }
    requires belongs { IsSourceOf plan.now source.old }
    requires sum { IsSumUpTo plan.now source.old.tick sum.old }
    requires kept { kept.old ≡ replicate plan.now.tree.processors None }
    requires told { length told.old ≡ plan.now.tree.processors }
    requires turn { turn ≡ plan.now.tree.scale * plan.now.tree.scale }
    requires within { turn < stop_of plan.now }
    ensures sum { IfOk result (λ _. IsSumUpTo plan.now (stop_of plan.now) sum.new) }
    ensures fault { IfErr result (λ fault. IsCountFault plan.now fault) }
{
    match merge_until_again(alloc, plan, source, kept, told, sum, turn)? {
        Some(ticks) => merge_again(alloc, plan, source, kept, told, sum, turn, ticks),
        None => merge_to_end(alloc, plan, source, kept, told, sum),
    }
}

/// Whether so many ticks are hyperperiods of `turn` ticks each, at least one.
pub(crate) fn are_turns(plan: &Plan, turn: u128, ticks: u128) -> bool
    requires turn { turn ≡ plan.now.tree.scale * plan.now.tree.scale }
    ensures { result ≡ true → AreTurns plan.now ticks }
{
    plan.know_lawful();
    if turn == 0 || ticks == 0 {
        return false;
    }
    ticks % turn == 0
}

// Whether so many ticks are hyperperiods of `turn` ticks each that begin after tick 0, at tick `from`, and end before all rounds do.
fn is_lap(plan: &Plan, from: u128, turn: u128, ticks: u128) -> bool
    requires turn { turn ≡ plan.now.tree.scale * plan.now.tree.scale }
    ensures later { result ≡ true → 0 < from }
    ensures some { result ≡ true → 0 < ticks }
    ensures within { result ≡ true → from + ticks < stop_of plan.now }
    ensures turns { result ≡ true → AreTurns plan.now ticks }
{
    let stop = plan.rounds_end();
    0 < from && 0 < ticks && from < stop && ticks < stop - from && are_turns(plan, turn, ticks)
}

// Goes on up to the end of all rounds where the schedule stands as so many ticks before: by the rows of these where no fewer ticks are left
// and kept rounds come again; else for one lap, where it ends before all rounds do, and no task waits, and by that one where the schedule
// stands as before it.
fn merge_again(
    alloc: Global,
    plan: &Plan,
    source: &mut Source,
    kept: &mut [Option<NodeId>],
    told: &mut [Option<Leaf>],
    sum: &mut RoundSum,
    turn: u128,
    ticks: u128,
) -> Result<(), CountFault>
    requires apart { IdlesApart plan.now.tree }
    requires merging { IsMergingFrom plan.now source.old sum.old kept.old }
    requires kept { length kept.old ≡ plan.now.tree.processors }
    requires told { length told.old ≡ plan.now.tree.processors }
    requires turn { turn ≡ plan.now.tree.scale * plan.now.tree.scale }
    requires alike { StandsAlike plan.now (source.old.tick - ticks) source.old.tick }
    ensures sum { IfOk result (λ _. IsSumUpTo plan.now (stop_of plan.now) sum.new) }
    ensures fault { IfErr result (λ fault. IsCountFault plan.now fault) }
{
    let from = source.now();
    if is_last_lap(plan, source, turn, ticks) {
        return merge_copies(plan, source, sum, ticks);
    }
    if !is_lap(plan, from, turn, ticks) || from < last_release(plan) {
        return merge_to_end(alloc, plan, source, kept, told, sum);
    }
    let before = standing_at(alloc, plan, source)?;
    let mut lap = no_lap(alloc);
    merge_by_lap(
        alloc, plan, source, kept, told, sum, &before, &mut lap, ticks,
    )
}

// So for one lap of so many ticks, kept in a list of no round yet, and by that one where the schedule stands as before it.
fn merge_by_lap(
    alloc: Global,
    plan: &Plan,
    source: &mut Source,
    kept: &mut [Option<NodeId>],
    told: &mut [Option<Leaf>],
    sum: &mut RoundSum,
    before: &Standing,
    lap: &mut Lap,
    ticks: u128,
) -> Result<(), CountFault>
    requires apart { IdlesApart plan.now.tree }
    requires belongs { IsSourceOf plan.now source.old }
    requires sum { IsSumUpTo plan.now source.old.tick sum.old }
    requires kept { length kept.old ≡ plan.now.tree.processors }
    requires told { length told.old ≡ plan.now.tree.processors }
    requires before { IsStanding plan.now before.now }
    requires here { before.now.tick ≡ source.old.tick }
    requires ends { lap.old.ends.items ≡ [] }
    requires none { lap.old.told.items ≡ [] }
    requires turns { AreTurns plan.now ticks }
    requires some { 0 < ticks }
    requires within { source.old.tick + ticks < stop_of plan.now }
    requires released { AllReleased plan.now source.old.tick }
    ensures sum { IfOk result (λ _. IsSumUpTo plan.now (stop_of plan.now) sum.new) }
    ensures fault { IfErr result (λ fault. IsCountFault plan.now fault) }
{
    plan.know_lawful();
    let from = source.now();
    let until = from + ticks;
    merge_lap(plan, source, told, sum, lap, until)?;
    let again = before.is_again(alloc, plan, source)?;
    if again && source.now() == until {
        return with_laps(plan, lap, Later { from, ticks }, sum);
    }
    forget_nodes(kept);
    merge_to_end(alloc, plan, source, kept, told, sum)
}
