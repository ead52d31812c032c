//! The rounds of a plan in which no task waits, by the processors that may show something else than before.
ghost use Rattle.std.specs.Prelude.{ℕ, ◌≡◌, ◌<◌, ◌≤◌, length, IfErr, IfOk, None, slice_index, slice_index_or, vec_len};
ghost use Rattle.run_tree.specs.Plans.{stop_of};
ghost use Rattle.run_tree.specs.Schedule.{packs_at};
ghost use Rattle.event_core.specs.Cores.{places_of};
ghost use Rattle.event_core.specs.Counts.{IsCountFault};
ghost use Rattle.event_core.specs.Rounds.{IsRoundUpTo};
ghost use Rattle.event_core.specs.Told.{AllReleased};
ghost use Rattle.merged_rounds.specs.Changes.{AreAllChanged, AreLeavesOf, AreTheLeaves, AreTold, IsNone, IsShowing};
ghost use Rattle.merged_rounds.specs.Laps.{IsAllTold, IsSumUpTo};
ghost use Rattle.merged_rounds.specs.Replays.{IsSourceOf};

use crate::looks::look_all;
use crate::sources::Source;
use crate::sums::{RoundSum, add_changed, add_round, add_seen};
use event_core::{CountFault, leaf_shown_for};
use run_tree::Plan;
use sched_base::{Leaf, NoMemory, NodeId};
use std::alloc::Global;

/// Room for the processors that are told: one for each pack of level 0.
pub(crate) fn room_for_told(alloc: Global, plan: &Plan) -> Result<Vec<u32>, NoMemory>
    ensures { IfOk result (λ v. vec_len v ≡ length (packs_at plan.now.tree 0)) }
{
    plan.know_lawful();
    Ok(vec![in alloc; 0u32; plan.tree().packs(0) as usize]?)
}

/// The first so many of these.
#[inline(always)]
pub(crate) fn first_of(changed: &[u32], count: usize) -> &[u32]
    requires { count ≤ length changed.now }
    ensures long { length result.now ≡ count }
    ensures each { (k : ℕ) → k < count → slice_index result.now k ≡ slice_index changed.now k }
{
    &changed[..count]
}

// Tells of these processors what they show in the round just gone, which began at tick `start`, given what each node shows.
#[inline(always)]
fn look_changed(
    plan: &Plan,
    source: &Source,
    leaves: &[Leaf],
    start: u128,
    changed: &[u32],
    told: &mut [Option<Leaf>],
)
    requires belongs { IsSourceOf plan.now source.now }
    requires round { IsRoundUpTo plan.now start source.now.tick }
    requires leaves { AreLeavesOf plan.now start leaves.now }
    requires within { (k : ℕ) → k < length changed.now → slice_index changed.now k < plan.now.tree.processors }
    requires told { length told.old ≡ plan.now.tree.processors }
    ensures { AreTold plan.now start source.now.tick changed.now (length changed.now) told.old told.new }
{
    for k in 0..changed.len() {
        let q = changed[k];
        told[q as usize] = Some(source.leaf_by(plan, leaves, start, q));
    }
}

/// Goes on with one round in which no task waits, and looks at each processor.
pub(crate) fn merge_whole(
    plan: &Plan,
    source: &mut Source,
    told: &mut [Option<Leaf>],
    sum: &mut RoundSum,
) -> Result<(), CountFault>
    requires belongs { IsSourceOf plan.now source.old }
    requires released { AllReleased plan.now source.old.tick }
    requires early { source.old.tick < stop_of plan.now }
    requires sum { IsSumUpTo plan.now source.old.tick sum.old }
    requires told { length told.old ≡ plan.now.tree.processors }
    ensures showing { IfOk result (λ _. IsShowing plan.now source.new sum.new) }
    ensures round { IfOk result (λ _. IsRoundUpTo plan.now source.old.tick source.new.tick) }
    ensures told { IfOk result (λ _. IsAllTold plan.now source.old.tick source.new.tick told.new) }
    ensures fault { IfErr result (λ fault. IsCountFault plan.now fault) }
{
    let start = source.now();
    source.go(plan);
    look_all(plan, source, start, told);
    let end = source.now();
    add_round(plan, sum, start, end, told)?;
    Ok(())
}

/// Goes on with one round, of which the processors are looked at that are told: how many they are. What each processor shows is told.
#[inline(always)]
pub(crate) fn merge_telling(
    plan: &Plan,
    source: &mut Source,
    leaves: &[Leaf],
    told: &mut [Option<Leaf>],
    changed: &mut [u32],
    sum: &mut RoundSum,
) -> Result<usize, CountFault>
    requires showing { IsShowing plan.now source.old sum.old }
    requires early { source.old.tick < stop_of plan.now }
    requires leaves { AreLeavesOf plan.now source.old.tick leaves.now }
    requires told { AreTheLeaves plan.now source.old.tick told.old }
    requires room { length changed.old ≡ length (packs_at plan.now.tree 0) }
    ensures showing { IfOk result (λ _. IsShowing plan.now source.new sum.new) }
    ensures round { IfOk result (λ _. IsRoundUpTo plan.now source.old.tick source.new.tick) }
    ensures changed { IfOk result (λ count. AreAllChanged plan.now source.old.tick source.new.tick changed.new count) }
    ensures placed { IfOk result (λ count. (q : ℕ) → q < plan.now.tree.processors → IsNone changed.new count q →
        slice_index_or (places_of plan.now source.new.tick).onto q None ≡ slice_index_or (places_of plan.now source.old.tick).onto q None) }
    ensures told { IfOk result (λ _. AreTheLeaves plan.now source.new.tick told.new) }
    ensures still { IfOk result (λ count. (q : ℕ) → IsNone changed.new count q → slice_index_or told.new q None ≡ slice_index_or told.old q None) }
    ensures fault { IfErr result (λ fault. IsCountFault plan.now fault) }
{
    let start = source.now();
    let count = source.go_telling(plan, changed);
    let seen = first_of(changed, count);
    look_changed(plan, source, leaves, start, seen, told);
    let end = source.now();
    add_changed(plan, sum, start, end, seen, told)?;
    Ok(count)
}

/// What each node shows from tick `start` on, where no task waits.
pub(crate) fn shown_leaves(alloc: Global, plan: &Plan, start: u128) -> Result<Vec<Leaf>, NoMemory>
    requires { AllReleased plan.now start }
    ensures { IfOk result (λ leaves. AreLeavesOf plan.now start leaves.items) }
{
    let mut leaves = Vec::new(alloc);
    for n in 0..plan.tree().nodes() {
        leaves.push(leaf_shown_for(plan, NodeId(n), start))?;
    }
    Ok(leaves)
}

// Goes on with one round, of which the processors are looked at that are told, given what each node shows.
#[inline(always)]
fn merge_seen(
    plan: &Plan,
    source: &mut Source,
    leaves: &[Leaf],
    changed: &mut [u32],
    sum: &mut RoundSum,
) -> Result<(), CountFault>
    requires showing { IsShowing plan.now source.old sum.old }
    requires early { source.old.tick < stop_of plan.now }
    requires leaves { AreLeavesOf plan.now source.old.tick leaves.now }
    requires room { length changed.old ≡ length (packs_at plan.now.tree 0) }
    ensures showing { IfOk result (λ _. IsShowing plan.now source.new sum.new) }
    ensures round { IfOk result (λ _. IsRoundUpTo plan.now source.old.tick source.new.tick) }
    ensures leaves { IfOk result (λ _. AreLeavesOf plan.now source.new.tick leaves.now) }
    ensures fault { IfErr result (λ fault. IsCountFault plan.now fault) }
{
    let start = source.now();
    let count = source.go_telling(plan, changed);
    let seen = first_of(changed, count);
    add_seen(plan, sum, source, leaves, start, seen)?;
    Ok(())
}

// Goes on with rounds up to the first that begins at tick `until` or later, or to the end of all, given what each node shows.
fn merge_changed(
    plan: &Plan,
    source: &mut Source,
    leaves: &[Leaf],
    changed: &mut [u32],
    sum: &mut RoundSum,
    until: u128,
) -> Result<(), CountFault>
    requires showing { IsShowing plan.now source.old sum.old }
    requires until { until ≤ stop_of plan.now }
    requires leaves { AreLeavesOf plan.now source.old.tick leaves.now }
    requires room { length changed.old ≡ length (packs_at plan.now.tree 0) }
    ensures showing { IfOk result (λ _. IsShowing plan.now source.new sum.new) }
    ensures reached { IfOk result (λ _. until ≤ source.new.tick) }
    ensures fault { IfErr result (λ fault. IsCountFault plan.now fault) }
{
    'rounds: while source.now() < until {
        merge_seen(plan, source, leaves, changed, sum)?;
    }
    Ok(())
}

/// Goes on with rounds up to the first that begins at tick `until` or later, or to the end of all, in which no task waits; `told` is
/// overwritten. Each processor is looked at in the first round, and then only those that are told.
pub(crate) fn merge_released(
    alloc: Global,
    plan: &Plan,
    source: &mut Source,
    told: &mut [Option<Leaf>],
    sum: &mut RoundSum,
    until: u128,
) -> Result<(), CountFault>
    requires released { source.old.tick < until → AllReleased plan.now source.old.tick }
    requires belongs { IsSourceOf plan.now source.old }
    requires sum { IsSumUpTo plan.now source.old.tick sum.old }
    requires told { length told.old ≡ plan.now.tree.processors }
    requires until { until ≤ stop_of plan.now }
    ensures belongs { IfOk result (λ _. IsSourceOf plan.now source.new) }
    ensures sum { IfOk result (λ _. IsSumUpTo plan.now source.new.tick sum.new) }
    ensures reached { IfOk result (λ _. until ≤ source.new.tick) }
    ensures fault { IfErr result (λ fault. IsCountFault plan.now fault) }
{
    let start = source.now();
    if start >= until {
        return Ok(());
    }
    let mut changed = room_for_told(alloc, plan)?;
    let leaves = shown_leaves(alloc, plan, start)?;
    merge_whole(plan, source, told, sum)?;
    merge_changed(plan, source, &leaves, &mut changed, sum, until)
}
