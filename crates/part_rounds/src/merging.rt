//! The merged rows of a plan.
ghost use Rattle.std.specs.Prelude.{ℕ, ◌≡◌, ◌<◌, ◌≤◌, ◌*◌, length, slice_index, IfOk, IfErr, IfSome};
ghost use Rattle.std.specs.List.{AllByRecursion};
ghost use Rattle.sched_base.specs.Tables.{row_limit};
ghost use Rattle.run_tree.specs.Plans.{rounds_of, stop_of};
ghost use Rattle.event_core.specs.Counts.{IsCountFault};
ghost use Rattle.merged_rows.specs.Lawful.{AreLawful};
ghost use Rattle.merged_rounds.specs.Laps.{IsSumUpTo};
ghost use Rattle.merged_rounds.specs.Passes.{AreMergedOf};
ghost use Rattle.merged_rounds.specs.Replays.{packs_of};
ghost use Rattle.part_rounds.specs.Merging.{IsMergingOf};
ghost use Rattle.part_rounds.specs.Parted.{IsPartedOf};

use crate::parted::{Parted, parted_of};
use event_core::CountFault;
use merged_rounds::{RoundSum, add_changed, all_rounds, no_rounds};
use merged_rows::MergedRows;
use run_tree::Plan;
use sched_base::{Leaf, NoMemory};
use std::alloc::Global;

/// The merged rows of the schedule of a plan without offsets, where it falls into parts and those of some part come round by themselves: the rounds
/// of each part are computed, or come again, alone. It has at most 2,097,152 rows, one for each round and processor; a schedule with more is refused
/// as it comes to the first round without room, with the number of rows up to the end of that round.
pub fn merged_by_parts(alloc: Global, plan: &Plan) -> Result<Option<MergedRows>, CountFault>
    requires on_time { AllByRecursion (λ t. t.offset ≡ 0) plan.now.set.tasks }
    ensures rows { IfOk result (λ found. IfSome found (λ merged. AreMergedOf plan.now merged.lanes)) }
    ensures lawful { IfOk result (λ found. IfSome found (λ merged. AreLawful plan.now.set merged.lanes)) }
    ensures few { IfOk result (λ found. IfSome found (λ _. rounds_of plan.now * plan.now.tree.processors ≤ row_limit)) }
    ensures fault { IfErr result (λ fault. IsCountFault plan.now fault) }
{
    let Some(mut parted) = parted_of(alloc, plan)? else {
        return Ok(None);
    };
    let rows = merge_parted(alloc, plan, &mut parted)?;
    Ok(Some(rows))
}

// The merged rows of a plan by its parts, all of whose rounds are to come.
fn merge_parted(alloc: Global, plan: &Plan, parted: &mut Parted) -> Result<MergedRows, CountFault>
    requires belongs { IsPartedOf plan.now parted.old }
    requires first { parted.old.tick ≡ 0 }
    ensures rows { IfOk result (λ merged. AreMergedOf plan.now merged.lanes) }
    ensures lawful { IfOk result (λ merged. AreLawful plan.now.set merged.lanes) }
    ensures few { IfOk result (λ _. rounds_of plan.now * plan.now.tree.processors ≤ row_limit) }
    ensures fault { IfErr result (λ fault. IsCountFault plan.now fault) }
{
    let first = no_rounds(alloc, plan)?;
    let mut told = no_told(alloc, plan)?;
    let mut leaves = no_leaves(alloc, plan)?;
    let sum = merge_to_end(plan, parted, &mut told, &mut leaves, first)?;
    Ok(all_rounds(plan, sum))
}

// Goes on up to the end of all rounds; `told` and `leaves` are overwritten.
fn merge_to_end(
    plan: &Plan,
    parted: &mut Parted,
    told: &mut [u32],
    leaves: &mut [Option<Leaf>],
    first: RoundSum,
) -> Result<RoundSum, CountFault>
    requires merging { IsMergingOf plan.now parted.old leaves.old first }
    requires room { length told.old ≡ packs_of plan.now }
    ensures sum { IfOk result (λ sum. IsSumUpTo plan.now (stop_of plan.now) sum) }
    ensures fault { IfErr result (λ fault. IsCountFault plan.now fault) }
{
    let mut sum = first;
    let stop = plan.rounds_end();
    'rounds: while parted.now() < stop {
        merge_next(plan, parted, told, leaves, &mut sum)?;
    }
    Ok(sum)
}

// Goes on with one round, of which the processors are looked at that are told.
#[inline(always)]
fn merge_next(
    plan: &Plan,
    parted: &mut Parted,
    told: &mut [u32],
    leaves: &mut [Option<Leaf>],
    sum: &mut RoundSum,
) -> Result<(), CountFault>
    requires merging { IsMergingOf plan.now parted.old leaves.old sum.old }
    requires early { parted.old.tick < stop_of plan.now }
    requires room { length told.old ≡ packs_of plan.now }
    ensures merging { IfOk result (λ _. IsMergingOf plan.now parted.new leaves.new sum.new) }
    ensures later { IfOk result (λ _. parted.old.tick < parted.new.tick) }
    ensures fault { IfErr result (λ fault. IsCountFault plan.now fault) }
{
    let start = parted.now();
    let count = parted.go_telling(plan, told, leaves);
    let seen = first_of(told, count);
    let end = parted.now();
    add_changed(plan, sum, start, end, seen, leaves)?;
    Ok(())
}

// The first so many of these.
#[inline(always)]
fn first_of(told: &[u32], count: usize) -> &[u32]
    requires { count ≤ length told.now }
    ensures long { length result.now ≡ count }
    ensures each { (k : ℕ) → k < count → slice_index result.now k ≡ slice_index told.now k }
{
    &told[..count]
}

// Room for the processors that are told.
fn no_told(alloc: Global, plan: &Plan) -> Result<Vec<u32>, NoMemory>
    ensures { IfOk result (λ v. length v.items ≡ packs_of plan.now) }
{
    plan.know_lawful();
    Ok(vec![in alloc; 0; plan.tree().packs(0) as usize]?)
}

// Room for what they show.
fn no_leaves(alloc: Global, plan: &Plan) -> Result<Vec<Option<Leaf>>, NoMemory>
    ensures { IfOk result (λ v. length v.items ≡ plan.now.tree.processors) }
{
    Ok(vec![in alloc; None; plan.tree().processors() as usize]?)
}
