//! The merged rows of a plan.
ghost use Rattle.std.specs.Prelude.{ℕ, ◌≡◌, ◌<◌, ◌≤◌, ◌*◌, length, slice_index, IfOk, IfErr};
ghost use Rattle.sched_base.specs.Tables.{row_limit};
ghost use Rattle.run_tree.specs.Plans.{rounds_of, stop_of};
ghost use Rattle.event_core.specs.Counts.{IsCountFault};
ghost use Rattle.merged_rows.specs.Lawful.{AreLawful};
ghost use Rattle.merged_rounds.specs.Laps.{IsSumUpTo};
ghost use Rattle.merged_rounds.specs.Passes.{AreMergedOf};
ghost use Rattle.partition_rounds.specs.Merging.{IsMergingOf};
ghost use Rattle.partition_rounds.specs.OwnRounds.{IsPartitionOf};

use crate::partitions::{Partition, partition_of};
use event_core::CountFault;
use merged_rounds::{RoundSum, add_changed, all_rounds, hyperperiod_of, no_rounds};
use merged_rows::MergedRows;
use part_rounds::merged_by_parts;
use repeat_laws::first_late;
use run_tree::Plan;
use sched_base::{Leaf, NoMemory};
use std::alloc::Global;

/// The merged rows of a plan's schedule, where it has at most 2,097,152 rows, one for each round and processor. It goes over each round once, and
/// keeps no row that is merged with the one before. A schedule with too many rows is refused as it comes to the first round without room, with the
/// number of rows up to the end of that round. Of a partitioned plan the rounds of each processor are computed alone, where they come round so, and
/// of another plan that falls into parts those of each part.
pub fn merged_of(alloc: Global, plan: &Plan) -> Result<MergedRows, CountFault>
    ensures rows { IfOk result (λ merged. AreMergedOf plan.now merged.lanes) }
    ensures lawful { IfOk result (λ merged. AreLawful plan.now.set merged.lanes) }
    ensures few { IfOk result (λ _. rounds_of plan.now * plan.now.tree.processors ≤ row_limit) }
    ensures fault { IfErr result (λ fault. IsCountFault plan.now fault) }
{
    if plan.tree().processors() > 1
        && hyperperiod_of(plan).is_none()
        && first_late(plan.set().tasks()).is_none()
    {
        if let Some(mut partition) = partition_of(alloc, plan)? {
            return merge_partition(alloc, plan, &mut partition);
        }
        if let Some(merged) = merged_by_parts(alloc, plan)? {
            return Ok(merged);
        }
    }
    merged_rounds::merged_of(alloc, plan)
}

// The merged rows of a partitioned plan, all of whose rounds are to come.
fn merge_partition(
    alloc: Global,
    plan: &Plan,
    partition: &mut Partition,
) -> Result<MergedRows, CountFault>
    requires belongs { IsPartitionOf plan.now partition.old }
    requires first { partition.old.tick ≡ 0 }
    ensures rows { IfOk result (λ merged. AreMergedOf plan.now merged.lanes) }
    ensures lawful { IfOk result (λ merged. AreLawful plan.now.set merged.lanes) }
    ensures few { IfOk result (λ _. rounds_of plan.now * plan.now.tree.processors ≤ row_limit) }
    ensures fault { IfErr result (λ fault. IsCountFault plan.now fault) }
{
    let first = no_rounds(alloc, plan)?;
    let mut told = no_told(alloc, plan)?;
    let mut leaves = no_leaves(alloc, plan)?;
    let sum = merge_to_end(plan, partition, &mut told, &mut leaves, first)?;
    Ok(all_rounds(plan, sum))
}

// Goes on up to the end of all rounds; `told` and `leaves` are overwritten.
fn merge_to_end(
    plan: &Plan,
    partition: &mut Partition,
    told: &mut [u32],
    leaves: &mut [Option<Leaf>],
    first: RoundSum,
) -> Result<RoundSum, CountFault>
    requires merging { IsMergingOf plan.now partition.old leaves.old first }
    requires room { length told.old ≡ plan.now.tree.processors }
    ensures sum { IfOk result (λ sum. IsSumUpTo plan.now (stop_of plan.now) sum) }
    ensures fault { IfErr result (λ fault. IsCountFault plan.now fault) }
{
    let mut sum = first;
    let stop = plan.rounds_end();
    'rounds: while partition.now() < stop {
        merge_next(plan, partition, told, leaves, &mut sum)?;
    }
    Ok(sum)
}

// Goes on with one round, of which the processors are looked at that are told.
#[inline(always)]
fn merge_next(
    plan: &Plan,
    partition: &mut Partition,
    told: &mut [u32],
    leaves: &mut [Option<Leaf>],
    sum: &mut RoundSum,
) -> Result<(), CountFault>
    requires merging { IsMergingOf plan.now partition.old leaves.old sum.old }
    requires early { partition.old.tick < stop_of plan.now }
    requires room { length told.old ≡ plan.now.tree.processors }
    ensures merging { IfOk result (λ _. IsMergingOf plan.now partition.new leaves.new sum.new) }
    ensures later { IfOk result (λ _. partition.old.tick < partition.new.tick) }
    ensures fault { IfErr result (λ fault. IsCountFault plan.now fault) }
{
    let start = partition.now();
    let count = partition.go_telling(plan, told, leaves);
    let seen = first_of(told, count);
    let end = partition.now();
    add_changed(plan, sum, start, end, seen, leaves)?;
    Ok(())
}

// The first so many of these.
#[inline(always)]
fn first_of(told: &[u32], count: usize) -> &[u32]
    requires { count ≤ length told.now }
    ensures long { length result.now ≡ count }
    ensures each { (k : ℕ) → k < count → slice_index result.now k ≡ slice_index told.now k }
{
    &told[..count]
}

// Room for the processors that are told.
fn no_told(alloc: Global, plan: &Plan) -> Result<Vec<u32>, NoMemory>
    ensures { IfOk result (λ v. length v.items ≡ plan.now.tree.processors) }
{
    Ok(vec![in alloc; 0; plan.tree().processors() as usize]?)
}

// Room for what they show.
fn no_leaves(alloc: Global, plan: &Plan) -> Result<Vec<Option<Leaf>>, NoMemory>
    ensures { IfOk result (λ v. length v.items ≡ plan.now.tree.processors) }
{
    Ok(vec![in alloc; None; plan.tree().processors() as usize]?)
}
