//! The command `table`.
ghost use Rattle.std.specs.Prelude.{◌≡◌, ◌<◌, ◌≤◌, ◌^◌, OnOk, IfErr};
ghost use Rattle.sched_base.specs.Tables.{all_rows};
ghost use Rattle.run_tree.specs.Plans.{stop_of};
ghost use Rattle.run_tree.specs.Compiled.{tree_of};
ghost use Rattle.sched_edges.specs.Causes.{HasCause};
ghost use Rattle.sched_edges.specs.Streams.{Wrote};
ghost use Rattle.merged_rounds.specs.Passes.{AreMergedOf};
ghost use Rattle.merged_rows.specs.Lawful.{AreLawful};
ghost use Rattle.repeat_laws.specs.Repeats.{repeat_unit};
ghost use Rattle.pure_commands.specs.Commands.{c_table, plan_table};
ghost use Rattle.pure_commands.specs.Input.{IsSchedulable, WroteSet, StopsAtSet};

use crate::plan::plan_of;
use crate::refusal::Refusal;
use crate::unwritten::written;
use merged_rows::MergedRows;
use partition_rounds::merged_of;
use run_tree::Plan;
use sched_base::TaskSet;
use sched_edges::{Failed, Sink};
use std::alloc::Global;
use table_text::{repeat_unit, write_table};

/// Writes the schedule of a set as C source, where the set fits and a type of C holds its ticks.
pub(crate) fn write_set<W: Sink>(alloc: Global, set: TaskSet, out: &mut W) -> Result<(), Refusal>
    ensures done { OnOk result (WroteSet c_table (W.taken out.old) (W.taken out.new) set) }
    ensures stops { IfErr result (StopsAtSet c_table (W.taken out.old) (W.taken out.new)
        (W.faults out.old) (W.faults out.new) set) }
{
    let plan = plan_of(alloc, set)?;
    write_plan(alloc, &plan, out)
}

// Writes the schedule of a set that fits, by its plan.
fn write_plan<W: Sink>(alloc: Global, plan: &Plan, out: &mut W) -> Result<(), Refusal>
    requires run { IsSchedulable plan.now.set plan.now.tree.scale }
    requires tree { plan.now.tree ≡ tree_of plan.now.tree.scale plan.now.set }
    ensures done { OnOk result (WroteSet c_table (W.taken out.old) (W.taken out.new) plan.now.set) }
    ensures stops { IfErr result (StopsAtSet c_table (W.taken out.old) (W.taken out.new)
        (W.faults out.old) (W.faults out.new) plan.now.set) }
{
    let ticks = plan.rounds_end();
    if ticks > u128::from(u64::MAX) {
        return Err(Refusal::TooWide { ticks });
    }
    let rows = merged_of(alloc, plan)?;
    let from = repeat_unit(alloc, plan.set(), plan.scale(), &rows)?;
    written(write_rows(plan, &rows, from, out))
}

// Writes the merged rows of a plan, which come again from unit `from` on, as C source.
fn write_rows<W: Sink>(plan: &Plan, rows: &MergedRows, from: u64, out: &mut W) -> Result<(), Failed>
    requires scale { 1 ≤ plan.now.tree.scale }
    requires ticks { stop_of plan.now < 2 ^ 64 }
    requires from { from ≡ repeat_unit plan.now.set plan.now.tree.scale (all_rows rows.now.lanes) }
    requires rows { AreMergedOf plan.now rows.now.lanes }
    requires lawful { AreLawful plan.now.set rows.now.lanes }
    ensures wrote { Wrote (W.taken out.old) (W.taken out.new) (plan_table plan.now) result }
    ensures cause { HasCause (W.faults out.old) (W.faults out.new) result }
{
    write_table(out, plan.set(), plan.scale(), rows, from)
}
