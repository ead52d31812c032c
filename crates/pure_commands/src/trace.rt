//! The command `trace`.
ghost use Rattle.std.specs.Prelude.{◌≡◌, ◌≤◌, ◌*◌, ◌||◌, ◌^◌, length, OnOk, IfErr, IfOk};
ghost use Rattle.std.specs.List.{AllByRecursion};
ghost use Rattle.sched_base.specs.Tables.{all_rows, row_limit, rounds_in};
ghost use Rattle.sched_base.specs.Lanes.{NamesOneOf, lanes_of};
ghost use Rattle.sched_edges.specs.Causes.{HasCause};
ghost use Rattle.sched_edges.specs.Streams.{Wrote};
ghost use Rattle.run_tree.specs.Plans.{rounds_of, schedule_of};
ghost use Rattle.run_tree.specs.Compiled.{tree_of};
ghost use Rattle.event_core.specs.Counts.{IsCountFault};
ghost use Rattle.merged_rows.specs.Lawful.{AreLawful};
ghost use Rattle.merged_rounds.specs.Passes.{AreMergedOf};
ghost use Rattle.merged_rows.specs.Merging.{merged_lanes};
ghost use Rattle.trace_format.specs.Text.{trace_text};
ghost use Rattle.trace_writer.specs.Finishes.{HaveRoomIf};
ghost use Rattle.row_totals.specs.Sums.{totals_of};
ghost use Rattle.pure_commands.specs.Commands.{schedule_rows, schedule_text, some_late, version_of};
ghost use Rattle.pure_commands.specs.Input.{IsSchedulable, WroteSet, StopsAtSet};

use crate::plan::plan_of;
use crate::refusal::Refusal;
use crate::unwritten::written;
use event_core::CountFault;
use merged_rows::{MergedRows, totals_of_merged};
use partition_rounds::merged_of;
use round_table::table_law;
use run_tree::Plan;
use sched_base::{NoMemory, RowTable, Task, TaskSet};
use sched_edges::{Failed, Sink};
use std::alloc::Global;
use trace_writer::{Finishes, write_merged, write_merged_met, write_met, write_trace};

/// Writes the schedule of a set, where it fits; in version 2 where `met` is asked for or some task is released late.
pub(crate) fn write_set<W: Sink>(
    alloc: Global,
    set: TaskSet,
    met: bool,
    out: &mut W,
) -> Result<(), Refusal>
    ensures done { OnOk result (WroteSet (schedule_rows met) (W.taken out.old) (W.taken out.new)
        set) }
    ensures stops { IfErr result (StopsAtSet (schedule_rows met) (W.taken out.old) (W.taken out.new)
        (W.faults out.old) (W.faults out.new) set) }
{
    let plan = plan_of(alloc, set)?;
    write_plan(alloc, &plan, met, out)
}

// Writes the schedule of a set that fits, by its plan.
fn write_plan<W: Sink>(alloc: Global, plan: &Plan, met: bool, out: &mut W) -> Result<(), Refusal>
    requires run { IsSchedulable plan.now.set plan.now.tree.scale }
    requires tree { plan.now.tree ≡ tree_of plan.now.tree.scale plan.now.set }
    ensures done { OnOk result (WroteSet (schedule_rows met) (W.taken out.old) (W.taken out.new)
        plan.now.set) }
    ensures stops { IfErr result (StopsAtSet (schedule_rows met) (W.taken out.old) (W.taken out.new)
        (W.faults out.old) (W.faults out.new) plan.now.set) }
{
    let set = plan.set();
    let scale = plan.scale();
    let (rows, totals) = merged_rows_of(alloc, plan)?;
    let mut finishes = finishes_for(alloc, set, met)?;
    written(write_merged_rows(set, scale, &rows, &totals, met, &mut finishes, out))
}

/// Room for when periods were done, where a trace of the set tells it: where `met` is asked for or some task is released late.
pub fn finishes_for(alloc: Global, set: &TaskSet, met: bool) -> Result<Finishes, NoMemory>
    ensures { IfOk result (HaveRoomIf (met || some_late set.now.tasks) set.now) }
{
    if wants_met(set, met) {
        Finishes::with_room(alloc, set)
    } else {
        Ok(Finishes::none(alloc))
    }
}

/// The merged rows of a plan, in one pass over its rounds, and the ticks of each task in them.
pub(crate) fn merged_rows_of(
    alloc: Global,
    plan: &Plan,
) -> Result<(MergedRows, Vec<u128>), CountFault>
    ensures rows { IfOk result (λ made. AreMergedOf plan.now made.0.lanes) }
    ensures lawful { IfOk result (λ made. AreLawful plan.now.set made.0.lanes) }
    ensures totals { IfOk result (λ made. made.1.items ≡ totals_of (length plan.now.set.tasks) made.0.lanes) }
    ensures few { IfOk result (λ _. rounds_of plan.now * plan.now.tree.processors ≤ row_limit) }
    ensures fault { IfErr result (λ fault. IsCountFault plan.now fault) }
{
    let rows = merged_of(alloc, plan)?;
    let totals = totals_of_merged(alloc, &rows, plan.set().count())?;
    Ok((rows, totals))
}

/// Writes merged rows, which name tasks of the set; in version 2 where `met` is asked for or some task is released late.
pub(crate) fn write_merged_rows<W: Sink>(
    set: &TaskSet,
    scale: u128,
    rows: &MergedRows,
    totals: &[u128],
    met: bool,
    finishes: &mut Finishes,
    out: &mut W,
) -> Result<(), Failed>
    requires scale { scale ≤ 2 ^ 94 }
    requires lawful { AreLawful set.now rows.now.lanes }
    requires totals { totals.now ≡ totals_of (length set.now.tasks) rows.now.lanes }
    requires room { HaveRoomIf (met || some_late set.now.tasks) set.now finishes.old }
    ensures wrote { Wrote (W.taken out.old) (W.taken out.new)
        (trace_text (version_of met set.now.tasks) set.now scale (all_rows rows.now.lanes)) result }
    ensures cause { HasCause (W.faults out.old) (W.faults out.new) result }
{
    if wants_met(set, met) {
        write_merged_met(out, set, scale, rows, totals, finishes)
    } else {
        write_merged(out, set, scale, rows, totals)
    }
}

/// Writes the rows of a plan, with room for when periods were done, where that is told; in version 2 where `met` is asked for or some
/// task is released late.
pub fn write_rows<W: Sink>(
    plan: &Plan,
    table: &RowTable,
    totals: &[u128],
    met: bool,
    finishes: &mut Finishes,
    out: &mut W,
) -> Result<(), Failed>
    requires lanes { table.now.lanes ≡ lanes_of plan.now.tree.processors (schedule_of plan.now) }
    requires few { length table.now.lanes * rounds_in table.now.lanes ≤ row_limit }
    requires totals { totals.now ≡ totals_of (length plan.now.set.tasks) table.now.lanes }
    requires room { HaveRoomIf (met || some_late plan.now.set.tasks) plan.now.set finishes.old }
    ensures wrote { Wrote (W.taken out.old) (W.taken out.new) (schedule_text (version_of met plan.now.set.tasks) plan.now) result }
    ensures cause { HasCause (W.faults out.old) (W.faults out.new) result }
{
    table_law();
    let set = plan.set();
    let scale = plan.scale();
    if wants_met(set, met) {
        write_met(out, set, scale, table, totals, finishes)
    } else {
        write_trace(out, set, scale, table, totals)
    }
}

/// Whether `met` lines are asked for, or some task is first released after unit 0.
pub(crate) fn wants_met(set: &TaskSet, met: bool) -> bool
    ensures { result ≡ (met || some_late set.now.tasks) }
{
    met || is_late(set.tasks())
}

fn is_late(tasks: &[Task]) -> bool
    ensures { result ≡ some_late tasks.now }
{
    tasks.iter().any(|task| task.offset != 0)
}
