//! The commands `trace` and `table` up to the least horizon at which the schedule repeats.
ghost use Rattle.std.specs.Prelude.{false, OnOk, IfOk, IfErr};
ghost use Rattle.pure_commands.specs.Commands.{c_table, repeating, schedule_rows};
ghost use Rattle.pure_commands.specs.Input.{WroteSet, StopsAtSet, IsRepeating, IsNotRepeating};

use crate::refusal::Refusal;
use crate::table::write_set as write_table;
use crate::trace::write_set as write_trace;
use crate::wrap::scale_to_run;
use repeat_laws::{first_late, up_to};
use sched_base::TaskSet;
use sched_edges::Sink;
use std::alloc::Global;

/// Writes the schedule of a set up to the least horizon at which it repeats, whatever the set's horizon is.
pub(crate) fn write_trace_again<W: Sink>(
    alloc: Global,
    set: &TaskSet,
    out: &mut W,
) -> Result<(), Refusal>
    ensures done { OnOk result (WroteSet (repeating (schedule_rows false)) (W.taken out.old) (W.taken out.new) set.now) }
    ensures stops { IfErr result (StopsAtSet (repeating (schedule_rows false)) (W.taken out.old) (W.taken out.new)
        (W.faults out.old) (W.faults out.new) set.now) }
{
    let again = repeating(alloc, set)?;
    write_trace(alloc, again, false, out)
}

/// Writes the schedule of a set up to the least horizon at which it repeats as C source, whatever the set's horizon is.
pub(crate) fn write_table_again<W: Sink>(
    alloc: Global,
    set: &TaskSet,
    out: &mut W,
) -> Result<(), Refusal>
    ensures done { OnOk result (WroteSet (repeating c_table) (W.taken out.old) (W.taken out.new) set.now) }
    ensures stops { IfErr result (StopsAtSet (repeating c_table) (W.taken out.old) (W.taken out.new)
        (W.faults out.old) (W.faults out.new) set.now) }
{
    let again = repeating(alloc, set)?;
    write_table(alloc, again, out)
}

// The set up to the least horizon at which its schedule repeats: its scale in units, where no task has an offset.
fn repeating(alloc: Global, set: &TaskSet) -> Result<TaskSet, Refusal>
    ensures repeats { IfOk result (IsRepeating set.now) }
    ensures refused { IfErr result (IsNotRepeating set.now) }
{
    let scale = scale_to_run(set)?;
    if let Some(task) = first_late(set.tasks()) {
        return Err(Refusal::NoRepeat { task: task as u32 });
    }
    if scale > u128::from(u32::MAX) {
        return Err(Refusal::WideRepeat { units: scale });
    }
    let again = up_to(alloc, set, scale as u64)?;
    Ok(again)
}
