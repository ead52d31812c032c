//! The command `trace --by wrap`.
ghost use Rattle.std.specs.Prelude.{◌≡◌, ◌≤◌, ◌*◌, ◌^◌, length, OnOk, IfOk, IfErr};
ghost use Rattle.sched_base.specs.Tables.{row_limit};
ghost use Rattle.sched_edges.specs.Causes.{HasCause};
ghost use Rattle.sched_edges.specs.Streams.{Wrote};
ghost use Rattle.row_totals.specs.Sums.{totals_of};
ghost use Rattle.merged_rows.specs.Lawful.{AreLawful};
ghost use Rattle.trace_writer.specs.Finishes.{HaveRoomIf};
ghost use Rattle.wrap_sched.specs.Merged.{AreMergedOf};
ghost use Rattle.wrap_sched.specs.Wrapped.{wrapped_rounds};
ghost use Rattle.pure_commands.specs.Commands.{some_late, text_of, wrapped_rows};
ghost use Rattle.pure_commands.specs.Input.{IsSchedulable, IsRefusedSet, WroteSet, StopsAtSet};

use crate::refusal::Refusal;
use crate::trace::{finishes_for, write_merged_rows};
use crate::unwritten::written;
use merged_rows::{MergedRows, totals_of_merged};
use rate_scale::load_of;
use sched_base::{NoMemory, TaskSet};
use sched_edges::{Failed, Sink};
use std::alloc::Global;
use trace_writer::Finishes;
use wrap_sched::{merged_wrap, wrap_rounds};

/// Writes the wrapped schedule of a set, where it fits; in version 2 where some task is released late.
pub(crate) fn write_set<W: Sink>(alloc: Global, set: &TaskSet, out: &mut W) -> Result<(), Refusal>
    ensures done { OnOk result (WroteSet wrapped_rows (W.taken out.old) (W.taken out.new) set.now) }
    ensures stops { IfErr result (StopsAtSet wrapped_rows (W.taken out.old) (W.taken out.new)
        (W.faults out.old) (W.faults out.new) set.now) }
{
    let scale = scale_to_run(set)?;
    let _rounds = wrap_rounds(alloc, set, scale)?;
    write_wrapped(alloc, set, scale, out)
}

// Writes the wrapped schedule of a set that fits.
fn write_wrapped<W: Sink>(
    alloc: Global,
    set: &TaskSet,
    scale: u128,
    out: &mut W,
) -> Result<(), Refusal>
    requires run { IsSchedulable set.now scale }
    requires few { wrapped_rounds scale set.now * set.now.processors ≤ row_limit }
    ensures done { OnOk result (WroteSet wrapped_rows (W.taken out.old) (W.taken out.new) set.now) }
    ensures stops { IfErr result (StopsAtSet wrapped_rows (W.taken out.old) (W.taken out.new)
        (W.faults out.old) (W.faults out.new) set.now) }
{
    let (rows, totals) = merged_rows_of(alloc, set, scale)?;
    let mut finishes = finishes_for(alloc, set, false)?;
    written(write_wrapped_rows(set, scale, &rows, &totals, &mut finishes, out))
}

/// The scale of a set that fits, in ticks per unit.
pub(crate) fn scale_to_run(set: &TaskSet) -> Result<u128, Refusal>
    ensures run { IfOk result (IsSchedulable set.now) }
    ensures refused { IfErr result (IsRefusedSet set.now) }
{
    let load = load_of(set)?;
    Ok(load.scale)
}

// The merged rows of the wrapped schedule, in one pass over its rounds, and the ticks of each task in them.
fn merged_rows_of(
    alloc: Global,
    set: &TaskSet,
    scale: u128,
) -> Result<(MergedRows, Vec<u128>), NoMemory>
    requires run { IsSchedulable set.now scale }
    requires few { wrapped_rounds scale set.now * set.now.processors ≤ row_limit }
    ensures rows { IfOk result (λ made. AreMergedOf scale set.now made.0.lanes) }
    ensures lawful { IfOk result (λ made. AreLawful set.now made.0.lanes) }
    ensures totals { IfOk result (λ made. made.1.items ≡ totals_of (length set.now.tasks) made.0.lanes) }
{
    let rows = merged_wrap(alloc, set, scale)?;
    let totals = totals_of_merged(alloc, &rows, set.count())?;
    Ok((rows, totals))
}

// Writes the merged rows of the wrapped schedule.
fn write_wrapped_rows<W: Sink>(
    set: &TaskSet,
    scale: u128,
    rows: &MergedRows,
    totals: &[u128],
    finishes: &mut Finishes,
    out: &mut W,
) -> Result<(), Failed>
    requires scale { scale ≤ 2 ^ 94 }
    requires rows { AreMergedOf scale set.now rows.now.lanes }
    requires lawful { AreLawful set.now rows.now.lanes }
    requires totals { totals.now ≡ totals_of (length set.now.tasks) rows.now.lanes }
    requires room { HaveRoomIf (some_late set.now.tasks) set.now finishes.old }
    ensures wrote { Wrote (W.taken out.old) (W.taken out.new) (text_of wrapped_rows set.now scale) result }
    ensures cause { HasCause (W.faults out.old) (W.faults out.new) result }
{
    write_merged_rows(set, scale, rows, totals, false, finishes, out)
}
