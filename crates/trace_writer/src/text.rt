//! The whole text.
ghost use Rattle.std.specs.Prelude.{◌≡◌, ◌≤◌, ◌*◌, ◌^◌, length};
ghost use Rattle.std.specs.List.{AllByRecursion};
ghost use Rattle.sched_base.specs.Tables.{all_rows, rounds_in, row_limit};
ghost use Rattle.sched_edges.specs.Causes.{HasCause};
ghost use Rattle.sched_edges.specs.Streams.{Wrote};
ghost use Rattle.trace_format.specs.declared.versions.Version.TheVariants.{One, Two};
ghost use Rattle.row_totals.specs.Sums.{NamesAmong, totals_of};
ghost use Rattle.trace_format.specs.Conditions.{AreOnTime};
ghost use Rattle.merged_rows.specs.Merging.{merged_lanes};
ghost use Rattle.trace_format.specs.Text.{total_lines, trace_text};
ghost use Rattle.trace_writer.specs.Finishes.{HaveRoom};
ghost use Rattle.trace_writer.specs.Parts.{lines_of_totals};

use crate::body::write_body;
use crate::finishes::Finishes;
use crate::mets::write_mets;
use crate::noting::note_rows;
use crate::shown::ShownRows;
use merged_rows::MergedRows;
use sched_base::{RowTable, TaskSet};
use sched_edges::{Failed, Sink, number_line, write_all};
use trace_format::Version;

/// Writes the trace text of a table's rows, of version 1: neighbouring rows of a processor under one name make one line.
///
/// `scale` is in ticks per unit, `totals` has the ticks of each task's rows. The lines of each processor go out in pieces of up to 4096 bytes, and
/// each other line as one. Where the sink fails, it has taken a first part of the text.
pub fn write_trace<W: Sink>(
    sink: &mut W,
    set: &TaskSet,
    scale: u128,
    table: &RowTable,
    totals: &[u128],
) -> Result<(), Failed>
    requires on_time { AreOnTime set.now.tasks }
    requires processors { length table.now.lanes ≡ set.now.processors }
    requires names { AllByRecursion (NamesAmong (length set.now.tasks)) table.now.lanes }
    requires few { length table.now.lanes * rounds_in table.now.lanes ≤ row_limit }
    requires totals { totals.now ≡ totals_of (length set.now.tasks) table.now.lanes }
    ensures wrote { Wrote (W.taken sink.old) (W.taken sink.new) (trace_text One set.now scale (merged_lanes table.now.lanes)) result }
    ensures cause { HasCause (W.faults sink.old) (W.faults sink.new) result }
{
    table.know_whole();
    write_first_version(sink, set, scale, table, totals)
}

/// Writes the trace text of merged rows, of version 1.
pub fn write_merged<W: Sink>(
    sink: &mut W,
    set: &TaskSet,
    scale: u128,
    rows: &MergedRows,
    totals: &[u128],
) -> Result<(), Failed>
    requires on_time { AreOnTime set.now.tasks }
    requires processors { length rows.now.lanes ≡ set.now.processors }
    requires names { AllByRecursion (NamesAmong (length set.now.tasks)) rows.now.lanes }
    requires few { length (all_rows rows.now.lanes) ≤ row_limit }
    requires totals { totals.now ≡ totals_of (length set.now.tasks) rows.now.lanes }
    ensures wrote { Wrote (W.taken sink.old) (W.taken sink.new) (trace_text One set.now scale (all_rows rows.now.lanes)) result }
    ensures cause { HasCause (W.faults sink.old) (W.faults sink.new) result }
{
    write_first_version(sink, set, scale, rows, totals)
}

/// The text of a table's rows in version 2: each task's line has its offset, and after the totals stands for each period that ends by the
/// horizon when it was done.
///
/// It takes no memory: `finishes` has the room for these ticks. The lines of a task's periods go out in pieces of up to 4096 bytes, as those of a
/// processor do.
pub fn write_met<W: Sink>(
    sink: &mut W,
    set: &TaskSet,
    scale: u128,
    table: &RowTable,
    totals: &[u128],
    finishes: &mut Finishes,
) -> Result<(), Failed>
    requires scale { scale ≤ 2 ^ 94 }
    requires processors { length table.now.lanes ≡ set.now.processors }
    requires names { AllByRecursion (NamesAmong (length set.now.tasks)) table.now.lanes }
    requires few { length table.now.lanes * rounds_in table.now.lanes ≤ row_limit }
    requires totals { totals.now ≡ totals_of (length set.now.tasks) table.now.lanes }
    requires room { HaveRoom set.now finishes.old }
    ensures wrote { Wrote (W.taken sink.old) (W.taken sink.new) (trace_text Two set.now scale (merged_lanes table.now.lanes)) result }
    ensures cause { HasCause (W.faults sink.old) (W.faults sink.new) result }
{
    table.know_whole();
    write_second_version(sink, set, scale, table, totals, finishes)
}

/// The text of merged rows in version 2, without memory.
pub fn write_merged_met<W: Sink>(
    sink: &mut W,
    set: &TaskSet,
    scale: u128,
    rows: &MergedRows,
    totals: &[u128],
    finishes: &mut Finishes,
) -> Result<(), Failed>
    requires scale { scale ≤ 2 ^ 94 }
    requires processors { length rows.now.lanes ≡ set.now.processors }
    requires names { AllByRecursion (NamesAmong (length set.now.tasks)) rows.now.lanes }
    requires few { length (all_rows rows.now.lanes) ≤ row_limit }
    requires totals { totals.now ≡ totals_of (length set.now.tasks) rows.now.lanes }
    requires room { HaveRoom set.now finishes.old }
    ensures wrote { Wrote (W.taken sink.old) (W.taken sink.new) (trace_text Two set.now scale (all_rows rows.now.lanes)) result }
    ensures cause { HasCause (W.faults sink.old) (W.faults sink.new) result }
{
    write_second_version(sink, set, scale, rows, totals, finishes)
}

// The text of version 1 of any rows.
fn write_first_version<W: Sink, R: ShownRows>(
    sink: &mut W,
    set: &TaskSet,
    scale: u128,
    rows: &R,
    totals: &[u128],
) -> Result<(), Failed>
    requires names { AllByRecursion (NamesAmong (length set.now.tasks)) (R.lanes rows.now) }
    requires few { length (all_rows (R.lanes rows.now)) ≤ row_limit }
    requires totals { length totals.now ≡ length set.now.tasks }
    requires told { lines_of_totals set.now.tasks totals.now ≡ total_lines set.now (all_rows (R.lanes rows.now)) }
    ensures wrote { Wrote (W.taken sink.old) (W.taken sink.new) (trace_text One set.now scale (all_rows (R.lanes rows.now))) result }
    ensures cause { HasCause (W.faults sink.old) (W.faults sink.new) result }
{
    let count = write_body(sink, Version::One, set, scale, rows, totals)?;
    let line = number_line(b"rows", u128::from(count));
    write_all(sink, line.as_slice())
}

// The text of version 2 of any rows.
fn write_second_version<W: Sink, R: ShownRows>(
    sink: &mut W,
    set: &TaskSet,
    scale: u128,
    rows: &R,
    totals: &[u128],
    finishes: &mut Finishes,
) -> Result<(), Failed>
    requires scale { scale ≤ 2 ^ 94 }
    requires names { AllByRecursion (NamesAmong (length set.now.tasks)) (R.lanes rows.now) }
    requires few { length (all_rows (R.lanes rows.now)) ≤ row_limit }
    requires totals { length totals.now ≡ length set.now.tasks }
    requires told { lines_of_totals set.now.tasks totals.now ≡ total_lines set.now (all_rows (R.lanes rows.now)) }
    requires room { HaveRoom set.now finishes.old }
    ensures wrote { Wrote (W.taken sink.old) (W.taken sink.new) (trace_text Two set.now scale (all_rows (R.lanes rows.now))) result }
    ensures cause { HasCause (W.faults sink.old) (W.faults sink.new) result }
{
    note_rows(finishes, set, scale, rows);
    let count = write_body(sink, Version::Two, set, scale, rows, totals)?;
    write_mets(sink, set, finishes)?;
    let line = number_line(b"rows", u128::from(count));
    write_all(sink, line.as_slice())
}
