//! A trace text from its first line up to its totals.
ghost use Rattle.std.specs.Prelude.{◌≡◌, ◌≤◌, length, IfOk};
ghost use Rattle.std.specs.List.{AllByRecursion, flat_map};
ghost use Rattle.sched_base.specs.Tables.{all_rows, row_limit};
ghost use Rattle.sched_edges.specs.Causes.{HasCause};
ghost use Rattle.sched_edges.specs.Streams.{Wrote};
ghost use Rattle.row_totals.specs.Sums.{NamesAmong};
ghost use Rattle.trace_format.specs.Lines.{task_line, version_number};
ghost use Rattle.trace_format.specs.Text.{head_lines, total_lines};
ghost use Rattle.trace_writer.specs.Parts.{text_of, body_text, lines_of_totals};

use crate::lines::line_of_task;
use crate::rows::write_rows;
use crate::shown::ShownRows;
use sched_base::TaskSet;
use sched_edges::{Failed, Sink, named_line, number_line, write_all, write_lines};
use trace_format::Version;

/// Writes the text up to the last total, and says how many lines of rows it has.
pub(crate) fn write_body<W: Sink, R: ShownRows>(
    sink: &mut W,
    version: Version,
    set: &TaskSet,
    scale: u128,
    rows: &R,
    totals: &[u128],
) -> Result<u64, Failed>
    requires names { AllByRecursion (NamesAmong (length set.now.tasks)) (R.lanes rows.now) }
    requires few { length (all_rows (R.lanes rows.now)) ≤ row_limit }
    requires totals { length totals.now ≡ length set.now.tasks }
    requires told { lines_of_totals set.now.tasks totals.now ≡ total_lines set.now (all_rows (R.lanes rows.now)) }
    ensures wrote { Wrote (W.taken sink.old) (W.taken sink.new) (body_text version set.now scale (all_rows (R.lanes rows.now))) result }
    ensures count { IfOk result (λ n. n ≡ length (all_rows (R.lanes rows.now))) }
    ensures cause { HasCause (W.faults sink.old) (W.faults sink.new) result }
{
    write_head(sink, version, set, scale)?;
    write_tasks(sink, version, set)?;
    let count = write_rows(sink, set, rows)?;
    write_totals(sink, set, totals)?;
    Ok(count)
}

fn write_head<W: Sink>(
    sink: &mut W,
    version: Version,
    set: &TaskSet,
    scale: u128,
) -> Result<(), Failed>
    ensures wrote { Wrote (W.taken sink.old) (W.taken sink.new) (text_of (head_lines version set.now scale)) result }
    ensures cause { HasCause (W.faults sink.old) (W.faults sink.new) result }
{
    let lines = [
        number_line(b"run-trace", version_number(version)),
        number_line(b"processors", u128::from(set.processors())),
        number_line(b"horizon", u128::from(set.horizon())),
        number_line(b"scale", scale),
        number_line(b"tasks", u128::from(set.count())),
    ];
    write_lines(sink, &lines)
}

fn version_number(version: Version) -> u128
    ensures { result ≡ version_number version }
{
    match version {
        Version::One => 1,
        Version::Two => 2,
    }
}

fn write_tasks<W: Sink>(sink: &mut W, version: Version, set: &TaskSet) -> Result<(), Failed>
    ensures wrote { Wrote (W.taken sink.old) (W.taken sink.new) (flat_map (task_line version) set.now.tasks) result }
    ensures cause { HasCause (W.faults sink.old) (W.faults sink.new) result }
{
    for task in set.tasks() {
        write_all(sink, line_of_task(version, task).as_slice())?;
    }
    Ok(())
}

fn write_totals<W: Sink>(sink: &mut W, set: &TaskSet, totals: &[u128]) -> Result<(), Failed>
    requires totals { length totals.now ≡ length set.now.tasks }
    ensures wrote { Wrote (W.taken sink.old) (W.taken sink.new) (text_of (lines_of_totals set.now.tasks totals.now)) result }
    ensures cause { HasCause (W.faults sink.old) (W.faults sink.new) result }
{
    for (i, task) in set.tasks().iter().enumerate() {
        let line = named_line(b"total", task.name.as_slice(), totals[i]);
        write_all(sink, line.as_slice())?;
    }
    Ok(())
}
