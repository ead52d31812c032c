//! The rows of the processors, and the processors.
ghost use Rattle.std.specs.Prelude.{◌<◌, ◌≤◌, length};
ghost use Rattle.std.specs.List.{flat_map, range_with_len};
ghost use Rattle.sched_base.specs.Tables.{lane_of};
ghost use Rattle.sched_edges.specs.Causes.{HasCause};
ghost use Rattle.sched_edges.specs.Streams.{Wrote};
ghost use Rattle.table_text.specs.Lines.{row_line, processor_line};
ghost use Rattle.table_text.specs.Table.{lane_text, processors_text};

use crate::lines::{lane_line, processor_line, row_line};
use merged_rows::MergedRows;
use sched_edges::{Failed, Sink, write_all};

/// Writes the rows of all processors, in steps of so many ticks.
pub(crate) fn write_lanes<W: Sink>(
    sink: &mut W,
    rows: &MergedRows,
    step: u128,
) -> Result<(), Failed>
    requires { 1 ≤ step }
    ensures wrote { Wrote (W.taken sink.old) (W.taken sink.new)
        (flat_map (λ p. lane_text step p (lane_of rows.now.lanes p)) (range_with_len 0 (length rows.now.lanes))) result }
    ensures cause { HasCause (W.faults sink.old) (W.faults sink.new) result }
{
    for p in 0..rows.processors() {
        write_lane(sink, rows, p, step)?;
    }
    Ok(())
}

// Writes the array of the rows of processor p.
fn write_lane<W: Sink>(sink: &mut W, rows: &MergedRows, p: u32, step: u128) -> Result<(), Failed>
    requires processor { p < length rows.now.lanes }
    requires some { 1 ≤ step }
    ensures wrote { Wrote (W.taken sink.old) (W.taken sink.new) (lane_text step p (lane_of rows.now.lanes p)) result }
    ensures cause { HasCause (W.faults sink.old) (W.faults sink.new) result }
{
    write_all(sink, lane_line(p).as_slice())?;
    write_rows(sink, rows, p, step)?;
    write_all(sink, b"  {0u, 0u, -1}\n};\n\n")
}

// Writes the rows of processor p.
fn write_rows<W: Sink>(sink: &mut W, rows: &MergedRows, p: u32, step: u128) -> Result<(), Failed>
    requires processor { p < length rows.now.lanes }
    requires some { 1 ≤ step }
    ensures wrote { Wrote (W.taken sink.old) (W.taken sink.new) (flat_map (row_line step) (lane_of rows.now.lanes p)) result }
    ensures cause { HasCause (W.faults sink.old) (W.faults sink.new) result }
{
    for i in 0..rows.count(p) {
        let row = rows.row(p, i);
        write_all(sink, row_line(&row, step).as_slice())?;
    }
    Ok(())
}

/// Writes the processors.
pub(crate) fn write_processors<W: Sink>(sink: &mut W, rows: &MergedRows) -> Result<(), Failed>
    ensures wrote { Wrote (W.taken sink.old) (W.taken sink.new) (processors_text rows.now.lanes) result }
    ensures cause { HasCause (W.faults sink.old) (W.faults sink.new) result }
{
    write_all(
        sink,
        b"static const struct furnacelime_processor furnacelime_processors[] = {\n",
    )?;
    write_processor_lines(sink, rows)?;
    write_all(
        sink,
        b"};\n\nextern const struct furnacelime_table furnacelime_table;\nconst struct furnacelime_table furnacelime_table = {\n",
    )
}

// Writes the lines of the processors, each with the number of its rows.
fn write_processor_lines<W: Sink>(sink: &mut W, rows: &MergedRows) -> Result<(), Failed>
    ensures wrote { Wrote (W.taken sink.old) (W.taken sink.new)
        (flat_map (λ p. processor_line p (length (lane_of rows.now.lanes p))) (range_with_len 0 (length rows.now.lanes))) result }
    ensures cause { HasCause (W.faults sink.old) (W.faults sink.new) result }
{
    for p in 0..rows.processors() {
        let line = processor_line(p, rows.count(p));
        write_all(sink, line.as_slice())?;
    }
    Ok(())
}
