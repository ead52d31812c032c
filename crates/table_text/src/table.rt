//! The whole table.
ghost use Rattle.std.specs.Prelude.{◌≡◌, ◌*◌, ◌/◌, ◌<◌, ◌≤◌, ◌^◌, ◌++◌, length, codes};
ghost use Rattle.std.specs.List.{flat_map};
ghost use Rattle.sched_edges.specs.Causes.{HasCause};
ghost use Rattle.sched_edges.specs.Streams.{Wrote};
ghost use Rattle.table_text.specs.Lines.{task_line};
ghost use Rattle.table_text.specs.Table.{fields_text, table_text, table_with};

use crate::head::write_head;
use crate::lanes::{write_lanes, write_processors};
use crate::lines::{field_line, task_line, width_of};
use crate::steps::step_of;
use merged_rows::MergedRows;
use sched_base::TaskSet;
use sched_edges::{Failed, Line, Sink, write_all, write_lines};

/// Writes the merged rows of a set as a file of C99. `scale` is in ticks per unit; from unit `from` on the rows
/// are said to come again, at the horizon not at all. Starts and
/// ends of rows are told in steps of their greatest common divisor, as numbers of the narrowest unsigned type that holds the horizon in
/// steps; a row in which no task runs has task -1.
///
/// It takes no memory. Each line of tasks and rows goes out as one piece. Where the sink fails, it has taken a first part of the text.
pub fn write_table<W: Sink>(
    sink: &mut W,
    set: &TaskSet,
    scale: u128,
    rows: &MergedRows,
    from: u64,
) -> Result<(), Failed>
    requires some_scale { 1 ≤ scale }
    requires fits { set.now.horizon * scale < 2 ^ 64 }
    requires processors { length rows.now.lanes ≡ set.now.processors }
    requires from { from ≤ set.now.horizon }
    ensures wrote { Wrote (W.taken sink.old) (W.taken sink.new) (table_text set.now scale rows.now.lanes from) result }
    ensures cause { HasCause (W.faults sink.old) (W.faults sink.new) result }
{
    let step = step_of(some_ticks(set, scale), rows);
    write_parts(sink, set, scale, rows, step, from)
}

// The horizon in ticks, of which there are some.
fn some_ticks(set: &TaskSet, scale: u128) -> u128
    requires some_scale { 1 ≤ scale }
    requires fits { set.now.horizon * scale < 2 ^ 64 }
    ensures value { result ≡ set.now.horizon * scale }
    ensures some { 1 ≤ result }
{
    set.know_lawful();
    ticks_of(set, scale)
}

// Writes the parts of a table with this step, whose rows come again from this unit on.
fn write_parts<W: Sink>(
    sink: &mut W,
    set: &TaskSet,
    scale: u128,
    rows: &MergedRows,
    step: u128,
    from: u64,
) -> Result<(), Failed>
    requires fits { set.now.horizon * scale < 2 ^ 64 }
    requires processors { length rows.now.lanes ≡ set.now.processors }
    requires some_step { 1 ≤ step }
    requires from { from ≤ set.now.horizon }
    ensures wrote { Wrote (W.taken sink.old) (W.taken sink.new) (table_with set.now scale rows.now.lanes step (from * scale)) result }
    ensures cause { HasCause (W.faults sink.old) (W.faults sink.new) result }
{
    write_head(sink, width_of(steps_of(set, scale, step)))?;
    write_tasks(sink, set)?;
    write_lanes(sink, rows, step)?;
    write_processors(sink, rows)?;
    write_fields(sink, set, scale, step, from)
}

// The horizon in ticks.
fn ticks_of(set: &TaskSet, scale: u128) -> u128
    requires { set.now.horizon * scale < 2 ^ 64 }
    ensures { result ≡ set.now.horizon * scale }
{
    u128::from(set.horizon()) * scale
}

// The horizon in steps.
fn steps_of(set: &TaskSet, scale: u128, step: u128) -> u128
    requires fits { set.now.horizon * scale < 2 ^ 64 }
    requires some { 1 ≤ step }
    ensures value { result ≡ set.now.horizon * scale / step }
    ensures fits { result < 2 ^ 64 }
{
    ticks_of(set, scale) / step
}

// Writes the tasks.
fn write_tasks<W: Sink>(sink: &mut W, set: &TaskSet) -> Result<(), Failed>
    ensures wrote { Wrote (W.taken sink.old) (W.taken sink.new) (flat_map task_line set.now.tasks ++ codes "  {\"\", 0u, 0u, 0u}\n};\n\n") result }
    ensures cause { HasCause (W.faults sink.old) (W.faults sink.new) result }
{
    write_task_lines(sink, set)?;
    write_all(sink, b"  {\"\", 0u, 0u, 0u}\n};\n\n")
}

fn write_task_lines<W: Sink>(sink: &mut W, set: &TaskSet) -> Result<(), Failed>
    ensures wrote { Wrote (W.taken sink.old) (W.taken sink.new) (flat_map task_line set.now.tasks) result }
    ensures cause { HasCause (W.faults sink.old) (W.faults sink.new) result }
{
    for task in set.tasks() {
        write_all(sink, task_line(task).as_slice())?;
    }
    Ok(())
}

// Writes the numbers of the table, and where its arrays are.
fn write_fields<W: Sink>(
    sink: &mut W,
    set: &TaskSet,
    scale: u128,
    step: u128,
    from: u64,
) -> Result<(), Failed>
    requires fits { set.now.horizon * scale < 2 ^ 64 }
    requires from { from ≤ set.now.horizon }
    ensures wrote { Wrote (W.taken sink.old) (W.taken sink.new) (fields_text set.now scale step (from * scale)) result }
    ensures cause { HasCause (W.faults sink.old) (W.faults sink.new) result }
{
    let mut closing = Line::new();
    closing.text(b"  furnacelime_processors,\n  furnacelime_tasks\n};\n");
    let lines = [
        field_line(b"scale", scale),
        field_line(b"step", step),
        field_line(b"ticks", ticks_of(set, scale)),
        field_line(b"repeat_from", tick_of(set, from, scale)),
        field_line(b"horizon", u128::from(set.horizon())),
        field_line(b"processor_count", u128::from(set.processors())),
        field_line(b"task_count", u128::from(set.count())),
        closing,
    ];
    write_lines(sink, &lines)
}

// The tick at which a unit begins that isn't behind the horizon. The set is only spoken of.
fn tick_of(set: &TaskSet, unit: u64, scale: u128) -> u128
    requires fits { set.now.horizon * scale < 2 ^ 64 }
    requires within { unit ≤ set.now.horizon }
    ensures { result ≡ unit * scale }
{
    let _set = set;
    u128::from(unit) * scale
}
