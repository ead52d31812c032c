//! The parts of a table that are the same for each set.
ghost use Rattle.sched_edges.specs.Causes.{HasCause};
ghost use Rattle.sched_edges.specs.Streams.{Wrote};
ghost use Rattle.table_text.specs.Table.{opening_text, shapes_text, head_text};

use crate::lines::ticks_line;
use sched_edges::{Failed, Sink, write_all};

/// Writes the shapes of what the table has, whose starts and ends are of so many bits.
pub(crate) fn write_head<W: Sink>(sink: &mut W, width: u128) -> Result<(), Failed>
    ensures wrote { Wrote (W.taken sink.old) (W.taken sink.new) (head_text width) result }
    ensures cause { HasCause (W.faults sink.old) (W.faults sink.new) result }
{
    write_opening(sink)?;
    write_all(sink, ticks_line(width).as_slice())?;
    write_shapes(sink)
}

#[tactic(auto, unfolding(crate::specs::Table::opening_text))]
fn write_opening<W: Sink>(sink: &mut W) -> Result<(), Failed>
    ensures wrote { Wrote (W.taken sink.old) (W.taken sink.new) opening_text result }
    ensures cause { HasCause (W.faults sink.old) (W.faults sink.new) result }
{
    let text = b"/* The schedule of a set of periodic tasks, written by furnacelime.
   A row {start, end, task}: the processor runs this task of the table, or
   none where it is -1, from tick start * step up to tick end * step. The
   first row begins at 0, each other where the one before ends, and the last
   ends at ticks. Each array of tasks or rows has one element more, which is
   not counted. */
#include <stdint.h>

struct furnacelime_task {
  const char *name;
  uint32_t work, period, offset; /* in units */
};

struct furnacelime_row {
";
    write_all(sink, text)
}

#[tactic(auto, unfolding(crate::specs::Table::shapes_text))]
fn write_shapes<W: Sink>(sink: &mut W) -> Result<(), Failed>
    ensures wrote { Wrote (W.taken sink.old) (W.taken sink.new) shapes_text result }
    ensures cause { HasCause (W.faults sink.old) (W.faults sink.new) result }
{
    let text = b"  int16_t task;
};

struct furnacelime_processor {
  uint32_t row_count;
  const struct furnacelime_row *rows;
};

struct furnacelime_table {
  uint64_t scale; /* the ticks of a unit */
  uint64_t step;  /* the ticks of a step, in which rows are told */
  uint64_t ticks; /* the ticks up to the horizon */
  uint64_t repeat_from; /* the tick from which the rows come again, for ever,
                           once ticks have passed; ticks where they don't */
  uint32_t horizon; /* in units */
  uint32_t processor_count, task_count;
  const struct furnacelime_processor *processors;
  const struct furnacelime_task *tasks;
};

static const struct furnacelime_task furnacelime_tasks[] = {
";
    write_all(sink, text)
}
