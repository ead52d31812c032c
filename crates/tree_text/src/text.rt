//! The whole text, its head and its tasks.
ghost use Rattle.std.specs.Prelude.{◌≡◌};
ghost use Rattle.std.specs.List.{flat_map, range_with_len};
ghost use Rattle.sched_edges.specs.Causes.{HasCause};
ghost use Rattle.sched_edges.specs.Streams.{Wrote};
ghost use Rattle.tree_text.specs.Text.{head_text, task_line, level_text, tree_text};

use crate::idles::write_idles;
use crate::packs::write_level;
use run_tree::Plan;
use sched_base::{Task, TaskSet};
use sched_edges::{
    Failed, Line, Sink, named_begin, number_line, word_line, write_all, write_lines,
};

/// Writes the text of a plan's tree. Where the sink fails, it has taken a first part of it.
///
/// Each line goes out as one piece, but for a pack's line of more than 256 bytes, which goes out in pieces of at most so
/// many.
pub fn write_tree<W: Sink>(plan: &Plan, sink: &mut W) -> Result<(), Failed>
    ensures wrote { Wrote (W.taken sink.old) (W.taken sink.new) (tree_text plan.now) result }
    ensures cause { HasCause (W.faults sink.old) (W.faults sink.new) result }
{
    write_head(plan, sink)?;
    write_tasks(plan.set(), sink)?;
    write_idles(plan.tree(), sink)?;
    write_levels(plan, sink)?;
    let levels = number_line(b"levels", u128::from(plan.tree().levels()));
    write_all(sink, levels.as_slice())
}

fn write_head<W: Sink>(plan: &Plan, sink: &mut W) -> Result<(), Failed>
    ensures wrote { Wrote (W.taken sink.old) (W.taken sink.new) (head_text plan.now) result }
    ensures cause { HasCause (W.faults sink.old) (W.faults sink.new) result }
{
    let lines = [
        word_line(b"run-tree 1"),
        number_line(b"processors", u128::from(plan.set().processors())),
        number_line(b"horizon", u128::from(plan.set().horizon())),
        number_line(b"scale", plan.scale()),
        number_line(b"tasks", u128::from(plan.set().count())),
    ];
    write_lines(sink, &lines)
}

fn write_tasks<W: Sink>(set: &TaskSet, sink: &mut W) -> Result<(), Failed>
    ensures wrote { Wrote (W.taken sink.old) (W.taken sink.new) (flat_map task_line set.now.tasks) result }
    ensures cause { HasCause (W.faults sink.old) (W.faults sink.new) result }
{
    for task in set.tasks() {
        write_all(sink, line_of_task(task).as_slice())?;
    }
    Ok(())
}

// The line of a task.
#[tactic(auto, unfolding(crate::specs::Text::task_line, sched_edges::specs::Lines::line_of))]
fn line_of_task(task: &Task) -> Line
    ensures { result ≡ task_line task.now }
{
    let mut line = named_begin(b"task", task.name.as_slice(), u128::from(task.work));
    line.space();
    line.number(u128::from(task.period));
    line.end();
    line
}

fn write_levels<W: Sink>(plan: &Plan, sink: &mut W) -> Result<(), Failed>
    ensures wrote { Wrote (W.taken sink.old) (W.taken sink.new) (flat_map (level_text plan.now) (range_with_len 0 plan.now.tree.levels)) result }
    ensures cause { HasCause (W.faults sink.old) (W.faults sink.new) result }
{
    for level in 0..plan.tree().levels() {
        write_level(plan, level, sink)?;
    }
    Ok(())
}
