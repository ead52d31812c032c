//! The rows of a picture, in the lanes of their processors and in those of their tasks.
ghost use Rattle.std.specs.Prelude.{◌≡◌, ◌+◌, ◌*◌, ◌≤◌, ◌<◌, ◌∷◌, [], length, nat_le, codes};
ghost use Rattle.std.specs.List.{AllByRecursion};
ghost use Rattle.sched_base.specs.Sets.{task_at, IsLawfulTask};
ghost use Rattle.sched_edges.specs.Causes.{HasCause};
ghost use Rattle.sched_edges.specs.Streams.{Wrote};
ghost use Rattle.trace_verdict.specs.Faults.{IsTraceRow};
ghost use Rattle.trace_draw.specs.ShownUnits.{AreShownUnits};
ghost use Rattle.trace_draw.specs.Shapes.{box_line, task_top};
ghost use Rattle.trace_draw.specs.Rows.{words_line, boxes_lines, words_lines, task_row_text, text_of_leaf, rows_text, frame_lines};

use crate::shapes::{
    box_line, group_line, lane_top, line_if, number_text, roomy_line, task_look, task_top,
    text_look,
};
use crate::shown_units::{MOST_DRAWN, ShownUnits};
use sched_base::{Leaf, Row, Task, TaskSet};
use sched_edges::{Failed, Line, Sink, word_line, write_lines};

/// What of the rows is drawn: the words of all lie above the boxes of all.
#[derive(Clone, Copy)]
pub(crate) enum Part {
    /// The boxes.
    Boxes,
    /// The words on them.
    Words,
}

/// Task j of the set.
pub(crate) fn task_of(set: &TaskSet, task: u32) -> &Task
    requires { task < length set.now.tasks }
    ensures value { result.now ≡ task_at set.now.tasks task }
    ensures lawful { IsLawfulTask result.now }
{
    &set.tasks()[task as usize]
}

fn has_room(text: &[u8], width: u64) -> bool
    requires { length text.now ≤ 64 }
    ensures { result ≡ nat_le (76 * length text.now + 60) width }
{
    76 * text.len() as u64 + 60 <= width
}

// A text in a box of a task, x from the left and so wide, where it has room.
fn words_line(task: u32, x: u64, width: u64, y: u64, text: &[u8]) -> Line
    requires x { x ≤ 11600 }
    requires width { width ≤ 11600 }
    requires text { length text.now ≤ 64 }
    ensures { result ≡ words_line task x width y text.now }
{
    line_if(
        has_room(text, width),
        roomy_line(&text_look(task), width, x + width / 2, y, text),
    )
}

// The boxes of a row of a task, x from the left and so wide, in a group that has the task's name.
fn boxes_lines(set: &TaskSet, task: u32, row: &Row, x: u64, width: u64) -> [Line; 4]
    requires { task < length set.now.tasks }
    ensures { result ≡ boxes_lines set.now task row.now x width }
{
    let processors = set.processors();
    let in_lane = row.processor < processors;
    let lane = lane_top(row.processor);
    let top = task_top(processors, task);
    [
        group_line(&task_look(task, width), task_of(set, task).name.as_slice()),
        line_if(in_lane, box_line(b"", x, lane, width, 340)),
        box_line(b"", x, top + 70, width, 230),
        word_line(b"</g>"),
    ]
}

// The words on them: the name of the task, and the number of the processor.
fn words_lines(set: &TaskSet, task: u32, row: &Row, x: u64, width: u64) -> [Line; 2]
    requires task { task < length set.now.tasks }
    requires x { x ≤ 11600 }
    requires width { width ≤ 11600 }
    ensures { result ≡ words_lines set.now task row.now x width }
{
    let processors = set.processors();
    let name = task_of(set, task).name.as_slice();
    let number = number_text(u64::from(row.processor));
    let in_lane = row.processor < processors;
    let lane = lane_top(row.processor);
    let top = task_top(processors, task);
    [
        line_if(in_lane, words_line(task, x, width, lane + 170, name)),
        words_line(task, x, width, top + 185, number.as_slice()),
    ]
}

// Writes a part of a row of a task.
fn write_row_of<W: Sink>(
    sink: &mut W,
    part: Part,
    set: &TaskSet,
    window: &ShownUnits,
    task: u32,
    row: &Row,
) -> Result<(), Failed>
    requires window { AreShownUnits window.now }
    requires task { task < length set.now.tasks }
    ensures wrote { Wrote (W.taken sink.old) (W.taken sink.new) (task_row_text part set.now window.now task row.now) result }
    ensures cause { HasCause (W.faults sink.old) (W.faults sink.new) result }
{
    let x = window.place(row.start);
    let width = window.span(row.start, row.end);
    match part {
        Part::Boxes => write_lines(sink, &boxes_lines(set, task, row, x, width)),
        Part::Words => write_lines(sink, &words_lines(set, task, row, x, width)),
    }
}

// Writes a part of a row.
fn write_row<W: Sink>(
    sink: &mut W,
    part: Part,
    set: &TaskSet,
    window: &ShownUnits,
    row: &Row,
) -> Result<(), Failed>
    requires window { AreShownUnits window.now }
    requires row { IsTraceRow set.now row.now }
    ensures wrote { Wrote (W.taken sink.old) (W.taken sink.new) (text_of_leaf (λ j. task_row_text part set.now window.now j row.now) row.now.leaf) result }
    ensures cause { HasCause (W.faults sink.old) (W.faults sink.new) result }
{
    match row.leaf {
        Leaf::Task(id) => write_row_of(sink, part, set, window, id.0, row),
        Leaf::Idle(_) | Leaf::Wait(_) | Leaf::Empty => Ok(()),
    }
}

/// Writes a part of each row that is drawn, in the order of their lines.
pub(crate) fn write_rows<W: Sink>(
    sink: &mut W,
    part: Part,
    set: &TaskSet,
    window: &ShownUnits,
    rows: &[Row],
) -> Result<(), Failed>
    requires window { AreShownUnits window.now }
    requires rows { AllByRecursion (IsTraceRow set.now) rows.now }
    ensures wrote { Wrote (W.taken sink.old) (W.taken sink.new) (rows_text part set.now window.now rows.now) result }
    ensures cause { HasCause (W.faults sink.old) (W.faults sink.new) result }
{
    let mut drawn = 0;
    for row in rows {
        if drawn < MOST_DRAWN && window.reaches(row) {
            write_row(sink, part, set, window, row)?;
            drawn += 1;
        }
    }
    Ok(())
}

// The frame of a row in the lane of its task.
fn task_frame(set: &TaskSet, leaf: Leaf, x: u64, width: u64) -> Line
    ensures { result ≡ text_of_leaf (λ j. box_line (codes " class='f'") x (task_top set.now.processors j + 70) width 230) leaf }
{
    match leaf {
        Leaf::Task(id) => box_line(
            b" class='f'",
            x,
            task_top(set.processors(), id.0) + 70,
            width,
            230,
        ),
        Leaf::Idle(_) | Leaf::Wait(_) | Leaf::Empty => Line::new(),
    }
}

/// The red frames of a row.
pub(crate) fn frame_lines(set: &TaskSet, row: &Row, x: u64, width: u64) -> [Line; 2]
    ensures { result ≡ frame_lines set.now row.now x width }
{
    let in_lane = row.processor < set.processors();
    [
        line_if(
            in_lane,
            box_line(b" class='f'", x, lane_top(row.processor), width, 340),
        ),
        task_frame(set, row.leaf, x, width),
    ]
}
