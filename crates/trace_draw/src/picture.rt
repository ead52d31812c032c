//! The picture of a trace.
ghost use Rattle.std.specs.Prelude.{◌≡◌, ◌+◌, ◌<◌, ◌≤◌, ◌++◌, length};
ghost use Rattle.std.specs.List.{concat};
ghost use Rattle.sched_edges.specs.Causes.{HasCause};
ghost use Rattle.sched_edges.specs.Streams.{Wrote};
ghost use Rattle.trace_draw.specs.ShownUnits.{AreShownUnits};
ghost use Rattle.trace_draw.specs.Head.{head_text, lanes_text, axis_text};
ghost use Rattle.trace_draw.specs.Rows.{rows_text};
ghost use Rattle.trace_draw.specs.declared.rows.Part.TheVariants.{Words};
ghost use Rattle.trace_draw.specs.Picture.{framed_row, fault_text, closing_lines, hint_text, picture};

use crate::head::{bottom, write_axis, write_head, write_lanes};
use crate::periods::write_tasks;
use crate::rows::{Part, frame_lines, write_rows};
use crate::scene::Scene;
use crate::shapes::{add_number, roomy_line};
use crate::shown_units::{MOST_DRAWN, ShownUnits};
use sched_base::TaskSet;
use sched_edges::{Failed, Line, Sink, word_line, write_lines};
use trace_check::ReadTrace;
use trace_verdict::{FIRST_TASK_LINE, Verdict};

/// Writes the picture of a trace over a window: the trace may be valid or not, and the verdict is the one that is told.
///
/// It takes no memory. Its time is that of the rows, and for each task that of its rows for each of its periods that is drawn,
/// which are at most 66. Each shape goes out as one piece. Where the sink fails, it has taken a first part of the picture.
#[tactic(auto, unfolding(crate::specs::Picture::picture))]
pub fn write_picture<W: Sink>(
    sink: &mut W,
    trace: &ReadTrace,
    window: &ShownUnits,
    verdict: Verdict,
) -> Result<(), Failed>
    requires { AreShownUnits window.now }
    ensures wrote { Wrote (W.taken sink.old) (W.taken sink.new) (picture trace.now window.now verdict) result }
    ensures cause { HasCause (W.faults sink.old) (W.faults sink.new) result }
{
    let scene = Scene {
        trace,
        window,
        verdict,
    };
    write_base(sink, &scene)?;
    write_rows(sink, Part::Boxes, trace.set(), window, trace.rows())?;
    write_tasks(sink, &scene)?;
    write_end(sink, &scene)
}

// What the head says of what isn't shown.
#[tactic(auto, unfolding(crate::specs::Picture::hint_text))]
fn hint_text(trace: &ReadTrace, window: &ShownUnits) -> Line
    requires { AreShownUnits window.now }
    ensures text { result ≡ hint_text trace.now window.now }
    ensures short { length result ≤ 80 }
{
    let horizon = trace.set().horizon();
    let rows = trace.rows();
    let reaching = window.count_reaching(rows);
    let end = window.from + window.units;
    let mut text = Line::new();
    if MOST_DRAWN < reaching {
        add_number(&mut text, b"; 20000 of ", reaching as u64);
        text.text(b" rows");
    } else if window.units < horizon {
        if rows.len() <= MOST_DRAWN {
            add_number(&mut text, b"; all: draw --units ", horizon);
        } else if end < horizon {
            add_number(&mut text, b"; more: draw --from ", end);
        }
    }
    text
}

// Writes what lies below the rows.
fn write_base<W: Sink>(sink: &mut W, scene: &Scene) -> Result<(), Failed>
    requires window { AreShownUnits scene.now.window.now }
    ensures wrote { let t = scene.now.trace.now in
        let w = scene.now.window.now in
        Wrote (W.taken sink.old) (W.taken sink.new)
        (head_text t.set w scene.now.verdict (hint_text t w) ++ (lanes_text t.set ++ axis_text t.set w)) result }
    ensures cause { HasCause (W.faults sink.old) (W.faults sink.new) result }
{
    let set = scene.trace.set();
    let hint = hint_text(scene.trace, scene.window);
    write_head(sink, set, scene.window, scene.verdict, hint.as_slice())?;
    write_lanes(sink, set)?;
    write_axis(sink, set, scene.window)
}

// Writes the frames of row i, where there is such a row.
fn write_frames<W: Sink>(sink: &mut W, scene: &Scene, i: u64) -> Result<(), Failed>
    requires window { AreShownUnits scene.now.window.now }
    ensures wrote { Wrote (W.taken sink.old) (W.taken sink.new) (framed_row scene.now.trace.now scene.now.window.now i) result }
    ensures cause { HasCause (W.faults sink.old) (W.faults sink.new) result }
{
    let rows = scene.trace.rows();
    if i >= rows.len() as u64 {
        return Ok(());
    }
    let row = &rows[i as usize];
    if !scene.window.reaches(row) {
        return Ok(());
    }
    let x = scene.window.place(row.start);
    let width = scene.window.span(row.start, row.end);
    write_lines(sink, &frame_lines(scene.trace.set(), row, x, width))
}

// Writes the frames of the row at fault.
fn write_fault<W: Sink>(sink: &mut W, scene: &Scene) -> Result<(), Failed>
    requires window { AreShownUnits scene.now.window.now }
    ensures wrote { Wrote (W.taken sink.old) (W.taken sink.new) (fault_text scene.now.trace.now scene.now.window.now scene.now.verdict) result }
    ensures cause { HasCause (W.faults sink.old) (W.faults sink.new) result }
{
    let first = FIRST_TASK_LINE + u64::from(scene.trace.set().count());
    match scene.verdict {
        Verdict::Valid => Ok(()),
        Verdict::Fault { line, kind: _ } => match line.checked_sub(first) {
            Some(i) => write_frames(sink, scene, i),
            None => Ok(()),
        },
    }
}

fn write_closing<W: Sink>(sink: &mut W, set: &TaskSet) -> Result<(), Failed>
    ensures wrote { Wrote (W.taken sink.old) (W.taken sink.new) (concat (closing_lines set.now)) result }
    ensures cause { HasCause (W.faults sink.old) (W.faults sink.new) result }
{
    let end = bottom(set);
    let lines = [
        roomy_line(
            b"n",
            11300,
            250,
            end + 210,
            b"arrow: release, and deadline of the job before",
        ),
        roomy_line(
            b"n",
            11300,
            250,
            end + 470,
            b"ring: the period has its work; red: at fault",
        ),
        word_line(b"</svg>"),
    ];
    write_lines(sink, &lines)
}

// Writes what comes last.
fn write_end<W: Sink>(sink: &mut W, scene: &Scene) -> Result<(), Failed>
    requires window { AreShownUnits scene.now.window.now }
    ensures wrote { let t = scene.now.trace.now in
        let w = scene.now.window.now in
        Wrote (W.taken sink.old) (W.taken sink.new)
        (fault_text t w scene.now.verdict ++ (rows_text Words t.set w t.rows ++ concat (closing_lines t.set))) result }
    ensures cause { HasCause (W.faults sink.old) (W.faults sink.new) result }
{
    write_fault(sink, scene)?;
    write_rows(
        sink,
        Part::Words,
        scene.trace.set(),
        scene.window,
        scene.trace.rows(),
    )?;
    write_closing(sink, scene.trace.set())
}
