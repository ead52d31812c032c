//! What is drawn of a trace.
ghost use Rattle.std.specs.Prelude.{ℕ, List, ◌≤◌, IfSome};
ghost use Rattle.sched_edges.specs.Causes.{HasCause};
ghost use Rattle.sched_edges.specs.Streams.{Wrote};
ghost use Rattle.trace_draw.specs.Drawing.{IsDrawing};

use crate::asking::shown_window;
use crate::picture::write_picture;
use command_words::Asked;
use sched_edges::{Failed, Sink};
use trace_check::{ReadTrace, check_trace};

/// Draws a trace, valid or not: writes its picture with the verdict, over the window that is shown. It takes no memory. Where
/// the sink fails, it has taken a first part of the picture.
pub fn draw_trace<W: Sink>(sink: &mut W, trace: &ReadTrace, asked: &Asked) -> Result<(), Failed>
    requires some { IfSome asked.now.units (λ n. 1 ≤ n) }
    ensures wrote { (text : List ℕ) × IsDrawing trace.now asked.now text × Wrote (W.taken sink.old) (W.taken sink.new) text result }
    ensures cause { HasCause (W.faults sink.old) (W.faults sink.new) result }
{
    let window = shown_window(trace, asked);
    write_picture(sink, trace, &window, check_trace(trace))
}
