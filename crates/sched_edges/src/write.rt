//! Writing whole pieces.
ghost use Rattle.std.specs.List.{concat};
ghost use Rattle.sched_edges.specs.Causes.{HasCause};
ghost use Rattle.sched_edges.specs.Streams.{Wrote};

use crate::line::Line;
use crate::streams::{Failed, Sink};

/// Writes the whole piece. Where the sink fails, it has taken a first part of it.
pub fn write_all<W: Sink>(sink: &mut W, piece: &[u8]) -> Result<(), Failed>
    ensures wrote { Wrote (W.taken sink.old) (W.taken sink.new) piece.now result }
    ensures cause { HasCause (W.faults sink.old) (W.faults sink.new) result }
{
    let mut done = 0;
    while done < piece.len() {
        done += sink.write(&piece[done..])?;
    }
    Ok(())
}

/// Writes lines, each as one piece. Where the sink fails, it has taken a first part of them.
pub fn write_lines<W: Sink>(sink: &mut W, lines: &[Line]) -> Result<(), Failed>
    ensures wrote { Wrote (W.taken sink.old) (W.taken sink.new) (concat lines.now) result }
    ensures cause { HasCause (W.faults sink.old) (W.faults sink.new) result }
{
    for line in lines {
        write_all(sink, line.as_slice())?;
    }
    Ok(())
}
