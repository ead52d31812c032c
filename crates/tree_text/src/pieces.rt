//! Texts that go out in pieces.
ghost use Rattle.std.specs.Prelude.{◌≤◌, length, OnOk, OnErr};
ghost use Rattle.sched_edges.specs.Causes.{HasCause};
ghost use Rattle.sched_edges.specs.Streams.{TookPart};
ghost use Rattle.tree_text.specs.Pieces.{Added};

use sched_edges::{Failed, Line, Sink, write_all};

/// The most bytes of a line.
const ROOM: usize = 256;

/// Adds a text to a line, which first goes out where it has no room for the text, so that it is empty.
pub(crate) fn add<W: Sink>(line: &mut Line, text: &[u8], sink: &mut W) -> Result<(), Failed>
    requires { length text.now ≤ 256 }
    ensures ok { OnOk result (Added (W.taken sink.old) (W.taken sink.new) line.old text.now line.new) }
    ensures err { OnErr result (TookPart (W.taken sink.old) (W.taken sink.new) line.old) }
    ensures cause { HasCause (W.faults sink.old) (W.faults sink.new) result }
{
    if ROOM - line.as_slice().len() < text.len() {
        write_all(sink, line.as_slice())?;
        *line = Line::new();
    }
    line.text(text);
    Ok(())
}
