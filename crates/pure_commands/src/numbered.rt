//! The head of a text of items that are numbered one after the other.
ghost use Rattle.std.specs.Prelude.{◌≡◌, ◌≤◌, ◌++◌, length};
ghost use Rattle.sched_edges.specs.Causes.{HasCause};
ghost use Rattle.sched_edges.specs.Lines.{number_line};
ghost use Rattle.sched_edges.specs.Streams.{Wrote};

use sched_edges::{Failed, Sink, number_line, write_lines};

/// The version of these texts.
const VERSION: u128 = 1;

/// Writes the name of the format with its version, and how many of what there are.
pub fn write_count<W: Sink>(
    format: &[u8],
    what: &[u8],
    count: u32,
    out: &mut W,
) -> Result<(), Failed>
    requires format { length format.now ≤ 128 }
    requires what { length what.now ≤ 128 }
    ensures wrote { Wrote (W.taken out.old) (W.taken out.new) (number_line format.now 1 ++ number_line what.now count) result }
    ensures cause { HasCause (W.faults out.old) (W.faults out.new) result }
{
    let lines = [
        number_line(format, VERSION),
        number_line(what, u128::from(count)),
    ];
    write_lines(out, &lines)
}
