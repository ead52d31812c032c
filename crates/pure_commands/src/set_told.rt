//! The commands that tell of a set: its rates, its tree, its schedules.
ghost use Rattle.std.specs.Prelude.{OnOk, IfErr};
ghost use Rattle.pure_commands.specs.Commands.{set_limit, of_set, Writes, RefusesText};
ghost use Rattle.pure_commands.specs.Ends.{streams_of, IsTold, StopsAs};
ghost use Rattle.pure_commands.specs.Input.{WroteSet, StopsAtSet};
ghost use Rattle.pure_commands.specs.SetTold.{text_told};
ghost use Rattle.exit_status.specs.declared.Status.TheVariants.{Done};

use crate::input::read_input;
use crate::rate::write_set as write_rates;
use crate::refusal::Refusal;
use crate::repeat::{write_table_again, write_trace_again};
use crate::table::write_set as write_table;
use crate::trace::write_set as write_trace;
use crate::tree::write_set as write_tree;
use crate::wrap::write_set as write_wrapped;
use sched_base::TaskSet;
use sched_edges::{Sink, Source};
use std::alloc::Global;

/// What is told of a set that fits.
#[derive(Clone, Copy)]
pub(crate) enum SetTold {
    /// The scale of the set and its tasks' rates.
    Rates,
    /// The compiled tree.
    Tree,
    /// The schedule; in version 2 where `met` is asked for or some task is released late.
    Trace { met: bool },
    /// The wrapped schedule.
    TraceWrap,
    /// The schedule up to the least horizon at which it repeats, whatever the set's horizon is.
    TraceRepeat,
    /// The schedule as C source.
    Table,
    /// The schedule as C source, up to the least horizon at which it repeats.
    TableRepeat,
}

/// Reads a task set, and writes what is asked for of it.
pub(crate) fn tell_set<R: Source, W: Sink>(
    alloc: Global,
    told: SetTold,
    source: &mut R,
    out: &mut W,
) -> Result<(), Refusal>
    ensures done { OnOk result (IsTold set_limit (Writes (of_set (text_told told))) Done
        (streams_of R.Source W.Sink source.old out.old) (streams_of R.Source W.Sink source.new out.new)) }
    ensures stops { IfErr result (StopsAs set_limit (Writes (of_set (text_told told))) (RefusesText (text_told told))
        (streams_of R.Source W.Sink source.old out.old) (streams_of R.Source W.Sink source.new out.new)) }
{
    let set = read_input(alloc, source)?;
    write_told(alloc, told, set, out)
}

// Writes what is asked for of a set, where it fits.
fn write_told<W: Sink>(
    alloc: Global,
    told: SetTold,
    set: TaskSet,
    out: &mut W,
) -> Result<(), Refusal>
    ensures done { OnOk result (WroteSet (text_told told) (W.taken out.old) (W.taken out.new) set) }
    ensures stops { IfErr result (StopsAtSet (text_told told) (W.taken out.old) (W.taken out.new)
        (W.faults out.old) (W.faults out.new) set) }
{
    match told {
        SetTold::Rates => write_rates(&set, out),
        SetTold::Tree => write_tree(alloc, set, out),
        SetTold::Trace { met } => write_trace(alloc, set, met, out),
        SetTold::TraceWrap => write_wrapped(alloc, &set, out),
        SetTold::TraceRepeat => write_trace_again(alloc, &set, out),
        SetTold::Table => write_table(alloc, set, out),
        SetTold::TableRepeat => write_table_again(alloc, &set, out),
    }
}
