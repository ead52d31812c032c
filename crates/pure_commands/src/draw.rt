//! The command `draw`.
ghost use Rattle.std.specs.Prelude.{◌≤◌, IfErr, IfSome, OnOk};
ghost use Rattle.pure_commands.specs.Commands.{trace_limit, of_picture, Writes};
ghost use Rattle.pure_commands.specs.Checks.{RefusesTrace};
ghost use Rattle.pure_commands.specs.Ends.{streams_of, IsTold, StopsAs};
ghost use Rattle.exit_status.specs.declared.Status.TheVariants.{Done};

use crate::input::TRACE_LIMIT;
use crate::refusal::Refusal;
use command_words::Asked;
use sched_edges::{Sink, Source};
use std::alloc::Global;
use trace_check::read_trace_source;
use trace_draw::draw_trace;

/// Reads a trace text, and draws the units of it that are asked for, whether its rows are a valid schedule or not.
pub(crate) fn draw<R: Source, W: Sink>(
    alloc: Global,
    asked: Asked,
    source: &mut R,
    out: &mut W,
) -> Result<(), Refusal>
    requires some { IfSome asked.units (λ n. 1 ≤ n) }
    ensures done { OnOk result (IsTold trace_limit (Writes (of_picture asked)) Done
        (streams_of R.Source W.Sink source.old out.old) (streams_of R.Source W.Sink source.new out.new)) }
    ensures stops { IfErr result (StopsAs trace_limit (Writes (of_picture asked)) RefusesTrace
        (streams_of R.Source W.Sink source.old out.old) (streams_of R.Source W.Sink source.new out.new)) }
{
    let trace = read_trace_source(alloc, source, TRACE_LIMIT)?;
    Ok(draw_trace(out, &trace, &asked)?)
}
