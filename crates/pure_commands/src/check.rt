//! The command `check`.
ghost use Rattle.std.specs.Prelude.{ℕ, List, [], ◌∷◌, ◌≡◌, codes, decimal, IfOk, IfErr};
ghost use Rattle.std.specs.Io.KnownBytes.{Appends};
ghost use Rattle.sched_edges.specs.Lines.{line_of};
ghost use Rattle.trace_draw.specs.Head.{kind_text};
ghost use Rattle.pure_commands.specs.Commands.{trace_limit, of_trace, Writes};
ghost use Rattle.pure_commands.specs.Checks.{TellsTrace, RefusesTrace, StopsAtTrace};
ghost use Rattle.pure_commands.specs.Ends.{streams_of, IsTold, StopsAs};

use crate::input::TRACE_LIMIT;
use crate::refusal::Refusal;
use exit_status::Status;
use sched_edges::{Line, Sink, Source, write_all};
use stat_report::write_report;
use std::alloc::Global;
use trace_check::{CheckedTrace, FaultKind, Verdict, read_checked_source};
use trace_draw::kind_text;

/// Reads a trace text, and tells whether its rows are a valid schedule of its set: the report of a valid one, with the status
/// `Done`, or the first line at fault and why, with the status `Invalid`.
pub(crate) fn check<R: Source, W: Sink>(
    alloc: Global,
    source: &mut R,
    out: &mut W,
) -> Result<Status, Refusal>
    ensures told { IfOk result (λ status. IsTold trace_limit (Writes of_trace) status
        (streams_of R.Source W.Sink source.old out.old) (streams_of R.Source W.Sink source.new out.new)) }
    ensures stops { IfErr result (StopsAs trace_limit (Writes of_trace) RefusesTrace
        (streams_of R.Source W.Sink source.old out.old) (streams_of R.Source W.Sink source.new out.new)) }
{
    let trace = read_checked_source(alloc, source, TRACE_LIMIT)?;
    write_verdict(&trace, out)
}

// Writes the report of a valid trace, or the first fault of another.
fn write_verdict<W: Sink>(trace: &CheckedTrace, out: &mut W) -> Result<Status, Refusal>
    ensures told { IfOk result (λ status. (text : List ℕ) × TellsTrace trace.now status text × Appends (W.taken out.old)
        (W.taken out.new) text) }
    ensures stops { IfErr result (StopsAtTrace (W.taken out.old) (W.taken out.new) (W.faults out.old) (W.faults out.new) trace.now) }
{
    match trace.verdict() {
        Verdict::Valid => {
            write_report(out, trace)?;
            Ok(Status::Done)
        }
        Verdict::Fault { line, kind } => {
            write_all(out, invalid_line(line, kind).as_slice())?;
            Ok(Status::Invalid)
        }
    }
}

// The line that tells the first fault of a trace.
#[tactic(auto, unfolding(sched_edges::specs::Lines::line_of))]
fn invalid_line(line: u64, kind: FaultKind) -> Line
    ensures { result ≡ line_of (codes "invalid") (codes "line" ∷ decimal line ∷ kind_text kind ∷ []) }
{
    let mut told = Line::new();
    told.text(b"invalid");
    told.space();
    told.text(b"line");
    told.space();
    told.number(u128::from(line));
    told.space();
    told.text(kind_text(kind));
    told.end();
    told
}
