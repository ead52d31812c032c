//! The summary of a drill.
ghost use Rattle.std.specs.Prelude.{◌≡◌, true, is_some, IfSome};
ghost use Rattle.std.specs.List.{concat};
ghost use Rattle.sched_edges.specs.Causes.{HasCause};
ghost use Rattle.sched_edges.specs.Streams.{Wrote};
ghost use Rattle.stat_report.specs.Report.{IsValidTrace};
ghost use Rattle.run_tool.specs.Drill.{summary_by, summary_lines};

use sched_edges::{Failed, Sink, number_line, word_line, write_lines};
use stat_report::{migrations, preemptions};
use trace_check::{ReadTrace, Verdict, check_trace};

/// What is told of a drill: its number, and of its set and the trace of its schedule the tasks, the ticks of a unit, the rounds,
/// the rows, and how often jobs were set aside or moved. The trace is valid.
#[derive(Clone, Copy, Debug)]
pub(crate) struct Summary {
    pub number: u64,
    pub tasks: u32,
    pub scale: u128,
    pub rounds: u64,
    pub rows: u64,
    pub preemptions: u64,
    pub migrations: u64,
}

/// The summary of a drill of so many rounds and this trace; none where the rows of the trace aren't a valid schedule.
pub(crate) fn summary_of(number: u64, rounds: u64, trace: &ReadTrace) -> Option<Summary>
    ensures told { IfSome result (λ told. told ≡ summary_by number rounds trace.now) }
    ensures judged { IfSome result (λ _. IsValidTrace trace.now) }
    ensures valid { IsValidTrace trace.now → is_some result ≡ true }
{
    match check_trace(trace) {
        Verdict::Valid => Some(Summary {
            number,
            tasks: trace.set().count(),
            scale: trace.scale(),
            rounds,
            rows: trace.rows().len() as u64,
            preemptions: preemptions(trace.checked()),
            migrations: migrations(trace.checked()),
        }),
        Verdict::Fault { .. } => None,
    }
}

/// Writes a summary, line by line.
pub(crate) fn write_summary<W: Sink>(told: &Summary, out: &mut W) -> Result<(), Failed>
    ensures wrote { Wrote (W.taken out.old) (W.taken out.new)
        (concat (summary_lines told.now)) result }
    ensures cause { HasCause (W.faults out.old) (W.faults out.new) result }
{
    let lines = [
        number_line(b"drill", u128::from(told.number)),
        number_line(b"tasks", u128::from(told.tasks)),
        number_line(b"scale", told.scale),
        number_line(b"rounds", u128::from(told.rounds)),
        number_line(b"rows", u128::from(told.rows)),
        number_line(b"preemptions", u128::from(told.preemptions)),
        number_line(b"migrations", u128::from(told.migrations)),
        word_line(b"verdict valid"),
    ];
    write_lines(out, &lines)
}
