//! The end of a run over an `out` that keeps bytes back.
ghost use Rattle.std.specs.Prelude.{◌≡◌, ◌≢◌, ◌⊎◌, []};
ghost use Rattle.std.specs.Io.KnownBytes.{Keeps};
ghost use Rattle.sched_edges.specs.Causes.{Rose};
ghost use Rattle.sched_edges.specs.StdStreams.{sink_faults, kept_back};
ghost use Rattle.pure_commands.specs.Ends.{error_of, IsQuiet, Tells};
ghost use Rattle.run_tool.specs.Closing.{closed, IsClosed, TellsClosed};
ghost use Rattle.pure_commands.specs.Refusals.{refusal_line};
ghost use Rattle.pure_commands.specs.declared.refusal.Refusal.TheVariants as why;

use exit_status::Status;
use pure_commands::{Refusal, refuse};
use sched_edges::{Failed, Sink, StdSink};
use std::io::{BufWriter, Write};

/// The status at the end of a run that had this status before: `out` hands on what it kept back. A text that wasn't handed on
/// wasn't written, so that is a fault of `out`, and `err` takes its line, where no other was told.
pub fn close_run<W: Write + Drop, E: Sink>(
    status: Status,
    out: &mut StdSink<BufWriter<W>>,
    err: &mut E,
) -> Status
    // `out` was asked to hand on, and its answer decides.
    ensures closed { IsClosed status result (kept_back out.new) (sink_faults out.old) (sink_faults out.new)
        (error_of E.Sink err.old) (error_of E.Sink err.new) }

    // At the statuses that tell a whole text, `out` keeps none of it back.
    ensures done { result ≡ Status.Done → kept_back out.new ≡ [] }
    ensures invalid { result ≡ Status.Invalid → kept_back out.new ≡ [] }

    // The status is another one only where such a text was told and the count of faults of `out` rose.
    ensures told { result ≢ status → (status ≡ Status.Done) ⊎ (status ≡ Status.Invalid) }
    ensures fault { result ≢ status → (result ≡ Status.WriteFault) × Rose (sink_faults out.old) (sink_faults out.new)
        × Tells (error_of E.Sink err.old) (error_of E.Sink err.new) (refusal_line why.WriteFault) }
    ensures quiet { result ≡ status → IsQuiet (error_of E.Sink err.old) (error_of E.Sink err.new) }

    // `out` keeps the bytes that it took, and takes no further one.
    ensures kept { Keeps (⟦<StdSink<BufWriter<W>> as Sink>⟧.taken out.old) (⟦<StdSink<BufWriter<W>> as Sink>⟧.taken out.new) }
{
    let flushed = out.flush();
    close_flushed(status, flushed, err)
}

/// The status at the end of a run, where `flushed` says how handing on what `out` kept back went.
pub fn close_flushed<E: Sink>(status: Status, flushed: Result<(), Failed>, err: &mut E) -> Status
    ensures status { result ≡ closed status flushed }
    ensures told { TellsClosed status flushed (error_of E.Sink err.old) (error_of E.Sink err.new) }
{
    match flushed {
        Ok(()) => status,
        Err(_) => match status {
            Status::Done | Status::Invalid => refuse(&Refusal::WriteFault, err),
            told => told,
        },
    }
}
