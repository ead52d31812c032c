//! The program: hands the words and the streams of the process to the top call, with gates and jobs for an execution, and ends
//! with its status.
#![tactic(auto)]

ghost use Rattle.std.specs.Prelude.{◌≡◌, ◌≢◌, ◌↔◌, [], None, Some, map, drop, string_bytes, IfOk, OnErr};
ghost use Rattle.command_words.specs.Words.{command_of};
ghost use Rattle.sched_base.specs.Limits.{processor_limit};
ghost use Rattle.sched_edges.specs.StdStreams.{kept_back};
ghost use Rattle.pure_commands.specs.Ends.{streams_of, error_of, IsUsage};
ghost use Rattle.run_tool.specs.Alone.{EndsAlone, EndsClosed, IsDoneWithOwn};
ghost use Rattle.run_tool.specs.Executions.{gates_of};
ghost use Rattle.run_tool.specs.Ready.{AreFirstGates};

use command_words::asks_to_execute;
use exec_workers::Kit;
use exit_status::Status;
use job_vm::VmJob;
use run_tool::{Refusal, close_run, refuse, run, run_without_crew};
use sched_base::{NoMemory, PROCESSOR_LIMIT, TASK_LIMIT};
use sched_edges::{Jobs, Sink, Source, StdSink, StdSource, SureGate};
use std::alloc::Global;
use std::io::{BufWriter, Write};
use std::process::ExitCode;
use std::sync::Wait;
use std::thread::Threads;
use std::{env, io};

/// The bytes of a text that standard output keeps back, so that a line costs no call of the system.
const BUFFER: usize = 65_536;

// The words that the process was called with: the program's name, and those behind it.
fn called_with(rt: &HostRuntime) -> Result<Vec<String>, NoMemory> {
    let mut words = Vec::new(rt.alloc());
    match env::args(rt) {
        Ok(args) => {
            for word in args {
                words.push(word)?;
            }
        }
        Err(error) if error.kind() == io::ErrorKind::OutOfMemory => return Err(NoMemory),
        // A word that isn't text is in no command line, as no words are.
        Err(_) => {}
    }
    Ok(words)
}

// The words behind the program's name.
fn behind_name(words: &[String]) -> &[String]
    ensures { result.now ≡ drop 1 words.now }
{
    &words[words.len().min(1)..]
}

// A kit with a gate for each processor that a set may have.
fn all_kits(alloc: Global) -> Result<Vec<Kit<SureGate>>, NoMemory>
    ensures { IfOk result (λ kits. AreFirstGates processor_limit (gates_of (λ _. None) (λ _. 0) kits.items)) }
{
    let mut kits = Vec::new(alloc);
    for _ in 0..PROCESSOR_LIMIT {
        kits.push(Kit::new(SureGate::new()))?;
    }
    Ok(kits)
}

// Does what the words ask for, with gates and jobs that are made for it: a job for each task that a set may have.
fn run_with_crew<R: Source, W: Sink, E: Sink, X: Threads + Wait + Sync>(
    rt: &X,
    alloc: Global,
    words: &[String],
    source: &mut R,
    out: &mut W,
    err: &mut E,
) -> Result<Status, NoMemory>
    ensures ends { IfOk result (EndsAlone (map string_bytes words.now)
        (streams_of R.Source W.Sink source.old out.old) (streams_of R.Source W.Sink source.new out.new)
        (error_of E.Sink err.old) (error_of E.Sink err.new)) }
    ensures unread { IfOk result (λ status. command_of (map string_bytes words.now) ≡ None → IsUsage
        (streams_of R.Source W.Sink source.old out.old) (streams_of R.Source W.Sink source.new out.new)
        (error_of E.Sink err.old) (error_of E.Sink err.new) status) }
    ensures same { OnErr result ((source.new ≡ source.old) × (out.new ≡ out.old) × (err.new ≡ err.old)) }
{
    let mut kits = all_kits(alloc)?;
    let mut jobs = Jobs::with_room(alloc, TASK_LIMIT)?;
    for id in 0..TASK_LIMIT {
        jobs.add(Box::new(alloc, VmJob::new(alloc, id))?);
    }
    Ok(run(rt, alloc, words, source, out, err, &mut kits, &mut jobs))
}

// Does what the words behind the program's name ask for. Gates and jobs are made for an execution alone.
fn run_words<R: Source, W: Sink, E: Sink, X: Threads + Wait + Sync>(
    rt: &X,
    alloc: Global,
    called_with: &[String],
    source: &mut R,
    out: &mut W,
    err: &mut E,
) -> Status
    ensures ends { EndsAlone (map string_bytes (drop 1 called_with.now))
        (streams_of R.Source W.Sink source.old out.old) (streams_of R.Source W.Sink source.new out.new)
        (error_of E.Sink err.old) (error_of E.Sink err.new) result }
    ensures unread { command_of (map string_bytes (drop 1 called_with.now)) ≡ None → IsUsage
        (streams_of R.Source W.Sink source.old out.old) (streams_of R.Source W.Sink source.new out.new)
        (error_of E.Sink err.old) (error_of E.Sink err.new) result }
{
    let words = behind_name(called_with);
    if !asks_to_execute(words) {
        return run_without_crew(rt, alloc, words, source, out, err);
    }
    match run_with_crew(rt, alloc, words, source, out, err) {
        Ok(status) => status,
        Err(NoMemory) => refuse(&Refusal::NoMemory, err),
    }
}

// Does what the words ask for, and hands the text on.
fn run_and_close<R: Source, W: Write + Drop, E: Sink, X: Threads + Wait + Sync>(
    rt: &X,
    alloc: Global,
    called_with: &[String],
    source: &mut R,
    out: &mut StdSink<BufWriter<W>>,
    err: &mut E,
) -> Status
    // The command's end, with its line, and then what became of the text that was kept back, with a line where that failed alone.
    ensures ends { EndsClosed (map string_bytes (drop 1 called_with.now))
        (streams_of R.Source ⟦<StdSink<BufWriter<W>> as Sink>⟧ source.old out.old)
        (streams_of R.Source ⟦<StdSink<BufWriter<W>> as Sink>⟧ source.new out.new)
        (error_of E.Sink err.old) (error_of E.Sink err.new) (kept_back out.new) result }
    ensures usage { result ≢ Status.NoMemory →
        ((result ≡ Status.Usage) ↔ (command_of (map string_bytes (drop 1 called_with.now)) ≡ None)) }
    ensures sure { result ≢ Status.GateFault }

    // Done: `out` took exactly the text that the command writes, and keeps none of it back.
    ensures done { result ≡ Status.Done →
        IsDoneWithOwn (map string_bytes (drop 1 called_with.now))
        (streams_of R.Source ⟦<StdSink<BufWriter<W>> as Sink>⟧ source.old out.old)
        (streams_of R.Source ⟦<StdSink<BufWriter<W>> as Sink>⟧ source.new out.new) }
    ensures handed_on { result ≡ Status.Done → kept_back out.new ≡ [] }
    ensures judged { result ≡ Status.Invalid → kept_back out.new ≡ [] }
{
    let status = run_words(rt, alloc, called_with, source, out, err);
    close_run(status, out, err)
}

fn main(rt: HostRuntime) -> ExitCode {
    let mut source = StdSource::new(rt.reader());
    let mut err = StdSink::new(rt.stderr());
    let writer = BufWriter::with_capacity(rt.alloc(), BUFFER, rt.stdout());
    let status = match (called_with(&rt), writer) {
        (Ok(words), Ok(writer)) => {
            let mut out = StdSink::new(writer);
            run_and_close(&rt, rt.alloc(), &words, &mut source, &mut out, &mut err)
        }
        // There is no memory for the words, or for what the text is kept in.
        _ => refuse(&Refusal::NoMemory, &mut err),
    };
    ExitCode::from(status.code())
}
