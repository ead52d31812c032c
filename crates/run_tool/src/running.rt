//! The top call, with the runtime, the gates and the jobs.
ghost use Rattle.std.specs.Prelude.{◌≡◌, ◌≢◌, ◌↔◌, true, false, map, string_bytes, None, Some};
ghost use Rattle.command_words.specs.Words.{command_of, asks_to_execute, HasWindow};
ghost use Rattle.pure_commands.specs.Commands.{of_trace};
ghost use Rattle.pure_commands.specs.Ends.{streams_of, error_of, IsDone, IsUsage};
ghost use Rattle.run_tool.specs.ExecutionWords.{EndsAsked};
ghost use Rattle.run_tool.specs.Ends.{IsCommandDone, IsCommandAnswered};
ghost use Rattle.run_tool.specs.Executions.{Crew, crew_of, IsFreshCrew, AreBack};
ghost use Rattle.run_tool.specs.Executed.{EndsExecution, EndsWith, NoneFailed, may_have_run};
ghost use Rattle.command_words.specs.declared.command.Command.{Command};
ghost use Rattle.command_words.specs.declared.command.Command.TheVariants.{Read};
ghost use Rattle.command_words.specs.declared.command.Reading.TheVariants.{Check};
ghost use Rattle.exit_status.specs.declared.Status.TheVariants.{Done, Invalid};

use crate::drill::drill;
use crate::exec::exec;
use crate::jobs::{load_and_run, read_job_input};
use crate::mode_text::write_modes;
use crate::modes::{read_modes, run_all};
use command_words::{
    Execution, USUAL_WINDOW, asks_for_batch, asks_to_execute, execution_of, is_batch,
};
use exec_workers::Kit;
use exit_status::Status;
use pure_commands::{Refusal, plan_of, refuse, run_batch, run_still, written};
use sched_edges::{BoxedJob, Gate, Job, Jobs, Sink, Source};
use std::alloc::Global;
use std::sync::Wait;
use std::thread::Threads;

/// Does what the words, those after the program's name, ask for: reads the source, writes the whole text to `out`, or one line
/// that says why not to `err`. `exec` has the gates of the kits and the jobs run the schedule of the set before its text is
/// written: gate p runs the rows of processor p, and job i works for task i. It takes all its memory before the first gate is
/// called. `drill` does the same with a set that it draws from a number, and reads nothing; it takes the memory for the trace of the
/// rows once they were run, and all its memory before the first byte goes to `out`. `modes` runs several sets, one after the other, and
/// takes the memory of a mode before the first gate is called in it.
///
/// The clauses speak of bytes, rows and ticks where a stream, a gate or a job tells them. Want of memory alone has no cause.
/// An execution takes a lock, so its clauses hold if it returns. `batch` takes threads and no lock; all else is done by `run_still`,
/// which returns.
pub fn run<R: Source, W: Sink, E: Sink, G: Gate + Send, X: Threads + Wait + Sync>(
    rt: &X,
    alloc: Global,
    words: &[String],
    source: &mut R,
    out: &mut W,
    err: &mut E,
    kits: &mut Vec<Kit<G>>,
    jobs: &mut Jobs,
) -> Status
    requires ready { IsFreshCrew (crew_of G.Gate ⟦<BoxedJob as Job>⟧ kits.old jobs.old) }

    // Usage comes exactly where the words are no command line, want of memory aside. All else is left as it was.
    ensures usage { result ≢ Status.NoMemory → ((result ≡ Status.Usage) ↔ (command_of (map string_bytes words.now) ≡ None)) }
    ensures unread { command_of (map string_bytes words.now) ≡ None → IsUsage
        (streams_of R.Source W.Sink source.old out.old) (streams_of R.Source W.Sink source.new out.new)
        (error_of E.Sink err.old) (error_of E.Sink err.new) result }

    // Done: `out` took exactly the text that the command writes for the bytes that the source gave, and what it tells of a set
    // or of a tree is sound: a tree is a reduction tree of its set, and a schedule is valid. For a drill the source gave none.
    ensures done { result ≡ Status.Done → (c : Command) × (command_of (map string_bytes words.now) ≡ Some c) × IsCommandDone c Done
        (streams_of R.Source W.Sink source.old out.old) (streams_of R.Source W.Sink source.new out.new)
        (crew_of G.Gate ⟦<BoxedJob as Job>⟧ kits.old jobs.old) }

    // Invalid: `check` read a trace whose rows aren't a valid schedule, and `out` took exactly the line that says where and why.
    ensures invalid { result ≡ Status.Invalid → (command_of (map string_bytes words.now) ≡ Some (Read Check)) × IsDone of_trace Invalid
        (streams_of R.Source W.Sink source.old out.old) (streams_of R.Source W.Sink source.new out.new) }

    // Each status comes only for its reason, and `err` took its line. Where a schedule was run, its text comes after each gate ran
    // the rows of its processor and each job worked the ticks of its task; where a gate or a job failed, this is the one named, and
    // the others ran first rows.
    ensures ends { let old = streams_of R.Source W.Sink source.old out.old in
        let new = streams_of R.Source W.Sink source.new out.new in
        let told = error_of E.Sink err.old in
        let tells = error_of E.Sink err.new in
        let before = crew_of G.Gate ⟦<BoxedJob as Job>⟧ kits.old jobs.old in
        let now = crew_of G.Gate ⟦<BoxedJob as Job>⟧ kits.new jobs.new in
        (c : Command) → command_of (map string_bytes words.now) ≡ Some c →
        EndsWith c old new told tells before now result }

    // No gate and no job is called but by an execution, and by none that is refused before. Where memory was refused, a drill may
    // have run all rows, `jobs` may have loaded programs, and `modes` may have run its first modes.
    ensures still { asks_to_execute (map string_bytes words.now) ≡ false →
        (kits.new.items ≡ kits.old.items) × (jobs.new.places ≡ jobs.old.places) }
    ensures uncalled { may_have_run (command_of (map string_bytes words.now)) result ≡ false →
        (kits.new.items ≡ kits.old.items) × (jobs.new.places ≡ jobs.old.places) }

    // At every status each gate is back in its kit, and each job in its place.
    ensures back { AreBack (crew_of G.Gate ⟦<BoxedJob as Job>⟧ kits.old jobs.old)
        (crew_of G.Gate ⟦<BoxedJob as Job>⟧ kits.new jobs.new) }

    // Where nothing fails that the command calls, the answer for the bytes is given.
    ensures answered { NoneFailed (command_of (map string_bytes words.now)) (crew_of G.Gate ⟦<BoxedJob as Job>⟧ kits.old jobs.old)
        (crew_of G.Gate ⟦<BoxedJob as Job>⟧ kits.new jobs.new)
        → IsCommandAnswered (command_of (map string_bytes words.now)) (R.left source.old)
        (streams_of R.Source W.Sink source.old out.old) (streams_of R.Source W.Sink source.new out.new) result }
{
    if !asks_to_execute(words) {
        return run_without_crew(rt, alloc, words, source, out, err);
    }
    run_execution(rt, alloc, words, source, out, err, kits, jobs)
}

/// Does what the words ask for, where they ask for no execution: no gate and no job is needed. The clauses are those of `run`.
pub fn run_without_crew<R: Source, W: Sink, E: Sink, X: Threads + Sync>(
    rt: &X,
    alloc: Global,
    words: &[String],
    source: &mut R,
    out: &mut W,
    err: &mut E,
) -> Status
    requires still { asks_to_execute (map string_bytes words.now) ≡ false }
    ensures usage { result ≢ Status.NoMemory → ((result ≡ Status.Usage) ↔ (command_of (map string_bytes words.now) ≡ None)) }
    ensures unread { command_of (map string_bytes words.now) ≡ None → IsUsage
        (streams_of R.Source W.Sink source.old out.old) (streams_of R.Source W.Sink source.new out.new)
        (error_of E.Sink err.old) (error_of E.Sink err.new) result }
    ensures done { result ≡ Status.Done → (c : Command) × (command_of (map string_bytes words.now) ≡ Some c)
        × ((before : Crew) → IsCommandDone c Done
        (streams_of R.Source W.Sink source.old out.old) (streams_of R.Source W.Sink source.new out.new) before) }
    ensures invalid { result ≡ Status.Invalid → (command_of (map string_bytes words.now) ≡ Some (Read Check)) × IsDone of_trace Invalid
        (streams_of R.Source W.Sink source.old out.old) (streams_of R.Source W.Sink source.new out.new) }

    // Whatever the gates and the jobs are, which it doesn't touch.
    ensures ends { (c : Command) (before now : Crew) → command_of (map string_bytes words.now) ≡ Some c →
        EndsWith c (streams_of R.Source W.Sink source.old out.old) (streams_of R.Source W.Sink source.new out.new)
        (error_of E.Sink err.old) (error_of E.Sink err.new) before now result }
    ensures answered { IsCommandAnswered (command_of (map string_bytes words.now)) (R.left source.old)
        (streams_of R.Source W.Sink source.old out.old) (streams_of R.Source W.Sink source.new out.new) result }
{
    if !asks_for_batch(words) {
        return run_still(alloc, words, source, out, err);
    }
    match is_batch(alloc, words) {
        Err(_) => refuse(&Refusal::NoMemory, err),
        Ok(false) => refuse(&Refusal::Usage, err),
        Ok(true) => run_batch(rt, alloc, source, out, err),
    }
}

// Does what the words ask for, where they ask for an execution.
fn run_execution<R: Source, W: Sink, E: Sink, G: Gate + Send, X: Threads + Wait + Sync>(
    rt: &X,
    alloc: Global,
    words: &[String],
    source: &mut R,
    out: &mut W,
    err: &mut E,
    kits: &mut Vec<Kit<G>>,
    jobs: &mut Jobs,
) -> Status
    requires asks { asks_to_execute (map string_bytes words.now) ≡ true }
    requires ready { IsFreshCrew (crew_of G.Gate ⟦<BoxedJob as Job>⟧ kits.old jobs.old) }
    ensures { EndsAsked (map string_bytes words.now)
        (streams_of R.Source W.Sink source.old out.old) (streams_of R.Source W.Sink source.new out.new)
        (error_of E.Sink err.old) (error_of E.Sink err.new)
        (crew_of G.Gate ⟦<BoxedJob as Job>⟧ kits.old jobs.old) (crew_of G.Gate ⟦<BoxedJob as Job>⟧ kits.new jobs.new)
        ((kits.new.items ≡ kits.old.items) × (jobs.new.places ≡ jobs.old.places)) result }
{
    match execution_of(alloc, words) {
        Err(_) => refuse(&Refusal::NoMemory, err),
        Ok(None) => refuse(&Refusal::Usage, err),
        Ok(Some(execution)) => {
            match perform(rt, alloc, execution, source, out, kits, jobs) {
                Ok(()) => Status::Done,
                Err(refusal) => refuse(&refusal, err),
            }
        }
    }
}

// Does an execution.
fn perform<R: Source, W: Sink, G: Gate + Send, X: Threads + Wait + Sync>(
    rt: &X,
    alloc: Global,
    execution: Execution,
    source: &mut R,
    out: &mut W,
    kits: &mut Vec<Kit<G>>,
    jobs: &mut Jobs,
) -> Result<(), Refusal>
    requires ready { IsFreshCrew (crew_of G.Gate ⟦<BoxedJob as Job>⟧ kits.old jobs.old) }
    requires window { HasWindow execution }
    ensures { let old = streams_of R.Source W.Sink source.old out.old in
        let new = streams_of R.Source W.Sink source.new out.new in
        let before = crew_of G.Gate ⟦<BoxedJob as Job>⟧ kits.old jobs.old in
        let now = crew_of G.Gate ⟦<BoxedJob as Job>⟧ kits.new jobs.new in
        EndsExecution execution old new before now
        ((kits.new.items ≡ kits.old.items) × (jobs.new.places ≡ jobs.old.places)) result }
{
    match execution {
        Execution::Exec { window } => exec(rt, alloc, source, window, false, out, kits, jobs),
        Execution::ExecMet => exec(rt, alloc, source, USUAL_WINDOW, true, out, kits, jobs),
        Execution::Drill { number } => drill(rt, alloc, number, out, kits, jobs),
        Execution::Jobs => {
            let (text, set) = read_job_input(alloc, source)?;
            let plan = plan_of(alloc, set)?;
            load_and_run(rt, alloc, &text, &plan, out, kits, jobs)
        }
        Execution::Modes => {
            let modes = read_modes(alloc, source)?;
            let run = run_all(rt, alloc, &modes, kits, jobs)?;
            written(write_modes(&modes, &run, out))
        }
    }
}
