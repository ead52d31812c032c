//! The command `jobs`.
ghost use Rattle.std.specs.Prelude.{◌≡◌, ◌≤◌, length, IfErr, IfOk, Ok};
ghost use Rattle.job_vm.specs.Programs.{reading};
ghost use Rattle.pure_commands.specs.Commands.{set_limit};
ghost use Rattle.run_tree.specs.Compiled.{tree_of};
ghost use Rattle.pure_commands.specs.Ends.{streams_of};
ghost use Rattle.pure_commands.specs.Input.{IsSchedulable};
ghost use Rattle.run_tool.specs.Executions.{crew_of, IsFreshCrew};
ghost use Rattle.run_tool.specs.Executed.{EndsPart, EndsExecution, may_have_run};
ghost use Rattle.run_tool.specs.JobPrograms.{ReadsJobs};
ghost use Rattle.run_tool.specs.JobInput.{GaveJobs, GaveNoJobs, RefusesJobText, RanJobs, StopsAtJobs};
ghost use Rattle.command_words.specs.declared.command.Command.TheVariants.{Execute};
ghost use Rattle.command_words.specs.declared.command.Execution.TheVariants.{Jobs};

use crate::exec::run_plan;
use command_words::USUAL_WINDOW;
use exec_workers::Kit;
use job_vm::{JobText, first_stray, load_programs, read_jobs, write_jobs};
use merged_rounds::round_count;
use pure_commands::{Refusal, SET_LIMIT, written};
use run_tree::Plan;
use sched_base::TaskSet;
use sched_edges::{BoxedJob, Gate, Job, Jobs, Sink, Source, read_all};
use std::alloc::Global;
use std::sync::Wait;
use std::thread::Threads;
use task_reader::read_set;

/// Reads the source to its end, as a job text with its set.
pub(crate) fn read_job_input<R: Source>(
    alloc: Global,
    source: &mut R,
) -> Result<(JobText, TaskSet), Refusal>
    ensures read { IfOk result (λ read. GaveJobs (R.left source.old) (R.left source.new) SET_LIMIT read.0 read.1) }
    ensures refusal { IfErr result (GaveNoJobs (R.left source.old) (R.left source.new)
        (R.faults source.old) (R.faults source.new) SET_LIMIT) }
{
    let bytes = read_all(alloc, source, SET_LIMIT)?;
    read_job_text(alloc, bytes.as_slice())
}

// A job text with its set.
fn read_job_text(alloc: Global, bytes: &[u8]) -> Result<(JobText, TaskSet), Refusal>
    requires { length bytes.now ≤ set_limit }
    ensures read { IfOk result (λ read. ReadsJobs bytes.now read.0 read.1) }
    ensures refused { IfErr result (RefusesJobText bytes.now) }
{
    let text = read_jobs(alloc, bytes)?;
    let set = read_job_set(alloc, bytes, &text)?;
    Ok((text, set))
}

// The set behind the programs of a job text, where each of them is of a task of it.
fn read_job_set(alloc: Global, bytes: &[u8], text: &JobText) -> Result<TaskSet, Refusal>
    requires few { length bytes.now ≤ set_limit }
    requires text { reading bytes.now ≡ Ok text.now }
    requires within { text.now.set_start ≤ length bytes.now }
    ensures read { IfOk result (ReadsJobs bytes.now text.now) }
    ensures refused { IfErr result (RefusesJobText bytes.now) }
{
    let set = read_set(alloc, &bytes[text.set_start()..])?;
    match first_stray(text, &set) {
        Some(line) => Err(Refusal::BadProgram { line }),
        None => Ok(set),
    }
}

/// Loads each task's program into its job, has the gates and the jobs run the schedule of the set that fits, by its plan, and writes
/// what the programs computed. A lane may run up to 32 rounds ahead of the others.
pub(crate) fn load_and_run<W: Sink, G: Gate + Send, X: Threads + Wait + Sync>(
    rt: &X,
    alloc: Global,
    text: &JobText,
    plan: &Plan,
    out: &mut W,
    kits: &mut Vec<Kit<G>>,
    jobs: &mut Jobs,
) -> Result<(), Refusal>
    requires run { IsSchedulable plan.now.set plan.now.tree.scale }
    requires tree { plan.now.tree ≡ tree_of plan.now.tree.scale plan.now.set }
    requires ready { IsFreshCrew (crew_of G.Gate ⟦<BoxedJob as Job>⟧ kits.old jobs.old) }
    ensures { let before = crew_of G.Gate ⟦<BoxedJob as Job>⟧ kits.old jobs.old in
        let now = crew_of G.Gate ⟦<BoxedJob as Job>⟧ kits.new jobs.new in
        EndsPart (RanJobs text.now (W.taken out.old) (W.taken out.new) before now plan.now.set)
        (StopsAtJobs text.now (W.taken out.old) (W.taken out.new) (W.faults out.old) (W.faults out.new) before now plan.now.set)
        (may_have_run (Some (Execute Jobs))) before now
        ((kits.new.items ≡ kits.old.items) × (jobs.new.places ≡ jobs.old.places)) result }
{
    let rounds = round_count(alloc, plan)?;
    load_programs(text, plan.set(), plan.scale(), jobs)?;
    run_plan(rt, alloc, plan, rounds, USUAL_WINDOW, kits, jobs)?;
    written(write_jobs(out, plan.set(), plan.scale(), jobs))
}
