//! Running modes, one after the other.
ghost use Rattle.std.specs.Prelude.{◌≡◌, ◌≤◌, ◌<◌, ℕ, [], Some, length, slice_set, IfOk, IfErr, OnOk};
ghost use Rattle.std.specs.List.{AllByRecursion, AllZip};
ghost use Rattle.sched_base.specs.Limits.{window_limit};
ghost use Rattle.sched_edges.specs.Jobs.{JobAt};
ghost use Rattle.job_vm.specs.Seen.{job_seen, seen};
ghost use Rattle.job_vm.specs.Loading.{anew, loaded};
ghost use Rattle.exec_lanes.specs.Kits.{AreFilled};
ghost use Rattle.exec_workers.specs.Runs.{IsExecutable};
ghost use Rattle.mode_switch.specs.Runs.{ModesOutcome, RanMode, GatesGrewThrough, GatesGrewFirst, IsRunOf, JobsUsedLast};
ghost use Rattle.mode_switch.specs.Runs.{AreBack, NamesRisen, HaveOwnJobs, crew_held};

use crate::answers::{ModesFault, ModesRun};
use exec_workers::{ExecFault, Executed, Kit, execute_on};
use mode_join::Modes;
use run_tree::Plan;
use sched_base::TaskSet;
use sched_edges::{BoxedJob, Gate, Job, JobList, Jobs};
use std::alloc::Global;
use std::sync::Wait;
use std::thread::Threads;

/// Runs modes in order, each whole before the next one begins: lets the jobs of a mode's tasks begin anew without a program, and
/// then executes the mode's plan, with one worker for each processor, of which none is more than `window` rounds ahead of the last.
/// The gates are those of the first kits, one for each processor, and the jobs those of the first places, one for each task of the
/// mode. What a gate's list held before stays at its front.
///
/// A failure is named only where the count of faults of that gate or of that job rose in this call. Memory may be refused between
/// two modes. The gates are back in their kits, and the jobs in their places, whatever is answered.
pub fn run_modes<G: Gate + Send, X: Threads + Wait + Sync>(
    rt: &X,
    alloc: Global,
    modes: &Modes,
    window: u32,
    kits: &mut Vec<Kit<G>>,
    jobs: &mut Jobs,
) -> Result<ModesRun, ModesFault>
    requires some_window { 1 ≤ window }
    requires small_window { window ≤ window_limit }
    requires kits { AreFilled modes.now.processors kits.old.items }
    requires jobs { AllByRecursion (λ m. HaveOwnJobs ⟦<BoxedJob as Job>⟧.id (length m.plan.set.tasks) jobs.old.places) modes.now.modes }
    ensures outcome { ModesOutcome G.Gate ⟦<BoxedJob as Job>⟧ modes.now.modes window (crew_held kits.old jobs.old)
        (crew_held kits.new jobs.new) result }

    // Each gate ran its processor's rows of all modes, one mode after the other, and each mode's rows are a valid schedule.
    ensures gates { OnOk result (GatesGrewThrough G.ran modes.now.processors modes.now.modes kits.old.items kits.new.items) }
    ensures whole { IfOk result (λ runs. AllZip IsRunOf modes.now.modes runs) }
    ensures jobs { OnOk result (JobsUsedLast ⟦<BoxedJob as Job>⟧ modes.now.modes jobs.old.places jobs.new.places) }

    // Whatever is answered, what each gate ran are first rows of its processor's, mode after mode.
    ensures first { GatesGrewFirst G.ran modes.now.processors modes.now.modes kits.old.items kits.new.items }
    ensures risen { IfErr result (λ fault. NamesRisen G.Gate ⟦<BoxedJob as Job>⟧ (crew_held kits.old jobs.old) (crew_held kits.new jobs.new) fault) }
    ensures back { AreBack G.Gate ⟦<BoxedJob as Job>⟧ (crew_held kits.old jobs.old) (crew_held kits.new jobs.new) }
{
    let mut runs = Vec::with_capacity(alloc, modes.count() as usize)?;
    for j in 0..modes.count() {
        match run_mode(
            rt,
            alloc,
            modes.plan(j),
            modes.rounds(j),
            window,
            kits,
            jobs,
        ) {
            Ok(executed) => runs.push_reserved(executed),
            Err(fault) => return Err(ModesFault::in_mode(j, fault)),
        }
    }
    Ok(ModesRun { runs })
}

// Runs one mode: the jobs of its tasks begin anew, and its plan is executed.
fn run_mode<G: Gate + Send, X: Threads + Wait + Sync>(
    rt: &X,
    alloc: Global,
    plan: &Plan,
    rounds: u64,
    window: u32,
    kits: &mut Vec<Kit<G>>,
    jobs: &mut Jobs,
) -> Result<Executed, ExecFault>
    requires executable { IsExecutable plan.now rounds window }
    requires kits { AreFilled plan.now.tree.processors kits.old.items }
    requires jobs { HaveOwnJobs ⟦<BoxedJob as Job>⟧.id (length plan.now.set.tasks) jobs.old.places }
    ensures { RanMode G.Gate ⟦<BoxedJob as Job>⟧ plan.now window result (crew_held kits.old jobs.old) (crew_held kits.new jobs.new) }
{
    begin_anew(jobs, plan.set());
    execute_on(rt, alloc, plan, rounds, window, kits, jobs)
}

// Lets the job of each task begin anew with the empty program, which takes no memory.
fn begin_anew<J: Job>(jobs: &mut JobList<J>, set: &TaskSet)
    requires { (t : ℕ) → t < length set.now.tasks → (job : J) × JobAt jobs.old.places t job }
    ensures { seen J.Job jobs.new.places ≡ loaded 1 [] set.now.tasks (seen J.Job jobs.old.places) }
{
    for t in 0..set.count() {
        begin_job(jobs, t);
    }
}

// Lets the job of place i begin anew with the empty program.
fn begin_job<J: Job>(jobs: &mut JobList<J>, i: u32)
    requires { (job : J) × JobAt jobs.old.places i job }
    ensures begun { (job : J) → JobAt jobs.old.places i job → seen J.Job jobs.new.places
        ≡ slice_set (seen J.Job jobs.old.places) i (Some (anew 1 [] (job_seen J.id J.used J.faults J.made job))) }
    ensures filled { (k : ℕ) (job : J) → JobAt jobs.old.places k job → (now : J) × JobAt jobs.new.places k now }
{
    let mut job = jobs.lift(i);
    // The empty program takes no memory, so this is Ok.
    let _ = job.load(&[], 1);
    jobs.lay(i, job);
}
