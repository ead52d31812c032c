//! The execution of a plan.
ghost use Rattle.std.specs.Prelude.{◌≡◌, ◌<◌, ◌*◌, ℕ, None, length, slice_index_or, IfOk, OnOk};
ghost use Rattle.sched_edges.specs.Jobs.{JobAt};
ghost use Rattle.exec_lanes.specs.Kits.{AreFilled};
ghost use Rattle.exec_workers.specs.Runs.{IsExecutable, OutcomeOf, AreFresh, AreEmpty, GatesGrew, GatesList, GatesListFirst, JobsUsedAll};

use crate::opening::open_book;
use crate::run::{Ended, run_gates};
use exec_lanes::{ExecFault, Executed, Kit, RunMemory, answer_of, lay_jobs};
use run_tree::Plan;
use sched_edges::{BoxedJob, Gate, Job, JobList, Jobs};
use std::alloc::Global;
use std::marker::Brand;
use std::sync::Wait;
use std::sync::ledger::Blank;
use std::thread::Threads;
use unit_ledger::PostLedger;

/// Executes a plan with gates that have run no row, where they tell their rows, and jobs that have done no work: `execute_on` from
/// the start. `rounds` is the plan's number of rounds, `window` the number of rounds that a worker may be ahead, from 1 to 1024.
/// Refused for want of memory before any gate is called; else at a failure of a gate or a job, which is named.
pub fn execute<G: Gate + Send, X: Threads + Wait + Sync>(
    rt: &X,
    alloc: Global,
    plan: &Plan,
    rounds: u64,
    window: u32,
    kits: &mut Vec<Kit<G>>,
    jobs: &mut Jobs,
) -> Result<Executed, ExecFault>
    requires executable { IsExecutable plan.now rounds window }
    requires kits { AreFilled plan.now.tree.processors kits.old.items }
    requires empty { AreEmpty G.ran plan.now kits.old.items }
    requires jobs { AreFresh ⟦<BoxedJob as Job>⟧.id ⟦<BoxedJob as Job>⟧.used (length plan.now.set.tasks) jobs.old.places }
    ensures outcome { OutcomeOf G.Gate ⟦<BoxedJob as Job>⟧ plan.now window kits.old kits.new jobs.old jobs.new result }
    ensures gates { OnOk result (GatesList G.ran plan.now kits.new.items) }
    ensures first { GatesListFirst G.ran plan.now kits.new.items }
    ensures jobs { OnOk result (JobsUsedAll ⟦<BoxedJob as Job>⟧.id ⟦<BoxedJob as Job>⟧.used plan.now jobs.new.places) }
    ensures posts { IfOk result (λ executed. executed.posts ≡ rounds * plan.now.tree.processors) }
{
    plan.know_lawful();
    execute_on(rt, alloc, plan, rounds, window, kits, jobs)
}

/// Executes a plan: runs each row of its schedule on its processor's gate and on its task's job, with one worker for each
/// processor, of which none is more than `window` rounds ahead of the last. `rounds` is the plan's number of rounds. The
/// gates are those of the first kits, one for each processor, and the jobs those of the first places, one for each task.
///
/// A failure is named only where the count of faults of that gate or of that job rose in this call. Memory is refused
/// before any gate is called. The gates are back in their kits, and the jobs in their places, whatever is answered. The
/// ledger of posts is closed once the workers have ended, also after a failure, and the answer tells its number.
pub fn execute_on<G: Gate + Send, X: Threads + Wait + Sync>(
    rt: &X,
    alloc: Global,
    plan: &Plan,
    rounds: u64,
    window: u32,
    kits: &mut Vec<Kit<G>>,
    jobs: &mut Jobs,
) -> Result<Executed, ExecFault>
    requires executable { IsExecutable plan.now rounds window }
    requires kits { AreFilled plan.now.tree.processors kits.old.items }
    requires jobs { AreFresh ⟦<BoxedJob as Job>⟧.id ⟦<BoxedJob as Job>⟧.used (length plan.now.set.tasks) jobs.old.places }
    ensures outcome { OutcomeOf G.Gate ⟦<BoxedJob as Job>⟧ plan.now window kits.old kits.new jobs.old jobs.new result }
    ensures gates { OnOk result (GatesGrew G.ran plan.now kits.old.items kits.new.items) }
    ensures jobs { OnOk result (JobsUsedAll ⟦<BoxedJob as Job>⟧.id ⟦<BoxedJob as Job>⟧.used plan.now jobs.new.places) }
    ensures posts { IfOk result (λ executed. executed.posts ≡ rounds * plan.now.tree.processors) }
{
    let m = plan.tree().processors();
    execute_in::<G, Brand, BoxedJob, X>(
        rt,
        alloc,
        Blank::new(u64::from(m)),
        plan,
        rounds,
        window,
        kits,
        jobs,
    )
}

// Executes a plan in one ledger.
fn execute_in<G: Gate + Send, Q: PostLedger + Send + Sync, J: Job + Send, X: Threads + Wait + Sync>(
    rt: &X,
    alloc: Global,
    blank: Blank,
    plan: &Plan,
    rounds: u64,
    window: u32,
    kits: &mut Vec<Kit<G>>,
    jobs: &mut JobList<J>,
) -> Result<Executed, ExecFault>
    requires name { blank.name ≡ Q.name }
    requires parts { blank.parts ≡ Q.parts }
    requires a_part_each { blank.parts ≡ plan.now.tree.processors }
    requires executable { IsExecutable plan.now rounds window }
    requires set { plan.now.set ≡ Q.set }
    requires kits { AreFilled plan.now.tree.processors kits.old.items }
    requires jobs { AreFresh J.id J.used (length plan.now.set.tasks) jobs.old.places }
    requires made { (t : ℕ) (job : J) → t < length plan.now.set.tasks → JobAt jobs.old.places t job → J.made job ≡ slice_index_or Q.made t None }
    ensures { OutcomeOf G.Gate J.Job plan.now window kits.old kits.new jobs.old jobs.new result }
{
    let n = plan.set().count();
    let room = RunMemory::of_plan(alloc, plan, jobs)?;
    let (book, seats) = open_book::<Q, J>(alloc, blank, plan, rounds, window, jobs)?;
    let RunMemory {
        mut counts,
        mut posted,
        waiters,
        totals,
        lanes,
    } = room;
    let Ended {
        jobs: mut back,
        table,
        fault,
        posts,
    } = run_gates(
        rt,
        book,
        plan,
        rounds,
        window,
        seats,
        kits.as_mut_slice(),
        lanes,
        &mut counts,
        &mut posted,
        &waiters,
    );
    lay_jobs(&mut back, jobs, n);
    answer_of(table, fault, posts, jobs, totals, n)
}
