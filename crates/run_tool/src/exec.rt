//! The command `exec`.
ghost use Rattle.std.specs.Prelude.{◌≡◌, ◌≤◌, ◌*◌, false, length, OnOk, IfErr, IfOk};
ghost use Rattle.sched_base.specs.Limits.{window_limit};
ghost use Rattle.sched_base.specs.Tables.{rounds_in, row_limit};
ghost use Rattle.sched_base.specs.Lanes.{NamesOneOf};
ghost use Rattle.row_totals.specs.Sums.{totals_of};
ghost use Rattle.plan_rounds.specs.PlanRows.{plan_rows};
ghost use Rattle.exec_workers.specs.Runs.{IsExecutable};
ghost use Rattle.run_tree.specs.Compiled.{tree_of};
ghost use Rattle.pure_commands.specs.Commands.{set_limit};
ghost use Rattle.pure_commands.specs.Refusals.{status_of};
ghost use Rattle.pure_commands.specs.Ends.{streams_of, IsTold, StopsAs};
ghost use Rattle.pure_commands.specs.Input.{IsSchedulable};
ghost use Rattle.run_tool.specs.Executions.{crew_of, IsFreshCrew, AreBack, RanAll, name_at};
ghost use Rattle.run_tool.specs.Executed.{WritesRun, RefusesRun, RanSet, StopsAtRun, StopsInRun, EndsPart, may_have_called};
ghost use Rattle.exit_status.specs.declared.Status.TheVariants.{Done};

use exec_workers::{ExecFault, Executed, Kit, execute};
use merged_rounds::round_count;
use pure_commands::{Refusal, finishes_for, plan_of, read_input, write_rows, written};
use round_table::table_law;
use run_tree::Plan;
use sched_base::{Leaf, Name, TaskSet};
use sched_edges::{BoxedJob, Gate, Job, Jobs, Sink, Source};
use std::alloc::Global;
use std::sync::Wait;
use std::thread::Threads;

/// Reads a task set, has the gates and the jobs run its schedule, and writes it; in version 2 where `met` is asked for or some
/// task is released late. A lane may run up to `window` rounds ahead of the others.
pub(crate) fn exec<R: Source, W: Sink, G: Gate + Send, X: Threads + Wait + Sync>(
    rt: &X,
    alloc: Global,
    source: &mut R,
    window: u32,
    met: bool,
    out: &mut W,
    kits: &mut Vec<Kit<G>>,
    jobs: &mut Jobs,
) -> Result<(), Refusal>
    requires ready { IsFreshCrew (crew_of G.Gate ⟦<BoxedJob as Job>⟧ kits.old jobs.old) }
    requires some_window { 1 ≤ window }
    requires small_window { window ≤ window_limit }
    ensures { let old = streams_of R.Source W.Sink source.old out.old in
        let new = streams_of R.Source W.Sink source.new out.new in
        let before = crew_of G.Gate ⟦<BoxedJob as Job>⟧ kits.old jobs.old in
        let now = crew_of G.Gate ⟦<BoxedJob as Job>⟧ kits.new jobs.new in
        EndsPart (IsTold set_limit (WritesRun met before now) Done old new)
        (StopsAs set_limit (WritesRun met before now) (RefusesRun window met before now) old new) may_have_called before now
        ((kits.new.items ≡ kits.old.items) × (jobs.new.places ≡ jobs.old.places)) result }
{
    let set = read_input(alloc, source)?;
    let plan = plan_of(alloc, set)?;
    run_and_write(rt, alloc, &plan, window, met, out, kits, jobs)
}

// Runs the schedule of a set that fits, by its plan, and writes it.
fn run_and_write<W: Sink, G: Gate + Send, X: Threads + Wait + Sync>(
    rt: &X,
    alloc: Global,
    plan: &Plan,
    window: u32,
    met: bool,
    out: &mut W,
    kits: &mut Vec<Kit<G>>,
    jobs: &mut Jobs,
) -> Result<(), Refusal>
    requires run { IsSchedulable plan.now.set plan.now.tree.scale }
    requires tree { plan.now.tree ≡ tree_of plan.now.tree.scale plan.now.set }
    requires ready { IsFreshCrew (crew_of G.Gate ⟦<BoxedJob as Job>⟧ kits.old jobs.old) }
    requires some_window { 1 ≤ window }
    requires small_window { window ≤ window_limit }
    ensures { let before = crew_of G.Gate ⟦<BoxedJob as Job>⟧ kits.old jobs.old in
        let now = crew_of G.Gate ⟦<BoxedJob as Job>⟧ kits.new jobs.new in
        EndsPart (RanSet met (W.taken out.old) (W.taken out.new) before now plan.now.set)
        (StopsAtRun window met (W.taken out.old) (W.taken out.new) (W.faults out.old) (W.faults out.new) before now plan.now.set) may_have_called before now
        ((kits.new.items ≡ kits.old.items) × (jobs.new.places ≡ jobs.old.places)) result }
{
    let rounds = round_count(alloc, plan)?;
    let mut finishes = finishes_for(alloc, plan.set(), met)?;
    let executed = run_plan(rt, alloc, plan, rounds, window, kits, jobs)?;
    let (table, totals) = (&executed.table, executed.totals.as_slice());
    written(write_rows(plan, table, totals, met, &mut finishes, out))
}

/// Has the gates and the jobs run the schedule of a plan.
pub(crate) fn run_plan<G: Gate + Send, X: Threads + Wait + Sync>(
    rt: &X,
    alloc: Global,
    plan: &Plan,
    rounds: u64,
    window: u32,
    kits: &mut Vec<Kit<G>>,
    jobs: &mut Jobs,
) -> Result<Executed, Refusal>
    requires executable { IsExecutable plan.now rounds window }
    requires ready { IsFreshCrew (crew_of G.Gate ⟦<BoxedJob as Job>⟧ kits.old jobs.old) }
    ensures ran { OnOk result (RanAll plan.now (crew_of G.Gate ⟦<BoxedJob as Job>⟧ kits.old jobs.old)
        (crew_of G.Gate ⟦<BoxedJob as Job>⟧ kits.new jobs.new)) }
    ensures lanes { IfOk result (λ executed. executed.table.lanes ≡ plan_rows plan.now) }
    ensures few { IfOk result (λ executed. length executed.table.lanes * rounds_in executed.table.lanes ≤ row_limit) }
    ensures totals { IfOk result (λ executed. executed.totals.ticks ≡ totals_of (length plan.now.set.tasks) (plan_rows plan.now)) }
    ensures stops { IfErr result (StopsInRun plan.now window (crew_of G.Gate ⟦<BoxedJob as Job>⟧ kits.old jobs.old)
        (crew_of G.Gate ⟦<BoxedJob as Job>⟧ kits.new jobs.new)) }
    ensures uncalled { IfErr result (λ refusal. may_have_called (status_of refusal) ≡ false →
        (kits.new.items ≡ kits.old.items) × (jobs.new.places ≡ jobs.old.places)) }
    ensures back { AreBack (crew_of G.Gate ⟦<BoxedJob as Job>⟧ kits.old jobs.old)
        (crew_of G.Gate ⟦<BoxedJob as Job>⟧ kits.new jobs.new) }
{
    table_law();
    plan.know_lawful();
    match execute(rt, alloc, plan, rounds, window, kits, jobs) {
        Ok(executed) => Ok(executed),
        Err(ExecFault::Gate { row, .. }) => Err(Refusal::GateFault {
            row,
            name: name_at(plan.set(), row.leaf),
        }),
        Err(ExecFault::Job { row, .. }) => Err(Refusal::JobFault {
            row,
            name: name_at(plan.set(), row.leaf),
        }),
        Err(ExecFault::NoMemory) => Err(Refusal::NoMemory),
    }
}

/// The name of the task that a leaf runs, if it runs one.
pub(crate) fn name_at(set: &TaskSet, leaf: Leaf) -> Option<Name>
    requires { NamesOneOf set.now.tasks leaf }
    ensures { result ≡ name_at set.now.tasks leaf }
{
    match leaf {
        Leaf::Task(task) => {
            let named = &set.tasks()[task.0 as usize];
            Some(Name::new(named.name.as_slice()))
        }
        _ => None,
    }
}
