//! The command `drill`.
ghost use Rattle.std.specs.Prelude.{◌≡◌, ◌≤◌, ◌*◌, length, OnOk, IfErr, IfOk};
ghost use Rattle.sched_base.specs.Scale.{IsScale};
ghost use Rattle.sched_base.specs.Tables.{all_rows, rounds_in};
ghost use Rattle.sched_base.specs.Valid.{IsValid};
ghost use Rattle.run_tree.specs.Plans.{rounds_of, stop_of};
ghost use Rattle.sched_base.specs.Tables.{row_limit};
ghost use Rattle.plan_rounds.specs.PlanRows.{plan_rows};
ghost use Rattle.merged_rows.specs.Merging.{merged_lanes};
ghost use Rattle.trace_check.specs.RoundTrip.{trace_again};
ghost use Rattle.stat_report.specs.Report.{IsValidTrace};
ghost use Rattle.pure_commands.specs.SetTexts.{plan_of};
ghost use Rattle.run_tool.specs.Drill.{drilled, summary_by};
ghost use Rattle.run_tool.specs.Executions.{crew_of, IsFreshCrew};
ghost use Rattle.run_tool.specs.Executed.{RanDrill, StopsAtDrill, WroteDrill, StopsAtText, EndsPart, may_have_run};
ghost use Rattle.command_words.specs.declared.command.Command.TheVariants.{Execute};
ghost use Rattle.command_words.specs.declared.command.Execution.TheVariants.{Drill};

use crate::exec::run_plan;
use crate::summary::{Summary, summary_of, write_summary};
use command_words::USUAL_WINDOW;
use event_core::CountFault;
use exec_workers::Kit;
use merged_rounds::round_count;
use pure_commands::{Refusal, written};
use round_table::table_law;
use run_compile::{CompileFault, compile};
use run_tree::Plan;
use sched_base::{NoMemory, RowTable};
use sched_edges::{BoxedJob, Gate, Job, Jobs, Sink};
use std::alloc::Global;
use std::sync::Wait;
use std::thread::Threads;
use task_gen::{drill_law, make, words_of};
use trace_check::{ReadTrace, merged_law};

/// Draws a task set from a number, has the gates and the jobs run its schedule, judges the trace of its rows, and writes what is
/// counted of it. A lane may run up to 32 rounds ahead of the others. Nothing is read.
pub(crate) fn drill<W: Sink, G: Gate + Send, X: Threads + Wait + Sync>(
    rt: &X,
    alloc: Global,
    number: u64,
    out: &mut W,
    kits: &mut Vec<Kit<G>>,
    jobs: &mut Jobs,
) -> Result<(), Refusal>
    requires ready { IsFreshCrew (crew_of G.Gate ⟦<BoxedJob as Job>⟧ kits.old jobs.old) }
    ensures { let before = crew_of G.Gate ⟦<BoxedJob as Job>⟧ kits.old jobs.old in
        let now = crew_of G.Gate ⟦<BoxedJob as Job>⟧ kits.new jobs.new in
        EndsPart (RanDrill number (W.taken out.old) (W.taken out.new) before now)
        (StopsAtDrill number (W.taken out.old) (W.taken out.new) (W.faults out.old) (W.faults out.new) before now)
        (may_have_run (Some (Execute (Drill number)))) before now
        ((kits.new.items ≡ kits.old.items) × (jobs.new.places ≡ jobs.old.places)) result }
{
    let plan = drawn_plan(alloc, number)?;
    let rounds = few_rounds(alloc, &plan)?;
    let executed = run_plan(rt, alloc, &plan, rounds, USUAL_WINDOW, kits, jobs)?;
    write_judged(alloc, number, &plan, rounds, &executed.table, out)
}

// Judges the trace of a drawn set's rows, which were run, and writes what is counted of it.
fn write_judged<W: Sink>(
    alloc: Global,
    number: u64,
    plan: &Plan,
    rounds: u64,
    table: &RowTable,
    out: &mut W,
) -> Result<(), Refusal>
    requires plan { plan.now ≡ plan_of (drilled number) plan.now.tree.scale }
    requires scale { IsScale (drilled number).tasks plan.now.tree.scale }
    requires rounds { rounds ≡ rounds_of plan.now }
    requires lanes { table.now.lanes ≡ plan_rows plan.now }
    requires few { length table.now.lanes * rounds_in table.now.lanes ≤ row_limit }
    requires valid { IsValid plan.now.set plan.now.tree.scale (stop_of plan.now) (stop_of plan.now) (all_rows (plan_rows plan.now)) }
    ensures done { OnOk result (WroteDrill number plan.now.tree.scale (W.taken out.old) (W.taken out.new)) }
    ensures stops { IfErr result (StopsAtText number plan.now.tree.scale (W.taken out.old) (W.taken out.new)
        (W.faults out.old) (W.faults out.new)) }
{
    let told = judged(alloc, number, plan, rounds, table)?;
    written(write_summary(&told, out))
}

// The plan of the set that a number draws: each such set fits, and its scale is small.
fn drawn_plan(alloc: Global, number: u64) -> Result<Plan, NoMemory>
    ensures plan { IfOk result (λ plan. plan ≡ plan_of (drilled number) plan.tree.scale) }
    ensures scale { IfOk result (λ plan. IsScale (drilled number).tasks plan.tree.scale) }
    ensures few { IfOk result (λ plan. rounds_of plan * plan.tree.processors ≤ row_limit) }
{
    drill_law();
    let words = words_of(number);
    let set = make(alloc, &words)?;
    match compile(alloc, set) {
        Ok(plan) => {
            plan.know_lawful();
            Ok(plan)
        }
        Err(CompileFault::ScaleTooLarge { .. }) => unreachable!(),
        Err(CompileFault::Overload { .. }) => unreachable!(),
        Err(CompileFault::NoMemory) => Err(NoMemory),
    }
}

// The rounds of a plan that has no more rows than a schedule may have.
fn few_rounds(alloc: Global, plan: &Plan) -> Result<u64, NoMemory>
    requires few { rounds_of plan.now * plan.now.tree.processors ≤ row_limit }
    ensures { IfOk result (λ rounds. rounds ≡ rounds_of plan.now) }
{
    match round_count(alloc, plan) {
        Ok(rounds) => Ok(rounds),
        Err(CountFault::TooLong { .. }) => unreachable!(),
        Err(CountFault::NoMemory) => Err(NoMemory),
    }
}

// Judges the trace of a plan's rows, which are a valid schedule, and counts what the report counts.
fn judged(
    alloc: Global,
    number: u64,
    plan: &Plan,
    rounds: u64,
    table: &RowTable,
) -> Result<Summary, NoMemory>
    requires lanes { table.now.lanes ≡ plan_rows plan.now }
    requires few { length table.now.lanes * rounds_in table.now.lanes ≤ row_limit }
    requires valid { IsValid plan.now.set plan.now.tree.scale (stop_of plan.now) (stop_of plan.now) (all_rows (plan_rows plan.now)) }
    ensures told { IfOk result (λ told. told ≡ summary_by number rounds (trace_again plan.now.set plan.now.tree.scale (merged_lanes (plan_rows plan.now)))) }
    ensures judged { IfOk result (λ _. IsValidTrace (trace_again plan.now.set plan.now.tree.scale (merged_lanes (plan_rows plan.now)))) }
{
    table_law();
    merged_law();
    let _is_table = table.rounds();
    let trace = ReadTrace::of_table(alloc, plan.set(), plan.scale(), table)?;
    match summary_of(number, rounds, &trace) {
        Some(told) => Ok(told),
        None => unreachable!(),
    }
}
