//! An execution with gates and jobs of one's own, as small as can be. `docs/EXECUTIVE.md` goes through it.
#![tactic(auto)]

mod bounded_job;
mod busy_gate;

ghost use Rattle.std.specs.Prelude.{IfOk};
ghost use Rattle.exec_lanes.specs.Kits.{AreFilled};
ghost use Rattle.plan_rounds.specs.PlanRows.{IsCompiled};

use anyhow::anyhow;
use bounded_job::BoundedJob;
use busy_gate::BusyGate;
use event_core::count_rounds;
use exec_workers::{Kit, execute};
use run_compile::compile;
use run_tree::Plan;
use sched_edges::Jobs;
use std::alloc::Global;
use std::sync::Wait;
use std::thread::Threads;
use task_reader::read_set;

/// The set that is executed.
const SET: &[u8] = b"processors = 2
horizon = 3
task = [
  {name = 'a', work = 2, period = 3},
  {name = 'b', work = 1, period = 3},
  {name = 'c', work = 2, period = 3},
]
";

/// How far the lanes may run apart, in rounds.
const WINDOW: u32 = 32;

/// The ticks that each job may work.
const BOUND: u128 = 1_000;

// A kit with a gate for each processor.
fn kits_of(alloc: Global, processors: u32) -> anyhow::Result<Vec<Kit<BusyGate>>>
    ensures { IfOk result (λ kits. AreFilled processors kits.items) }
{
    let mut kits = Vec::new(alloc);
    for _ in 0..processors {
        kits.push(Kit::new(BusyGate::new()))?;
    }
    Ok(kits)
}

// The plan of the set.
fn plan_of(alloc: Global) -> anyhow::Result<Plan>
    ensures { IfOk result (λ plan. IsCompiled plan) }
{
    let set = read_set(alloc, SET).map_err(|_| anyhow!("the set can't be read"))?;
    compile(alloc, set).map_err(|_| anyhow!("the set doesn't fit"))
}

// Tells how long each processor was busy, and what each task was given.
fn tell(rt: &impl Print, kits: &[Kit<BusyGate>], totals: &[u128]) -> anyhow::Result<()> {
    for (p, kit) in kits.iter().enumerate() {
        if let Some(gate) = &kit.gate {
            println!(rt; "processor {p}: busy {}, idle {}", gate.busy(), gate.idle())?;
        }
    }
    for (t, ticks) in totals.iter().enumerate() {
        println!(rt; "task {t}: {ticks} ticks")?;
    }
    Ok(())
}

// Executes the plan, and tells what came of it.
fn execute_plan(
    rt: &(impl Print + Threads + Wait + Sync),
    alloc: Global,
    plan: &Plan,
) -> anyhow::Result<()>
    requires { IsCompiled plan.now }
{
    let rounds = count_rounds(alloc, plan)?;
    let tasks = plan.set().count();
    let mut kits = kits_of(alloc, plan.tree().processors())?;
    let mut jobs = Jobs::with_room(alloc, tasks).map_err(|_| anyhow!("no memory"))?;
    for id in 0..tasks {
        jobs.add(Box::new(alloc, BoundedJob::new(id, BOUND))?);
    }
    let executed = execute(rt, alloc, plan, rounds, WINDOW, &mut kits, &mut jobs)?;
    tell(rt, &kits, executed.totals.as_slice())
}

fn main(rt: HostRuntime) -> anyhow::Result<()> {
    let plan = plan_of(rt.alloc())?;
    execute_plan(&rt, rt.alloc(), &plan)
}
