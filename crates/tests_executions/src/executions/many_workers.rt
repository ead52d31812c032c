//! Runs with 24 workers, whose gates keep different paces.
ghost use Rattle.plan_rounds.specs.PlanRows.{IsCompiled};
ghost use Rattle.tests_executions.specs.Ready.{AreUnrun, IsReady};

use super::paced_gate::{Pace, PacedGate};
use event_core::count_rounds;
use exec_workers::{ExecFault, Executed, Kit, execute};
use run_compile::compile;
use run_tree::Plan;
use sample_sets::{add_task, set_of};
use sched_base::{Leaf, Row, TaskId, TaskSet};
use sched_edges::{CountJob, Jobs};
use std::alloc::Global;
use std::process::Abort;
use std::sync::Wait;
use std::thread::Threads;
use std::time::Clock;

const PROCESSORS: u32 = 24;

/// Each task rests one unit of each period of 25. In round k task k rests, and its processor goes to the task that rested
/// before, so 25 rounds of 25 ticks make a period.
const TASKS: u32 = 25;

/// Row k of processor p.
fn row(p: u32, k: usize) -> Row {
    let task = if k <= p as usize {
        p.saturating_add(1)
    } else {
        p
    };
    let start = (k as u128).saturating_mul(25);
    Row {
        processor: p,
        start,
        end: start.saturating_add(25),
        leaf: Leaf::Task(TaskId(task)),
    }
}

fn set_of_25(rt: &impl Abort, alloc: Global) -> TaskSet {
    let mut set = set_of(alloc, PROCESSORS, 25, &[]).expect(rt, "a set");
    for letter in b'a'..=b'y' {
        add_task(&mut set, &[letter], 24, 25, 0).expect(rt, "a task");
    }
    set
}

fn plan_of_25(rt: &impl Abort, alloc: Global) -> Plan
    ensures { IsCompiled result }
{
    compile(alloc, set_of_25(rt, alloc)).expect(rt, "a plan")
}

/// A kit for each processor, with a gate that keeps this pace.
fn kits_of<X: Clock + Abort + Copy>(rt: X, alloc: Global, pace: Pace) -> Vec<Kit<PacedGate<X>>>
    ensures { AreUnrun 24 result.items }
{
    let mut kits = Vec::new(alloc);
    for p in 0..PROCESSORS {
        let gate = PacedGate::new(rt, alloc, p, 25, pace).expect(&rt, "there is memory");
        kits.push(Kit::new(gate)).expect(&rt, "there is memory");
    }
    kits
}

/// Executes a plan of 25 tasks on these gates.
fn run_jobs<X: Threads + Wait + Clock + Abort + Copy + Send + Sync>(
    rt: X,
    alloc: Global,
    plan: &Plan,
    rounds: u64,
    window: u32,
    kits: &mut Vec<Kit<PacedGate<X>>>,
) -> Result<Executed, ExecFault>
    requires ready { IsReady 24 25 rounds window plan.now kits.old.items }
{
    let mut jobs = Jobs::with_room(alloc, TASKS).expect(&rt, "there is memory");
    for t in 0..TASKS {
        let job = Box::new(alloc, CountJob::new(t)).expect(&rt, "there is memory");
        jobs.add(job);
    }
    execute(&rt, alloc, plan, rounds, window, kits, &mut jobs)
}

/// Executes the 25 tasks on these gates, and makes sure that all rows were posted.
fn run_on<X: Threads + Wait + Clock + Abort + Copy + Send + Sync>(
    rt: X,
    alloc: Global,
    plan: &Plan,
    window: u32,
    kits: &mut Vec<Kit<PacedGate<X>>>,
)
    requires compiled { IsCompiled plan.now }
    requires kits { AreUnrun 24 kits.old.items }
{
    assert!(rt; 1 <= window && window <= 1024);
    assert!(rt; plan.tree().processors() == PROCESSORS);
    assert!(rt; plan.set().count() == TASKS);
    let rounds = count_rounds(alloc, plan).expect(&rt, "few rounds");
    match run_jobs(rt, alloc, plan, rounds, window, kits) {
        Ok(done) => assert!(rt; done.posts.number() == 600),
        Err(_) => panic!(rt; "a run that failed"),
    }
}

/// Makes sure that these are the rows of a processor.
fn assert_rows(rt: &impl Abort, rows: &[Row], p: u32) {
    assert!(rt; rows.len() == TASKS as usize);
    for (k, found) in rows.iter().enumerate() {
        assert!(rt; *found == row(p, k), "row {k} of processor {p}");
    }
}

/// Makes sure that the gate of kit p ran the rows of its processor.
fn assert_ran<X: Clock + Copy>(rt: &impl Abort, kits: &[Kit<PacedGate<X>>], p: u32) {
    assert!(rt; (p as usize) < kits.len());
    match &kits[p as usize].gate {
        Some(gate) => assert_rows(rt, gate.ran(), p),
        None => panic!(rt; "a gate that isn't back"),
    }
}

/// Makes sure that each gate ran the rows of its processor.
fn assert_all_ran<X: Clock + Copy>(rt: &impl Abort, kits: &[Kit<PacedGate<X>>]) {
    for p in 0..PROCESSORS {
        assert_ran(rt, kits, p);
    }
}

/// Executes the 25 tasks on gates that keep this pace, and makes sure of what each gate ran.
fn run_at<X: Threads + Wait + Clock + Abort + Copy + Send + Sync>(
    rt: X,
    alloc: Global,
    plan: &Plan,
    window: u32,
    pace: Pace,
)
    requires { IsCompiled plan.now }
{
    let mut kits = kits_of(rt, alloc, pace);
    run_on(rt, alloc, plan, window, &mut kits);
    assert!(rt; kits.len() == PROCESSORS as usize);
    assert_all_ran(&rt, &kits);
}

/// Executes the 25 tasks at this window and each pace.
fn run_at_each_pace<X: Threads + Wait + Clock + Abort + Copy + Send + Sync>(
    rt: X,
    alloc: Global,
    plan: &Plan,
    window: u32,
)
    requires { IsCompiled plan.now }
{
    run_at(rt, alloc, plan, window, Pace::Even);
    run_at(rt, alloc, plan, window, Pace::SlowOn(5));
    run_at(rt, alloc, plan, window, Pace::AtRandom);
}

/// 24 workers run the rows of the plan at each window and at each pace.
#[test]
fn runs_24_workers(rt: HostRuntime) {
    let plan = plan_of_25(&rt, rt.alloc());
    for window in [1, 2, 32, 1024] {
        run_at_each_pace(rt, rt.alloc(), &plan, window);
    }
}
