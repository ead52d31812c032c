//! Streams, gates and jobs, and the three tasks executed on gates with lists: what the tests of these share.
ghost use Rattle.std.specs.Prelude.{◌<◌, ℕ};
ghost use Rattle.sched_edges.specs.Jobs.{JobAt};
ghost use Rattle.plan_rounds.specs.PlanRows.{IsCompiled};
ghost use Rattle.tests_executions.specs.Ready.{AreUnrun, IsReady};

mod again;
mod faults;
mod gates;
mod jobs;
mod many_workers;
mod modes;
mod paced_gate;
mod streams;
mod whole_runs;

use event_core::count_rounds;
use exec_workers::{ExecFault, Executed, Kit, execute};
use run_compile::compile;
use run_tree::Plan;
use sample_sets::{NamedTask, set_of};
use sched_base::{Leaf, Row, TaskId};
use sched_edges::{FailJob, Job, JobList, Jobs, ListGate};
use std::alloc::Global;
use std::process::Abort;
use std::sync::Wait;
use std::thread::Threads;

/// Three tasks of rate 2/3, for two processors.
const THREE_TASKS: &[NamedTask] = &[("a", 2, 3, 0), ("b", 2, 3, 0), ("c", 2, 3, 0)];

/// Tasks by their places.
const A: u32 = 0;

const B: u32 = 1;

const C: u32 = 2;

/// The task that a processor runs in each of the three rounds.
const FIRST_LANE: &[u32] = &[B, A, A];

const SECOND_LANE: &[u32] = &[C, C, B];

/// The row of a processor in round k, which has three ticks.
fn row(rt: &impl Abort, processor: u32, k: usize) -> Row {
    let lane = if processor == 0 {
        FIRST_LANE
    } else {
        SECOND_LANE
    };
    let start = (k as u128).saturating_mul(3);
    Row {
        processor,
        start,
        end: start.saturating_add(3),
        leaf: Leaf::Task(TaskId(*lane.get(k).expect(rt, "a round"))),
    }
}

/// Makes sure that these are the first rows of a processor.
fn assert_first(rt: &impl Abort, rows: &[Row], processor: u32) {
    for (k, found) in rows.iter().enumerate() {
        assert!(rt;
            *found == row(rt, processor, k),
            "row {k} of processor {processor}"
        );
    }
}

/// The plan of three tasks of rate 2/3 on two processors, over one period.
fn three_tasks(rt: &impl Abort, alloc: Global) -> Plan
    ensures { IsCompiled result }
{
    let set = set_of(alloc, 2, 3, THREE_TASKS).expect(rt, "a set");
    compile(alloc, set).expect(rt, "a plan")
}

/// Two kits, with gates that have room for so many rows, of which these calls fail.
fn kits_of(rt: &impl Abort, alloc: Global, room: usize, fails: &[&[u64]; 2]) -> Vec<Kit<ListGate>>
    ensures { AreUnrun 2 result.items }
{
    let mut kits = Vec::new(alloc);
    for p in 0..2 {
        let gate = ListGate::new(alloc, room, fails[p]).expect(rt, "there is memory");
        kits.push(Kit::new(gate)).expect(rt, "there is memory");
    }
    kits
}

/// What the jobs of the three tasks tell: the ticks that each has worked, and how often it has failed.
fn told<J: Job>(jobs: &JobList<J>) -> [(u128, u64); 3]
    requires { (t : ℕ) → t < 3 → (job : J) × JobAt jobs.now.places t job }
{
    [
        (jobs.used(A), jobs.faults(A)),
        (jobs.used(B), jobs.faults(B)),
        (jobs.used(C), jobs.faults(C)),
    ]
}

/// What a run left.
#[derive(Drop)]
struct Left {
    answer: Result<Executed, ExecFault>,
    /// What the jobs tell.
    jobs: [(u128, u64); 3],
}

/// Executes a plan of three tasks on these gates, and on jobs of which these calls fail.
fn run_jobs<X: Threads + Wait + Abort + Sync>(
    rt: &X,
    alloc: Global,
    plan: &Plan,
    rounds: u64,
    window: u32,
    kits: &mut Vec<Kit<ListGate>>,
    fails: &[&[u64]; 3],
) -> Left
    requires ready { IsReady 2 3 rounds window plan.now kits.old.items }
{
    let mut jobs = Jobs::with_room(alloc, 3).expect(rt, "there is memory");
    for t in 0..3 {
        let job = FailJob::new(alloc, t, fails[t as usize]).expect(rt, "there is memory");
        jobs.add(Box::new(alloc, job).expect(rt, "there is memory"));
    }
    let answer = execute(rt, alloc, plan, rounds, window, kits, &mut jobs);
    Left {
        answer,
        jobs: told(&jobs),
    }
}

/// Executes the three tasks on these gates, and on jobs of which these calls fail.
fn run<X: Threads + Wait + Abort + Sync>(
    rt: &X,
    alloc: Global,
    plan: &Plan,
    window: u32,
    kits: &mut Vec<Kit<ListGate>>,
    fails: &[&[u64]; 3],
) -> Left
    requires compiled { IsCompiled plan.now }
    requires kits { AreUnrun 2 kits.old.items }
{
    assert!(rt; 1 <= window && window <= 1024);
    assert!(rt; plan.tree().processors() == 2);
    assert!(rt; plan.set().count() == 3);
    let rounds = count_rounds(alloc, plan).expect(rt, "few rounds");
    run_jobs(rt, alloc, plan, rounds, window, kits, fails)
}

/// The rows that the gate of kit p ran.
fn ran<'a>(rt: &impl Abort, kits: &'a [Kit<ListGate>], p: u32) -> &'a [Row] {
    assert!(rt; (p as usize) < kits.len());
    match &kits[p as usize].gate {
        Some(gate) => gate.ran(),
        None => panic!(rt; "a gate that isn't back"),
    }
}
