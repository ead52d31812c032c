//! Runs that end at a failure, and what they leave.
ghost use Rattle.plan_rounds.specs.PlanRows.{IsCompiled};

use super::{A, B, C, Left, assert_first, kits_of, ran, row, run, three_tasks};
use exec_workers::ExecFault;
use run_tree::Plan;
use sched_base::{Leaf, Row, TaskId};
use std::alloc::Global;
use std::process::Abort;
use std::sync::Wait;
use std::thread::Threads;

/// A failure, and where it ends the run.
struct Stop {
    /// The calls that fail, of each gate and of each job.
    gates: [&'static [u64]; 2],
    jobs: [&'static [u64]; 3],
    /// The task whose job fails, where one does.
    task: Option<u32>,
    /// The row of the failure: that of this processor in this round.
    processor: u32,
    round: usize,
}

const NO_GATE: [&[u64]; 2] = [&[], &[]];

const NO_JOB: [&[u64]; 3] = [&[], &[], &[]];

/// Gate p fails at its call c; then the job of each task fails at its first call, and at its second.
const STOPS: &[Stop] = &[
    Stop {
        gates: [&[1], &[]],
        jobs: NO_JOB,
        task: None,
        processor: 0,
        round: 0,
    },
    Stop {
        gates: [&[2], &[]],
        jobs: NO_JOB,
        task: None,
        processor: 0,
        round: 1,
    },
    Stop {
        gates: [&[3], &[]],
        jobs: NO_JOB,
        task: None,
        processor: 0,
        round: 2,
    },
    Stop {
        gates: [&[], &[1]],
        jobs: NO_JOB,
        task: None,
        processor: 1,
        round: 0,
    },
    Stop {
        gates: [&[], &[2]],
        jobs: NO_JOB,
        task: None,
        processor: 1,
        round: 1,
    },
    Stop {
        gates: [&[], &[3]],
        jobs: NO_JOB,
        task: None,
        processor: 1,
        round: 2,
    },
    Stop {
        gates: NO_GATE,
        jobs: [&[1], &[], &[]],
        task: Some(A),
        processor: 0,
        round: 1,
    },
    Stop {
        gates: NO_GATE,
        jobs: [&[2], &[], &[]],
        task: Some(A),
        processor: 0,
        round: 2,
    },
    Stop {
        gates: NO_GATE,
        jobs: [&[], &[1], &[]],
        task: Some(B),
        processor: 0,
        round: 0,
    },
    Stop {
        gates: NO_GATE,
        jobs: [&[], &[2], &[]],
        task: Some(B),
        processor: 1,
        round: 2,
    },
    Stop {
        gates: NO_GATE,
        jobs: [&[], &[], &[1]],
        task: Some(C),
        processor: 1,
        round: 0,
    },
    Stop {
        gates: NO_GATE,
        jobs: [&[], &[], &[2]],
        task: Some(C),
        processor: 1,
        round: 1,
    },
];

/// What a run tells of its failure: the processor and the row, the task whose job failed, where one did, and how many rows were
/// posted.
fn told_of(rt: &impl Abort, left: &Left) -> (u32, Row, Option<u32>, u64) {
    match &left.answer {
        Ok(_) => panic!(rt; "a run that didn't fail"),
        Err(
            ExecFault::Gate {
                processor,
                row,
                posts,
            },
        ) => (*processor, *row, None, posts.number()),
        Err(
            ExecFault::Job {
                task,
                processor,
                row,
                posts,
            },
        ) => (*processor, *row, Some(*task), posts.number()),
        Err(ExecFault::NoMemory) => panic!(rt; "memory was refused"),
    }
}

/// How often jobs failed.
fn faults_of(jobs: &[(u128, u64); 3]) -> u64 {
    let [(_, a), (_, b), (_, c)] = jobs;
    a.saturating_add(*b).saturating_add(*c)
}

/// Makes sure that the run ended at the failure: its row, its task, and as many posted rows as the gates ran, but for one whose
/// job failed.
fn assert_told(rt: &impl Abort, left: &Left, stop: &Stop, ran: usize) {
    let (processor, found, task, posts) = told_of(rt, left);
    assert!(rt; processor == stop.processor && found == row(rt, stop.processor, stop.round));
    assert!(rt; task == stop.task);
    assert!(rt; posts == (ran as u64).saturating_sub(faults_of(&left.jobs)));
}

/// Makes sure that the gate which came to the failure ran just the rows up to there: the failed row too, where it is the job that
/// failed.
fn assert_stopped(rt: &impl Abort, rows: &[Row], stop: &Stop) {
    let job = if stop.task.is_some() { 1 } else { 0 };
    assert!(rt; rows.len() == stop.round.saturating_add(job));
}

/// Makes sure that the gates ran first rows, neither of them more than the window ahead of the other, and the second row of b
/// after the first.
fn assert_front(rt: &impl Abort, first: &[Row], second: &[Row], window: u32) {
    assert_first(rt, first, 0);
    assert_first(rt, second, 1);
    assert!(rt; first.len().abs_diff(second.len()) <= window as usize);
    assert!(rt; second.len() < 3 || !first.is_empty());
}

/// How many rows of a task are among these.
fn rows_of(rows: &[Row], task: u32) -> u128 {
    let mut count: u128 = 0;
    for row in rows {
        if row.leaf == Leaf::Task(TaskId(task)) {
            count = count.saturating_add(1);
        }
    }
    count
}

/// Makes sure that the job of a task has worked three ticks for each row of its task that the gates ran, but for the row at which
/// it failed.
fn assert_worked(
    rt: &impl Abort,
    first: &[Row],
    second: &[Row],
    task: u32,
    (used, faults): (u128, u64),
    failed: Option<u32>,
) {
    let rows = rows_of(first, task).saturating_add(rows_of(second, task));
    let missed = if failed == Some(task) { 1 } else { 0 };
    assert!(rt; used == rows.saturating_sub(missed).saturating_mul(3));
    assert!(rt; u128::from(faults) == missed);
}

/// Makes sure of what a run left that was to end at a failure: its answer, the rows that the two gates ran, and the jobs.
fn assert_left(
    rt: &impl Abort,
    left: &Left,
    first: &[Row],
    second: &[Row],
    window: u32,
    stop: &Stop,
) {
    assert_told(rt, left, stop, first.len().saturating_add(second.len()));
    assert_stopped(rt, if stop.processor == 0 { first } else { second }, stop);
    assert_front(rt, first, second, window);
    let [a, b, c] = left.jobs;
    assert_worked(rt, first, second, A, a, stop.task);
    assert_worked(rt, first, second, B, b, stop.task);
    assert_worked(rt, first, second, C, c, stop.task);
}

/// Runs the three tasks to a failure.
fn run_to<X: Threads + Wait + Abort + Sync>(
    rt: &X,
    alloc: Global,
    plan: &Plan,
    window: u32,
    stop: &Stop,
)
    requires { IsCompiled plan.now }
{
    let mut kits = kits_of(rt, alloc, 3, &stop.gates);
    let left = run(rt, alloc, plan, window, &mut kits, &stop.jobs);
    assert_left(
        rt,
        &left,
        ran(rt, &kits, 0),
        ran(rt, &kits, 1),
        window,
        stop,
    );
}

/// Runs the three tasks to each failure.
fn run_to_each<X: Threads + Wait + Abort + Sync>(rt: &X, alloc: Global, plan: &Plan, window: u32)
    requires { IsCompiled plan.now }
{
    for stop in STOPS {
        run_to(rt, alloc, plan, window, stop);
    }
}

#[test]
fn stops_at_a_gate_or_at_a_job(rt: HostRuntime) {
    let plan = three_tasks(&rt, rt.alloc());
    for window in [1, 2, 32] {
        run_to_each(&rt, rt.alloc(), &plan, window);
    }
}
