//! Two modes that run on gates with lists: values from outside, and what a failure leaves.
ghost use Rattle.tests_executions.specs.Ready.{AreUnrun};

use super::{Set, THIRDS, joined};
use crate::executions::{kits_of, ran};
use exec_workers::Kit;
use mode_switch::{Modes, ModesFault, ModesRun, run_modes};
use sched_base::{Leaf, Row, TaskId};
use sched_edges::{FailJob, Jobs, ListGate};
use std::alloc::Global;
use std::process::Abort;
use std::sync::Wait;
use std::thread::Threads;

/// Tasks by their places, and the idle leaf.
const A: Leaf = Leaf::Task(TaskId(0));

const B: Leaf = Leaf::Task(TaskId(1));

const C: Leaf = Leaf::Task(TaskId(2));

const IDLE: Leaf = Leaf::Idle(0);

/// Three tasks of rate 2/3, and then two halves and a quarter.
const TWO_MODES: &[Set] = &[
    THIRDS,
    (2, 4, &[("a", 1, 2, 0), ("b", 1, 2, 0), ("c", 1, 4, 0)]),
];

/// The rows of a processor: those of the first mode, and then those of the second, each with its start, its end and its leaf.
type Lane = &'static [(u128, u128, Leaf)];

const FIRST_LANE: Lane = &[
    (0, 3, B),
    (3, 6, A),
    (6, 9, A),
    (0, 4, A),
    (4, 8, B),
    (8, 12, A),
    (12, 16, B),
];

const SECOND_LANE: Lane = &[
    (0, 3, C),
    (3, 6, C),
    (6, 9, B),
    (0, 4, C),
    (4, 8, IDLE),
    (8, 12, IDLE),
    (12, 16, IDLE),
];

/// Row k of a processor.
fn row(rt: &impl Abort, processor: u32, k: usize) -> Row {
    let lane = if processor == 0 {
        FIRST_LANE
    } else {
        SECOND_LANE
    };
    let (start, end, leaf) = *lane.get(k).expect(rt, "a row");
    Row {
        processor,
        start,
        end,
        leaf,
    }
}

/// Makes sure that these are the first rows of a processor, so many where that is told.
fn assert_first(rt: &impl Abort, rows: &[Row], processor: u32, count: Option<usize>) {
    assert!(rt; rows.len() == count.unwrap_or(rows.len()));
    for (k, found) in rows.iter().enumerate() {
        assert!(rt;
            *found == row(rt, processor, k),
            "row {k} of processor {processor}"
        );
    }
}

/// A run of the two modes.
struct Case {
    /// The calls that fail, of each gate and of the job of one task.
    gates: [&'static [u64]; 2],
    job: u32,
    job_fails: &'static [u64],
    /// How many rows each gate ran, where that is told.
    ran: [Option<usize>; 2],
    /// The failure at which it ends.
    fault: Option<ModesFault>,
}

const CASES: &[Case] = &[
    Case {
        gates: [&[], &[]],
        job: 0,
        job_fails: &[],
        ran: [Some(7), Some(7)],
        fault: None,
    },
    // Gate 1 fails at its second row of the second mode.
    Case {
        gates: [&[], &[5]],
        job: 0,
        job_fails: &[],
        ran: [None, Some(4)],
        fault: Some(ModesFault::Gate {
            mode: 1,
            processor: 1,
            row: Row {
                processor: 1,
                start: 4,
                end: 8,
                leaf: IDLE,
            },
        }),
    },
    // Task c's job fails at its first row of the second mode, its third in all.
    Case {
        gates: [&[], &[]],
        job: 2,
        job_fails: &[3],
        ran: [None, Some(4)],
        fault: Some(ModesFault::Job {
            mode: 1,
            task: 2,
            processor: 1,
            row: Row {
                processor: 1,
                start: 0,
                end: 4,
                leaf: C,
            },
        }),
    },
];

/// The calls of a task's job that fail.
fn fails_of(case: &Case, task: u32) -> &'static [u64] {
    if task == case.job {
        case.job_fails
    } else {
        &[]
    }
}

/// Runs modes on these gates, and on the jobs of a case.
fn run<X: Threads + Wait + Abort + Sync>(
    rt: &X,
    alloc: Global,
    modes: &Modes,
    kits: &mut Vec<Kit<ListGate>>,
    case: &Case,
) -> Result<ModesRun, ModesFault>
    requires { AreUnrun 2 kits.old.items }
{
    assert!(rt; modes.processors() == 2);
    let mut jobs = Jobs::with_room(alloc, 256).expect(rt, "there is memory");
    for t in 0..256 {
        let job = FailJob::new(alloc, t, fails_of(case, t)).expect(rt, "there is memory");
        jobs.add(Box::new(alloc, job).expect(rt, "there is memory"));
    }
    run_modes(rt, alloc, modes, 2, kits, &mut jobs)
}

/// Makes sure of what a run told that came to its end.
fn assert_whole(rt: &impl Abort, told: &ModesRun) {
    assert!(rt; told.count() == 2);
    assert!(rt; told.totals(0) == [6, 6, 6].as_slice());
    assert!(rt; told.totals(1) == [8, 8, 4].as_slice());
    assert!(rt; told.table(0).rounds() == 3 && told.table(1).rounds() == 4);
}

/// Makes sure of what a run answers.
fn assert_answer(
    rt: &impl Abort,
    answer: &Result<ModesRun, ModesFault>,
    fault: &Option<ModesFault>,
) {
    match answer {
        Ok(told) => {
            assert!(rt; fault.is_none());
            assert_whole(rt, told);
        }
        Err(found) => assert!(rt; *fault == Some(*found)),
    }
}

/// Plays a case.
fn play<X: Threads + Wait + Abort + Sync>(rt: &X, alloc: Global, modes: &Modes, case: &Case) {
    let mut kits = kits_of(rt, alloc, 7, &case.gates);
    let answer = run(rt, alloc, modes, &mut kits, case);
    assert_answer(rt, &answer, &case.fault);
    assert_first(rt, ran(rt, &kits, 0), 0, case.ran[0]);
    assert_first(rt, ran(rt, &kits, 1), 1, case.ran[1]);
}

#[test]
fn modes_run_one_after_the_other(rt: HostRuntime) {
    let modes = joined(&rt, rt.alloc(), TWO_MODES).expect(&rt, "modes");
    for case in CASES {
        play(&rt, rt.alloc(), &modes, case);
    }
}
