//! Executions of worked sets: the text is that of `trace`, whatever the window.

use super::calls::{JobKinds, Outside, SURE};
use super::cases::{
    Cases, DoneCase, FaultCase, RefusedCase, Table, assert_call, assert_tables, text_of,
};
use super::lanes::{Did, Schedule};
use super::texts::{
    FULL_MET, FULL_RATE, FULL_ROWS, LATE_ROWS, LATE_TASK, NINE_TASKS, NO_TASKS, NO_TASKS_ROWS,
    ONE_IDLE, ONE_IDLE_ROWS, OVERLOAD, THREE_ROWS, THREE_TASKS, TWO_REDUCTIONS, TWO_ROWS,
};
use run_tool::Status;
use std::alloc::Global;
use std::process::Abort;
use std::sync::Wait;
use std::thread::Threads;

/// In each window.
const WINDOWED: &[DoneCase] = &[
    (&[THREE_TASKS], &[THREE_ROWS], Did::Ran(Schedule::Three)),
    (&[TWO_REDUCTIONS], &[TWO_ROWS], Did::Ran(Schedule::Two)),
];

const LATE: DoneCase = (&[LATE_TASK], &[LATE_ROWS], Did::Ran(Schedule::Late));

const OTHER: &[DoneCase] = &[
    (&[NO_TASKS], &[NO_TASKS_ROWS], Did::Worked(&[])),
    (&[ONE_IDLE], &[ONE_IDLE_ROWS], Did::Worked(&[15, 15, 15])),
    (&[FULL_RATE], &[FULL_ROWS], Did::Worked(&[3])),
    LATE,
];

const MET: &[DoneCase] = &[(&[FULL_RATE], &[FULL_MET], Did::Worked(&[3])), LATE];

/// With jobs that only count, and with such as could fail.
const OTHER_JOBS: &[FaultCase] = &[
    (
        Outside {
            jobs: JobKinds::Counts,
            ..SURE
        },
        Status::Done,
        THREE_ROWS,
        "",
        Did::Ran(Schedule::Three),
    ),
    (
        Outside {
            jobs: JobKinds::Sure,
            ..SURE
        },
        Status::Done,
        THREE_ROWS,
        "",
        Did::Ran(Schedule::Three),
    ),
];

/// A set that is refused calls no gate.
const REFUSED: &[RefusedCase] = &[
    (
        &[OVERLOAD],
        Status::Overload,
        "refused 7 Overload total 7 room 6\n",
    ),
    (
        &[
            "processors = 1\nhorizon = 1\ntask = [{name = \"a\", work = 1, period = 4294967295}, \
                {name = \"b\", work = 1, period = 4294967294}, {name = \"c\", work = 1, period = 4294967293}]\n",
        ],
        Status::ScaleTooLarge,
        "refused 8 ScaleTooLarge task 2\n",
    ),
    (
        &[""],
        Status::BadInput,
        "refused 6 Missing top processors\n",
    ),
    // One round, which is one row, more than a table may have rows.
    (
        &["processors = 1\nhorizon = 2097153\ntask = [{name = \"a\", work = 1, period = 1}]\n"],
        Status::TooLong,
        "refused 9 TooLong rows 2097153\n",
    ),
];

const TABLES: &[Table] = &[
    (&["exec"], Cases::Done(WINDOWED)),
    (&["exec", "--window", "1"], Cases::Done(WINDOWED)),
    (&["exec", "--window", "2"], Cases::Done(WINDOWED)),
    (&["exec", "--window=2"], Cases::Done(WINDOWED)),
    (&["exec", "--window", "32"], Cases::Done(WINDOWED)),
    (&["exec", "--window", "1024"], Cases::Done(WINDOWED)),
    (&["exec"], Cases::Done(OTHER)),
    (&["exec", "--met"], Cases::Done(MET)),
    (&["exec", "--window", "1"], Cases::Done(&[LATE])),
    (&["exec"], Cases::Faults(&[THREE_TASKS], OTHER_JOBS)),
    (&["exec"], Cases::Refused(REFUSED)),
];

#[test]
fn an_execution_runs_what_it_prints(rt: HostRuntime) {
    assert_tables(&rt, rt.alloc(), TABLES);
}

/// What each task works in a second: work after work of each period.
const NINE_TICKS: &[u128] = &[
    600_000_000_000,
    600_000_000_000,
    600_000_000_000,
    600_000_000_000,
    600_000_000_000,
    200_000_000_000,
    300_000_000_000,
    300_000_000_000,
    200_000_000_000,
];

/// Each gate has room for the rows of a second.
const ROOMY: Outside = Outside {
    gate_room: 65_536,
    ..SURE
};

// Makes sure that the execution of nine tasks tells what `trace` does.
fn assert_nine<X: Abort + Threads + Wait + Sync>(rt: &X, alloc: Global) {
    let rows = text_of(rt, alloc, &["trace"], &[NINE_TASKS]);
    let rows = [rows.as_str()];
    let end = (Status::Done, rows.as_slice(), "");
    let did = Did::Worked(NINE_TICKS);
    assert_call(rt, alloc, &["exec"], &[NINE_TASKS], &ROOMY, end, did);
}

#[test]
fn nine_tasks_of_a_vehicle_run_as_they_are_traced(rt: HostRuntime) {
    assert_nine(&rt, rt.alloc());
}
