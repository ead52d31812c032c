//! Executions that a gate or a job stops.

use super::calls::{JobKinds, Outside, SURE};
use super::cases::{Cases, FaultCase, Table, assert_tables};
use super::lanes::{Did, Front, Schedule};
use super::texts::{THREE_TASKS, TWO_REDUCTIONS};
use run_tool::Status;

/// Where an execution of the three tasks stops.
pub(super) const THREE_STOPS: &[FaultCase] = &[
    (
        Outside {
            gate: Some((1, 2)),
            ..SURE
        },
        Status::GateFault,
        "",
        "refused 10 GateFault processor 1 row 3 6 c\n",
        Did::Stopped(Front {
            schedule: Schedule::Three,
            processor: 1,
            ran: 1,
            most: 3,
            failed: None,
            worked: Some((2, 3)),
        }),
    ),
    (
        Outside {
            jobs: JobKinds::Fails(2, 1),
            ..SURE
        },
        Status::JobFault,
        "",
        "refused 11 JobFault task c processor 1 row 0 3\n",
        Did::Stopped(Front {
            schedule: Schedule::Three,
            processor: 1,
            ran: 1,
            most: 3,
            failed: Some(2),
            worked: None,
        }),
    ),
];

/// A gate of two reductions fails: its processor, the number of the call, from 1, and the line. The rows before the failed one were
/// run, and no processor was further ahead than the window's rounds.
macro_rules! gate_fault {
    ($rounds:expr, $processor:expr, $call:expr, $line:expr) => {
        (
            Outside {
                gate: Some(($processor, $call)),
                ..SURE
            },
            Status::GateFault,
            "",
            $line,
            Did::Stopped(Front {
                schedule: Schedule::Two,
                processor: $processor,
                ran: $call - 1,
                most: $call - 1 + $rounds,
                failed: None,
                worked: None,
            }),
        )
    };
}

/// The job of a task of two reductions fails at its first call: the processor of its first row, the rows before it there, and the
/// line. The gate ran the row at which the job failed.
macro_rules! job_fault {
    ($rounds:expr, $task:expr, $processor:expr, $before:expr, $line:expr) => {
        (
            Outside {
                jobs: JobKinds::Fails($task, 1),
                ..SURE
            },
            Status::JobFault,
            "",
            $line,
            Did::Stopped(Front {
                schedule: Schedule::Two,
                processor: $processor,
                ran: $before + 1,
                most: $before + $rounds,
                failed: Some($task),
                worked: None,
            }),
        )
    };
}

/// Each gate of two reductions fails at each call, and each job at its first, in a window of so many rounds.
macro_rules! stops {
    ($rounds:expr) => {
        &[
            gate_fault!($rounds, 0, 1, "refused 10 GateFault processor 0 row 0 5 a\n"),
            gate_fault!($rounds, 0, 2, "refused 10 GateFault processor 0 row 5 10 c\n"),
            gate_fault!($rounds, 0, 3, "refused 10 GateFault processor 0 row 10 15 e\n"),
            gate_fault!($rounds, 0, 4, "refused 10 GateFault processor 0 row 15 25 e\n"),
            gate_fault!($rounds, 1, 1, "refused 10 GateFault processor 1 row 0 5 b\n"),
            gate_fault!($rounds, 1, 2, "refused 10 GateFault processor 1 row 5 10 b\n"),
            gate_fault!($rounds, 1, 3, "refused 10 GateFault processor 1 row 10 15 b\n"),
            gate_fault!($rounds, 1, 4, "refused 10 GateFault processor 1 row 15 25 a\n"),
            gate_fault!($rounds, 2, 1, "refused 10 GateFault processor 2 row 0 5 d\n"),
            gate_fault!($rounds, 2, 2, "refused 10 GateFault processor 2 row 5 10 d\n"),
            gate_fault!($rounds, 2, 3, "refused 10 GateFault processor 2 row 10 15 d\n"),
            gate_fault!($rounds, 2, 4, "refused 10 GateFault processor 2 row 15 25 c\n"),
            job_fault!($rounds, 0, 0, 0, "refused 11 JobFault task a processor 0 row 0 5\n"),
            job_fault!($rounds, 1, 1, 0, "refused 11 JobFault task b processor 1 row 0 5\n"),
            job_fault!($rounds, 2, 0, 1, "refused 11 JobFault task c processor 0 row 5 10\n"),
            job_fault!($rounds, 3, 2, 0, "refused 11 JobFault task d processor 2 row 0 5\n"),
            job_fault!($rounds, 4, 0, 2, "refused 11 JobFault task e processor 0 row 10 15\n"),
        ]
    };
}

const AT_ONE: &[FaultCase] = stops!(1);

const AT_TWO: &[FaultCase] = stops!(2);

const AT_MOST: &[FaultCase] = stops!(32);

const TABLES: &[Table] = &[
    (&["exec"], Cases::Faults(&[THREE_TASKS], THREE_STOPS)),
    (
        &["exec", "--window", "1"],
        Cases::Faults(&[TWO_REDUCTIONS], AT_ONE),
    ),
    (
        &["exec", "--window", "2"],
        Cases::Faults(&[TWO_REDUCTIONS], AT_TWO),
    ),
    (
        &["exec", "--window", "32"],
        Cases::Faults(&[TWO_REDUCTIONS], AT_MOST),
    ),
];

#[test]
fn each_gate_and_each_job_fails(rt: HostRuntime) {
    assert_tables(&rt, rt.alloc(), TABLES);
}
