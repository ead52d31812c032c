//! Executions over streams that fail.

use super::calls::{Outside, SURE};
use super::cases::{Cases, FaultCase, Table, assert_tables};
use super::lanes::{Did, Front, Schedule};
use super::texts::{TWO_REDUCTIONS, TWO_ROWS};
use run_tool::Status;

/// The source fails before anything runs, and `out` after all rows ran.
const FAULTS: &[FaultCase] = &[
    // The first read gives all, and the second one is to find the end.
    (
        Outside {
            source: &[1],
            ..SURE
        },
        Status::ReadFault,
        "",
        "refused 3 ReadFault\n",
        Did::NothingRead(TWO_REDUCTIONS.len()),
    ),
    (
        Outside {
            source: &[2],
            ..SURE
        },
        Status::ReadFault,
        "",
        "refused 3 ReadFault\n",
        Did::NothingRead(0),
    ),
    // Each line is one piece.
    (
        Outside {
            out: &[1],
            out_room: 4096,
            ..SURE
        },
        Status::WriteFault,
        "",
        "refused 4 WriteFault\n",
        Did::Ran(Schedule::Two),
    ),
    (
        Outside {
            out: &[2],
            out_room: 4096,
            ..SURE
        },
        Status::WriteFault,
        "run-trace 1\n",
        "refused 4 WriteFault\n",
        Did::Ran(Schedule::Two),
    ),
    (
        Outside {
            out: &[3],
            out_room: 4096,
            ..SURE
        },
        Status::WriteFault,
        "run-trace 1\nprocessors 3\n",
        "refused 4 WriteFault\n",
        Did::Ran(Schedule::Two),
    ),
    (
        Outside {
            out: &[4],
            out_room: 4096,
            ..SURE
        },
        Status::WriteFault,
        "run-trace 1\nprocessors 3\nhorizon 5\n",
        "refused 4 WriteFault\n",
        Did::Ran(Schedule::Two),
    ),
    (
        Outside {
            out_room: 0,
            ..SURE
        },
        Status::WriteFault,
        "",
        "refused 4 WriteFault\n",
        Did::Ran(Schedule::Two),
    ),
    (
        Outside {
            out_room: 5,
            ..SURE
        },
        Status::WriteFault,
        "run-t",
        "refused 4 WriteFault\n",
        Did::Ran(Schedule::Two),
    ),
    (
        Outside {
            out_room: 12,
            ..SURE
        },
        Status::WriteFault,
        "run-trace 1\n",
        "refused 4 WriteFault\n",
        Did::Ran(Schedule::Two),
    ),
    (
        Outside {
            out_room: 13,
            ..SURE
        },
        Status::WriteFault,
        "run-trace 1\np",
        "refused 4 WriteFault\n",
        Did::Ran(Schedule::Two),
    ),
    (
        Outside {
            out_room: 30,
            ..SURE
        },
        Status::WriteFault,
        "run-trace 1\nprocessors 3\nhoriz",
        "refused 4 WriteFault\n",
        Did::Ran(Schedule::Two),
    ),
];

/// The write of `err` that fails and its room, and what it took of the line of a gate's fault, which is one piece: gate 1 fails at
/// its first call.
macro_rules! told_to {
    ($err:expr, $room:expr, $taken:expr) => {
        (
            Outside {
                err: $err,
                err_room: $room,
                gate: Some((1, 1)),
                ..SURE
            },
            Status::GateFault,
            "",
            $taken,
            Did::Stopped(Front {
                schedule: Schedule::Two,
                processor: 1,
                ran: 0,
                most: 4,
                failed: None,
                worked: None,
            }),
        )
    };
}

/// Where all is done `err` isn't called.
macro_rules! done_beside {
    ($err:expr, $room:expr) => {
        (
            Outside {
                err: $err,
                err_room: $room,
                ..SURE
            },
            Status::Done,
            TWO_ROWS,
            "",
            Did::Ran(Schedule::Two),
        )
    };
}

/// A fault of `err` changes nothing else.
const ERRORS: &[FaultCase] = &[
    told_to!(&[1], 4096, ""),
    told_to!(&[2], 4096, "refused 10 GateFault processor 1 row 0 5 b\n"),
    told_to!(&[3], 4096, "refused 10 GateFault processor 1 row 0 5 b\n"),
    told_to!(&[4], 4096, "refused 10 GateFault processor 1 row 0 5 b\n"),
    told_to!(&[], 0, ""),
    told_to!(&[], 10, "refused 10"),
    told_to!(&[], 42, "refused 10 GateFault processor 1 row 0 5 b"),
    told_to!(&[], 43, "refused 10 GateFault processor 1 row 0 5 b\n"),
    done_beside!(&[1], 4096),
    done_beside!(&[2], 4096),
    done_beside!(&[3], 4096),
    done_beside!(&[4], 4096),
    done_beside!(&[], 0),
    done_beside!(&[], 10),
    done_beside!(&[], 42),
    done_beside!(&[], 43),
];

const TABLES: &[Table] = &[
    (
        &["exec", "--window", "1"],
        Cases::Faults(&[TWO_REDUCTIONS], FAULTS),
    ),
    (
        &["exec", "--window", "2"],
        Cases::Faults(&[TWO_REDUCTIONS], FAULTS),
    ),
    (
        &["exec", "--window", "32"],
        Cases::Faults(&[TWO_REDUCTIONS], FAULTS),
    ),
    (
        &["exec", "--window", "1"],
        Cases::Faults(&[TWO_REDUCTIONS], ERRORS),
    ),
    (
        &["exec", "--window", "2"],
        Cases::Faults(&[TWO_REDUCTIONS], ERRORS),
    ),
    (
        &["exec", "--window", "32"],
        Cases::Faults(&[TWO_REDUCTIONS], ERRORS),
    ),
];

#[test]
fn the_source_or_out_or_err_fails(rt: HostRuntime) {
    assert_tables(&rt, rt.alloc(), TABLES);
}
