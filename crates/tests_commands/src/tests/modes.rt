//! Sets that follow each other as modes, and the line `modes`.

use super::calls::{JobKinds, Outside, SURE, Told, call};
use super::cases::{Cases, DoneCase, FaultCase, RefusedCase, Table, assert_tables, shown};
use super::lanes::{Did, Front, Schedule};
use super::texts::{
    NO_TASKS, NO_TASKS_ROWS, ONE_IDLE, ONE_IDLE_ROWS, OVERLOAD, THREE_ROWS, THREE_TASKS,
};
use run_tool::Status;
use std::alloc::Global;
use std::process::Abort;
use std::sync::Wait;
use std::thread::Threads;

/// Two tasks of rate 1/2 and one of rate 1/4 on two processors.
const HALVES: &str =
    "processors = 2\nhorizon = 4\ntask = [{name = \"a\", work = 1, period = 2}, {name = \"b\", work = 1, period = 2}, {name = \"c\", work = 1, period = 4}]\n";

/// Their schedule.
const HALVES_ROWS: &str =
    "run-trace 1\nprocessors 2\nhorizon 4\nscale 4\ntasks 3\ntask a 1 2\ntask b 1 2\ntask c 1 4\nrow 0 0 4 a\nrow 0 4 8 b\n\
        row 0 8 12 a\nrow 0 12 16 b\nrow 1 0 4 c\nrow 1 4 16 -\ntotal a 8\ntotal b 8\ntotal c 4\nrows 6\n";

/// A period that is open at the end of its set.
const OPEN: &str = "processors = 2\nhorizon = 3\ntask = [{name = \"a\", work = 1, period = 2}]\n";

/// A task that is released late.
const LATE: &str =
    "processors = 2\nhorizon = 4\ntask = [{name = \"a\", work = 1, period = 2}, {name = \"b\", work = 1, period = 2, offset = 1}]\n";

/// Three tasks of rate 1 on two processors.
const OVER: &str =
    "processors = 2\nhorizon = 3\ntask = [{name = \"a\", work = 3, period = 3}, {name = \"b\", work = 3, period = 3}, {name = \"c\", work = 3, period = 3}]\n";

const MODES: &[DoneCase] = &[
    // Each gate's list is the rows of the first mode, and then those of the second.
    (
        &[THREE_TASKS, "%%\n", HALVES],
        &[
            "run-modes 1\nmodes 2\nmode 0 0 3\n",
            THREE_ROWS,
            "mode 1 3 4\n",
            HALVES_ROWS,
        ],
        Did::Ran(Schedule::Modes),
    ),
    // The scales are others. The last mode has no tasks, so the jobs tell what they worked in the mode before it.
    (
        &[THREE_TASKS, "%%\n", ONE_IDLE, "%%\n", NO_TASKS],
        &[
            "run-modes 1\nmodes 3\nmode 0 0 3\n",
            THREE_ROWS,
            "mode 1 3 5\n",
            ONE_IDLE_ROWS,
            "mode 2 8 1\n",
            NO_TASKS_ROWS,
        ],
        Did::Worked(&[15, 15, 15]),
    ),
    (
        &[THREE_TASKS],
        &["run-modes 1\nmodes 1\nmode 0 0 3\n", THREE_ROWS],
        Did::Ran(Schedule::Three),
    ),
];

/// A mode with 1,048,577 rounds of one row.
const LONG: &str =
    "processors = 1\nhorizon = 1048577\ntask = [{name = \"a\", work = 1, period = 1}]\n";

/// Sets with the line that tells why they are refused.
const REFUSED: &[RefusedCase] = &[
    (
        &[OPEN],
        Status::ModeFault,
        "set 0 refused 15 Mode period 0\n",
    ),
    (
        &[THREE_TASKS, "%%\n", OPEN],
        Status::ModeFault,
        "set 1 refused 15 Mode period 0\n",
    ),
    (
        &[HALVES, "%%\n", OVERLOAD],
        Status::ModeFault,
        "set 1 refused 15 Mode processors\n",
    ),
    (
        &[LATE, "%%\n", OVERLOAD],
        Status::ModeFault,
        "set 0 refused 15 Mode offset 1\n",
    ),
    (
        &[HALVES, "%%\n", HALVES, "%%\n", LATE],
        Status::ModeFault,
        "set 2 refused 15 Mode offset 1\n",
    ),
    (
        &[OVER, "%%\n", OPEN],
        Status::Overload,
        "set 0 refused 7 Overload total 9 room 6\n",
    ),
    (
        &[HALVES, "%%\n", OVER],
        Status::Overload,
        "set 1 refused 7 Overload total 9 room 6\n",
    ),
    // All sets are read before any is joined, and the first that is none is told.
    (
        &[OPEN, "%%\n", HALVES, "%%\n", "="],
        Status::BadInput,
        "set 2 refused 6 NotToml\n",
    ),
    (
        &[OPEN, "%%\n", "x = 1\n", "%%\n", "="],
        Status::BadInput,
        "set 1 refused 6 UnknownKey top x\n",
    ),
    (
        &[HALVES, "%%\n", ""],
        Status::BadInput,
        "set 1 refused 6 Missing top processors\n",
    ),
    (
        &[""],
        Status::BadInput,
        "set 0 refused 6 Missing top processors\n",
    ),
    // A set that doesn't fit comes before one that is refused later.
    (
        &[OVERLOAD],
        Status::Overload,
        "set 0 refused 7 Overload total 7 room 6\n",
    ),
    (
        &[OVER, "%%\n", "processors = 0\nhorizon = 1\n"],
        Status::BadInput,
        "set 1 refused 6 BadProcessors 0\n",
    ),
    // Two modes of which each has fewer rounds than there may be.
    (
        &[LONG, "%%\n", LONG],
        Status::TooLong,
        "set 1 refused 9 TooLong rows 2097153\n",
    ),
];

/// What fails.
const FAULTS: &[FaultCase] = &[
    (
        Outside {
            source: &[1],
            ..SURE
        },
        Status::ReadFault,
        "",
        "refused 3 ReadFault\n",
        Did::Unseen,
    ),
    (
        Outside { out: &[1], ..SURE },
        Status::WriteFault,
        "",
        "refused 4 WriteFault\n",
        Did::Unseen,
    ),
    (
        Outside {
            out_room: 12,
            ..SURE
        },
        Status::WriteFault,
        "run-modes 1\n",
        "refused 4 WriteFault\n",
        Did::Unseen,
    ),
];

/// The line of a mode that `err` doesn't take.
const UNTOLD: &[FaultCase] = &[(
    Outside { err: &[1], ..SURE },
    Status::ModeFault,
    "",
    "",
    Did::Nothing,
)];

/// A gate or a job that fails.
const STOPS: &[FaultCase] = &[
    (
        Outside {
            gate: Some((1, 2)),
            ..SURE
        },
        Status::GateFault,
        "",
        "set 0 refused 10 GateFault processor 1 row 3 6 c\n",
        Did::Stopped(Front {
            schedule: Schedule::Modes,
            processor: 1,
            ran: 1,
            most: 7,
            failed: None,
            worked: None,
        }),
    ),
    (
        Outside {
            gate: Some((0, 4)),
            ..SURE
        },
        Status::GateFault,
        "",
        "set 1 refused 10 GateFault processor 0 row 0 4 a\n",
        Did::Stopped(Front {
            schedule: Schedule::Modes,
            processor: 0,
            ran: 3,
            most: 7,
            failed: None,
            worked: None,
        }),
    ),
    (
        Outside {
            gate: Some((1, 4)),
            ..SURE
        },
        Status::GateFault,
        "",
        "set 1 refused 10 GateFault processor 1 row 0 4 c\n",
        Did::Stopped(Front {
            schedule: Schedule::Modes,
            processor: 1,
            ran: 3,
            most: 7,
            failed: None,
            worked: None,
        }),
    ),
    (
        Outside {
            gate: Some((0, 5)),
            ..SURE
        },
        Status::GateFault,
        "",
        "set 1 refused 10 GateFault processor 0 row 4 8 b\n",
        Did::Stopped(Front {
            schedule: Schedule::Modes,
            processor: 0,
            ran: 4,
            most: 7,
            failed: None,
            worked: None,
        }),
    ),
    // The job of c has two rows in the first mode, so its third is in the second one.
    (
        Outside {
            jobs: JobKinds::Fails(2, 3),
            ..SURE
        },
        Status::JobFault,
        "",
        "set 1 refused 11 JobFault task c processor 1 row 0 4\n",
        Did::Stopped(Front {
            schedule: Schedule::Modes,
            processor: 1,
            ran: 4,
            most: 7,
            failed: Some(2),
            worked: None,
        }),
    ),
];

const TABLES: &[Table] = &[
    (&["modes"], Cases::Done(MODES)),
    (&["modes"], Cases::Refused(REFUSED)),
    (
        &["modes"],
        Cases::Faults(&[THREE_TASKS, "%%\n", NO_TASKS], FAULTS),
    ),
    (&["modes"], Cases::Faults(&[OPEN], UNTOLD)),
    (
        &["modes"],
        Cases::Faults(&[THREE_TASKS, "%%\n", HALVES, "%%\n", NO_TASKS], STOPS),
    ),
];

#[test]
fn sets_run_one_behind_the_other_or_are_refused(rt: HostRuntime) {
    assert_tables(&rt, rt.alloc(), TABLES);
}

/// Three tasks of rate 2/3, and then a mode without tasks.
const CUT: &str =
    "processors = 2\nhorizon = 3\ntask = [{name = \"a\", work = 2, period = 3}, {name = \"b\", work = 2, period = 3}, \
        {name = \"c\", work = 2, period = 3}]\n%%\nprocessors = 2\nhorizon = 1\n";

// Makes sure of what is told of the text cut after so many bytes.
fn assert_cut<X: Threads + Wait + Abort + Sync>(rt: &X, alloc: Global, cut: &[u8]) {
    let left = call(rt, alloc, &["modes"], cut, &SURE);
    assert_cut_told(rt, &left.told, cut.len());
}

fn assert_cut_told(rt: &impl Abort, told: &Told, end: usize) {
    let first = THREE_TASKS.len();
    let head = "processors = 2\nhorizon = 3\n".len();
    // Without its tasks it is a set too. The last line feed of a set may be missing.
    let next = end.saturating_add(1);
    let last = [head, first, CUT.len()];
    let is_whole = last.contains(&end) || last.contains(&next);
    let status = if is_whole {
        Status::Done
    } else {
        Status::BadInput
    };
    let start = if end <= first.saturating_add(1) {
        "set 0 refused 6 "
    } else {
        "set 1 refused 6 "
    };
    let is_told = is_whole || told.err.taken().starts_with(start.as_bytes());
    let (got, line) = (told.status.code(), shown(told.err.taken()));
    assert!(rt;
        told.status == status && is_told,
        "cut after {end} bytes: status {got}, err `{line}`"
    );
}

#[test]
fn modes_cut_after_each_byte_are_done_or_refused(rt: HostRuntime) {
    let text = CUT.as_bytes();
    for end in 0..=text.len() {
        assert_cut(&rt, rt.alloc(), &text[..end]);
    }
}
