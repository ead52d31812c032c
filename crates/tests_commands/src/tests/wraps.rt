//! Wrapped schedules of worked sets, and the lines of `trace --by wrap`.

use super::cases::{Cases, DoneCase, RefusedCase, Table, assert_tables};
use super::lanes::Did;
use super::texts::{LATE_TASK, NO_TASKS, NO_TASKS_ROWS, OVERLOAD, THREE_TASKS};
use run_tool::Status;

/// The wrapped schedule of three tasks on two processors: the second one goes on where the first processor ends.
const THREE_WRAPPED: &str =
    "run-trace 1\nprocessors 2\nhorizon 3\nscale 3\ntasks 3\ntask a 2 3\ntask b 2 3\ntask c 2 3\nrow 0 0 6 a\nrow 0 6 9 b\n\
        row 1 0 3 b\nrow 1 3 9 c\ntotal a 6\ntotal b 6\ntotal c 6\nrows 4\n";

const THREE: DoneCase = (&[THREE_TASKS], &[THREE_WRAPPED], Did::Nothing);

const WRAPPED: &[DoneCase] = &[
    THREE,
    // The second processor has a task of its own, and is idle behind it in each of two slices.
    (
        &[
            "processors = 2\nhorizon = 4\ntask = [{name = \"a\", work = 1, period = 2}, {name = \"b\", work = 1, period = 2}, \
                {name = \"c\", work = 1, period = 4}]\n",
        ],
        &[
            "run-trace 1\nprocessors 2\nhorizon 4\nscale 4\ntasks 3\ntask a 1 2\ntask b 1 2\ntask c 1 4\nrow 0 0 4 a\nrow 0 4 8 b\n\
                row 0 8 12 a\nrow 0 12 16 b\nrow 1 0 2 c\nrow 1 2 8 -\nrow 1 8 10 c\nrow 1 10 16 -\ntotal a 8\ntotal b 8\ntotal c 4\n\
                rows 8\n",
        ],
        Did::Nothing,
    ),
    (&[NO_TASKS], &[NO_TASKS_ROWS], Did::Nothing),
    // A task that is released late keeps its place idle before its offset, and its periods are told.
    (
        &[LATE_TASK],
        &[
            "run-trace 2\nprocessors 1\nhorizon 5\nscale 2\ntasks 2\ntask a 1 2 1\ntask b 1 2 0\nrow 0 0 1 -\nrow 0 1 2 b\nrow 0 2 3 a\n\
                row 0 3 4 b\nrow 0 4 5 a\nrow 0 5 6 b\nrow 0 6 7 a\nrow 0 7 8 b\nrow 0 8 9 a\nrow 0 9 10 b\ntotal a 4\ntotal b 5\n\
                met a 0 5\nmet a 1 9\nmet b 0 4\nmet b 1 8\nrows 10\n",
        ],
        Did::Nothing,
    ),
];

const WITHOUT: &[RefusedCase] = &[
    (
        &[OVERLOAD],
        Status::Overload,
        "refused 7 Overload total 7 room 6\n",
    ),
    // A slice at each unit: one more than the table may have.
    (
        &["processors = 32\nhorizon = 65537\ntask = [{name = \"a\", work = 1, period = 1}]\n"],
        Status::TooLong,
        "refused 9 TooLong rows 2097184\n",
    ),
    (
        &[""],
        Status::BadInput,
        "refused 6 Missing top processors\n",
    ),
];

const TABLES: &[Table] = &[
    (&["trace", "--by", "wrap"], Cases::Done(WRAPPED)),
    (&["trace", "--by=wrap"], Cases::Done(&[THREE])),
    (&["trace", "--by", "wrap"], Cases::Refused(WITHOUT)),
    (
        &["check"],
        Cases::Shown(&[(
            &[THREE_WRAPPED],
            "valid\nrows 4\npreemptions 1\nmigrations 1\n",
            &[],
            "",
        )]),
    ),
];

#[test]
fn worked_sets_have_their_wrapped_schedules(rt: HostRuntime) {
    assert_tables(&rt, rt.alloc(), TABLES);
}
