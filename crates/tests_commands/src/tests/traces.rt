//! The schedules of worked sets, and the lines of `trace`.

use super::cases::{
    Cases, DoneCase, Failing, RefusedCase, ReportCase, ShownCase, Table, assert_tables,
};
use super::lanes::Did;
use super::texts::{
    FULL_MET, FULL_RATE, FULL_ROWS, LATE_ROWS, LATE_TASK, NINE_TASKS, NO_TASKS, NO_TASKS_ROWS,
    ONE_IDLE, ONE_IDLE_ROWS, OVERLOAD, THREE_ROWS, THREE_TASKS, TWO_REDUCTIONS, TWO_ROWS,
};
use run_tool::Status;

const SCHEDULES: &[DoneCase] = &[
    (&[THREE_TASKS], &[THREE_ROWS], Did::Nothing),
    // No task migrates, and the idle rows of two leaves are one.
    (
        &[
            "processors = 2\nhorizon = 4\ntask = [{name = \"a\", work = 1, period = 2}, {name = \"b\", work = 1, period = 2}, \
                {name = \"c\", work = 1, period = 4}]\n",
        ],
        &[
            "run-trace 1\nprocessors 2\nhorizon 4\nscale 4\ntasks 3\ntask a 1 2\ntask b 1 2\ntask c 1 4\nrow 0 0 4 a\nrow 0 4 8 b\n\
                row 0 8 12 a\nrow 0 12 16 b\nrow 1 0 4 c\nrow 1 4 16 -\ntotal a 8\ntotal b 8\ntotal c 4\nrows 6\n",
        ],
        Did::Nothing,
    ),
    // One idle leaf takes the slack.
    (&[ONE_IDLE], &[ONE_IDLE_ROWS], Did::Nothing),
    // Two reductions.
    (&[TWO_REDUCTIONS], &[TWO_ROWS], Did::Nothing),
    // No tasks.
    (&[NO_TASKS], &[NO_TASKS_ROWS], Did::Nothing),
    // Three rounds are one row.
    (&[FULL_RATE], &[FULL_ROWS], Did::Nothing),
    // The longest period.
    (
        &[
            "processors = 1\nhorizon = 4294967295\ntask = [{name = \"a\", work = 1, period = 4294967295}]\n",
        ],
        &[
            "run-trace 1\nprocessors 1\nhorizon 4294967295\nscale 4294967295\ntasks 1\ntask a 1 4294967295\nrow 0 0 4294967295 a\n\
                row 0 4294967295 18446744065119617025 -\ntotal a 4294967295\nrows 2\n",
        ],
        Did::Nothing,
    ),
    // As many rounds as there may be rows are one row.
    (
        &["processors = 1\nhorizon = 2097152\ntask = [{name = \"a\", work = 1, period = 1}]\n"],
        &[
            "run-trace 1\nprocessors 1\nhorizon 2097152\nscale 1\ntasks 1\ntask a 1 1\nrow 0 0 2097152 a\ntotal a 2097152\nrows 1\n",
        ],
        Did::Nothing,
    ),
    // A task that is released late is told of with its periods, asked for or not.
    (&[LATE_TASK], &[LATE_ROWS], Did::Nothing),
];

/// Schedules with when each period was done.
const MET: &[DoneCase] = &[
    (&[FULL_RATE], &[FULL_MET], Did::Nothing),
    (&[LATE_TASK], &[LATE_ROWS], Did::Nothing),
];

const WITHOUT: &[RefusedCase] = &[
    (
        &[OVERLOAD],
        Status::Overload,
        "refused 7 Overload total 7 room 6\n",
    ),
    // More rounds than a table may have rows: the limit over the processors, and one round.
    (
        &["processors = 1\nhorizon = 2097153\ntask = [{name = \"a\", work = 1, period = 1}]\n"],
        Status::TooLong,
        "refused 9 TooLong rows 2097153\n",
    ),
    (
        &["processors = 32\nhorizon = 65537\ntask = [{name = \"a\", work = 1, period = 1}]\n"],
        Status::TooLong,
        "refused 9 TooLong rows 2097184\n",
    ),
];

/// A fault leaves the lines before.
const FAILING: &[Failing] = &[
    Failing::Out(&[1], ""),
    Failing::Out(&[2], "run-trace 1\n"),
    Failing::Out(&[3], "run-trace 1\nprocessors 2\n"),
    Failing::Out(&[4], "run-trace 1\nprocessors 2\nhorizon 3\n"),
    Failing::Out(&[5], "run-trace 1\nprocessors 2\nhorizon 3\nscale 3\n"),
];

/// How the schedule of nine tasks of a vehicle begins, and the rows of its second processor.
const NINE: &[ShownCase] = &[(
    &[NINE_TASKS],
    "run-trace 1\nprocessors 4\nhorizon 1000000\nscale 1000000\ntasks 9\ntask control 600 1000\ntask sense 1200 2000\n\
        task fuse 3000 5000\ntask plan 6000 10000\ntask video 12000 20000\ntask log 10000 50000\ntask net 30000 100000\n\
        task store 60000 200000\ntask health 200000 1000000\nrow 0 0 600000000 control\nrow 0 600000000 1000000000 log\n",
    &["row 1 0 200000000 fuse\nrow 1 200000000 1400000000 sense\n"],
    "",
)];

const NINE_REPORT: &[ReportCase] = &[(&[NINE_TASKS], "valid\n")];

const TABLES: &[Table] = &[
    (&["trace"], Cases::Done(SCHEDULES)),
    (&["trace", "--met"], Cases::Done(MET)),
    (&["trace"], Cases::Refused(WITHOUT)),
    (&["trace"], Cases::Failing(&[THREE_TASKS], FAILING)),
    (&["trace"], Cases::Shown(NINE)),
    (&["trace"], Cases::Reports(NINE_REPORT)),
];

#[test]
fn worked_sets_have_their_schedules(rt: HostRuntime) {
    assert_tables(&rt, rt.alloc(), TABLES);
}
