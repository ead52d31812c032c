//! Drills: task sets that are drawn from a number, executed and judged.

use super::calls::{JobKinds, Outside, SURE};
use super::cases::{Cases, FaultCase, ReportCase, ShownCase, Table, assert_tables};
use super::lanes::Did;
use run_tool::Status;

/// Nothing fails, and each gate has room for its rows.
const ROOMY: Outside = Outside {
    gate_room: 10_000,
    ..SURE
};

/// The set that is drawn from 1.
const FIRST: &str =
    "processors = 4\nhorizon = 6000\ntask = [{name = \"t0\", work = 15, period = 20}, {name = \"t1\", work = 5, period = 5}, \
        {name = \"t2\", work = 1, period = 10}, {name = \"t3\", work = 1, period = 4}, {name = \"t4\", work = 5, period = 12}, \
        {name = \"t5\", work = 7, period = 10}, {name = \"t6\", work = 11, period = 30}, {name = \"t7\", work = 4, period = 20}, \
        {name = \"t8\", work = 2, period = 10}]\n";

/// The set that is drawn from 2.
const SECOND: &str =
    "processors = 4\nhorizon = 6000\ntask = [{name = \"t0\", work = 2, period = 4}, {name = \"t1\", work = 4, period = 5}, \
        {name = \"t2\", work = 12, period = 12}, {name = \"t3\", work = 1, period = 5}, {name = \"t4\", work = 9, period = 12}, \
        {name = \"t5\", work = 19, period = 30}]\n";

/// The set that is drawn from 18446744073709551615.
const LAST: &str =
    "processors = 4\nhorizon = 6000\ntask = [{name = \"t0\", work = 3, period = 20}, {name = \"t1\", work = 2, period = 12}, \
        {name = \"t2\", work = 3, period = 6}, {name = \"t3\", work = 2, period = 15}, {name = \"t4\", work = 1, period = 6}, \
        {name = \"t5\", work = 18, period = 30}, {name = \"t6\", work = 6, period = 12}, {name = \"t7\", work = 2, period = 20}, \
        {name = \"t8\", work = 5, period = 5}, {name = \"t9\", work = 1, period = 20}, {name = \"t10\", work = 6, period = 30}, \
        {name = \"t11\", work = 11, period = 30}, {name = \"t12\", work = 1, period = 15}]\n";

/// The set that words of zero make.
const ZEROS: &str =
    "processors = 4\nhorizon = 6000\ntask = [{name = \"t0\", work = 1, period = 4}, {name = \"t1\", work = 1, period = 4}, \
        {name = \"t2\", work = 1, period = 4}, {name = \"t3\", work = 1, period = 4}, {name = \"t4\", work = 1, period = 4}, \
        {name = \"t5\", work = 1, period = 4}, {name = \"t6\", work = 1, period = 4}, {name = \"t7\", work = 1, period = 4}, \
        {name = \"t8\", work = 1, period = 4}, {name = \"t9\", work = 1, period = 4}, {name = \"t10\", work = 1, period = 4}, \
        {name = \"t11\", work = 1, period = 4}, {name = \"t12\", work = 1, period = 4}, {name = \"t13\", work = 1, period = 4}, \
        {name = \"t14\", work = 1, period = 4}, {name = \"t15\", work = 1, period = 4}]\n";

/// What a drill tells and what its gates and jobs did. It reads nothing. The counts were worked out by a program outside, which goes
/// tick by tick.
macro_rules! drilled {
    ($text:expr, $rounds:expr, $ticks:expr) => {
        &[(
            ROOMY,
            Status::Done,
            $text,
            "",
            Did::Drilled($rounds, 6, $ticks),
        )]
    };
}

const FIRST_DRILL: &[FaultCase] = drilled!(
    "drill 1\ntasks 9\nscale 60\nrounds 8600\nrows 9101\npreemptions 4300\nmigrations 2700\nverdict valid\n",
    8600,
    &[
        270000, 360000, 36000, 90000, 150000, 252000, 132000, 72000, 72000
    ]
);

const SECOND_DRILL: &[FaultCase] = drilled!(
    "drill 2\ntasks 6\nscale 60\nrounds 9300\nrows 9303\npreemptions 5000\nmigrations 3900\nverdict valid\n",
    9300,
    &[180000, 288000, 360000, 72000, 270000, 228000]
);

const LAST_DRILL: &[FaultCase] = drilled!(
    "drill 18446744073709551615\ntasks 13\nscale 60\nrounds 7500\nrows 9101\npreemptions 3800\nmigrations 1900\nverdict valid\n",
    7500,
    &[
        54000, 60000, 180000, 48000, 60000, 216000, 180000, 36000, 360000, 18000, 72000, 132000,
        24000
    ]
);

/// What `rate` tells of the sets has the lines of the head that their drills tell.
const RATES: &[ShownCase] = &[
    (
        &[FIRST],
        "processors 4\nhorizon 6000\ntasks 9\nscale 60\n",
        &[],
        "",
    ),
    (
        &[SECOND],
        "processors 4\nhorizon 6000\ntasks 6\nscale 60\n",
        &[],
        "",
    ),
    (
        &[LAST],
        "processors 4\nhorizon 6000\ntasks 13\nscale 60\n",
        &[],
        "",
    ),
    (
        &[ZEROS],
        "processors 4\nhorizon 6000\ntasks 16\nscale 4\n",
        &[],
        "total 16\nroom 16\nverdict fits\n",
    ),
];

/// What `check` tells of the traces of the sets has the counts that their drills tell.
const REPORTS: &[ReportCase] = &[
    (
        &[FIRST],
        "valid\nrows 9101\npreemptions 4300\nmigrations 2700\n",
    ),
    (
        &[SECOND],
        "valid\nrows 9303\npreemptions 5000\nmigrations 3900\n",
    ),
    (
        &[LAST],
        "valid\nrows 9101\npreemptions 3800\nmigrations 1900\n",
    ),
    // Each task runs alone, in the same ticks of each period: each round is a row, and none is cut short.
    (&[ZEROS], "valid\nrows 24000\npreemptions 0\nmigrations 0\n"),
];

/// Where a stream, a gate or a job fails, a drill stops as an execution does.
const FAULTS: &[FaultCase] = &[
    (
        Outside { out: &[3], ..ROOMY },
        Status::WriteFault,
        "drill 1\ntasks 9\n",
        "refused 4 WriteFault\n",
        Did::Unread(6),
    ),
    (
        Outside {
            gate: Some((3, 1)),
            ..ROOMY
        },
        Status::GateFault,
        "",
        "refused 10 GateFault processor 3 row 0 32 t6\n",
        Did::Unread(6),
    ),
    (
        Outside {
            jobs: JobKinds::Fails(2, 1),
            ..ROOMY
        },
        Status::JobFault,
        "",
        "refused 11 JobFault task t2 processor 0 row 0 32\n",
        Did::Unread(6),
    ),
];

const TABLES: &[Table] = &[
    (&["drill", "1"], Cases::Faults(&["unread"], FIRST_DRILL)),
    (&["drill", "2"], Cases::Faults(&["unread"], SECOND_DRILL)),
    (
        &["drill", "18446744073709551615"],
        Cases::Faults(&["unread"], LAST_DRILL),
    ),
    (&["rate"], Cases::Shown(RATES)),
    (&["trace"], Cases::Reports(REPORTS)),
    (&["drill", "1"], Cases::Faults(&["unread"], FAULTS)),
];

#[test]
fn drills_are_valid_or_stop(rt: HostRuntime) {
    assert_tables(&rt, rt.alloc(), TABLES);
}
