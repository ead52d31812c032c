//! Checks of traces: the worked ones, hostile ones, and faults in mid-stream.

use super::calls::{Outside, SURE};
use super::cases::{
    Case, Cases, DoneCase, Failing, FaultCase, RefusedCase, ReplacedCase, Table, assert_row,
    assert_tables, joined,
};
use super::lanes::Did;
use super::texts::{LATE_ROWS, THREE_ROWS};
use run_tool::Status;
use std::alloc::Global;
use std::process::Abort;
use std::sync::Wait;
use std::thread::Threads;

/// The trace of three tasks of rate 2/3, line by line.
const LINES: &[&str] = &[
    "run-trace 1\n",
    "processors 2\n",
    "horizon 3\n",
    "scale 3\n",
    "tasks 3\n",
    "task a 2 3\n",
    "task b 2 3\n",
    "task c 2 3\n",
    "row 0 0 3 b\n",
    "row 0 3 9 a\n",
    "row 1 0 6 c\n",
    "row 1 6 9 b\n",
    "total a 6\n",
    "total b 6\n",
    "total c 6\n",
    "rows 4\n",
];

/// The trace of three tasks of rate 2/3 with another row.
const INVALID_ROWS: &str =
    "run-trace 1\nprocessors 2\nhorizon 3\nscale 3\ntasks 3\ntask a 2 3\ntask b 2 3\ntask c 2 3\nrow 0 0 3 b\n\
        row 0 3 9 a\nrow 1 0 6 c\nrow 1 5 8 b\ntotal a 6\ntotal b 6\ntotal c 6\nrows 4\n";

const REPORT: &str =
    "valid\nrows 4\npreemptions 1\nmigrations 1\nresponse a 9\nresponse b 9\nresponse c 6\nchart 0 baa\nchart 1 ccb\n";

/// Of the trace of three tasks with other lines in place of some.
const CHANGES: &[ReplacedCase] = &[
    (&[], Status::Done, REPORT, ""),
    (
        &[("row 1 6 9 b", "row 1 5 8 b")],
        Status::Invalid,
        "invalid line 12 processor-overlap\n",
        "",
    ),
    (
        &[("row 1 6 9 b", "row 1 6 8 b"), ("total b 6", "total b 5")],
        Status::Invalid,
        "invalid line 14 supply\n",
        "",
    ),
    (
        &[("row 1 6 9 b", "row 1 6 8 b")],
        Status::BadInput,
        "",
        "refused 6 BadLine 14\n",
    ),
    (
        &[
            ("row 1 6 9 b", "row 1 6 9 a"),
            ("total a 6", "total a 9"),
            ("total b 6", "total b 3"),
        ],
        Status::Invalid,
        "invalid line 12 task-overlap\n",
        "",
    ),
    (
        &[("row 1 6 9 b", "row 1 6 10 b"), ("total b 6", "total b 7")],
        Status::Invalid,
        "invalid line 12 end\n",
        "",
    ),
    (
        &[("row 1 6 9 b", "row 2 6 9 b")],
        Status::Invalid,
        "invalid line 12 processor\n",
        "",
    ),
    // A row stands twice, and the numbers are mended.
    (
        &[
            ("row 0 0 3 b", "row 0 0 3 b\nrow 0 0 3 b"),
            ("total b 6", "total b 9"),
            ("rows 4", "rows 5"),
        ],
        Status::Invalid,
        "invalid line 10 processor-overlap\n",
        "",
    ),
    // In any order.
    (
        &[(
            "row 0 0 3 b\nrow 0 3 9 a\nrow 1 0 6 c\nrow 1 6 9 b\n",
            "row 1 6 9 b\nrow 1 0 6 c\nrow 0 0 3 b\nrow 0 3 9 a\n",
        )],
        Status::Done,
        REPORT,
        "",
    ),
    // In two rows that make one piece.
    (
        &[
            ("row 0 3 9 a", "row 0 3 5 a\nrow 0 5 9 a"),
            ("rows 4", "rows 5"),
        ],
        Status::Done,
        "valid\nrows 5\npreemptions 1\nmigrations 1\nresponse a 9\nresponse b 9\nresponse c 6\nchart 0 baa\nchart 1 ccb\n",
        "",
    ),
    // Nothing is owed in the period that is still open, and no row holds the unit's first tick.
    (
        &[("horizon 3", "horizon 4")],
        Status::Done,
        "valid\nrows 4\npreemptions 1\nmigrations 1\nresponse a 9\nresponse b 9\nresponse c 6\nchart 0 baa.\nchart 1 ccb.\n",
        "",
    ),
    (
        &[("scale 3", "scale 4")],
        Status::BadInput,
        "",
        "refused 6 BadLine 4\n",
    ),
    (
        &[("tasks 3", "tasks 4")],
        Status::BadInput,
        "",
        "refused 6 BadLine 9\n",
    ),
    (
        &[("rows 4", "rows 5")],
        Status::BadInput,
        "",
        "refused 6 BadLine 16\n",
    ),
    (
        &[("rows 4", "rows 4\n")],
        Status::BadInput,
        "",
        "refused 6 BadLine 17\n",
    ),
    // A wrong scale, however long, is judged once the lines of the tasks are right.
    (
        &[
            ("scale 3", "scale 3333333333333333333333333333333333333333"),
            ("task c 2 3", "task c 4 3"),
        ],
        Status::BadInput,
        "",
        "refused 6 BadLine 8\n",
    ),
];

/// A fault leaves the lines before.
const FAILING: &[Failing] = &[
    Failing::Source(&[2]),
    Failing::Out(&[1], ""),
    Failing::Out(&[3], "valid\nrows 4\n"),
    // The last line of the report.
    Failing::Out(
        &[9],
        "valid\nrows 4\npreemptions 1\nmigrations 1\nresponse a 9\nresponse b 9\nresponse c 6\nchart 0 baa\n",
    ),
];

/// Of a trace with another line.
const INVALID_FAULTS: &[FaultCase] = &[
    (
        Outside { out: &[1], ..SURE },
        Status::WriteFault,
        "",
        "refused 4 WriteFault\n",
        Did::Nothing,
    ),
    // Nothing goes to `err`, so it isn't called.
    (
        Outside { err: &[1], ..SURE },
        Status::Invalid,
        "invalid line 12 processor-overlap\n",
        "",
        Did::Nothing,
    ),
];

/// The line at fault where the text ends after a line, and where that line stands twice.
const CUT: &[(&str, &str)] = &[
    ("refused 6 BadLine 2\n", "refused 6 BadLine 2\n"),
    ("refused 6 BadLine 3\n", "refused 6 BadLine 3\n"),
    ("refused 6 BadLine 4\n", "refused 6 BadLine 4\n"),
    ("refused 6 BadLine 5\n", "refused 6 BadLine 5\n"),
    ("refused 6 BadLine 6\n", "refused 6 BadLine 6\n"),
    // The name of a task again.
    ("refused 6 BadLine 7\n", "refused 6 BadLine 7\n"),
    ("refused 6 BadLine 8\n", "refused 6 BadLine 8\n"),
    ("refused 6 BadLine 9\n", "refused 6 BadLine 9\n"),
    // A row again makes its task's total wrong.
    ("refused 6 BadLine 10\n", "refused 6 BadLine 15\n"),
    ("refused 6 BadLine 11\n", "refused 6 BadLine 14\n"),
    ("refused 6 BadLine 12\n", "refused 6 BadLine 16\n"),
    ("refused 6 BadLine 13\n", "refused 6 BadLine 15\n"),
    ("refused 6 BadLine 14\n", "refused 6 BadLine 14\n"),
    ("refused 6 BadLine 15\n", "refused 6 BadLine 15\n"),
    ("refused 6 BadLine 16\n", "refused 6 BadLine 16\n"),
    ("", "refused 6 BadLine 17\n"),
];

// How a check ends with this line on `err`; it finds the trace valid where there is none.
fn end_with(err: &str) -> (Status, &str, &str) {
    if err.is_empty() {
        (Status::Done, REPORT, "")
    } else {
        (Status::BadInput, "", err)
    }
}

// Makes sure of what `check` leaves of a text, which is told in parts, for the line of this number.
fn assert_check<X: Abort + Threads + Wait + Sync>(
    rt: &X,
    alloc: Global,
    number: usize,
    input: &[&str],
    err: &str,
) {
    let (status, out, err) = end_with(err);
    let out = [out];
    let end = (status, out.as_slice(), err);
    let at = Case {
        words: &["check"],
        line: "check",
        number,
    };
    assert_row(rt, alloc, at, input, &SURE, end, Did::Nothing);
}

// Makes sure of what is told where the text ends after this line, and where this line and all behind it stand once more.
fn assert_cut<X: Abort + Threads + Wait + Sync>(
    rt: &X,
    alloc: Global,
    (lines, last): (&[&str], usize),
    (at_cut, at_double): (&str, &str),
) {
    assert!(rt; last < lines.len(), "no line {last}");
    let (first, rest) = (
        joined(rt, alloc, &lines[..=last]),
        joined(rt, alloc, &lines[last..]),
    );
    let first = first.as_str();
    // The last line feed may be missing.
    let unended = first.strip_suffix("\n").expect(rt, "a line feed");
    assert_check(rt, alloc, last, &[first], at_cut);
    assert_check(rt, alloc, last, &[unended], at_cut);
    assert_check(rt, alloc, last, &[first, rest.as_str()], at_double);
}

// Each line cut, without its line feed and told twice has its fault.
fn assert_cuts<X: Abort + Threads + Wait + Sync>(
    rt: &X,
    alloc: Global,
    lines: &[&str],
    cuts: &[(&str, &str)],
) {
    assert!(rt; lines.len() == cuts.len());
    for (i, cut) in cuts.iter().enumerate() {
        assert_cut(rt, alloc, (lines, i), *cut);
    }
}

#[test]
fn traces_cut_or_doubled_are_told_at_their_line(rt: HostRuntime) {
    assert_cuts(&rt, rt.alloc(), LINES, CUT);
}

/// Other traces.
const VALID: &[DoneCase] = &[
    // A period for each tick there is, which the check doesn't count.
    (
        &[
            "run-trace 1\nprocessors 1\nhorizon 4294967295\nscale 1\ntasks 1\ntask a 1 1\nrow 0 0 4294967295 a\ntotal a 4294967295\nrows 1\n",
        ],
        &[
            "valid\nrows 1\npreemptions 0\nmigrations 0\nresponse a 1\nchart 0 aaaaaaaaaaaaaaaaaaaaaaaaaaaaaaaaaaaaaaaaaaaaaaaaaaaaaaaaaaaaaaaa\n",
        ],
        Did::Nothing,
    ),
    (
        &[LATE_ROWS],
        &[
            "valid\nrows 6\npreemptions 0\nmigrations 0\nresponse a 3\nresponse b 3\nchart 0 -baba\n",
        ],
        Did::Nothing,
    ),
    // No tasks, and no rows.
    (
        &["run-trace 1\nprocessors 1\nhorizon 2\nscale 1\ntasks 0\nrows 0\n"],
        &["valid\nrows 0\npreemptions 0\nmigrations 0\nchart 0 ..\n"],
        Did::Nothing,
    ),
];

const REFUSED: &[RefusedCase] = &[
    // The finish of a period is wrong.
    (
        &[
            "run-trace 2\nprocessors 1\nhorizon 5\nscale 2\ntasks 2\ntask a 1 2 1\ntask b 1 2 0\nrow 0 0 1 -\nrow 0 1 3 b\nrow 0 3 5 a\n\
                row 0 5 7 b\nrow 0 7 9 a\nrow 0 9 10 b\ntotal a 4\ntotal b 5\nmet a 0 4\nmet a 1 9\nmet b 0 3\nmet b 1 7\nrows 6\n",
        ],
        Status::BadInput,
        "refused 6 BadLine 16\n",
    ),
    (&["\n"], Status::BadInput, "refused 6 BadLine 1\n"),
    // No line.
    (&[""], Status::BadInput, "refused 6 BadLine 1\n"),
];

/// A row before the first release.
const EARLY_ROWS: &str =
    "run-trace 2\nprocessors 1\nhorizon 5\nscale 2\ntasks 2\ntask a 1 2 1\ntask b 1 2 0\nrow 0 0 1 a\nrow 0 1 3 b\nrow 0 3 5 a\n\
                row 0 5 7 b\nrow 0 7 9 a\nrow 0 9 10 b\ntotal a 5\ntotal b 5\nmet a 0 5\nmet a 1 9\nmet b 0 3\nmet b 1 7\nrows 6\n";

const EARLY: &[FaultCase] = &[(
    SURE,
    Status::Invalid,
    "invalid line 8 early\n",
    "",
    Did::Nothing,
)];

const TABLES: &[Table] = &[
    (&["check"], Cases::Replaced(THREE_ROWS, CHANGES)),
    (&["check"], Cases::Failing(&[THREE_ROWS], FAILING)),
    (&["check"], Cases::Faults(&[INVALID_ROWS], INVALID_FAULTS)),
    (&["check"], Cases::Done(VALID)),
    (&["check"], Cases::Refused(REFUSED)),
    (&["check"], Cases::Faults(&[EARLY_ROWS], EARLY)),
];

#[test]
fn each_trace_has_its_verdict(rt: HostRuntime) {
    assert_tables(&rt, rt.alloc(), TABLES);
}
