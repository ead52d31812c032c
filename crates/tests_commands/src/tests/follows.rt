//! The command `follow` on trees that another rule packed, on those that `tree` writes, and on texts that are refused.

use super::calls::SURE;
use super::cases::{
    Cases, DoneCase, Failing, ReplacedCase, ReportCase, Table, assert_call, assert_tables, text_of,
};
use super::lanes::Did;
use super::texts::{FULL_RATE, NINE_TASKS, NO_TASKS, ONE_IDLE, THREE_TASKS, TWO_REDUCTIONS};
use run_tool::Status;
use std::alloc::Global;
use std::process::Abort;
use std::sync::Wait;
use std::thread::Threads;

/// Five tasks on three processors; level 1 packs the first dual with the third.
const OTHER_TREE: &str =
    "run-tree 1\nprocessors 3\nhorizon 5\nscale 5\ntasks 5\ntask a 3 5\ntask b 3 5\ntask c 3 5\ntask d 3 5\ntask e 3 5\n\
    idles 0\nlevel 0 5\npack 3 a\npack 3 b\npack 3 c\npack 3 d\npack 3 e\nlevel 1 3\npack 4 ~0 ~2\npack 4 ~1 ~3\npack 2 ~4\nlevel 2 1\n\
    pack 5 ~0 ~1 ~2\nlevels 3\n";

/// Worst fit: each of two packs is a root, and no task migrates. The last line feed is missing.
const WORST_FIT: &str =
    "run-tree 1\nprocessors 2\nhorizon 4\nscale 4\ntasks 3\ntask a 1 2\ntask b 1 2\ntask c 1 4\nidles 2\nidle 0 2\nidle 1 1\n\
    level 0 2\npack 4 a -0\npack 4 b c -1\nlevels 1";

const FOLLOWED: &[DoneCase] = &[
    (
        &[OTHER_TREE],
        &[
            "run-trace 1\nprocessors 3\nhorizon 5\nscale 5\ntasks 5\ntask a 3 5\ntask b 3 5\ntask c 3 5\ntask d 3 5\ntask e 3 5\n\
                row 0 0 5 a\nrow 0 5 10 b\nrow 0 10 25 e\nrow 1 0 15 c\nrow 1 15 25 a\nrow 2 0 15 d\nrow 2 15 25 b\ntotal a 15\n\
                total b 15\ntotal c 15\ntotal d 15\ntotal e 15\nrows 7\n",
        ],
        Did::Nothing,
    ),
    (
        &[WORST_FIT],
        &[
            "run-trace 1\nprocessors 2\nhorizon 4\nscale 4\ntasks 3\ntask a 1 2\ntask b 1 2\ntask c 1 4\nrow 0 0 4 a\nrow 0 4 8 -\n\
                row 0 8 12 a\nrow 0 12 16 -\nrow 1 0 4 b\nrow 1 4 8 c\nrow 1 8 12 b\nrow 1 12 16 -\ntotal a 8\ntotal b 8\ntotal c 4\n\
                rows 8\n",
        ],
        Did::Nothing,
    ),
];

/// The rows that are followed are valid.
const REPORTS: &[ReportCase] = &[(&[OTHER_TREE], "valid\n"), (&[WORST_FIT], "valid\n")];

/// What stands in place of parts of the text.
const REPLACED: &[ReplacedCase] = &[
    (
        &[("pack 4 ~0 ~2", "pack 5 ~0 ~2")],
        Status::BadTree,
        "",
        "refused 16 BadTree line 19 rate\n",
    ),
    (
        &[("pack 4 ~0 ~2", "pack 4 ~0 ~0")],
        Status::BadTree,
        "",
        "refused 16 BadTree line 18 unplaced\n",
    ),
    (
        &[("levels 3\n", "")],
        Status::BadInput,
        "",
        "refused 6 BadLine 24\n",
    ),
    (
        &[("processors 3", "processors 4")],
        Status::BadTree,
        "",
        "refused 16 BadTree line 12 total\n",
    ),
    (
        &[("pack 3 e", "pack 3 e f")],
        Status::BadTree,
        "",
        "refused 16 BadTree line 17 member\n",
    ),
    (
        &[(
            "level 1 3\npack 4 ~0 ~2\npack 4 ~1 ~3",
            "level 1 4\npack 2 ~0\npack 2 ~1\npack 4 ~2 ~3",
        )],
        Status::BadTree,
        "",
        "refused 16 BadTree line 20 pair\n",
    ),
    (
        &[("level 2 1\npack 5 ~0 ~1 ~2\nlevels 3", "levels 2")],
        Status::BadTree,
        "",
        "refused 16 BadTree line 22 unfinished\n",
    ),
    // The line comes before the tree, and the tree before the rows.
    (
        &[("processors 3", "processors x")],
        Status::BadInput,
        "",
        "refused 6 BadLine 2\n",
    ),
    (
        &[(
            "processors 3\nhorizon 5",
            "processors 4\nhorizon 4294967295",
        )],
        Status::BadTree,
        "",
        "refused 16 BadTree line 12 total\n",
    ),
    (
        &[("horizon 5", "horizon 4294967295")],
        Status::TooLong,
        "",
        "refused 9 TooLong rows 2097153\n",
    ),
];

const FAILING: &[Failing] = &[
    Failing::Source(&[2]),
    Failing::Out(&[3], "run-trace 1\nprocessors 3\n"),
];

const TABLES: &[Table] = &[
    (&["follow"], Cases::Done(FOLLOWED)),
    (&["follow"], Cases::Reports(REPORTS)),
    (&["follow"], Cases::Replaced(OTHER_TREE, REPLACED)),
    (&["follow"], Cases::Failing(&[OTHER_TREE], FAILING)),
];

#[test]
fn the_tree_of_the_text_is_followed(rt: HostRuntime) {
    assert_tables(&rt, rt.alloc(), TABLES);
}

// Makes sure that what `tree` writes of a set is followed as `trace` does.
fn assert_followed<X: Abort + Threads + Wait + Sync>(rt: &X, alloc: Global, set: &[&str]) {
    let tree = text_of(rt, alloc, &["tree"], set);
    let traced = text_of(rt, alloc, &["trace"], set);
    let out = [traced.as_str()];
    let end = (Status::Done, out.as_slice(), "");
    let input = [tree.as_str()];
    assert_call(rt, alloc, &["follow"], &input, &SURE, end, Did::Nothing);
}

#[test]
fn what_tree_writes_is_followed_as_trace_does(rt: HostRuntime) {
    let alloc = rt.alloc();
    assert_followed(&rt, alloc, &[THREE_TASKS]);
    assert_followed(&rt, alloc, &[ONE_IDLE]);
    assert_followed(&rt, alloc, &[TWO_REDUCTIONS]);
    assert_followed(&rt, alloc, &[NO_TASKS]);
    assert_followed(&rt, alloc, &[FULL_RATE]);
    assert_followed(&rt, alloc, &[NINE_TASKS]);
}
