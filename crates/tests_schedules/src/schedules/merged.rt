//! The merged rows of worked sets.
ghost use Rattle.std.specs.Prelude.{◌<◌, length};

use super::{OFFSET_OF_ONE, Round, THREE_TASKS, is_row, plan_with};
use merged_rows::{MergedRows, totals_of_merged};
use partition_rounds::merged_of;
use run_tree::Plan;
use sample_sets::NamedTask;
use std::alloc::Global;
use std::process::Abort;

/// The rows of a processor, each as a round of it alone: the letter of what it shows stands at its own place.
type Lane<'a> = &'a [Round<'a>];

/// Whether these are the merged rows of processor p.
fn is_lane(merged: &MergedRows, p: u32, lane: Lane) -> bool
    requires { p < length merged.now.lanes }
{
    for i in 0..merged.count(p) {
        if lane.len() <= i || !is_row(&merged.row(p, i), p, &lane[i]) {
            return false;
        }
    }
    lane.len() == merged.count(p)
}

/// Compares the rows of each processor.
fn assert_lanes(rt: &impl Abort, merged: &MergedRows, lanes: &[Lane]) {
    assert!(rt; merged.processors() as usize == lanes.len());
    for p in 0..merged.processors() {
        assert!(rt; is_lane(merged, p, lanes[p as usize]), "{p}");
    }
}

/// Compares the rows and the ticks of each task.
fn check_merged(rt: &impl Abort, alloc: Global, plan: &Plan, lanes: &[Lane], ticks: &[u128]) {
    let merged = merged_of(alloc, plan).expect(rt, "merged rows");
    assert_lanes(rt, &merged, lanes);
    let totals = totals_of_merged(alloc, &merged, plan.set().count()).expect(rt, "there is memory");
    assert!(rt; totals.as_slice() == ticks);
}

/// A set, its merged rows, and the ticks of each task.
struct Case {
    processors: u32,
    horizon: u64,
    tasks: &'static [NamedTask<'static>],
    lanes: &'static [Lane<'static>],
    ticks: &'static [u128],
}

/// The rows are those of the rounds that the tests of schedules have, merged by hand.
const CASES: &[Case] = &[
    Case {
        processors: 2,
        horizon: 3,
        tasks: THREE_TASKS,
        lanes: &[&[(0, 3, "b"), (3, 9, "a")], &[(0, 6, ".c"), (6, 9, ".b")]],
        ticks: &[6, 6, 6],
    },
    Case {
        processors: 1,
        horizon: 5,
        tasks: OFFSET_OF_ONE,
        lanes: &[&[
            (0, 1, "A"),
            (1, 3, "b"),
            (3, 5, "a"),
            (5, 7, "b"),
            (7, 9, "a"),
            (9, 10, "b"),
        ]],
        ticks: &[4, 5],
    },
    Case {
        processors: 1,
        horizon: 12,
        tasks: OFFSET_OF_ONE,
        lanes: &[&[
            (0, 1, "A"),
            (1, 3, "b"),
            (3, 5, "a"),
            (5, 7, "b"),
            (7, 9, "a"),
            (9, 11, "b"),
            (11, 13, "a"),
            (13, 15, "b"),
            (15, 17, "a"),
            (17, 19, "b"),
            (19, 21, "a"),
            (21, 23, "b"),
            (23, 24, "a"),
        ]],
        ticks: &[11, 12],
    },
    // Of two packs that are roots the first comes round by itself, every two units, and both together don't before the end.
    Case {
        processors: 2,
        horizon: 9,
        tasks: &[("a", 1, 2, 0), ("b", 4, 5, 0)],
        lanes: &[
            &[
                (0, 10, "a"),
                (10, 20, "0"),
                (20, 30, "a"),
                (30, 40, "0"),
                (40, 50, "a"),
                (50, 60, "0"),
                (60, 70, "a"),
                (70, 80, "0"),
                (80, 90, "a"),
            ],
            &[(0, 40, ".b"), (40, 50, ".1"), (50, 90, ".b")],
        ],
        ticks: &[50, 80],
    },
    // A plan with duals that falls into parts: all comes round after 21 units. The part of the duals, which comes round every three units, is kept.
    Case {
        processors: 3,
        horizon: 13,
        tasks: &[
            ("a", 4, 7, 0),
            ("b", 2, 3, 0),
            ("c", 2, 3, 0),
            ("d", 2, 3, 0),
        ],
        lanes: &[
            &[
                (0, 84, "a"),
                (84, 147, "0"),
                (147, 231, "a"),
                (231, 273, "0"),
            ],
            &[
                (0, 21, ".c"),
                (21, 63, ".b"),
                (63, 105, ".d"),
                (105, 147, ".c"),
                (147, 189, ".b"),
                (189, 231, ".d"),
                (231, 273, ".c"),
            ],
            &[
                (0, 42, "..d"),
                (42, 84, "..c"),
                (84, 126, "..b"),
                (126, 168, "..d"),
                (168, 210, "..c"),
                (210, 252, "..b"),
                (252, 273, "..d"),
            ],
        ],
        ticks: &[168, 168, 189, 189],
    },
    // Here the pack without duals is kept, and the round of the others comes once.
    Case {
        processors: 3,
        horizon: 9,
        tasks: &[
            ("a", 1, 2, 0),
            ("b", 6, 9, 0),
            ("c", 6, 9, 0),
            ("d", 6, 9, 0),
        ],
        lanes: &[
            &[
                (0, 18, "a"),
                (18, 36, "0"),
                (36, 54, "a"),
                (54, 72, "0"),
                (72, 90, "a"),
                (90, 108, "0"),
                (108, 126, "a"),
                (126, 144, "0"),
                (144, 162, "a"),
            ],
            &[(0, 54, ".c"), (54, 162, ".b")],
            &[(0, 108, "..d"), (108, 162, "..c")],
        ],
        ticks: &[90, 108, 108, 108],
    },
    Case {
        processors: 1,
        horizon: 3,
        tasks: &[],
        lanes: &[&[(0, 3, "0")]],
        ticks: &[],
    },
];

#[test]
fn merges_the_rounds_of_worked_sets(rt: HostRuntime) {
    for case in CASES {
        let plan = plan_with(&rt, rt.alloc(), case.processors, case.horizon, case.tasks);
        check_merged(&rt, rt.alloc(), &plan, case.lanes, case.ticks);
    }
}
