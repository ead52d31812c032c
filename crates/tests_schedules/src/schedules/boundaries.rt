//! The next boundaries of nodes.
use super::{OFFSET_OF_ONE, plan_with};
use run_tree::{Plan, next_boundary};
use sample_sets::NamedTask;
use sched_base::NodeId;
use std::process::Abort;

/// A set, and next boundaries of its nodes: each row has a node, a unit, and the node's next boundary after it.
struct Case {
    processors: u32,
    horizon: u64,
    tasks: &'static [NamedTask<'static>],
    rows: &'static [(u32, u64, u64)],
}

const CASES: &[Case] = &[
    // node 0 is the pack of a and b, the nodes 1 and 2
    Case {
        processors: 1,
        horizon: 5,
        tasks: OFFSET_OF_ONE,
        rows: &[
            (1, 0, 1),
            (1, 1, 3),
            (1, 2, 3),
            (2, 0, 2),
            (2, 1, 2),
            (2, 2, 4),
            (0, 0, 1),
            (0, 1, 2),
            (0, 2, 3),
            (0, 3, 4),
        ],
    },
    // a and the idle leaf 6 are in the pack 0, b in 2, c in 4; the pack 7 above has their duals 8, 9 and 10
    Case {
        processors: 2,
        horizon: 12,
        tasks: &[("a", 3, 5, 0), ("b", 3, 6, 0), ("c", 3, 5, 0)],
        rows: &[
            (0, 0, 5),
            (2, 0, 6),
            (3, 6, 12),
            (6, 0, 8_589_934_592),
            (8, 0, 5),
            (9, 0, 6),
            (9, 6, 12),
            (7, 0, 5),
            (7, 5, 6),
            (7, 6, 10),
            (7, 10, 12),
        ],
    },
];

/// Compares the next boundaries of nodes.
fn assert_next(rt: &impl Abort, plan: &Plan, rows: &[(u32, u64, u64)]) {
    for (n, after, next) in rows {
        assert!(rt; *n < plan.tree().nodes() && *after <= plan.set().horizon());
        let found = next_boundary(plan, NodeId(*n), *after);
        assert!(rt; found == *next, "of {n} after {after}");
    }
}

#[test]
fn tells_next_boundaries(rt: HostRuntime) {
    for case in CASES {
        let plan = plan_with(&rt, rt.alloc(), case.processors, case.horizon, case.tasks);
        assert_next(&rt, &plan, case.rows);
    }
}
