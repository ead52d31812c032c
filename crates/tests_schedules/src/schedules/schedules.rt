//! The schedules of worked sets, round by round: by the core, and as tables. Each expected row comes from the rules by hand.
use super::cores::assert_core;
use super::tables::is_table;
use super::{OFFSET_OF_ONE, Round, THREE_TASKS, TWO_REDUCTIONS, plan_with};
use event_core::count_rounds;
use round_table::table_of;
use run_tree::Plan;
use sample_sets::NamedTask;
use std::alloc::Global;
use std::process::Abort;

/// Makes sure that the table of all rounds has these.
fn assert_table(rt: &impl Abort, alloc: Global, plan: &Plan, rounds: &[Round]) {
    let count = count_rounds(alloc, plan).expect(rt, "few rounds");
    assert!(rt; count == rounds.len() as u64);
    let table = table_of(alloc, plan, count).expect(rt, "there is memory");
    assert!(rt; is_table(&table, plan.tree().processors(), rounds));
}

/// A set, and its rounds.
struct Case {
    processors: u32,
    horizon: u64,
    tasks: &'static [NamedTask<'static>],
    rounds: &'static [Round<'static>],
}

const CASES: &[Case] = &[
    // three tasks
    Case {
        processors: 2,
        horizon: 3,
        tasks: THREE_TASKS,
        rounds: &[(0, 3, "bc"), (3, 6, "ac"), (6, 9, "ab")],
    },
    // no migration
    Case {
        processors: 2,
        horizon: 4,
        tasks: &[("a", 1, 2, 0), ("b", 1, 2, 0), ("c", 1, 4, 0)],
        rounds: &[(0, 4, "ac"), (4, 8, "b0"), (8, 12, "a0"), (12, 16, "b0")],
    },
    // one idle leaf: at 20 the due of a runs out while b runs on
    Case {
        processors: 2,
        horizon: 5,
        tasks: &[("a", 3, 5, 0), ("b", 3, 5, 0), ("c", 3, 5, 0)],
        rounds: &[(0, 5, "bc"), (5, 15, "ac"), (15, 20, "ab"), (20, 25, "0b")],
    },
    // two reductions
    Case {
        processors: 3,
        horizon: 5,
        tasks: TWO_REDUCTIONS,
        rounds: &[
            (0, 5, "abd"),
            (5, 10, "cbd"),
            (10, 15, "ebd"),
            (15, 25, "eac"),
        ],
    },
    // no tasks
    Case {
        processors: 2,
        horizon: 1,
        tasks: &[],
        rounds: &[(0, 1, "01")],
    },
    // no tasks on one processor
    Case {
        processors: 1,
        horizon: 1,
        tasks: &[],
        rounds: &[(0, 1, "0")],
    },
    // full rate
    Case {
        processors: 1,
        horizon: 3,
        tasks: &[("a", 1, 1, 0)],
        rounds: &[(0, 1, "a"), (1, 2, "a"), (2, 3, "a")],
    },
    // full rate from the second unit
    Case {
        processors: 1,
        horizon: 2,
        tasks: &[("a", 1, 1, 1)],
        rounds: &[(0, 1, "A"), (1, 2, "a")],
    },
    // a tie goes to the lower position
    Case {
        processors: 1,
        horizon: 2,
        tasks: &[("a", 1, 2, 0), ("b", 1, 2, 0)],
        rounds: &[(0, 2, "a"), (2, 4, "b")],
    },
    // a pack comes back: at 8 b finds its processor 0 free; at 12 a doesn't, since b is there
    Case {
        processors: 2,
        horizon: 4,
        tasks: &[("a", 1, 2, 0), ("b", 3, 4, 0), ("c", 3, 4, 0)],
        rounds: &[(0, 4, "bc"), (4, 8, "ac"), (8, 12, "bc"), (12, 16, "ba")],
    },
    // a due runs out: that of b at 2, in the window of a
    Case {
        processors: 1,
        horizon: 4,
        tasks: &[("a", 1, 4, 0), ("b", 1, 2, 0)],
        rounds: &[(0, 4, "b"), (4, 8, "a"), (8, 12, "b"), (12, 16, "0")],
    },
    // an offset of one
    Case {
        processors: 1,
        horizon: 5,
        tasks: OFFSET_OF_ONE,
        rounds: &[
            (0, 1, "A"),
            (1, 2, "b"),
            (2, 3, "b"),
            (3, 4, "a"),
            (4, 5, "a"),
            (5, 6, "b"),
            (6, 7, "b"),
            (7, 8, "a"),
            (8, 9, "a"),
            (9, 10, "b"),
        ],
    },
    // an offset beyond the horizon
    Case {
        processors: 1,
        horizon: 2,
        tasks: &[("a", 1, 2, 5), ("b", 1, 2, 0)],
        rounds: &[(0, 2, "b"), (2, 4, "A")],
    },
];

#[test]
fn schedules_worked_sets(rt: HostRuntime) {
    for case in CASES {
        let plan = plan_with(&rt, rt.alloc(), case.processors, case.horizon, case.tasks);
        assert_core(&rt, rt.alloc(), &plan, case.rounds);
        assert_table(&rt, rt.alloc(), &plan, case.rounds);
    }
}
