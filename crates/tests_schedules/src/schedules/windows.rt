//! The windows of nodes, and what is left at their start.
ghost use Rattle.std.specs.Prelude.{◌<◌, ◌≤◌, ◌^◌, length};
ghost use Rattle.release_calendar.specs.Calendars.{BelongsTo};

use super::{OFFSET_OF_ONE, THREE_TASKS, plan_with};
use release_calendar::Calendar;
use run_tree::{Kind, Plan};
use sample_sets::NamedTask;
use sched_base::NodeId;
use server_budget::Budgets;
use std::alloc::Global;
use std::process::Abort;

/// How long the window of a leaf or dual is, in units.
fn length_of_window(rt: &impl Abort, calendar: &Calendar, n: NodeId) -> u64
    requires { n.0 < length calendar.now.begins }
    ensures { result ≤ 2 ^ 33 }
{
    let (begin, end) = calendar.window(n);
    assert!(rt; begin <= end && end - begin <= 8_589_934_592);
    end - begin
}

/// Gives node x the due of its window, where it is a leaf or a dual. A pack has no window.
pub(super) fn refill(
    rt: &impl Abort,
    plan: &Plan,
    calendar: &Calendar,
    budgets: &mut Budgets,
    x: u32,
)
    requires node { x < length plan.now.tree.nodes }
    requires calendar { BelongsTo plan.now calendar.now }
{
    let n = NodeId(x);
    assert!(rt; budgets.remains().len() == plan.tree().nodes() as usize);
    match plan.tree().kind(n) {
        Kind::Pack(_) => {}
        Kind::Leaf(_) => budgets.refill(plan.tree(), n, length_of_window(rt, calendar, n)),
        Kind::Dual(_) => budgets.refill(plan.tree(), n, length_of_window(rt, calendar, n)),
    }
}

/// The unit at which the next windows begin, whose begin there, and the windows of nodes before: each node, begin and end.
type Turn<'a> = (u64, &'a [bool], &'a [(u32, u64, u64)]);

/// Compares the next unit and the windows of nodes.
fn assert_windows(rt: &impl Abort, plan: &Plan, calendar: &Calendar, turn: &Turn)
    requires { BelongsTo plan.now calendar.now }
{
    assert!(rt; calendar.next() == turn.0);
    for (x, begin, end) in turn.2 {
        assert!(rt; *x < plan.tree().nodes());
        assert!(rt;
            calendar.window(NodeId(*x)) == (*begin, *end),
            "node {x} from {begin}"
        );
    }
}

/// Moves the calendar to its next unit, and compares who is due there.
fn pop(rt: &impl Abort, plan: &Plan, calendar: &mut Calendar, due: &mut [bool], marks: &[bool])
    requires { BelongsTo plan.now calendar.old }
    ensures { BelongsTo plan.now calendar.new }
{
    assert!(rt; calendar.next() <= plan.set().horizon());
    assert!(rt; due.len() == plan.tree().nodes() as usize);
    calendar.pop_due(plan, due);
    assert!(rt; *due == *marks);
}

/// Turns a calendar so often. After the last turn who is due isn't looked at.
fn turn(rt: &impl Abort, plan: &Plan, calendar: &mut Calendar, due: &mut [bool], turns: &[Turn])
    requires { BelongsTo plan.now calendar.old }
{
    for turn in turns {
        assert_windows(rt, plan, calendar, turn);
        if !turn.1.is_empty() {
            pop(rt, plan, calendar, due, turn.1);
        }
    }
}

/// Turns a new calendar, with all nodes marked before or none.
fn check_turns(rt: &impl Abort, alloc: Global, plan: &Plan, marked: bool, turns: &[Turn]) {
    let nodes = plan.tree().nodes() as usize;
    let mut due = vec![in alloc; marked; nodes].expect(rt, "there is memory");
    let mut calendar = Calendar::new(alloc, plan).expect(rt, "there is memory");
    turn(rt, plan, &mut calendar, &mut due, turns);
}

/// A set, whether all nodes are marked before, and the turns of its calendar.
struct Case {
    processors: u32,
    horizon: u64,
    tasks: &'static [NamedTask<'static>],
    marked: bool,
    turns: &'static [Turn<'static>],
}

const CASES: &[Case] = &[
    // node 0 is the pack of a, which is node 1, and b, which is node 2
    Case {
        processors: 1,
        horizon: 5,
        tasks: OFFSET_OF_ONE,
        marked: true,
        turns: &[
            (1, &[false, true, false], &[(1, 0, 1), (2, 0, 2)]),
            (2, &[false, false, true], &[(1, 1, 3), (2, 0, 2)]),
            (3, &[false, true, false], &[(1, 1, 3), (2, 2, 4)]),
            (4, &[false, false, true], &[(1, 3, 5), (2, 2, 4)]),
            (5, &[false, true, false], &[(1, 3, 5), (2, 4, 6)]),
            (6, &[], &[(1, 5, 7), (2, 4, 6)]),
        ],
    },
    // nodes 0, 2, 4 and 6 are packs
    Case {
        processors: 2,
        horizon: 3,
        tasks: THREE_TASKS,
        marked: false,
        turns: &[
            (
                3,
                &[
                    false, true, false, true, false, true, false, true, true, true,
                ],
                &[
                    (1, 0, 3),
                    (3, 0, 3),
                    (5, 0, 3),
                    (7, 0, 3),
                    (8, 0, 3),
                    (9, 0, 3),
                ],
            ),
            (
                6,
                &[],
                &[
                    (1, 3, 6),
                    (3, 3, 6),
                    (5, 3, 6),
                    (7, 3, 6),
                    (8, 3, 6),
                    (9, 3, 6),
                ],
            ),
        ],
    },
];

#[test]
fn turns_windows(rt: HostRuntime) {
    for case in CASES {
        let plan = plan_with(&rt, rt.alloc(), case.processors, case.horizon, case.tasks);
        check_turns(&rt, rt.alloc(), &plan, case.marked, case.turns);
    }
}

/// Gives the leaf of a its due, and compares what is left of each node.
fn check_refilled(rt: &impl Abort, alloc: Global, plan: &Plan, due: &[u128]) {
    let mut budgets = Budgets::new(alloc, plan.tree()).expect(rt, "there is memory");
    let calendar = Calendar::new(alloc, plan).expect(rt, "there is memory");
    assert!(rt; plan.tree().nodes() == 10);
    assert!(rt; budgets.remain(NodeId(1)) == 0);
    refill(rt, plan, &calendar, &mut budgets, 1);
    assert!(rt; *budgets.remains() == *due);
    assert!(rt; Budgets::budget_of(plan.tree(), NodeId(7), 3) == 3);
}

#[test]
fn refills_the_due_of_a_window(rt: HostRuntime) {
    // node 1 is the leaf of a
    let plan = plan_with(&rt, rt.alloc(), 2, 3, THREE_TASKS);
    check_refilled(&rt, rt.alloc(), &plan, &[0, 6, 0, 0, 0, 0, 0, 0, 0, 0]);
}
