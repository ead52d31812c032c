//! Who runs at the start of worked sets, and where other dues are left.
ghost use Rattle.std.specs.Prelude.{◌<◌, ◌≡◌, length, replicate, true};
ghost use Rattle.release_calendar.specs.Calendars.{BelongsTo};

use super::windows::refill;
use super::{OFFSET_OF_ONE, THREE_TASKS, TWO_REDUCTIONS, plan_with};
use release_calendar::Calendar;
use run_tree::{Kind, Plan, Tree};
use sample_sets::NamedTask;
use sched_base::{Leaf, NodeId};
use server_budget::Budgets;
use std::alloc::Global;
use std::process::Abort;
use tree_select::{reselect, select};

/// The task of a node, where it is a task's and runs.
fn running_task(plan: &Plan, runs: &[bool], x: u32) -> Option<u32>
    requires { x < length plan.now.tree.nodes }
{
    match plan.tree().kind(NodeId(x)) {
        Kind::Leaf(Leaf::Task(id)) if runs.get(x as usize) == Some(&true) => Some(id.0),
        Kind::Leaf(_) | Kind::Pack(_) | Kind::Dual(_) => None,
    }
}

/// Makes sure that just these tasks run, in the order of their nodes.
fn assert_running(rt: &impl Abort, plan: &Plan, runs: &[bool], tasks: &[u32]) {
    let mut found = 0;
    for x in 0..plan.tree().nodes() {
        if let Some(task) = running_task(plan, runs, x) {
            assert!(rt;
                found < tasks.len() && tasks[found] == task,
                "task {task} runs"
            );
            found += 1;
        }
    }
    assert!(rt; found == tasks.len());
}

/// Selects who runs with these dues left and these ends of windows, and makes sure that it is just these tasks.
fn check_selected(
    rt: &impl Abort,
    alloc: Global,
    plan: &Plan,
    remains: &[u128],
    ends: &[u128],
    tasks: &[u32],
) {
    let nodes = plan.tree().nodes() as usize;
    let mut runs = vec![in alloc; false; nodes].expect(rt, "there is memory");
    assert!(rt; remains.len() == nodes && ends.len() == nodes && runs.len() == nodes);
    select(plan.tree(), remains, ends, &mut runs);
    assert_running(rt, plan, &runs, tasks);
}

/// Selects who runs with these dues left, and then, with each node marked, who runs with other ones.
fn select_twice(
    tree: &Tree,
    before: &[u128],
    remains: &[u128],
    ends: &[u128],
    stale: &mut [bool],
    runs: &mut [bool],
)
    requires before { length before.now ≡ length tree.now.nodes }
    requires remains { length remains.now ≡ length tree.now.nodes }
    requires ends { length ends.now ≡ length tree.now.nodes }
    requires stale { stale.old ≡ replicate (length tree.now.nodes) true }
    requires runs { length runs.old ≡ length tree.now.nodes }
{
    select(tree, before, ends, runs);
    reselect(tree, remains, ends, stale, runs);
}

/// Makes sure that with these dues left in place of those before, and each node marked, the same nodes are selected as from nothing, and
/// that no mark is left.
fn check_reselected(
    rt: &impl Abort,
    alloc: Global,
    plan: &Plan,
    before: &[u128],
    remains: &[u128],
    ends: &[u128],
) {
    let tree = plan.tree();
    let nodes = tree.nodes() as usize;
    let mut runs = vec![in alloc; false; nodes].expect(rt, "there is memory");
    let mut again = vec![in alloc; false; nodes].expect(rt, "there is memory");
    let mut stale = vec![in alloc; true; nodes].expect(rt, "there is memory");
    assert!(rt; before.len() == nodes && remains.len() == nodes && ends.len() == nodes);
    select(tree, remains, ends, &mut runs);
    select_twice(tree, before, remains, ends, &mut stale, &mut again);
    assert!(rt; again == runs, "the same nodes run as from nothing");
    assert!(rt; !stale.contains(&true), "no mark is left");
}

/// Gives each node that has a window its due.
fn refill_all(rt: &impl Abort, plan: &Plan, calendar: &Calendar, budgets: &mut Budgets)
    requires { BelongsTo plan.now calendar.now }
{
    for x in 0..plan.tree().nodes() {
        refill(rt, plan, calendar, budgets, x);
    }
}

/// Makes sure that just these tasks run first.
fn check_first(rt: &impl Abort, alloc: Global, plan: &Plan, tasks: &[u32]) {
    let mut budgets = Budgets::new(alloc, plan.tree()).expect(rt, "there is memory");
    let calendar = Calendar::new(alloc, plan).expect(rt, "there is memory");
    refill_all(rt, plan, &calendar, &mut budgets);
    let nothing = vec![in alloc; 0; plan.tree().nodes() as usize].expect(rt, "there is memory");
    check_selected(rt, alloc, plan, budgets.remains(), calendar.ends(), tasks);
    check_reselected(
        rt,
        alloc,
        plan,
        &nothing,
        budgets.remains(),
        calendar.ends(),
    );
    check_reselected(
        rt,
        alloc,
        plan,
        budgets.remains(),
        &nothing,
        calendar.ends(),
    );
}

/// Processors, tasks, and those that run first.
const CASES: &[(u32, &[NamedTask], &[u32])] = &[
    (2, THREE_TASKS, &[1, 2]),
    (3, TWO_REDUCTIONS, &[0, 1, 3]),
    (1, OFFSET_OF_ONE, &[0]),
    (2, &[], &[]),
];

#[test]
fn chooses_who_runs_first(rt: HostRuntime) {
    for (processors, tasks, running) in CASES {
        let plan = plan_with(&rt, rt.alloc(), *processors, 5, tasks);
        check_first(&rt, rt.alloc(), &plan, running);
    }
}
