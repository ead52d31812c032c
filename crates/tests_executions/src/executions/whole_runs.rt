//! Runs that come to their end.
ghost use Rattle.plan_rounds.specs.PlanRows.{IsCompiled};

use super::{assert_first, kits_of, ran, row, run, three_tasks};
use exec_workers::Executed;
use run_tree::Plan;
use sched_base::{Row, RowTable};
use std::alloc::Global;
use std::process::Abort;
use std::sync::Wait;
use std::thread::Threads;

/// Makes sure that these are the rows of a processor.
fn assert_lane(rt: &impl Abort, rows: &[Row], processor: u32) {
    assert!(rt; rows.len() == 3);
    assert_first(rt, rows, processor);
}

/// Makes sure that a run's table has them.
fn assert_told(rt: &impl Abort, table: &RowTable, processor: u32) {
    for k in 0..table.rounds() {
        assert!(rt; processor < table.processors());
        assert!(rt;
            table.row(processor, k) == row(rt, processor, k as usize),
            "row {k} of processor {processor}"
        );
    }
}

/// Makes sure that a run told all rows.
fn assert_executed(rt: &impl Abort, done: &Executed) {
    assert!(rt; done.table.processors() == 2 && done.table.rounds() == 3);
    assert_told(rt, &done.table, 0);
    assert_told(rt, &done.table, 1);
    assert!(rt; done.totals.as_slice() == [6, 6, 6].as_slice());
    assert!(rt; done.posts.number() == 6);
}

/// Makes sure that a run with no failure came to its end.
fn assert_whole<X: Threads + Wait + Abort + Sync>(rt: &X, alloc: Global, plan: &Plan, window: u32)
    requires { IsCompiled plan.now }
{
    let mut kits = kits_of(rt, alloc, 3, &[&[], &[]]);
    let left = run(rt, alloc, plan, window, &mut kits, &[&[], &[], &[]]);
    match &left.answer {
        Ok(done) => assert_executed(rt, done),
        Err(_) => panic!(rt; "a run that failed"),
    }
    assert_lane(rt, ran(rt, &kits, 0), 0);
    assert_lane(rt, ran(rt, &kits, 1), 1);
    assert!(rt; left.jobs == [(6, 0), (6, 0), (6, 0)]);
}

/// Three tasks on two processors have the rows of their plan at each window.
#[test]
fn runs_three_tasks(rt: HostRuntime) {
    let plan = three_tasks(&rt, rt.alloc());
    for window in [1, 2, 32, 1024] {
        assert_whole(&rt, rt.alloc(), &plan, window);
    }
}
