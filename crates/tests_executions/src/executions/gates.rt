//! Gates that tests hand in.

use sched_base::{Leaf, Row, TaskId};
use sched_edges::{Gate, ListGate, SureGate};
use std::alloc::Global;
use std::process::Abort;

/// The row of three ticks that begins at this tick.
fn row(start: u128) -> Row {
    Row {
        processor: 0,
        start,
        end: start.saturating_add(3),
        leaf: Leaf::Task(TaskId(1)),
    }
}

/// Which calls fail, the room, and whether each of the three rows is run.
const CASES: &[(&[u64], usize, [bool; 3])] = &[
    (&[], 3, [true, true, true]),
    (&[1, 3], 3, [false, true, false]),
    (&[4], 2, [true, true, false]),
    (&[2], 1, [true, false, false]),
    (&[], 0, [false, false, false]),
];

/// Has a gate run a row, and makes sure that it did so or failed.
fn assert_run(rt: &impl Abort, gate: &mut ListGate, row: &Row, runs: bool) {
    let before = gate.ran().len();
    assert!(rt; gate.run(row).is_ok() == runs);
    if runs {
        assert!(rt; gate.ran().get(before) == Some(row));
    }
    let more = if runs { 1 } else { 0 };
    assert!(rt; gate.ran().len() == before.saturating_add(more));
}

/// Has a gate run three rows.
fn assert_runs(rt: &impl Abort, alloc: Global, room: usize, fails: &[u64], [a, b, c]: [bool; 3]) {
    let mut gate = ListGate::new(alloc, room, fails).expect(rt, "there is memory");
    assert_run(rt, &mut gate, &row(0), a);
    assert_run(rt, &mut gate, &row(3), b);
    assert_run(rt, &mut gate, &row(6), c);
}

#[test]
fn runs_rows_until_it_fails(rt: HostRuntime) {
    for (fails, room, runs) in CASES {
        assert_runs(&rt, rt.alloc(), *room, fails, *runs);
    }
    assert!(rt; SureGate::new().run(&row(0)) == Ok(()));
}
