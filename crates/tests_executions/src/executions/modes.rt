//! Lists of sets, and what joining them answers: values from outside.

mod runs;

use mode_switch::{ModeFault, ModeKind, Modes};
use sample_sets::{NamedTask, set_of};
use sched_base::TaskSet;
use std::alloc::Global;
use std::process::Abort;

/// A set: its processors, its horizon, and its tasks.
type Set<'a> = (u32, u64, &'a [NamedTask<'a>]);

const THIRDS: Set = (2, 3, &[("a", 2, 3, 0), ("b", 2, 3, 0), ("c", 2, 3, 0)]);

const OTHER: Set = (1, 3, &[("a", 1, 2, 1)]);

const LATE: Set = (2, 3, &[("a", 1, 3, 0), ("b", 1, 2, 1), ("c", 1, 3, 2)]);

const OPEN: Set = (2, 3, &[("a", 1, 2, 0)]);

const OVER: Set = (2, 3, &[("a", 3, 3, 0), ("b", 3, 3, 0), ("c", 1, 3, 0)]);

fn sets_of(rt: &impl Abort, alloc: Global, list: &[Set]) -> Vec<TaskSet> {
    let mut sets = Vec::new(alloc);
    for (processors, horizon, tasks) in list {
        let set = set_of(alloc, *processors, *horizon, tasks).expect(rt, "a set");
        sets.push(set).expect(rt, "there is memory");
    }
    sets
}

fn joined(rt: &impl Abort, alloc: Global, list: &[Set]) -> Result<Modes, ModeFault> {
    let sets = sets_of(rt, alloc, list);
    assert!(rt; !sets.is_empty());
    Modes::join(alloc, sets)
}

/// Two sets, of which the first is joined again behind the second.
const THREE_MODES: &[Set] = &[
    THIRDS,
    (2, 4, &[("a", 1, 2, 0), ("b", 1, 4, 0), ("c", 1, 4, 0)]),
    THIRDS,
];

#[test]
fn two_modes_follow_each_other(rt: HostRuntime) {
    let modes = joined(&rt, rt.alloc(), THREE_MODES).expect(&rt, "modes");
    assert!(rt; modes.count() == 3);
    assert!(rt; modes.start(0) == 0 && modes.start(1) == 3 && modes.start(2) == 7);
    assert!(rt; modes.plan(0).scale() == 3 && modes.plan(1).scale() == 4);
    assert!(rt; modes.rounds(0) == 3 && modes.rounds(2) == 3);
}

/// Sets, and the mode and the kind of the fault.
const REFUSED: &[(&[Set], u32, ModeKind)] = &[
    (&[OPEN], 0, ModeKind::Period { task: 0 }),
    (&[THIRDS, OTHER, LATE], 1, ModeKind::Processors),
    (&[THIRDS, LATE, OTHER], 1, ModeKind::Offset { task: 1 }),
    (
        &[THIRDS, THIRDS, OPEN, OVER],
        2,
        ModeKind::Period { task: 0 },
    ),
    (&[OVER, OTHER], 0, ModeKind::Overload { total: 7, room: 6 }),
    // on 32 processors 65,536 rounds are within the limit; here each unit is a round
    (
        &[
            (32, 65_535, &[("a", 1, 1, 0)]),
            (32, 1, &[("a", 1, 1, 0)]),
            (32, 1, &[("a", 1, 1, 0)]),
            OTHER,
        ],
        2,
        ModeKind::TooLong { rows: 2_097_184 },
    ),
];

/// Makes sure of the fault with which sets aren't joined.
fn assert_refused(rt: &impl Abort, alloc: Global, list: &[Set], mode: u32, kind: ModeKind) {
    match joined(rt, alloc, list) {
        Ok(_) => panic!(rt; "sets that are joined"),
        Err(fault) => assert!(rt; fault == ModeFault::Refused { mode, kind }),
    }
}

#[test]
fn the_first_fault_of_the_first_set_is_told(rt: HostRuntime) {
    for (list, mode, kind) in REFUSED {
        assert_refused(&rt, rt.alloc(), list, *mode, *kind);
    }
}
