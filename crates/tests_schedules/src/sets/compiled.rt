//! Plans of worked sets, and the sets that are refused.
use run_compile::CompileFault::{Overload, ScaleTooLarge};
use run_compile::{CompileFault, compile, levels};
use sample_sets::{NamedTask, set_of};
use sched_base::TaskSet;
use std::alloc::Global;
use std::process::Abort;

/// The processors, the tasks, and of the plan the scale, the levels and the packs of level 0.
type Compiled = (u32, &'static [NamedTask<'static>], u128, u32, u32);

const COMPILED: &[Compiled] = &[
    (
        2,
        &[("a", 2, 3, 0), ("b", 2, 3, 0), ("c", 2, 3, 0)],
        3,
        2,
        3,
    ),
    // One idle leaf.
    (
        2,
        &[("a", 3, 5, 0), ("b", 3, 5, 0), ("c", 3, 5, 0)],
        5,
        2,
        3,
    ),
    // Two reductions.
    (
        3,
        &[
            ("a", 3, 5, 0),
            ("b", 3, 5, 0),
            ("c", 3, 5, 0),
            ("d", 3, 5, 0),
            ("e", 3, 5, 0),
        ],
        5,
        3,
        5,
    ),
    (2, &[], 1, 1, 2),
];

/// The tasks, and why they are refused on one processor.
const REFUSED: &[(&[NamedTask], CompileFault)] = &[
    (
        &[("a", 2, 3, 0), ("b", 1, 2, 0)],
        Overload { total: 7, room: 6 },
    ),
    (
        &[
            ("a", 1, 4294967295, 0),
            ("b", 1, 4294967294, 0),
            ("c", 1, 4294967293, 0),
        ],
        ScaleTooLarge { at: 2 },
    ),
    // The scale past the limit goes before the overload.
    (
        &[
            ("a", 4294967295, 4294967295, 0),
            ("b", 4294967294, 4294967294, 0),
            ("c", 4294967293, 4294967293, 0),
        ],
        ScaleTooLarge { at: 2 },
    ),
];

fn set_with(rt: &impl Abort, alloc: Global, processors: u32, tasks: &[NamedTask]) -> TaskSet {
    set_of(alloc, processors, 5, tasks).expect(rt, "a set")
}

fn compare(rt: &impl Abort, alloc: Global, (processors, tasks, scale, height, packs): Compiled) {
    let set = set_with(rt, alloc, processors, tasks);
    let plan = compile(alloc, set).expect(rt, "a plan");
    assert!(rt; plan.scale() == scale && levels(&plan) == height);
    assert!(rt; plan.set().count() as usize == tasks.len());
    assert!(rt; 0 < plan.tree().levels());
    assert!(rt; plan.tree().packs(0) == packs);
}

#[test]
fn compiles_and_refuses_sets(rt: HostRuntime) {
    for row in COMPILED {
        compare(&rt, rt.alloc(), *row);
    }
    for (number, (tasks, fault)) in REFUSED.iter().enumerate() {
        let set = set_with(&rt, rt.alloc(), 1, tasks);
        assert!(rt;
            compile(rt.alloc(), set).err() == Some(*fault),
            "refused set {number}"
        );
    }
}
