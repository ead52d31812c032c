//! Texts that `tree` writes of worked sets, and sinks that fail.
use super::worked_texts::{NINE_TASKS, ONE_IDLE_LEAF, THREE_TASKS, TWO_REDUCTIONS};
use run_compile::compile;
use sample_sets::{NamedTask, set_of};
use sched_edges::{Failed, MemSink};
use std::alloc::Global;
use std::process::Abort;
use tree_text::write_tree;

/// A set: its processors, its horizon and its tasks.
type Set = (u32, u64, &'static [NamedTask<'static>]);

/// Three tasks of rate 2/3.
const TWO_THIRDS: Set = (2, 3, &[("a", 2, 3, 0), ("b", 2, 3, 0), ("c", 2, 3, 0)]);

/// Three tasks of rate 3/5.
const THREE_FIFTHS: Set = (2, 5, &[("a", 3, 5, 0), ("b", 3, 5, 0), ("c", 3, 5, 0)]);

/// Five tasks of rate 3/5.
const FIVE_TASKS: Set = (
    3,
    5,
    &[
        ("a", 3, 5, 0),
        ("b", 3, 5, 0),
        ("c", 3, 5, 0),
        ("d", 3, 5, 0),
        ("e", 3, 5, 0),
    ],
);

/// Nine tasks of a vehicle, in microseconds. Their first pack is a root, so no dual of the level above is ~0.
const VEHICLE: Set = (
    4,
    1_000_000,
    &[
        ("control", 600, 1_000, 0),
        ("sense", 1_200, 2_000, 0),
        ("fuse", 3_000, 5_000, 0),
        ("plan", 6_000, 10_000, 0),
        ("video", 12_000, 20_000, 0),
        ("log", 10_000, 50_000, 0),
        ("net", 30_000, 100_000, 0),
        ("store", 60_000, 200_000, 0),
        ("health", 200_000, 1_000_000, 0),
    ],
);

/// Ten tasks with the longest names.
const LONG_NAMES: Set = (
    1,
    10,
    &[
        ("a1234567890123456789012345678901", 1, 10, 0),
        ("b1234567890123456789012345678901", 1, 10, 0),
        ("c1234567890123456789012345678901", 1, 10, 0),
        ("d1234567890123456789012345678901", 1, 10, 0),
        ("e1234567890123456789012345678901", 1, 10, 0),
        ("f1234567890123456789012345678901", 1, 10, 0),
        ("g1234567890123456789012345678901", 1, 10, 0),
        ("h1234567890123456789012345678901", 1, 10, 0),
        ("i1234567890123456789012345678901", 1, 10, 0),
        ("j1234567890123456789012345678901", 1, 10, 0),
    ],
);

/// The text of their tree. The line of the pack has 338 bytes.
const LONG_PACK: &str =
    "run-tree 1\nprocessors 1\nhorizon 10\nscale 10\ntasks 10\ntask a1234567890123456789012345678901 1 10\n\
        task b1234567890123456789012345678901 1 10\ntask c1234567890123456789012345678901 1 10\n\
        task d1234567890123456789012345678901 1 10\ntask e1234567890123456789012345678901 1 10\n\
        task f1234567890123456789012345678901 1 10\ntask g1234567890123456789012345678901 1 10\n\
        task h1234567890123456789012345678901 1 10\ntask i1234567890123456789012345678901 1 10\n\
        task j1234567890123456789012345678901 1 10\nidles 0\nlevel 0 1\npack 10 \
        a1234567890123456789012345678901 b1234567890123456789012345678901 c1234567890123456789012345678901 \
        d1234567890123456789012345678901 e1234567890123456789012345678901 f1234567890123456789012345678901 \
        g1234567890123456789012345678901 h1234567890123456789012345678901 i1234567890123456789012345678901 \
        j1234567890123456789012345678901\nlevels 1\n";

/// The text of the tree of no task on two processors.
const NO_TASK: &str =
    "run-tree 1\nprocessors 2\nhorizon 1\nscale 1\ntasks 0\nidles 2\nidle 0 1\nidle 1 1\nlevel 0 2\npack 1 -0\npack 1 -1\nlevels 1\n";

/// Compares whether the text of a set's tree is written to a sink of this room that fails at these calls, and what it takes.
fn compare(
    rt: &impl Abort,
    alloc: Global,
    set: Set,
    room: usize,
    fails: &[u64],
    written: Result<(), Failed>,
    taken: &str,
) {
    let (processors, horizon, tasks) = set;
    let set = set_of(alloc, processors, horizon, tasks).expect(rt, "a set");
    let plan = compile(alloc, set).expect(rt, "a plan");
    let mut sink = MemSink::new(alloc, room, fails).expect(rt, "there is memory");
    assert!(rt; write_tree(&plan, &mut sink) == written);
    assert!(rt; sink.taken() == taken.as_bytes());
}

#[test]
fn texts_of_worked_sets(rt: HostRuntime) {
    for (set, text) in [
        (TWO_THIRDS, THREE_TASKS.text),
        (THREE_FIFTHS, ONE_IDLE_LEAF.text),
        (FIVE_TASKS, TWO_REDUCTIONS.text),
        (VEHICLE, NINE_TASKS.text),
        (LONG_NAMES, LONG_PACK),
        ((2, 1, &[]), NO_TASK),
    ] {
        compare(&rt, rt.alloc(), set, 2048, &[], Ok(()), text);
    }
}

#[test]
fn sinks_that_fail_take_a_first_part(rt: HostRuntime) {
    let fails: &[u64] = &[3];
    // room, calls that fail, what was taken
    for (room, fails, taken) in [
        (2048, fails, "run-tree 1\nprocessors 2\n"),
        (20, &[], "run-tree 1\nprocessor"),
        (0, &[], ""),
    ] {
        compare(&rt, rt.alloc(), TWO_THIRDS, room, fails, Err(Failed), taken);
    }
}
