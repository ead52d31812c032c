//! Whether rounds are found to come again, over a hundred hyperperiods and more: it is looked for within an eighth of them.
use event_core::count_rounds;
use merged_rounds::recurrence_of;
use run_compile::compile;
use sample_sets::{NamedTask, set_of};
use std::alloc::Global;
use std::process::Abort;

/// Two tasks that share a processor, with a hyperperiod of 6 units, and with one of them late.
const SHARE_ONE: &[NamedTask] = &[("a", 1, 2, 0), ("b", 1, 3, 0)];

const SHARE_LATE: &[NamedTask] = &[("a", 1, 2, 0), ("b", 1, 3, 1)];

/// Five tasks that go from processor to processor, four at a time, with a hyperperiod of 5 units.
const TAKE_TURNS: &[NamedTask] = &[
    ("a", 4, 5, 0),
    ("b", 4, 5, 0),
    ("c", 4, 5, 0),
    ("d", 4, 5, 0),
    ("e", 4, 5, 0),
];

/// Five tasks of several rates for three processors, with a hyperperiod of 12 units.
const MIXED: &[NamedTask] = &[
    ("a", 1, 2, 0),
    ("b", 2, 3, 0),
    ("c", 3, 4, 0),
    ("d", 5, 6, 0),
    ("e", 1, 4, 0),
];

/// Processors, a horizon, tasks, and whether their rounds come again. The last hyperperiod isn't whole.
const CASES: &[(u32, u64, &[NamedTask], bool)] = &[
    (1, 601, SHARE_ONE, true),
    (4, 1003, TAKE_TURNS, true),
    (3, 2407, MIXED, true),
    (1, 601, SHARE_LATE, false),
];

/// Whether the rounds of a set are found to come again.
fn comes_again(
    rt: &impl Abort,
    alloc: Global,
    processors: u32,
    horizon: u64,
    tasks: &[NamedTask],
) -> bool {
    let set = set_of(alloc, processors, horizon, tasks).expect(rt, "a set");
    let plan = compile(alloc, set).expect(rt, "a plan");
    let count = count_rounds(alloc, &plan).expect(rt, "few rounds");
    assert!(rt; count < 4_294_967_296);
    let again = recurrence_of(alloc, &plan).expect(rt, "there is memory");
    again.is_some()
}

#[test]
fn rounds_come_again(rt: HostRuntime) {
    for (number, (processors, horizon, tasks, again)) in CASES.iter().enumerate() {
        let found = comes_again(&rt, rt.alloc(), *processors, *horizon, tasks);
        assert!(rt; found == *again, "set {number}");
    }
}
