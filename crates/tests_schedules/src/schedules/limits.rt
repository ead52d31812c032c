//! Rounds at the limit of rows, and past it.
use super::plan_with;
use event_core::{CountFault, count_rounds};
use partition_rounds::merged_of;
use run_tree::Plan;
use sample_sets::NamedTask;
use std::alloc::Global;
use std::process::Abort;

/// Compares the number of rounds, and the number of processors whose rows are merged.
fn assert_counts(
    rt: &impl Abort,
    alloc: Global,
    plan: &Plan,
    rounds: Result<u64, CountFault>,
    lanes: Result<u32, CountFault>,
) {
    let horizon = plan.set().horizon();
    assert!(rt; count_rounds(alloc, plan) == rounds, "horizon {horizon}");
    let count = match merged_of(alloc, plan) {
        Ok(merged) => Ok(merged.processors()),
        Err(fault) => Err(fault),
    };
    assert!(rt; count == lanes, "horizon {horizon}");
}

const ALL_THE_TIME: &[NamedTask] = &[("a", 1, 1, 0)];

/// Two tasks with a processor each, of which the second has one period that ends behind all horizons.
const EACH_ALONE: &[NamedTask] = &[("a", 1, 2, 0), ("b", 900_000, 1_100_003, 0)];

/// Processors, tasks, a horizon, and what counting and merging answer.
type Limit = (
    u32,
    &'static [NamedTask<'static>],
    u64,
    Result<u64, CountFault>,
    Result<u32, CountFault>,
);

/// One task that runs all the time, on one processor, where as many as 2097152 rounds are within the limit of rows, one a unit, and on 32, where
/// as many as 65536 are; and two tasks that have a processor each, where as many as 1048576 are.
const LIMITS: &[Limit] = &[
    (1, ALL_THE_TIME, 2_097_152, Ok(2_097_152), Ok(1)),
    (
        1,
        ALL_THE_TIME,
        2_097_153,
        Err(CountFault::TooLong { rows: 2_097_153 }),
        Err(CountFault::TooLong { rows: 2_097_153 }),
    ),
    (32, ALL_THE_TIME, 65_536, Ok(65_536), Ok(32)),
    (
        32,
        ALL_THE_TIME,
        65_537,
        Err(CountFault::TooLong { rows: 2_097_184 }),
        Err(CountFault::TooLong { rows: 2_097_184 }),
    ),
    (2, EACH_ALONE, 1_048_576, Ok(1_048_576), Ok(2)),
    (
        2,
        EACH_ALONE,
        1_048_577,
        Err(CountFault::TooLong { rows: 2_097_154 }),
        Err(CountFault::TooLong { rows: 2_097_154 }),
    ),
];

#[test]
fn counts_and_merges_up_to_the_limit(rt: HostRuntime) {
    for (processors, tasks, horizon, rounds, lanes) in LIMITS {
        let plan = plan_with(&rt, rt.alloc(), *processors, *horizon, tasks);
        assert_counts(&rt, rt.alloc(), &plan, *rounds, *lanes);
    }
}
