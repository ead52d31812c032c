//! Scales, rates and totals of worked sets.
use rate_scale::{ScaleTooLarge, fits, rates_of, scale_of, total};
use sample_sets::{NamedTask, set_of};
use sched_base::TaskSet;
use std::alloc::Global;
use std::process::Abort;

/// The processors, the tasks, the scale or where it passes the limit, the rates, their total, and whether they fit.
type Scaled = (
    u32,
    &'static [NamedTask<'static>],
    Result<u128, ScaleTooLarge>,
    &'static [u128],
    u128,
    bool,
);

const SCALED: &[Scaled] = &[
    (
        2,
        &[("a", 2, 3, 0), ("b", 2, 3, 0), ("c", 2, 3, 0)],
        Ok(3),
        &[2, 2, 2],
        6,
        true,
    ),
    (
        1,
        &[("a", 2, 3, 0), ("b", 1, 2, 0)],
        Ok(6),
        &[4, 3],
        7,
        false,
    ),
    (2, &[], Ok(1), &[], 0, true),
    (1, &[("a", 1, 4294967295, 0)], Ok(4294967295), &[1], 1, true),
    (
        1,
        &[
            ("a", 1, 4294967295, 0),
            ("b", 1, 4294967294, 0),
            ("c", 1, 1073741822, 0),
        ],
        Ok(9903520288918769111801004030),
        &[
            2305843003844984834,
            2305843004381855745,
            9223372030412324865,
        ],
        13835058038639165444,
        true,
    ),
    // Past the limit.
    (
        1,
        &[
            ("a", 1, 4294967295, 0),
            ("b", 1, 4294967294, 0),
            ("c", 1, 4294967293, 0),
        ],
        Err(ScaleTooLarge { at: 2 }),
        &[],
        0,
        false,
    ),
];

/// Compares the scale of a set, and where it has one the rates, their total and whether they fit.
fn compare(
    rt: &impl Abort,
    alloc: Global,
    set: &TaskSet,
    scale: &Result<u128, ScaleTooLarge>,
    rates: &[u128],
    sum: u128,
    fitting: bool,
) {
    let found = scale_of(set);
    assert!(rt; found == *scale);
    if let Ok(found) = found {
        let told = rates_of(alloc, set, found).expect(rt, "there is memory");
        assert!(rt; told.as_slice() == rates);
        assert!(rt; total(set, found) == sum);
        assert!(rt; fits(set, found) == fitting);
    }
}

fn set_with(rt: &impl Abort, alloc: Global, processors: u32, tasks: &[NamedTask]) -> TaskSet {
    set_of(alloc, processors, 1, tasks).expect(rt, "a set")
}

#[test]
fn scales_totals_and_rates(rt: HostRuntime) {
    for (processors, tasks, scale, rates, sum, fitting) in SCALED {
        let set = set_with(&rt, rt.alloc(), *processors, tasks);
        compare(&rt, rt.alloc(), &set, scale, rates, *sum, *fitting);
    }
}
