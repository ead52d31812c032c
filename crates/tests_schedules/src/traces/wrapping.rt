//! Worked sets, wrapped.
ghost use Rattle.std.specs.Prelude.{◌≤◌, ◌^◌};
ghost use Rattle.sched_base.specs.Scale.{Fits, IsScale};

use merged_rows::MergedRows;
use rate_scale::{fits, scale_of};
use sample_sets::{add_task, set_of};
use sched_base::{Leaf, Row, RowTable, TaskSet};
use std::alloc::Global;
use std::process::Abort;
use wrap_sched::{WrapFault, merged_wrap, wrap, wrap_rounds};

/// Equal tasks: their number, work, period and offset.
type Group = (u32, u64, u64, u64);

/// A set of groups of equal tasks.
fn grouped_set(
    rt: &impl Abort,
    alloc: Global,
    processors: u32,
    horizon: u64,
    groups: &[Group],
) -> TaskSet {
    let mut set = set_of(alloc, processors, horizon, &[]).expect(rt, "a set");
    for group in groups {
        add_group(rt, &mut set, group);
    }
    set
}

/// Adds the tasks of a group.
fn add_group(rt: &impl Abort, set: &mut TaskSet, (count, work, period, offset): &Group) {
    for _task in 0..*count {
        let name = name_of(set.count());
        add_task(set, &name, *work, *period, *offset).expect(rt, "a task");
    }
}

/// The name of a task by its place, of which at most a hundred are told apart.
fn name_of(place: u32) -> [u8; 3] {
    [
        b't',
        b'0' + (place / 10 % 10) as u8,
        b'0' + (place % 10) as u8,
    ]
}

/// The scale of a set that fits.
fn scale_that_fits(rt: &impl Abort, set: &TaskSet) -> u128
    ensures scale { IsScale set.now.tasks result }
    ensures small { result ≤ 2 ^ 94 }
    ensures fits { Fits result set.now }
{
    match scale_of(set) {
        Ok(scale) => {
            assert!(rt; fits(set, scale));
            scale
        }
        Err(_) => panic!(rt; "no scale"),
    }
}

/// A leaf as one letter: a task by its small letter, one that waits by its capital, an idle leaf by a dot.
fn letter(leaf: Leaf) -> u8 {
    match leaf {
        Leaf::Task(id) => b'a' + (id.0 % 26) as u8,
        Leaf::Wait(id) => b'A' + (id.0 % 26) as u8,
        Leaf::Idle(_) => b'.',
        Leaf::Empty => b'?',
    }
}

/// Compares a row with a letter, and with the ticks at which it starts and ends.
fn compare_row(rt: &impl Abort, row: &Row, ticks: (Option<u128>, Option<u128>), shown: Option<u8>) {
    assert!(rt; (Some(row.start), Some(row.end)) == ticks);
    assert!(rt; Some(letter(row.leaf)) == shown);
}

/// Compares the rows of processor p with letters, one for each round, and with the ticks at which the rounds start.
fn compare(rt: &impl Abort, table: &RowTable, p: u32, starts: &[u128], letters: &str) {
    assert!(rt; p < table.processors());
    assert!(rt; table.rounds() == letters.len() as u64);
    for k in 0..table.rounds() {
        let place = k as usize;
        let ticks = (
            starts.get(place).copied(),
            starts.get(place.saturating_add(1)).copied(),
        );
        compare_row(
            rt,
            &table.row(p, k),
            ticks,
            letters.as_bytes().get(place).copied(),
        );
    }
}

/// Compares the first lanes of a set that is wrapped, each with letters as in `compare`.
fn compare_wrapped(rt: &impl Abort, alloc: Global, set: &TaskSet, starts: &[u128], lanes: &[&str]) {
    let scale = scale_that_fits(rt, set);
    let rounds = wrap_rounds(alloc, set, scale).expect(rt, "few rounds");
    assert!(rt; rounds.saturating_add(1) == starts.len() as u64);
    let table = wrap(alloc, set, scale, rounds).expect(rt, "there is memory");
    assert!(rt; table.processors() == set.processors());
    assert!(rt; lanes.len() <= table.processors() as usize);
    for (letters, p) in lanes.iter().zip(0..table.processors()) {
        compare(rt, &table, p, starts, letters);
    }
}

/// Processors, a horizon, tasks, the ticks at which the rounds start with the end, and the leaves of the first processors.
type Wrapped = (
    u32,
    u64,
    &'static [Group],
    &'static [u128],
    &'static [&'static str],
);

const WRAPPED: &[Wrapped] = &[
    (2, 3, &[(3, 2, 3, 0)], &[0, 3, 6, 9], &["aab", "bcc"]),
    (
        2,
        4,
        &[(2, 1, 2, 0), (1, 1, 4, 0)],
        &[0, 2, 4, 8, 10, 12, 16],
        &["aabaab", "c..c.."],
    ),
    (2, 4, &[(1, 2, 2, 0)], &[0, 4, 8], &["aa", ".."]),
    (1, 3, &[(1, 1, 2, 1)], &[0, 1, 2, 4, 6], &["A.a."]),
    (
        1,
        4,
        &[(1, 1, 2, 0), (1, 1, 2, 1)],
        &[0, 1, 2, 3, 4, 5, 6, 7, 8],
        &["aBababab"],
    ),
    (1, 1, &[(1, 1, 2, 5)], &[0, 1, 2], &["A."]),
    (2, 1, &[], &[0, 1], &[".", "."]),
    (
        32,
        2,
        &[(3, 2, 3, 0), (30, 1, 1, 0)],
        &[0, 1, 2, 3, 4, 5, 6],
        &["aabaab", "bccbcc", "dddddd", "eeeeee"],
    ),
];

#[test]
fn wraps_worked_sets(rt: HostRuntime) {
    for (processors, horizon, tasks, starts, lanes) in WRAPPED {
        let set = grouped_set(&rt, rt.alloc(), *processors, *horizon, tasks);
        compare_wrapped(&rt, rt.alloc(), &set, starts, lanes);
    }
}

/// The merged rows of a set that is wrapped to three rounds.
fn merged(rt: &impl Abort, alloc: Global, set: &TaskSet) -> MergedRows {
    let scale = scale_that_fits(rt, set);
    assert!(rt; wrap_rounds(alloc, set, scale) == Ok(3));
    merged_wrap(alloc, set, scale).expect(rt, "there is memory")
}

/// Compares the two rows of a processor with these, each told by its start, its end and a letter.
fn compare_merged(rt: &impl Abort, rows: &MergedRows, processor: u32, want: [(u128, u128, u8); 2]) {
    assert!(rt; processor < rows.processors());
    assert!(rt; rows.count(processor) == 2);
    for i in 0..2 {
        let row = rows.row(processor, i);
        assert!(rt;
            (row.start, row.end, letter(row.leaf)) == want[i],
            "row {i} of processor {processor}"
        );
    }
}

// Three tasks of rate 2/3 on two processors: on each of them two rounds under one name are one row.
#[test]
fn merges_the_rows_of_a_worked_set(rt: HostRuntime) {
    let set = grouped_set(&rt, rt.alloc(), 2, 3, &[(3, 2, 3, 0)]);
    let rows = merged(&rt, rt.alloc(), &set);
    assert!(rt; rows.processors() == 2);
    compare_merged(&rt, &rows, 0, [(0, 6, b'a'), (6, 9, b'b')]);
    compare_merged(&rt, &rows, 1, [(0, 3, b'b'), (3, 9, b'c')]);
}

/// A horizon, and how many rounds it has: with 32 processors as many as 65536 are within the limit of rows.
const COUNTS: &[(u64, Result<u64, WrapFault>)] = &[
    (65_536, Ok(65_536)),
    (65_537, Err(WrapFault::TooLong { rows: 2_097_184 })),
];

#[test]
fn counts_up_to_the_limit(rt: HostRuntime) {
    for (horizon, count) in COUNTS {
        let set = grouped_set(&rt, rt.alloc(), 32, *horizon, &[(1, 1, 1, 0)]);
        let scale = scale_that_fits(&rt, &set);
        let found = wrap_rounds(rt.alloc(), &set, scale);
        assert!(rt; found == *count, "horizon {horizon}");
    }
}
