//! Rounds of worked sets, and what the tests of them share.

mod boundaries;
mod cores;
mod limits;
mod merged;
mod opened;
mod picks;
mod schedules;
mod selected;
mod tables;
mod trees;
mod windows;

use run_compile::compile;
use run_tree::Plan;
use sample_sets::{NamedTask, set_of};
use sched_base::{Leaf, Row, TaskId};
use std::alloc::Global;
use std::process::Abort;

/// Three tasks of rate 2/3, for two processors.
const THREE_TASKS: &[NamedTask] = &[("a", 2, 3, 0), ("b", 2, 3, 0), ("c", 2, 3, 0)];

/// Five tasks of rate 3/5, for three processors.
const TWO_REDUCTIONS: &[NamedTask] = &[
    ("a", 3, 5, 0),
    ("b", 3, 5, 0),
    ("c", 3, 5, 0),
    ("d", 3, 5, 0),
    ("e", 3, 5, 0),
];

/// Two tasks of rate 1/2, for one processor, of which the first is late.
const OFFSET_OF_ONE: &[NamedTask] = &[("a", 1, 2, 1), ("b", 1, 2, 0)];

/// The plan of a set with these tasks.
fn plan_with(
    rt: &impl Abort,
    alloc: Global,
    processors: u32,
    horizon: u64,
    tasks: &[NamedTask],
) -> Plan {
    let set = set_of(alloc, processors, horizon, tasks).expect(rt, "a set");
    compile(alloc, set).expect(rt, "a plan")
}

/// A round's start and end, and what each processor runs, a letter each.
type Round<'a> = (u128, u128, &'a str);

/// The leaf of a letter: a task by its name, as a capital where it waits for its offset, and an idle leaf by its number.
fn leaf_of(letter: u8) -> Leaf {
    match letter {
        b'a'..=b'z' => Leaf::Task(TaskId(u32::from(letter - b'a'))),
        b'A'..=b'Z' => Leaf::Wait(TaskId(u32::from(letter - b'A'))),
        b'0'..=b'9' => Leaf::Idle(u32::from(letter - b'0')),
        _ => Leaf::Empty,
    }
}

/// Whether this is the row of a processor in a round.
fn is_row(row: &Row, processor: u32, round: &Round) -> bool {
    let (start, end, leaves) = round;
    match leaves.as_bytes().get(processor as usize) {
        None => false,
        Some(letter) => {
            row.processor == processor
                && row.start == *start
                && row.end == *end
                && row.leaf == leaf_of(*letter)
        }
    }
}

/// Whether this is the row of a processor in round k of these.
fn is_row_of(row: &Row, processor: u32, rounds: &[Round], k: usize) -> bool {
    match rounds.get(k) {
        None => false,
        Some(round) => is_row(row, processor, round),
    }
}
