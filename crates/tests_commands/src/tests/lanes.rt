//! The rows of each processor in worked sets, a round a row, and what a call left of them.

use super::calls::{Left, Told, Worked};
use super::cases::Case;
use exec_workers::Kit;
use sched_base::{Leaf, Row, TaskId};
use sched_edges::ListGate;
use std::process::Abort;

const A: Leaf = Leaf::Task(TaskId(0));

const B: Leaf = Leaf::Task(TaskId(1));

const C: Leaf = Leaf::Task(TaskId(2));

const D: Leaf = Leaf::Task(TaskId(3));

const E: Leaf = Leaf::Task(TaskId(4));

/// A row.
macro_rules! row {
    ($processor:expr, $start:expr, $end:expr, $leaf:expr) => {
        Row {
            processor: $processor,
            start: $start,
            end: $end,
            leaf: $leaf,
        }
    };
}

/// The three tasks of rate 2/3.
const THREE: &[&[Row]] = &[
    &[row!(0, 0, 3, B), row!(0, 3, 6, A), row!(0, 6, 9, A)],
    &[row!(1, 0, 3, C), row!(1, 3, 6, C), row!(1, 6, 9, B)],
];

/// The three tasks of rate 2/3, and then two of rate 1/2 and one of rate 1/4.
const MODES: &[&[Row]] = &[
    &[
        row!(0, 0, 3, B),
        row!(0, 3, 6, A),
        row!(0, 6, 9, A),
        row!(0, 0, 4, A),
        row!(0, 4, 8, B),
        row!(0, 8, 12, A),
        row!(0, 12, 16, B),
    ],
    &[
        row!(1, 0, 3, C),
        row!(1, 3, 6, C),
        row!(1, 6, 9, B),
        row!(1, 0, 4, C),
        row!(1, 4, 8, Leaf::Idle(0)),
        row!(1, 8, 12, Leaf::Idle(0)),
        row!(1, 12, 16, Leaf::Idle(0)),
    ],
];

/// The two reductions.
const TWO: &[&[Row]] = &[
    &[
        row!(0, 0, 5, A),
        row!(0, 5, 10, C),
        row!(0, 10, 15, E),
        row!(0, 15, 25, E),
    ],
    &[
        row!(1, 0, 5, B),
        row!(1, 5, 10, B),
        row!(1, 10, 15, B),
        row!(1, 15, 25, A),
    ],
    &[
        row!(2, 0, 5, D),
        row!(2, 5, 10, D),
        row!(2, 10, 15, D),
        row!(2, 15, 25, C),
    ],
];

/// The task that is released late, and another.
const LATE: &[&[Row]] = &[&[
    row!(0, 0, 1, Leaf::Wait(TaskId(0))),
    row!(0, 1, 2, B),
    row!(0, 2, 3, B),
    row!(0, 3, 4, A),
    row!(0, 4, 5, A),
    row!(0, 5, 6, B),
    row!(0, 6, 7, B),
    row!(0, 7, 8, A),
    row!(0, 8, 9, A),
    row!(0, 9, 10, B),
]];

/// A worked schedule.
#[derive(Clone, Copy)]
pub(super) enum Schedule {
    /// Of the three tasks of rate 2/3.
    Three,
    /// Of the two reductions.
    Two,
    /// Of the three tasks, and of those that follow them as a mode.
    Modes,
    /// Of the task that is released late, and another.
    Late,
}

/// The rows of each processor that has some.
fn lanes_of(schedule: Schedule) -> &'static [&'static [Row]] {
    match schedule {
        Schedule::Three => THREE,
        Schedule::Two => TWO,
        Schedule::Modes => MODES,
        Schedule::Late => LATE,
    }
}

/// The ticks that each task works.
fn ticks_of(schedule: Schedule) -> &'static [u128] {
    match schedule {
        Schedule::Three => &[6, 6, 6],
        Schedule::Two => &[15, 15, 15, 15, 15],
        Schedule::Modes => &[8, 8, 4],
        Schedule::Late => &[4, 5],
    }
}

/// The rows of processor p; none where it has none.
fn lane_of<'a>(lanes: &[&'a [Row]], p: usize) -> &'a [Row] {
    match lanes.get(p) {
        Some(lane) => *lane,
        None => &[],
    }
}

/// The rows that the gate of a kit ran.
fn list_of<'a>(rt: &impl Abort, kit: &'a Kit<ListGate>) -> &'a [Row] {
    match &kit.gate {
        Some(gate) => gate.ran(),
        None => panic!(rt; "a gate is not in its kit"),
    }
}

/// What the gates and the jobs did in a call.
#[derive(Clone, Copy)]
pub(super) enum Did {
    /// It isn't looked at.
    Unseen,
    /// The source has so many bytes still to give. Else it isn't looked at.
    Unread(usize),
    /// No gate was called, and no job worked.
    Nothing,
    /// No gate was called and no job worked, and the source has so many bytes still to give.
    NothingRead(usize),
    /// The jobs worked these ticks.
    Worked(&'static [u128]),
    /// All rows of a schedule, after all bytes were read.
    Ran(Schedule),
    /// A drill of so many rounds on four processors, whose jobs worked these ticks. The source has so many bytes still to give.
    Drilled(usize, usize, &'static [u128]),
    /// The first rows of a schedule, up to a gate or a job that failed.
    Stopped(Front),
}

/// Makes sure of what the gates and the jobs did in the call of a row.
pub(super) fn assert_did(rt: &impl Abort, at: Case, left: &Left, did: Did) {
    match did {
        Did::Unseen => (),
        Did::Unread(count) => assert_unread(rt, at, &left.told, count),
        Did::Nothing => assert_ran(rt, at, left, &[], &[]),
        Did::NothingRead(count) => {
            assert_unread(rt, at, &left.told, count);
            assert_ran(rt, at, left, &[], &[]);
        }
        Did::Worked(ticks) => assert_worked(rt, at, left, ticks),
        Did::Ran(schedule) => {
            assert_unread(rt, at, &left.told, 0);
            assert_ran(rt, at, left, lanes_of(schedule), ticks_of(schedule));
        }
        Did::Drilled(rounds, count, ticks) => {
            assert_unread(rt, at, &left.told, count);
            assert_rounds(rt, at, left, rounds);
            assert_worked(rt, at, left, ticks);
        }
        Did::Stopped(front) => {
            assert_gates_stopped(rt, at, left, &front);
            assert_jobs_stopped(rt, at, left, &front);
        }
    }
}

/// Makes sure that the source has so many bytes still to give.
fn assert_unread(rt: &impl Abort, at: Case, told: &Told, count: usize) {
    let Case { line, number, .. } = at;
    let unread = told.unread;
    assert!(rt;
        unread == count,
        "row {number} of `{line}`: {unread} bytes are unread"
    );
}

/// Makes sure that each gate ran the rows of its processor, and each job worked the ticks of its task. Nothing failed.
fn assert_ran(rt: &impl Abort, at: Case, left: &Left, lanes: &[&[Row]], ticks: &[u128]) {
    let Case { line, number, .. } = at;
    for (p, kit) in left.kits.iter().enumerate() {
        let list = list_of(rt, kit);
        let ran = list.len();
        assert!(rt;
            list == lane_of(lanes, p),
            "row {number} of `{line}`: other rows on processor {p}, {ran} of them"
        );
    }
    assert!(rt;
        left.kits.len() == 32,
        "row {number} of `{line}`: a kit is gone"
    );
    assert_worked(rt, at, left, ticks);
}

/// Makes sure that each of the 256 jobs is back in its place and worked so many ticks, none where no ticks are told, and that
/// none failed.
fn assert_worked(rt: &impl Abort, at: Case, left: &Left, ticks: &[u128]) {
    let Case { line, number, .. } = at;
    for (i, job) in left.jobs.iter().enumerate() {
        let want = ticks.get(i).copied().unwrap_or(0);
        let Worked { ticks, faults, .. } = *job;
        assert!(rt;
            job.id as usize == i && ticks == want && faults == 0,
            "row {number} of `{line}`: job {i} worked {ticks} ticks, with {faults} faults"
        );
    }
    assert!(rt;
        left.jobs.len() == 256,
        "row {number} of `{line}`: a job is gone"
    );
}

/// Makes sure that each gate of four processors ran so many rows, and no other ran any.
fn assert_rounds(rt: &impl Abort, at: Case, left: &Left, rounds: usize) {
    let Case { line, number, .. } = at;
    for (p, kit) in left.kits.iter().enumerate() {
        let want = if p < 4 { rounds } else { 0 };
        let ran = list_of(rt, kit).len();
        assert!(rt;
            ran == want,
            "row {number} of `{line}`: {ran} rows on processor {p}"
        );
    }
}

/// Where an execution stopped.
#[derive(Clone, Copy)]
pub(super) struct Front {
    /// Whose first rows were run.
    pub schedule: Schedule,
    /// The processor of the gate or the job that failed.
    pub processor: u32,
    /// How many rows its gate ran.
    pub ran: usize,
    /// How many rows each gate ran at most.
    pub most: usize,
    /// The job that failed, if one did.
    pub failed: Option<u32>,
    /// A job, and the ticks that it worked, where they are known.
    pub worked: Option<(u32, u128)>,
}

/// Makes sure that each gate ran first rows of its processor, no more than the most, and the one of the fault's processor just so
/// many.
fn assert_gates_stopped(rt: &impl Abort, at: Case, left: &Left, front: &Front) {
    let Case { line, number, .. } = at;
    let lanes = lanes_of(front.schedule);
    for (p, kit) in left.kits.iter().enumerate() {
        let list = list_of(rt, kit);
        let is_front = p == front.processor as usize;
        let is_first = lane_of(lanes, p).starts_with(list);
        let is_counted = list.len() <= front.most && (!is_front || list.len() == front.ran);
        let ran = list.len();
        assert!(rt;
            is_first && is_counted,
            "row {number} of `{line}`: other rows on processor {p}, {ran} of them"
        );
    }
    assert!(rt;
        left.kits.len() == 32,
        "row {number} of `{line}`: a kit is gone"
    );
}

/// Makes sure that each job has worked at most the ticks of the rows that were run, and the one whose ticks are known just those.
/// The job that failed, where one did, failed once and worked nothing, and no other failed.
fn assert_jobs_stopped(rt: &impl Abort, at: Case, left: &Left, front: &Front) {
    let Case { line, number, .. } = at;
    for (i, job) in left.jobs.iter().enumerate() {
        let is_failed = Some(job.id) == front.failed;
        let is_own = job.id as usize == i && job.faults == u64::from(is_failed);
        let is_within = job.ticks <= ticks_run(rt, left, job.id) && (!is_failed || job.ticks == 0);
        let Worked { ticks, faults, .. } = *job;
        assert!(rt;
            is_own && is_within && is_known(front, job),
            "row {number} of `{line}`: job {i} worked {ticks} ticks, with {faults} faults"
        );
    }
    assert!(rt;
        left.jobs.len() == 256,
        "row {number} of `{line}`: a job is gone"
    );
}

/// Whether a job worked the ticks that are known of it, if they are.
fn is_known(front: &Front, job: &Worked) -> bool {
    match front.worked {
        Some((id, ticks)) => job.id != id || job.ticks == ticks,
        None => true,
    }
}

/// The ticks of the rows that the gates ran for a task.
fn ticks_run(rt: &impl Abort, left: &Left, task: u32) -> u128 {
    let leaf = Leaf::Task(TaskId(task));
    let mut ticks: u128 = 0;
    for kit in &left.kits {
        ticks = ticks.saturating_add(ticks_in(list_of(rt, kit), leaf));
    }
    ticks
}

fn ticks_in(rows: &[Row], leaf: Leaf) -> u128 {
    let mut ticks: u128 = 0;
    for row in rows {
        if row.leaf == leaf {
            ticks = ticks.saturating_add(row.end.saturating_sub(row.start));
        }
    }
    ticks
}
