//! Jobs that count when they are let go.
ghost use Rattle.std.specs.Prelude.{◌≡◌, ◌+◌, ◌<◌, None};

use crate::tests::calls::{Outside, SURE, kits_of, perform};
use crate::tests::cases::{Case, assert_told};
use crate::tests::texts::{THREE_ROWS, THREE_TASKS};
use run_tool::Status;
use sched_base::NoMemory;
use sched_edges::{Failed, Job, Jobs};
use std::alloc::Global;
use std::process::Abort;
use std::sync::atomic::{AtomicU64, Ordering};
use std::sync::{Arc, Wait};
use std::thread::Threads;

/// A job that counts its ticks, and adds one to a shared count when it is let go. Its first call may fail.
struct LastingJob {
    id: u32,
    used: u128,
    fails: bool,
    faults: u64,
    drops: Arc<AtomicU64>,
}

impl LastingJob {
    /// A job that has worked no tick yet.
    fn new(rt: &impl Abort, id: u32, fails: bool, drops: &Arc<AtomicU64>) -> LastingJob
        ensures id { result.id ≡ id }
        ensures used { result.used ≡ 0 }
    {
        LastingJob {
            id,
            used: 0,
            fails,
            faults: 0,
            drops: Arc::try_clone(drops).expect(rt, "there is memory"),
        }
    }
}

impl Drop for LastingJob {
    fn drop(self) {
        let LastingJob {
            id: _,
            used: _,
            fails: _,
            faults: _,
            drops,
        } = self;
        drops.fetch_add(1, Ordering::SeqCst);
    }
}

impl Job for LastingJob {
    ghost id = { λ j. j.id };

    ghost used = { λ j. j.used };

    ghost faults = { λ j. j.faults };

    ghost made = { λ _. None };

    fn id(&self) -> u32 {
        self.id
    }

    fn used(&self) -> u128 {
        self.used
    }

    fn faults(&self) -> u64 {
        self.faults
    }

    fn work(&mut self, ticks: u128) -> Result<(), Failed> {
        if self.fails {
            self.fails = false;
            self.faults = self.faults.saturating_add(1);
            return Err(Failed);
        }
        self.used += ticks;
        Ok(())
    }

    fn load(&mut self, _code: &[u64], _scale: u128) -> Result<(), NoMemory> {
        self.used = 0;
        Ok(())
    }

    fn state(&self) -> [u64; 9] {
        [0; 9]
    }
}

/// Whether the first call of task c's job fails, what else fails, the status, and what `out` and `err` take.
type Lasting = (bool, Outside, Status, &'static str, &'static str);

/// Each gate has room for three rows.
const ROOM: Outside = Outside {
    gate_room: 3,
    ..SURE
};

/// At the statuses 0, 10 and 11.
const LASTING: &[Lasting] = &[
    (false, ROOM, Status::Done, THREE_ROWS, ""),
    (
        false,
        Outside {
            gate: Some((1, 2)),
            ..ROOM
        },
        Status::GateFault,
        "",
        "refused 10 GateFault processor 1 row 3 6 c\n",
    ),
    (
        true,
        ROOM,
        Status::JobFault,
        "",
        "refused 11 JobFault task c processor 1 row 0 3\n",
    ),
];

// Executes the three tasks with jobs that count in `drops` when they are let go, of which that of task c may fail at its first call.
fn run_lasting<X: Threads + Wait + Abort + Sync>(
    rt: &X,
    alloc: Global,
    drops: &Arc<AtomicU64>,
    (number, (job_fails, outside, status, out, err)): (usize, &Lasting),
) {
    let mut jobs = Jobs::with_room(alloc, 256).expect(rt, "there is memory");
    for id in 0..256 {
        let job = LastingJob::new(rt, id, *job_fails && id == 2, drops);
        jobs.add(Box::new(alloc, job).expect(rt, "there is memory"));
    }
    let mut kits = kits_of(rt, alloc, outside);
    let input = THREE_TASKS.as_bytes();
    let at = Case {
        words: &["exec"],
        line: "exec",
        number,
    };
    let told = perform(rt, alloc, at.words, input, outside, &mut kits, &mut jobs);
    assert_told(rt, alloc, at, &told, (*status, &[*out], *err));
    assert!(rt; drops.load(Ordering::SeqCst) == 0, "row {number}");
}

/// Makes sure that the jobs are let go by the end and no sooner.
fn assert_lasting<X: Threads + Wait + Abort + Sync>(rt: &X, alloc: Global, row: (usize, &Lasting)) {
    let number = row.0;
    let drops = Arc::new(alloc, AtomicU64::new(0)).expect(rt, "there is memory");
    run_lasting(rt, alloc, &drops, row);
    assert!(rt; drops.load(Ordering::SeqCst) == 256, "row {number}");
}

#[test]
fn jobs_last_until_they_are_let_go(rt: HostRuntime) {
    for lasting in LASTING.iter().enumerate() {
        assert_lasting(&rt, rt.alloc(), lasting);
    }
}
