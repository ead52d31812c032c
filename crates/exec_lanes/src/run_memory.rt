//! The room that a run takes before it begins.
ghost use Rattle.std.specs.Prelude.{◌<◌, ℕ, length, vec_len, vec_capacity, IfOk};
ghost use Rattle.sched_edges.specs.Jobs.{JobAt};
ghost use Rattle.exec_lanes.specs.Rooms.{HasRoom};

use crate::lanes::Lane;
use crate::stage::fault_counts;
use crate::waiters::Waiters;
use run_tree::Plan;
use sched_base::{NoMemory, Totals};
use sched_edges::{Gate, Job, JobList};
use std::alloc::Global;
use unit_ledger::PostLedger;

/// What a run needs memory for beside its book.
#[derive(Drop)]
pub struct RunMemory<G: Gate, Q: PostLedger> {
    /// How often the job of each task has failed.
    pub counts: Vec<u64>,
    /// A number for each lane.
    pub posted: Vec<u64>,
    /// Nobody waits yet.
    pub waiters: Waiters,
    /// None yet, with room for one of each task.
    pub totals: Totals,
    /// None yet, with room for one of each processor.
    pub lanes: Vec<Lane<G, Q>>,
}

impl<G: Gate, Q: PostLedger> RunMemory<G, Q> {
    /// The room for a run of this plan with these jobs. The only error is want of memory.
    pub fn of_plan<J: Job>(
        alloc: Global,
        plan: &Plan,
        jobs: &JobList<J>,
    ) -> Result<RunMemory<G, Q>, NoMemory>
        requires { (t : ℕ) → t < length plan.now.set.tasks → (job : J) × JobAt jobs.now.places t job }
        ensures { IfOk result (λ r. HasRoom J.faults plan.now jobs.now.places r.counts.items r.posted.items r.totals (vec_len r.lanes) (vec_capacity r.lanes)) }
    {
        let m = plan.tree().processors();
        let n = plan.set().count();
        Ok(RunMemory {
            counts: fault_counts(alloc, jobs, n)?,
            posted: vec![in alloc; 0u64; m as usize]?,
            waiters: Waiters::of_lanes(alloc, m)?,
            totals: Totals::with_room(alloc, n)?,
            lanes: Vec::with_capacity(alloc, m as usize)?,
        })
    }
}
