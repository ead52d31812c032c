//! The job of a row at its work.
ghost use Rattle.std.specs.Prelude.{◌≡◌, ◌+◌, ◌<◌, ◌^◌, Some, None, IsOk, OnOk, OnErr, IfErr};
ghost use Rattle.exec_lanes.specs.Lanes.{HasRisen, JobRose};

use sched_base::{Leaf, Row};
use sched_edges::{Failed, Job};
use std::sync::Wait;

/// Has the job that goes with a row work for that many ticks, where there is one. Where it fails, it has worked none of them, and the
/// error is its count of faults since.
pub fn work_on<J: Job>(job: &mut Option<J>, ticks: u128) -> Result<(), u64>
    requires { (j : J) → job.old ≡ Some j → J.used j + ticks < 2 ^ 127 }
    ensures none { job.old ≡ None → (job.new ≡ None) × IsOk result }
    ensures kept { (j : J) → job.old ≡ Some j → (k : J) × (job.new ≡ Some k) × (J.id k ≡ J.id j) }
    ensures made { (k : J) → job.new ≡ Some k → (j : J) × (job.old ≡ Some j) × (J.made k ≡ J.made j) }
    ensures ok { OnOk result ((j k : J) → job.old ≡ Some j → job.new ≡ Some k → J.used k ≡ J.used j + ticks) }
    ensures count { OnOk result ((j k : J) → job.old ≡ Some j → job.new ≡ Some k → J.faults k ≡ J.faults j) }
    ensures left_used { OnErr result ((j k : J) → job.old ≡ Some j → job.new ≡ Some k → J.used k ≡ J.used j) }
    ensures told { IfErr result (λ faults. (k : J) → job.new ≡ Some k → J.faults k ≡ faults) }
    ensures err { IfErr result (λ faults. (j : J) × (job.old ≡ Some j) × HasRisen (J.faults j) faults) }
{
    match job {
        Some(job) => match job.work(ticks) {
            Ok(()) => Ok(()),
            Err(Failed) => Err(job.faults()),
        },
        None => Ok(()),
    }
}

/// The count of faults of the job that failed at a row, which is past the given one of its task. `counts` says how often the job of
/// each task has failed. With any other count it goes round for good: of such a job no cause is kept.
pub fn risen<R: Wait>(rt: &R, counts: &[u64], row: &Row, faults: u64) -> u64
    ensures same { result ≡ faults }
    ensures rose { JobRose counts.now row.now result }
{
    for _ in rt.forever() {
        if let Leaf::Task(task) = row.leaf {
            if let Some(count) = counts.get(task.0 as usize) {
                if faults > *count || faults == u64::MAX {
                    return faults;
                }
            }
        }
    }
    unreachable!()
}
