//! What the lanes of a run say when it has ended.
ghost use Rattle.std.specs.Prelude.{◌≡◌, ◌≢◌, ◌<◌, ◌^◌, ◌↔◌, ℕ, Some, None, length, slice_set, IfSome, IfNone, IsTrue, true, false};
ghost use Rattle.sched_base.specs.declared.rows.Row.{Row};
ghost use Rattle.sched_base.specs.declared.rows.TaskId.{TaskId};
ghost use Rattle.exec_lanes.specs.Lanes.{lane_in, NoneFailed, AllAt};
ghost use Rattle.exec_lanes.specs.Ends.{posted_by, NoGateBefore, NoJobBefore, NamesLowest, JobsRose, KeepsCounts};

use crate::answers::FirstFault;
use crate::causes::Cause;
use crate::lanes::Lane;
use sched_base::Leaf;
use sched_edges::Gate;
use unit_ledger::PostLedger;

/// Whether some lane has failed.
pub fn any_failed<G: Gate, Q: PostLedger>(lanes: &[Lane<G, Q>]) -> bool
    ensures none { result ≡ false → NoneFailed lanes.now }
    ensures some { IsTrue result → (p : ℕ) × (p < length lanes.now) × ((lane_in lanes.now p).cause ≢ None) }
{
    for lane in lanes {
        if lane.cause.is_some() {
            return true;
        }
    }
    false
}

/// Whether each lane has posted that many rows.
pub fn all_at<G: Gate, Q: PostLedger>(lanes: &[Lane<G, Q>], rounds: u64) -> bool
    ensures { IsTrue result ↔ AllAt rounds lanes.now }
{
    for lane in lanes {
        if lane.seat.posted() != rounds {
            return false;
        }
    }
    true
}

/// Notes how many rows each lane has posted. `posted` has a number for each lane.
pub fn note_posted<G: Gate, Q: PostLedger>(lanes: &[Lane<G, Q>], posted: &mut [u64])
    requires { length posted.old ≡ length lanes.now }
    ensures { posted.new ≡ posted_by lanes.now }
{
    for p in 0..lanes.len() {
        posted[p] = lanes[p].seat().posted();
    }
}

/// Notes how often the jobs that failed have failed since. `counts` says how often the job of each task has failed; the others stay as
/// they are.
pub fn note_faults<G: Gate, Q: PostLedger>(lanes: &[Lane<G, Q>], counts: &mut [u64])
    requires { JobsRose counts.old lanes.now }
    ensures { KeepsCounts lanes.now (length lanes.now) counts.old counts.new }
{
    for lane in lanes {
        note_fault(lane.cause(), counts);
    }
}

// Notes how often the job that failed has failed since, where one did.
fn note_fault(cause: &Option<Cause>, counts: &mut [u64])
    requires { (r : Row) (faults : ℕ) (task : TaskId) →
        cause.now ≡ Some (Cause.Job r faults) → r.leaf ≡ Leaf.Task task → task.0 < length counts.old }
    ensures job { (r : Row) (faults : ℕ) (task : TaskId) →
        cause.now ≡ Some (Cause.Job r faults) → r.leaf ≡ Leaf.Task task → counts.new ≡ slice_set counts.old task.0 faults }
    ensures none { ((r : Row) (faults : ℕ) (task : TaskId) →
        cause.now ≡ Some (Cause.Job r faults) → r.leaf ≡ Leaf.Task task → ⊥) → counts.new ≡ counts.old }
{
    if let Some(Cause::Job { row, faults }) = *cause {
        if let Leaf::Task(task) = row.leaf {
            counts[task.0 as usize] = faults;
        }
    }
}

/// The failure of the lowest processor whose gate failed, or else of the lowest one on which a job failed. None where nothing failed.
pub fn first_fault<G: Gate, Q: PostLedger>(lanes: &[Lane<G, Q>]) -> Option<FirstFault>
    requires { length lanes.now < 2 ^ 32 }
    ensures some { IfSome result (λ fault. NamesLowest lanes.now fault) }
    ensures none { IfNone result (NoGateBefore lanes.now (length lanes.now) × NoJobBefore lanes.now (length lanes.now)) }
{
    match first_gate(lanes) {
        Some(fault) => Some(fault),
        None => first_job(lanes),
    }
}

// The failure of the lowest processor whose gate failed.
fn first_gate<G: Gate, Q: PostLedger>(lanes: &[Lane<G, Q>]) -> Option<FirstFault>
    requires { length lanes.now < 2 ^ 32 }
    ensures some { IfSome result (λ fault. NamesLowest lanes.now fault) }
    ensures none { IfNone result (NoGateBefore lanes.now (length lanes.now)) }
{
    for p in 0..lanes.len() as u32 {
        if let Some(Cause::Gate { row }) = *lanes[p as usize].cause() {
            return Some(FirstFault::Gate { processor: p, row });
        }
    }
    None
}

// The failure of the lowest processor on which a job failed, where no gate failed.
fn first_job<G: Gate, Q: PostLedger>(lanes: &[Lane<G, Q>]) -> Option<FirstFault>
    requires few { length lanes.now < 2 ^ 32 }
    requires no_gate { NoGateBefore lanes.now (length lanes.now) }
    ensures some { IfSome result (λ fault. NamesLowest lanes.now fault) }
    ensures none { IfNone result (NoJobBefore lanes.now (length lanes.now)) }
{
    for p in 0..lanes.len() as u32 {
        if let Some(Cause::Job { row, faults: _ }) = *lanes[p as usize].cause() {
            if let Leaf::Task(task) = row.leaf {
                return Some(FirstFault::Job {
                    task: task.0,
                    processor: p,
                    row,
                });
            }
        }
    }
    None
}
