//! The book of a run, opened with its ledger and with the jobs.
ghost use Rattle.std.specs.Prelude.{◌≡◌, ◌<◌, ℕ, None, length, slice_index_or, IfOk, IfErr};
ghost use Rattle.sched_edges.specs.Jobs.{JobAt};
ghost use Rattle.exec_lanes.specs.Rooms.{IsOpened};
ghost use Rattle.exec_workers.specs.Runs.{IsExecutable, AreFresh};

use exec_book::{Book, JobsBack};
use exec_lanes::{lay_jobs, lift_jobs};
use run_tree::Plan;
use sched_base::NoMemory;
use sched_edges::{Job, JobList};
use std::alloc::Global;
use std::sync::ledger::Blank;
use unit_ledger::{PostLedger, Seats};

/// Opens a ledger, and moves the jobs of a plan's tasks into a book of the plan. Where memory is refused they are where they were.
pub(crate) fn open_book<Q: PostLedger, J: Job>(
    alloc: Global,
    blank: Blank,
    plan: &Plan,
    rounds: u64,
    window: u32,
    jobs: &mut JobList<J>,
) -> Result<(Book<Q, J>, Seats<Q>), NoMemory>
    requires name { blank.name ≡ Q.name }
    requires parts { blank.parts ≡ Q.parts }
    requires a_part_each { blank.parts ≡ plan.now.tree.processors }
    requires executable { IsExecutable plan.now rounds window }
    requires set { plan.now.set ≡ Q.set }
    requires jobs { AreFresh J.id J.used (length plan.now.set.tasks) jobs.old.places }
    requires made { (t : ℕ) (job : J) → t < length plan.now.set.tasks → JobAt jobs.old.places t job → J.made job ≡ slice_index_or Q.made t None }
    ensures opened { IfOk result (λ opened. IsOpened plan.now jobs.old.places jobs.new.places opened.1) }
    ensures kept { IfErr result (λ refused. jobs.new.places ≡ jobs.old.places) }
{
    let n = plan.set().count();
    let copy = plan.copy()?;
    let mut out = JobList::with_room(alloc, n)?;
    let (side, seats) = unit_ledger::open::<Q>(blank, alloc, plan.tree().processors())?;
    lift_jobs(jobs, &mut out, n);
    match Book::new(alloc, copy, rounds, window, side, out) {
        Ok(book) => Ok((book, seats)),
        Err(JobsBack { jobs: mut back }) => {
            lay_jobs(&mut back, jobs, n);
            Err(NoMemory)
        }
    }
}
