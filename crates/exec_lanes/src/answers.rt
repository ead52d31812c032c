//! What a run answers.
ghost use Rattle.std.specs.Prelude.{◌≡◌, ◌<◌, ◌≤◌, ℕ, []};
ghost use Rattle.sched_edges.specs.Jobs.{JobAt};
ghost use Rattle.exec_lanes.specs.declared.answers.ExecFault.TheVariants.{NoMemory};
ghost use Rattle.exec_lanes.specs.Ends.{fault_with};
ghost use Rattle.exec_lanes.specs.Rooms.{IsAnswerOf};

use crate::stage::push_totals;
use sched_base::{NoMemory, Row, RowTable, Totals};
use sched_edges::{Job, JobList};
use thiserror::Error;
use unit_ledger::Posts;

/// A run that came to its end.
#[derive(Drop)]
pub struct Executed {
    /// All rounds of the plan's schedule.
    pub table: RowTable,
    /// The ticks that the job of each task has worked.
    pub totals: Totals,
    /// The number of posted rows, with which the ledger closed.
    pub posts: Posts,
}

/// Why a run ended early.
#[derive(Clone, Copy, Debug, Error)]
pub enum ExecFault {
    /// This processor's gate failed at this row, the next one that it was to run. The ledger closed at this number of
    /// posted rows.
    #[error("the gate of processor {processor} failed")]
    Gate {
        processor: u32,
        row: Row,
        posts: Posts,
    },
    /// No gate failed. The job of this task failed at this row, the last one that the processor's gate ran. The ledger
    /// closed at this number of posted rows.
    #[error("the job of task {task} failed on processor {processor}")]
    Job {
        task: u32,
        processor: u32,
        row: Row,
        posts: Posts,
    },
    /// Memory was refused, before any gate was called.
    #[error("there is no memory for the run")]
    NoMemory,
}

/// The failure that a run is to name, before its ledger has closed: processors and tasks by their numbers.
#[derive(Clone, Copy)]
pub enum FirstFault {
    /// This processor's gate failed at this row.
    Gate { processor: u32, row: Row },
    /// No gate failed. The job of this task failed at this row.
    Job { task: u32, processor: u32, row: Row },
}

impl FirstFault {
    /// The answer that names it, with the number of posted rows at which the ledger closed.
    pub(crate) fn with_posts(self, posts: Posts) -> ExecFault
        ensures { result ≡ fault_with self posts }
    {
        match self {
            FirstFault::Gate { processor, row } => ExecFault::Gate {
                processor,
                row,
                posts,
            },
            FirstFault::Job {
                task,
                processor,
                row,
            } => ExecFault::Job {
                task,
                processor,
                row,
                posts,
            },
        }
    }
}

/// What a run answers that ended so, with the jobs of the first n tasks back in their places: the failure, or where there is none the
/// table and what each of these jobs has used. `totals` has room for them.
pub fn answer_of<J: Job>(
    table: RowTable,
    fault: Option<FirstFault>,
    posts: Posts,
    jobs: &JobList<J>,
    totals: Totals,
    n: u32,
) -> Result<Executed, ExecFault>
    requires none { totals.ticks ≡ [] }
    requires room { n ≤ totals.room }
    requires there { (t : ℕ) → t < n → (job : J) × JobAt jobs.now.places t job }
    ensures { IsAnswerOf J.used n jobs.now.places table posts fault result }
{
    match fault {
        Some(fault) => Err(fault.with_posts(posts)),
        None => {
            let mut totals = totals;
            push_totals(jobs, &mut totals, n);
            Ok(Executed {
                table,
                totals,
                posts,
            })
        }
    }
}

impl From<NoMemory> for ExecFault {
    ghost from_gives = { λ _ e. e ≡ NoMemory };

    fn from(_: NoMemory) -> ExecFault {
        ExecFault::NoMemory
    }
}
