//! One run over a book.
ghost use Rattle.std.specs.Prelude.{◌≡◌, ◌≤◌, ◌<◌, ℕ, List, length, slice_index, sum, IfSome, IfNone, vec_len, vec_capacity};
ghost use Rattle.sched_base.specs.Tables.{rounds_in, ticks_of};
ghost use Rattle.sched_edges.specs.Jobs.{FaultsAre};
ghost use Rattle.run_tree.specs.Plans.{rounds_of};
ghost use Rattle.book_machine.specs.Rounds.{AreFirstRounds};
ghost use Rattle.plan_rounds.specs.PlanRows.{plan_rows};
ghost use Rattle.exec_book.specs.Jobs.{AllAtHome};
ghost use Rattle.unit_ledger.specs.Seats.{seats_at_start};
ghost use Rattle.exec_lanes.specs.Lanes.{LaneContents, AllServed, NoneFailed, AllAt};
ghost use Rattle.exec_lanes.specs.Kits.{AreFilled};
ghost use Rattle.exec_lanes.specs.Ends.{NamesLowest, KeepsCounts, posted_by};
ghost use Rattle.exec_workers.specs.Fronts.{IsFrontAt, StaysWithin};
ghost use Rattle.exec_workers.specs.Runs.{GatesRan, HandedOut, FailedWereDue, NamesFirst, ClosedAt};

use crate::close::close_after;
use crate::passes::serve_passes;
use exec_book::{Book, Closing};
use exec_lanes::{
    FirstFault, Kit, Lane, Waiters, empty_lanes, fill_lanes, first_fault, note_faults, note_posted,
};
use locked_book::Workplace;
use run_tree::Plan;
use sched_base::RowTable;
use sched_edges::{Gate, Job, JobList};
use std::sync::{Mutex, Wait};
use std::thread::Threads;
use unit_ledger::{PostLedger, Posts, Seats};

/// What a run leaves beside the gates: the jobs, the rounds computed, the failure that is to be named, and the number of
/// posted rows, with which the ledger closed.
#[derive(Drop)]
pub(crate) struct Ended<J> {
    pub(crate) jobs: JobList<J>,
    pub(crate) table: RowTable,
    pub(crate) fault: Option<FirstFault>,
    pub(crate) posts: Posts,
}

/// Runs the gates of the first kits over a book that nobody has taken from. `counts` says how often each task's job has
/// failed, before and after; `lanes` and `posted` have room for all lanes.
pub(crate) fn run_gates<
    G: Gate + Send,
    Q: PostLedger + Send + Sync,
    J: Job + Send,
    R: Threads + Wait + Sync,
>(
    rt: &R,
    book: Book<Q, J>,
    plan: &Plan,
    rounds: u64,
    window: u32,
    seats: Seats<Q>,
    kits: &mut [Kit<G>],
    lanes: Vec<Lane<G, Q>>,
    counts: &mut [u64],
    posted: &mut [u64],
    waiters: &Waiters,
) -> Ended<J>
    requires rounds { rounds ≡ rounds_of plan.now }
    requires counts { length counts.old ≡ length plan.now.set.tasks }
    requires seats { seats ≡ seats_at_start plan.now.tree.processors }
    requires kits { AreFilled plan.now.tree.processors kits.old }
    requires none { vec_len lanes ≡ 0 }
    requires room { plan.now.tree.processors ≤ vec_capacity lanes }
    requires places { length posted.old ≡ plan.now.tree.processors }
    ensures { (ends : List LaneContents) × GatesRan G.ran G.faults plan.now counts.old counts.new kits.old kits.new ends ×
        HandedOut J.id J.used J.made J.faults Q.made plan.now window counts.new ends result.jobs.places result.table ×
        NamesFirst (rounds_of plan.now) ends result.fault × ClosedAt ends result.posts }
{
    let m = plan.tree().processors();
    let mut seats = seats;
    let mut lanes = lanes;
    fill_lanes(kits, &mut seats, &mut lanes, m);
    let book = Mutex::new(book);
    let work = Workplace {
        rt,
        book: &book,
        plan,
        waiters: Some(waiters),
    };
    let (closing, fault) = serve_book(&work, rounds, window, lanes.as_mut_slice(), counts, posted);
    empty_lanes(kits, &mut seats, lanes);
    let Closing { jobs, side, table } = closing;
    let posts = unit_ledger::close(side, seats);
    Ended {
        jobs,
        table,
        fault,
        posts,
    }
}

/// Serves all lanes to the end, or until one has failed, and closes the book. `counts` says how often each task's job has
/// failed, before and after.
pub(crate) fn serve_book<
    G: Gate + Send,
    Q: PostLedger + Send + Sync,
    J: Job + Send,
    R: Threads + Wait + Sync,
>(
    work: &Workplace<'_, Q, J, R>,
    rounds: u64,
    window: u32,
    lanes: &mut [Lane<G, Q>],
    counts: &mut [u64],
    posted: &mut [u64],
) -> (Closing<Q, J>, Option<FirstFault>)
    requires rounds { rounds ≡ rounds_of work.now.plan.now }
    requires counts { length counts.old ≡ length work.now.plan.now.set.tasks }
    requires width { length lanes.old ≡ work.now.plan.now.tree.processors }
    requires places { length posted.old ≡ length lanes.old }
    requires fresh { NoneFailed lanes.old }
    ensures served { AllServed (plan_rows work.now.plan.now) counts.old lanes.old lanes.new }
    ensures counts { KeepsCounts lanes.new (length lanes.new) counts.old counts.new }
    ensures side { result.0.side ≡ sum (posted_by lanes.new) }
    ensures jobs { AllAtHome J.id J.used J.made Q.made (length work.now.plan.now.set.tasks)
        (λ t. ticks_of t (plan_rows work.now.plan.now) (posted_by lanes.new)) result.0.jobs.places }
    ensures faults { FaultsAre J.faults result.0.jobs.places counts.new }
    ensures table { AreFirstRounds result.0.table.lanes (plan_rows work.now.plan.now) }
    ensures held { (p : ℕ) → slice_index (posted_by lanes.new) p ≤ rounds_in result.0.table.lanes }
    ensures front { IsFrontAt work.now.plan.now (posted_by lanes.new) }
    ensures within { StaysWithin window (posted_by lanes.new) }
    ensures due { FailedWereDue (plan_rows work.now.plan.now) window lanes.new }
    ensures some { IfSome result.1 (λ fault. NamesLowest lanes.new fault) }
    ensures none { IfNone result.1 (NoneFailed lanes.new × AllAt (rounds_of work.now.plan.now) lanes.new) }
{
    let _few = work.plan.tree().processors();
    serve_passes(work, lanes, counts, rounds);
    note_posted(lanes, posted);
    note_faults(lanes, counts);
    let fault = first_fault(lanes);
    let closing = close_after(work, window, lanes, posted, counts);
    (closing, fault)
}
