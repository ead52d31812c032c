//! What is tested of a book that is found under the lock.
ghost use Rattle.std.specs.Prelude.{◌≡◌, ◌+◌, ◌-◌, length, false, IsTrue};
ghost use Rattle.sched_edges.specs.Jobs.{FaultsAre};
ghost use Rattle.run_tree.specs.Plans.{IsPlan};
ghost use Rattle.book_machine.specs.Reached.{OutRow};
ghost use Rattle.plan_rounds.specs.PlanRows.{plan_rows};
ghost use Rattle.plan_rounds.specs.Parts.{posted_ticks};
ghost use Rattle.exec_book.specs.Jobs.{IsJobOf};
ghost use Rattle.exec_book.specs.Books.{IsDismissed};
ghost use Rattle.locked_book.specs.Found.{AreDue, IsAgreed, IsOutAt, IsWholeAt, StandsAt};
ghost use Rattle.locked_book.specs.Promises.{Agrees};

use exec_book::Book;
use exec_lanes::{Lane, is_same_plan};
use run_tree::Plan;
use sched_base::{Leaf, Row};
use sched_edges::{Gate, Job};
use unit_ledger::{LaneSeat, PostLedger};

/// The ticks of a row.
pub fn ticks_of(row: &Row) -> u128
    ensures { result ≡ row.now.end - row.now.start }
{
    row.end.saturating_sub(row.start)
}

/// Whether the book is one of this plan.
pub(crate) fn is_of_plan<Q: PostLedger, J: Job>(book: &Book<Q, J>, plan: &Plan) -> bool
    ensures same { IsTrue result → book.now.plan ≡ plan.now }
    ensures agreed { IsTrue result → IsAgreed plan.now Q.set }
{
    is_same_plan(book.plan(), plan)
}

// A book of the ledger is one of the compiled plan with the ledger's set. Whether it isn't dismissed.
fn is_of_run<Q: PostLedger, J: Job>(book: &Book<Q, J>, plan: &Plan) -> bool
    requires agreed { IsAgreed plan.now Q.set }
    ensures plan { book.now.plan ≡ plan.now }
    ensures lawful { IsPlan book.now.plan }
    ensures lanes { length book.now.state.lanes ≡ book.now.plan.tree.processors }
    ensures open { IsTrue result → ¬ (IsDismissed book.now) }
{
    plan.know_lawful();
    let _of_run = book.plan();
    !book.dismissed()
}

/// Whether the book is not dismissed, and stands at the seat's count, with a row out on the seat's lane or with none.
pub(crate) fn stands_at<Q: PostLedger, J: Job>(
    book: &Book<Q, J>,
    plan: &Plan,
    seat: &LaneSeat<Q>,
    out: bool,
) -> bool
    requires agreed { IsAgreed plan.now Q.set }
    ensures { IsTrue result → StandsAt plan.now book.now seat.now out }
{
    if !is_of_run(book, plan) || seat.lane() >= plan.tree().processors() {
        return false;
    }
    let _follows = book.log();
    let lane = book.lane(seat.lane());
    lane.out == out && lane.posted == seat.posted()
}

/// Whether the book is halted, or each job at home has failed as often as is given.
pub(crate) fn is_halted_or_told<Q: PostLedger, J: Job>(book: &Book<Q, J>, counts: &[u64]) -> bool
    requires open { ¬ (IsDismissed book.now) }
    requires counts { length counts.now ≡ length book.now.plan.set.tasks }
    ensures { IsTrue result → book.now.state.halted ≡ false → FaultsAre J.faults book.now.jobs.places counts.now }
{
    book.halted() || book.faults_are(counts)
}

/// Whether this row is out on the seat's lane at the seat's count.
pub(crate) fn is_out_at<Q: PostLedger, J: Job>(
    book: &Book<Q, J>,
    plan: &Plan,
    seat: &LaneSeat<Q>,
    row: &Row,
) -> bool
    requires agreed { IsAgreed plan.now Q.set }
    ensures { IsTrue result → IsOutAt plan.now book.now seat.now row.now }
{
    let p = seat.lane();
    if !is_of_run(book, plan) || p >= plan.tree().processors() {
        return false;
    }
    let lane = book.lane(p);
    if !lane.out || lane.posted != seat.posted() {
        return false;
    }
    book.table().row(p, lane.posted) == *row
}

/// Whether a job is that of the row that is out on lane p, having worked that many ticks for it.
pub(crate) fn is_job_of<Q: PostLedger, J: Job>(
    book: &Book<Q, J>,
    p: u32,
    row: &Row,
    job: &Option<J>,
    ticks: u128,
) -> bool
    requires out { OutRow (plan_rows book.now.plan) book.now.state p row.now }
    requires agrees { Agrees J.made Q.made row.now.leaf job.now }
    ensures { IsTrue result → IsJobOf J.id J.used J.made Q.made (λ t. posted_ticks (plan_rows book.now.plan) book.now.state t + ticks) row.now.leaf job.now }
{
    match row.leaf {
        Leaf::Task(task) => match job {
            Some(job) => {
                let used = job.used();
                if job.id() != task.0 || used < ticks {
                    return false;
                }
                used - ticks == book.handed(p)
            }
            None => false,
        },
        Leaf::Wait(_) | Leaf::Idle(_) | Leaf::Empty => job.is_none(),
    }
}

/// Whether the book has this window, and the next row of each lane that failed could be taken, were the book not halted.
pub fn are_due<G: Gate, Q: PostLedger, J: Job>(
    book: &Book<Q, J>,
    window: u32,
    lanes: &[Lane<G, Q>],
    processors: u32,
) -> bool
    requires open { ¬ (IsDismissed book.now) }
    requires width { length lanes.now ≡ processors }
    requires lanes { length book.now.state.lanes ≡ processors }
    ensures window { IsTrue result → book.now.window ≡ window }
    ensures due { IsTrue result → AreDue (plan_rows book.now.plan) book.now.window book.now.state lanes.now }
{
    if book.window() != window {
        return false;
    }
    for p in 0..processors {
        if lanes[p as usize].cause().is_some() && !book.is_due(p) {
            return false;
        }
    }
    true
}

/// Whether the book is not dismissed, no row is out, and these are the posted counts.
pub fn is_whole_at<Q: PostLedger, J: Job>(book: &Book<Q, J>, plan: &Plan, posted: &[u64]) -> bool
    requires agreed { IsAgreed plan.now Q.set }
    requires lanes { length posted.now ≡ plan.now.tree.processors }
    ensures { IsTrue result → IsWholeAt plan.now book.now posted.now }
{
    if !is_of_run(book, plan) {
        return false;
    }
    for p in 0..plan.tree().processors() {
        let lane = book.lane(p);
        if lane.out || lane.posted != posted[p as usize] {
            return false;
        }
    }
    true
}
