//! Taking a row from the book, and putting it back.
ghost use Rattle.std.specs.Prelude.{◌≡◌, ◌+◌, length};
ghost use Rattle.std.specs.Sync.Mutex.{mutex_guard_value};
ghost use Rattle.sched_base.specs.declared.rows.Row.{Row as DeclaredRow};
ghost use Rattle.run_tree.specs.Plans.{PlanContents};
ghost use Rattle.book_machine.specs.declared.events.Event.TheVariants.{Halt};
ghost use Rattle.plan_rounds.specs.Parts.{processor};
ghost use Rattle.exec_book.specs.Books.{PutsBack};
ghost use Rattle.locked_book.specs.Found.{IsAgreed, IsOutWith, IsToldAt, StandsAt};
ghost use Rattle.locked_book.specs.Promises.{Agrees, TakeGives, GivesRow, HasWorked};

use crate::found::{is_halted_or_told, is_job_of, is_out_at, stands_at, ticks_of};
use crate::turns::{TURNS, wait_for_good};
use crate::workplace::Workplace;
use exec_book::{Book, Look, Next};
use exec_lanes::{lock_soon, note_calls, wake};
use run_tree::Plan;
use sched_base::Row;
use sched_edges::Job;
use std::sync::{Mutex, MutexGuard, Wait};
use unit_ledger::{LaneSeat, PostLedger};

/// Takes the next row of a seat's lane, with its task's job. `counts` says how often the job of each task has failed.
///
/// It tries again until it finds a book of this plan that isn't dismissed, has no row out on the lane and stands at the
/// seat's count, and is halted or has jobs that have failed as often as is given. A book found halted says nothing further.
pub fn take_row<Q: PostLedger, J: Job, R: Wait>(
    rt: &R,
    book: &Mutex<Book<Q, J>>,
    plan: &Plan,
    seat: &LaneSeat<Q>,
    counts: &[u64],
) -> Look<J>
    requires counts { length counts.now ≡ length plan.now.set.tasks }
    ensures { TakeGives J.id J.used J.made J.faults Q.made plan.now seat.now counts.now result }
{
    plan.know_lawful();
    let work = Workplace::alone(rt, book, plan);
    let mut guard = lock_told_at(&work, seat, counts);
    let held = &mut *guard;
    held.take(seat.lane())
}

// Takes the lock of a book that isn't dismissed, stands at the seat's count with no row out on the seat's lane, and is halted or has
// jobs that have failed as often as is given.
fn lock_told_at<'a, Q: PostLedger, J: Job, R: Wait>(
    work: &Workplace<'a, Q, J, R>,
    seat: &LaneSeat<Q>,
    counts: &[u64],
) -> MutexGuard<'a, Book<Q, J>>
    requires agreed { IsAgreed work.now.plan.now Q.set }
    requires counts { length counts.now ≡ length work.now.plan.now.set.tasks }
    ensures { IsToldAt J.faults work.now.plan.now (mutex_guard_value result) seat.now counts.now }
{
    for _ in 0..TURNS {
        let guard = lock_at(work, seat, false);
        let held = &*guard;
        if is_halted_or_told(held, counts) {
            return guard;
        }
    }
    wait_for_good(work.rt)
}

/// Posts a row that is out on a seat's lane, with its job, which has worked the row's ticks.
///
/// It tries again until it finds a book of this plan with this row out on the lane, which stands at the seat's count and to
/// which the job belongs.
pub fn post_row<Q: PostLedger, J: Job, R: Wait>(
    rt: &R,
    book: &Mutex<Book<Q, J>>,
    plan: &Plan,
    seat: &mut LaneSeat<Q>,
    row: &Row,
    job: Option<J>,
)
    requires agrees { Agrees J.made Q.made row.now.leaf job }
    ensures { seat.new ≡ record seat.old { posted = seat.old.posted + 1 } }
{
    let work = Workplace::alone(rt, book, plan);
    let lane = seat.lane();
    let mut guard = lock_out_at(&work, seat, row, &job, ticks_of(row));
    let held = &mut *guard;
    held.post(lane, seat, job);
}

/// Puts a row that is out on a seat's lane back unposted, with its job, which hasn't worked for it, and halts the book.
///
/// It tries again as `post_row` does.
pub fn halt_row<Q: PostLedger, J: Job, R: Wait>(
    rt: &R,
    book: &Mutex<Book<Q, J>>,
    plan: &Plan,
    seat: &LaneSeat<Q>,
    row: &Row,
    job: Option<J>,
)
    requires agrees { Agrees J.made Q.made row.now.leaf job }
{
    let work = Workplace::alone(rt, book, plan);
    let mut guard = lock_out_at(&work, seat, row, &job, 0);
    let held = &mut *guard;
    halt_found(held, seat, job);
}

// Puts the row back that is out on the seat's lane in the book that was found, with its job, which hasn't worked for it, and halts
// the book.
fn halt_found<Q: PostLedger, J: Job>(held: &mut Book<Q, J>, seat: &LaneSeat<Q>, job: Option<J>)
    requires { (p : PlanContents) × (row : DeclaredRow) × IsOutWith J.id J.used J.made Q.made p held.old seat.now row job 0 }
    ensures halts { PutsBack held.old held.new seat.now.lane job (Halt (processor seat.now.lane)) held.old.side }
{
    held.halt(seat.lane(), job);
}

// Takes the lock of a book with this row out on the seat's lane, at the seat's count, to which the job belongs, having worked that many
// ticks for the row.
fn lock_out_at<'a, Q: PostLedger, J: Job, R: Wait>(
    work: &Workplace<'a, Q, J, R>,
    seat: &LaneSeat<Q>,
    row: &Row,
    job: &Option<J>,
    ticks: u128,
) -> MutexGuard<'a, Book<Q, J>>
    requires agreed { IsAgreed work.now.plan.now Q.set }
    requires agrees { Agrees J.made Q.made row.now.leaf job.now }
    ensures { IsOutWith J.id J.used J.made Q.made work.now.plan.now (mutex_guard_value result) seat.now row.now job.now ticks }
{
    for _ in 0..TURNS {
        let guard = lock_soon(work.rt, work.book);
        let held = &*guard;
        if is_out_at(held, work.plan, seat, row) && is_job_of(held, seat.lane(), row, job, ticks) {
            return guard;
        }
    }
    wait_for_good(work.rt)
}

/// Takes the next row of a seat's lane, of a plan with the ledger's set, with its task's job. How often the job has failed isn't
/// looked at.
///
/// It tries again until it finds a book that isn't dismissed, has no row out on the lane and stands at the seat's count.
#[inline(never)]
pub fn take_next<Q: PostLedger, J: Job, R: Wait>(
    work: &Workplace<'_, Q, J, R>,
    seat: &LaneSeat<Q>,
) -> Next<J>
    requires agreed { IsAgreed work.now.plan.now Q.set }
    ensures { GivesRow J.id J.used J.made Q.made work.now.plan.now seat.now result }
{
    let lane = seat.lane();
    let mut guard = lock_at(work, seat, false);
    let held = &mut *guard;
    let next = held.take_next(lane);
    note_wait(work, lane, &next);
    next
}

// Notes for a lane that was just told to wait how often its worker has been woken. The book is still held, so whoever is to wake it
// does so later.
fn note_wait<Q: PostLedger, J: Job, R>(work: &Workplace<'_, Q, J, R>, lane: u32, next: &Next<J>) {
    if matches!(next, Next::Waits) {
        note_calls(work.waiters, lane);
    }
}

/// Posts the row that was taken on a seat's lane, with its job, which has worked the row's ticks, and takes the lane's next row: two
/// events while the lock is held once. Then it wakes the lanes that waited for the post.
///
/// It tries again until it finds a book that isn't dismissed, has a row out on the lane and stands at the seat's count: that is the row.
#[inline(always)]
pub fn post_and_take<Q: PostLedger, J: Job, R: Wait>(
    work: &Workplace<'_, Q, J, R>,
    seat: &mut LaneSeat<Q>,
    job: Option<J>,
) -> Next<J>
    requires agreed { IsAgreed work.now.plan.now Q.set }
    requires worked { (row : DeclaredRow) × HasWorked J.id J.used J.made Q.made work.now.plan.now seat.old row job }
    ensures seat { seat.new ≡ record seat.old { posted = seat.old.posted + 1 } }
    ensures gives { GivesRow J.id J.used J.made Q.made work.now.plan.now seat.new result }
{
    let lane = seat.lane();
    let mut guard = lock_at(work, seat, true);
    let held = &mut *guard;
    held.post(lane, seat, job);
    let woken = held.woken();
    let next = held.take_next(lane);
    note_wait(work, lane, &next);
    drop(guard);
    wake(work.waiters, woken);
    next
}

// Takes the lock of a book that isn't dismissed, and stands at the seat's count, with a row out on the seat's lane or with none.
#[inline(always)]
fn lock_at<'a, Q: PostLedger, J: Job, R: Wait>(
    work: &Workplace<'a, Q, J, R>,
    seat: &LaneSeat<Q>,
    out: bool,
) -> MutexGuard<'a, Book<Q, J>>
    requires agreed { IsAgreed work.now.plan.now Q.set }
    ensures { StandsAt work.now.plan.now (mutex_guard_value result) seat.now out }
{
    for _ in 0..TURNS {
        let guard = lock_soon(work.rt, work.book);
        let held = &*guard;
        if stands_at(held, work.plan, seat, out) {
            return guard;
        }
    }
    wait_for_good(work.rt)
}
