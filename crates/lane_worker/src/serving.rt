//! Serving one lane.
ghost use Rattle.std.specs.Prelude.{◌≡◌, None, length, IsTrue};
ghost use Rattle.plan_rounds.specs.PlanRows.{plan_rows};
ghost use Rattle.exec_lanes.specs.Lanes.{Served};
ghost use Rattle.locked_book.specs.Found.{IsAgreed};
ghost use Rattle.locked_book.specs.Promises.{GivesRow};

use exec_book::{Book, Next};
use exec_lanes::{Cause, Lane, risen, wait, work_on};
use locked_book::{TURNS, Workplace, halt_row, post_and_take, take_next, ticks_of, wait_for_good};
use run_tree::Plan;
use sched_edges::{Failed, Gate, Job};
use std::sync::{Mutex, Wait};
use unit_ledger::PostLedger;

/// Serves a lane on which nothing has failed: takes its next row, has the gate run it and the task's job work for its ticks,
/// and posts it. Where the gate or the job fails it halts the book and keeps the cause.
///
/// It ends when all rows of the lane are posted, at a halted book, after a failure, and when the lane has been found waiting
/// 10,000 times in a row.
pub fn serve<G: Gate, Q: PostLedger, J: Job, R: Wait>(
    rt: &R,
    book: &Mutex<Book<Q, J>>,
    plan: &Plan,
    lane: &mut Lane<G, Q>,
    counts: &[u64],
)
    requires counts { length counts.now ≡ length plan.now.set.tasks }
    requires fresh { lane.old.cause ≡ None }
    ensures { Served (plan_rows plan.now) counts.now lane.old lane.new }
{
    let work = Workplace::alone(rt, book, plan);
    serve_lane(&work, lane, counts);
}

/// Serves a lane of a plan with the ledger's set, as `serve` does. Beside other workers a worker that waits sleeps until it is woken.
pub fn serve_lane<G: Gate, Q: PostLedger, J: Job, R: Wait>(
    work: &Workplace<'_, Q, J, R>,
    lane: &mut Lane<G, Q>,
    counts: &[u64],
)
    requires agreed { IsAgreed work.now.plan.now Q.set }
    requires counts { length counts.now ≡ length work.now.plan.now.set.tasks }
    requires fresh { lane.old.cause ≡ None }
    ensures { Served (plan_rows work.now.plan.now) counts.now lane.old lane.new }
{
    let mut waits = 0;
    work.begin();
    let mut next = take_next(work, &lane.seat);
    for _ in 0..TURNS {
        if !follow(work, lane, counts, &mut waits, &mut next) {
            work.end();
            return;
        }
    }
    wait_for_good(work.rt)
}

// Does what the last take on the lane says: runs the row that was taken, posts it and takes the next one, or waits and takes again. Then
// `next` is what the lane's last take says. False where the lane has come to an end. `waits` says how often in a row the lane was found
// waiting.
fn follow<G: Gate, Q: PostLedger, J: Job, R: Wait>(
    work: &Workplace<'_, Q, J, R>,
    lane: &mut Lane<G, Q>,
    counts: &[u64],
    waits: &mut u32,
    next: &mut Next<J>,
) -> bool
    requires agreed { IsAgreed work.now.plan.now Q.set }
    requires counts { length counts.now ≡ length work.now.plan.now.set.tasks }
    requires fresh { lane.old.cause ≡ None }
    requires gives { GivesRow J.id J.used J.made Q.made work.now.plan.now lane.old.seat next.old }
    ensures served { Served (plan_rows work.now.plan.now) counts.now lane.old lane.new }
    ensures more { IsTrue result → lane.new.cause ≡ None }
    ensures gives { IsTrue result → GivesRow J.id J.used J.made Q.made work.now.plan.now lane.new.seat next.new }
{
    work.plan.know_lawful();
    match next {
        Next::Ready { row, job } => {
            *waits = 0;
            if let Err(Failed) = lane.gate.run(row) {
                halt_row(work.rt, work.book, work.plan, &lane.seat, row, job.take());
                lane.cause = Some(Cause::Gate { row: *row });
                return false;
            }
            if let Err(faults) = work_on(job, ticks_of(row)) {
                let faults = risen(work.rt, counts, row, faults);
                halt_row(work.rt, work.book, work.plan, &lane.seat, row, job.take());
                lane.cause = Some(Cause::Job { row: *row, faults });
                return false;
            }
            let job = job.take();
            *next = post_and_take(work, &mut lane.seat, job);
        }
        Next::Waits => {
            if !wait(work.rt, work.waiters, lane.seat.lane(), waits) {
                return false;
            }
            *next = take_next(work, &lane.seat);
        }
        Next::Done | Next::Halted => return false,
    }
    true
}
