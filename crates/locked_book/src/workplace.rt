//! What the workers of a run work with.
ghost use Rattle.std.specs.Prelude.{◌≡◌};
ghost use Rattle.locked_book.specs.Found.{IsAgreed};

use crate::found::is_of_plan;
use crate::turns::{TURNS, wait_for_good};
use exec_book::Book;
use exec_lanes::Waiters;
use run_tree::Plan;
use sched_edges::Job;
use std::sync::{Mutex, Wait};
use unit_ledger::PostLedger;

/// What the workers of a run work with: the runtime, the lock of its book, and its plan.
#[derive(Drop)]
pub struct Workplace<'a, Q: PostLedger, J: Job, R> {
    pub rt: &'a R,
    pub book: &'a Mutex<Book<Q, J>>,
    pub plan: &'a Plan,
    /// Where each of them sleeps while it waits, where they work beside one another.
    pub waiters: Option<&'a Waiters>,
}

impl<'a, Q: PostLedger, J: Job, R: Wait> Workplace<'a, Q, J, R> {
    /// That of one who works alone. The plan agrees with the ledger, as `agree` says.
    pub fn alone(rt: &'a R, book: &'a Mutex<Book<Q, J>>, plan: &'a Plan) -> Workplace<'a, Q, J, R>
        ensures plan { result.plan.now ≡ plan.now }
        ensures agreed { IsAgreed plan.now Q.set }
    {
        let work = Workplace {
            rt,
            book,
            plan,
            waiters: None,
        };
        work.agree();
        work
    }

    /// Waits for a book of the plan: then the set is the ledger's, and so each book of the ledger is of this plan.
    pub fn agree(&self)
        ensures { IsAgreed self.now.plan.now Q.set }
    {
        for _ in 0..TURNS {
            let guard = self.book.lock(self.rt);
            let held = &*guard;
            if is_of_plan(held, self.plan) {
                return;
            }
        }
        wait_for_good(self.rt)
    }

    /// Tells the others that a pass over the lanes begins, in so many threads at most.
    pub fn begin_pass(&self, threads: usize) {
        if let Some(waiters) = self.waiters {
            waiters.begin_pass(threads);
        }
    }

    /// Tells the others that a lane has a worker.
    pub fn begin(&self) {
        if let Some(waiters) = self.waiters {
            waiters.begin();
        }
    }

    /// Tells the others that a lane's worker has ended.
    pub fn end(&self) {
        if let Some(waiters) = self.waiters {
            waiters.end();
        }
    }
}
