//! Handing rows out.
ghost use Rattle.std.specs.Prelude.{◌≡◌, ◌<◌, ◌≤◌, ◌+◌, ◌↔◌, ℕ, length, true, false, IfSome, IfNone, IsTrue};
ghost use Rattle.sched_base.specs.declared.rows.Leaf.TheVariants.{Task};
ghost use Rattle.sched_base.specs.declared.rows.Row.{Row as DeclaredRow};
ghost use Rattle.sched_base.specs.declared.rows.TaskId.{TaskId as DeclaredTaskId};
ghost use Rattle.sched_base.specs.Tables.{RowAt, rounds_in};
ghost use Rattle.run_tree.specs.Plans.{rounds_of};
ghost use Rattle.book_machine.specs.Machine.{EarlierPosted, HasTakeable, IsWaitedFor, PostedBefore, WaitsFor, lane_at, posted_at, least_posted};
ghost use Rattle.plan_rounds.specs.PlanRows.{plan_rows};
ghost use Rattle.book_steps.specs.Books.{IsFull};
ghost use Rattle.book_steps.specs.Pending.{IsPending};
ghost use Rattle.book_steps.specs.Turns.{Hands, TurnMeans};

use crate::book::StepBook;
use crate::ring::PendingRow;
use crate::turns::Turn;
use sched_base::{Leaf, Row};

impl StepBook {
    /// Hands the next row of processor p out, where the machine allows it. It computes the row's round first where it isn't
    /// computed.
    pub fn take(&mut self, p: u32) -> Turn
        requires lane { p < length self.old.state.lanes }
        requires free { (lane_at self.old.state.lanes p).out ≡ false }
        ensures { TurnMeans self.old self.new p result }
    {
        if self.halted() {
            return Turn::Halted;
        }
        if self.is_done(p) {
            return Turn::Over;
        }
        if !self.compute_for(p) {
            return Turn::Full;
        }
        if let Some(lane) = self.waits_for(p) {
            return Turn::Wait(lane);
        }
        let row = self.hand_out(p);
        Turn::Ready(row)
    }

    // Whether all rows of processor p are posted.
    fn is_done(&self, p: u32) -> bool
        requires { p < length self.now.state.lanes }
        ensures done { IsTrue result → posted_at self.now.state p ≡ rounds_of self.now.plan }
        ensures left { result ≡ false → posted_at self.now.state p < rounds_of self.now.plan }
    {
        self.plan.know_lawful();
        self.state.posted(p) == self.pending.computed()
            && self.pending.tick() == self.plan.rounds_end()
    }

    // Computes the next round of processor p, where a take wants it. It is false where the book is full.
    fn compute_for(&mut self, p: u32) -> bool
        requires lane { p < length self.old.state.lanes }
        requires left { posted_at self.old.state p < rounds_of self.old.plan }
        ensures book { self.new ≡ record self.old { table = self.new.table } }
        ensures held { result ≡ true → posted_at self.old.state p < least_posted self.old.state + self.old.window →
            posted_at self.old.state p < rounds_in self.new.table.lanes }
        ensures full { result ≡ false → IsFull self.old × (self.new ≡ self.old) }
    {
        if !self.wants_round(p) {
            return true;
        }
        if self.is_full() {
            return false;
        }
        self.compute_next();
        true
    }

    /// Whether one round more couldn't be counted. No program sees it: at a million rounds a second it takes half a million years.
    pub fn is_full(&self) -> bool
        ensures { IsTrue result ↔ IsFull self.now }
    {
        self.pending.computed() == u64::MAX
    }

    // Whether the next round of processor p is in the window, and isn't computed.
    fn wants_round(&self, p: u32) -> bool
        requires lane { p < length self.now.state.lanes }
        ensures wants { IsTrue result ↔ ((posted_at self.now.state p < least_posted self.now.state + self.now.window)
            × (rounds_in self.now.table.lanes ≤ posted_at self.now.state p)) }
        ensures held { posted_at self.now.state p ≤ rounds_in self.now.table.lanes }
    {
        let posted = self.state.posted(p);
        posted - self.state.least() < u64::from(self.window) && self.pending.computed() <= posted
    }

    // Computes one round more.
    fn compute_next(&mut self)
        requires left { rounds_in self.old.table.lanes < rounds_of self.old.plan }
        requires in_window { rounds_in self.old.table.lanes < least_posted self.old.state + self.old.window }
        requires counted { ¬ (IsFull self.old) }
        ensures book { self.new ≡ record self.old { table = self.new.table } }
        ensures one_more { rounds_in self.new.table.lanes ≡ rounds_in self.old.table.lanes + 1 }
    {
        self.plan.know_lawful();
        self.pending.compute_next(&self.plan);
    }

    // The processor for which processor p waits.
    fn waits_for(&self, p: u32) -> Option<u32>
        requires lane { p < length self.now.state.lanes }
        requires held { posted_at self.now.state p < least_posted self.now.state + self.now.window →
            posted_at self.now.state p < rounds_in self.now.table.lanes }
        ensures some { IfSome result (λ q. WaitsFor (plan_rows self.now.plan) self.now.window self.now.state p q) }
        ensures behind { IfSome result (λ q. posted_at self.now.state q < posted_at self.now.state p) }
        ensures none { IfNone result (HasTakeable (plan_rows self.now.plan) self.now.window self.now.state p) }
    {
        self.plan.know_lawful();
        let round = self.state.posted(p);
        if round - self.state.least() >= u64::from(self.window) {
            return Some(self.state.lowest());
        }
        let next = self.next_row(p);
        if self.is_clear(p, next) {
            None
        } else {
            self.lowest_with(p, round, next.row.leaf)
        }
    }

    // Whether one look tells that the next row of processor p waits for none: its task has the ticks of its earlier rows, or all rows of
    // earlier rounds are posted.
    fn is_clear(&self, p: u32, next: &PendingRow) -> bool
        requires lane { p < length self.now.state.lanes }
        requires next { IsPending (plan_rows self.now.plan) p (posted_at self.now.state p) next.now }
        ensures { IsTrue result → EarlierPosted (plan_rows self.now.plan) self.now.state.lanes p (posted_at self.now.state p) next.now.row.leaf }
    {
        self.plan.know_lawful();
        match next.row.leaf {
            Leaf::Task(task) => self.total(task.0) == next.before,
            Leaf::Wait(_) => self.is_least(p),
            Leaf::Idle(_) => self.is_least(p),
            Leaf::Empty => self.is_least(p),
        }
    }

    // Whether processor p has the least posted count.
    fn is_least(&self, p: u32) -> bool
        requires { p < length self.now.state.lanes }
        ensures { IsTrue result → posted_at self.now.state p ≡ least_posted self.now.state }
    {
        self.state.posted(p) == self.state.least()
    }

    // The lowest other processor that has an unposted row of the leaf before the round.
    fn lowest_with(&self, p: u32, round: u64, leaf: Leaf) -> Option<u32>
        requires round { round ≤ rounds_in self.now.table.lanes }
        requires task { (task : DeclaredTaskId) → leaf ≡ Task task → task.0 < length self.now.plan.set.tasks }
        ensures none { IfNone result (EarlierPosted (plan_rows self.now.plan) self.now.state.lanes p round leaf) }
        ensures some { IfSome result (λ q. IsWaitedFor (plan_rows self.now.plan) self.now.state.lanes p round leaf q) }
    {
        self.plan.know_lawful();
        for q in 0..self.processors() {
            if q != p && self.has_unposted(q, round, leaf) {
                return Some(q);
            }
        }
        None
    }

    // Whether processor q has an unposted row of the leaf before the round.
    fn has_unposted(&self, q: u32, round: u64, leaf: Leaf) -> bool
        requires processor { q < length self.now.state.lanes }
        requires round { round ≤ rounds_in self.now.table.lanes }
        requires task { (task : DeclaredTaskId) → leaf ≡ Task task → task.0 < length self.now.plan.set.tasks }
        ensures some { result ≡ true → (j : ℕ) × (r : DeclaredRow) × (posted_at self.now.state q ≤ j) × (j < round)
            × RowAt (plan_rows self.now.plan) q j r × (r.leaf ≡ leaf) }
        ensures none { result ≡ false → PostedBefore (plan_rows self.now.plan) self.now.state.lanes q round leaf }
    {
        self.plan.know_lawful();
        let least = self.state.least();
        let last = round.min(self.pending.last(q, leaf));
        self.pending.has(
            q,
            self.state.posted(q) - least,
            last.saturating_sub(least),
            leaf,
        )
    }

    // Hands the next row of processor p out, which may be taken.
    fn hand_out(&mut self, p: u32) -> Row
        requires running { self.old.state.halted ≡ false }
        requires free { (lane_at self.old.state.lanes p).out ≡ false }
        requires ready { HasTakeable (plan_rows self.old.plan) self.old.window self.old.state p }
        requires held { posted_at self.old.state p < rounds_in self.old.table.lanes }
        ensures { Hands self.old self.new p result }
    {
        self.plan.know_lawful();
        let row = self.next_row(p).row;
        self.state.hand_out(p);
        row
    }

    /// The row of processor p that is its next to be posted.
    pub(crate) fn next_row(&self, p: u32) -> &PendingRow
        requires lane { p < length self.now.state.lanes }
        requires held { posted_at self.now.state p < rounds_in self.now.table.lanes }
        ensures { IsPending (plan_rows self.now.plan) p (posted_at self.now.state p) result.now }
    {
        self.plan.know_lawful();
        self.pending
            .row(self.state.posted(p) - self.state.least(), p)
    }
}
