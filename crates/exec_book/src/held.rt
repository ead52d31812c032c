//! What a book holds until it is dismissed. Each call changes it where it lies.
ghost use Rattle.std.specs.Prelude.{◌≡◌, ◌≤◌, ◌<◌, ◌+◌, None, Some, length, slice_get};
ghost use Rattle.sched_base.specs.Limits.{window_limit};
ghost use Rattle.sched_base.specs.declared.rows.Row.{Row};
ghost use Rattle.sched_base.specs.declared.rows.Leaf.TheVariants.{Task};
ghost use Rattle.sched_base.specs.declared.rows.TaskId.{TaskId};
ghost use Rattle.sched_base.specs.Tables.{RowAt, rounds_in, row_limit};
ghost use Rattle.sched_edges.specs.Jobs.{JobAt};
ghost use Rattle.run_tree.specs.Plans.{rounds_of};
ghost use Rattle.book_machine.specs.declared.events.Event.TheVariants.{Take};
ghost use Rattle.book_machine.specs.Machine.{IsLegal, after, posted_at};
ghost use Rattle.plan_rounds.specs.PlanRows.{AreRoundsOf};
ghost use Rattle.exec_book.specs.Jobs.{WasAt, noted, with_job};
ghost use Rattle.plan_rounds.specs.Parts.{processor};

use crate::jobs::JobStore;
use book_machine::{Event, MachineState};
use plan_rounds::Rounds;
use run_tree::Plan;
use sched_base::{ProcId, Row};
use sched_edges::Job;
use unit_ledger::{BookSide, LaneSeat, PostLedger};

/// What a book holds until it is dismissed.
#[derive(Drop)]
pub(crate) struct Held<Q: PostLedger, J: Job> {
    pub(crate) rounds: Rounds,
    pub(crate) store: JobStore<J>,
    pub(crate) side: BookSide<Q>,
}

impl<Q: PostLedger, J: Job> Held<Q, J> {
    /// Computes one round more.
    pub(crate) fn compute_next(&mut self, plan: &Plan)
        requires rounds { AreRoundsOf plan.now self.old.rounds }
        requires left { rounds_in self.old.rounds.table.lanes < rounds_of plan.now }
        ensures held { self.new ≡ record self.old { rounds = self.new.rounds } }
        ensures rounds { AreRoundsOf plan.now self.new.rounds }
        ensures one_more { rounds_in self.new.rounds.table.lanes ≡ rounds_in self.old.rounds.table.lanes + 1 }
    {
        self.rounds.compute_next(plan);
    }

    /// Makes a take of lane p, and hands its row out with its job.
    #[inline(always)]
    pub(crate) fn hand_out(
        &mut self,
        state: &mut MachineState,
        window: u32,
        p: u32,
    ) -> (Row, Option<J>)
        requires lanes { length state.old.lanes ≡ length self.old.rounds.table.lanes }
        requires some_window { 1 ≤ window }
        requires small_window { window ≤ window_limit }
        requires lane { p < length self.old.rounds.table.lanes }
        requires round { posted_at state.old p < rounds_in self.old.rounds.table.lanes }
        requires legal { IsLegal self.old.rounds.table.lanes window state.old (Take (processor p)) }
        requires notes { p < length self.old.store.handed }
        requires job { (r : Row) (task : TaskId) → RowAt self.old.rounds.table.lanes p (posted_at state.old p) r → r.leaf ≡ Task task →
            (j : J) × JobAt self.old.store.jobs.places task.0 j }
        ensures row { RowAt self.old.rounds.table.lanes p (posted_at state.old p) result.0 }
        ensures job { WasAt self.old.store.jobs.places result.0.leaf result.1 }
        ensures held { self.new ≡ record self.old {
          store = record { jobs = with_job self.old.store.jobs result.0.leaf None; handed = noted J.used self.old.store.handed p result.1 };
        } }
        ensures state { state.new ≡ after state.old (Take (processor p)) }
    {
        let row = self.rounds.table().row(p, state.posted(p));
        let job = self.store.lift(p, row.leaf);
        state.step(self.rounds.table(), window, Event::Take(ProcId(p)));
        (row, job)
    }

    /// Makes an event that ends the row that is out on lane p, and takes its job back.
    pub(crate) fn put_back(
        &mut self,
        state: &mut MachineState,
        window: u32,
        p: u32,
        event: Event,
        job: Option<J>,
    )
        requires lanes { length state.old.lanes ≡ length self.old.rounds.table.lanes }
        requires some_window { 1 ≤ window }
        requires small_window { window ≤ window_limit }
        requires lane { p < length self.old.rounds.table.lanes }
        requires round { posted_at state.old p < rounds_in self.old.rounds.table.lanes }
        requires legal { IsLegal self.old.rounds.table.lanes window state.old event }
        requires job { (r : Row) (task : TaskId) → RowAt self.old.rounds.table.lanes p (posted_at state.old p) r → r.leaf ≡ Task task →
            (slice_get self.old.store.jobs.places task.0 ≡ Some None) × ((j : J) × (job ≡ Some j)) }
        ensures held { (r : Row) × RowAt self.old.rounds.table.lanes p (posted_at state.old p) r ×
            (self.new ≡ record self.old { store = record self.old.store { jobs = with_job self.old.store.jobs r.leaf job } }) }
        ensures state { state.new ≡ after state.old event }
    {
        let row = self.rounds.table().row(p, state.posted(p));
        self.store.lay(row.leaf, job);
        state.step(self.rounds.table(), window, event);
    }

    /// Counts a post of a lane in the ledger.
    pub(crate) fn count(&mut self, seat: &mut LaneSeat<Q>)
        requires few { self.old.side < row_limit }
        requires few_of_lane { seat.old.posted < row_limit }
        ensures held { self.new ≡ record self.old { side = self.old.side + 1 } }
        ensures seat { seat.new ≡ record seat.old { posted = seat.old.posted + 1 } }
    {
        unit_ledger::post(&mut self.side, seat);
    }
}
