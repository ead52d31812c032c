//! The book, how it begins, and what it tells.
ghost use Rattle.std.specs.Prelude.{◌≡◌, ◌<◌, ◌≤◌, ◌+◌, ◌*◌, ◌↔◌, ℕ, [], Some, length, replicate, IfOk};
ghost use Rattle.std.specs.Prelude.{IfErr, IsTrue, true};
ghost use Rattle.sched_base.specs.Limits.{window_limit};
ghost use Rattle.sched_base.specs.declared.rows.Row.{Row};
ghost use Rattle.sched_base.specs.Rows.{is_of_task};
ghost use Rattle.sched_base.specs.Tables.{rounds_in};
ghost use Rattle.sched_edges.specs.Jobs.{FaultsAre};
ghost use Rattle.run_tree.specs.Plans.{IsPlan, rounds_of};
ghost use Rattle.sched_base.specs.Tables.{row_limit};
ghost use Rattle.book_machine.specs.Machine.{IsOut, lane_at, posted_at, least_posted, start};
ghost use Rattle.book_machine.specs.Reached.{OutRow};
ghost use Rattle.book_machine.specs.Rounds.{AreFirstRounds};
ghost use Rattle.plan_rounds.specs.PlanRows.{IsCompiled, plan_rows};
ghost use Rattle.plan_rounds.specs.Parts.{posted_ticks};
ghost use Rattle.exec_book.specs.Jobs.{AllAtHome};
ghost use Rattle.exec_book.specs.Books.{IsDismissed, AreParts};
ghost use Rattle.plan_rounds.specs.Laws.{FollowsPlan};

use crate::held::Held;
use crate::jobs::{JobStore, no_notes};
use crate::log::EventLog;
use crate::waits::Waits;
use book_machine::{LaneState, MachineState};
use plan_rounds::Rounds;
use run_tree::Plan;
use sched_base::{NoMemory, RowTable};
use sched_edges::{Job, JobList};
use std::alloc::Global;
use std::marker::Model;
use unit_ledger::{BookSide, PostLedger};

/// The book of a run: which rows of a plan's schedule are out and which are posted.
///
/// Rounds are computed on demand: its table holds the first rounds of the schedule, and never one past the window.
pub struct Book<Q: PostLedger, J: Job> {
    pub(crate) plan: Plan,
    pub(crate) rounds: u64,
    pub(crate) window: u32,
    pub(crate) state: MachineState,
    pub(crate) log: EventLog,
    pub(crate) held: Option<Held<Q, J>>,
    // No clause speaks of it.
    pub(crate) waits: Waits,
}

impl<Q: PostLedger, J: Job> Drop for Book<Q, J> {
    fn drop(self) {
        let Self {
            plan: _plan,
            rounds: _,
            window: _,
            state: _state,
            log: _log,
            held: _held,
            waits: _,
        } = self;
    }
}

impl<Q: PostLedger, J: Job> Model for Book<Q, J> {
    ghost use Rattle.std.specs.Prelude.{◌≡◌, option_map};
    ghost use Rattle.plan_rounds.specs.Parts.{RowsPart, LogPart};
    ghost use Rattle.exec_book.specs.Books.{BookContents, PostsPart, JobsPart, table_in, jobs_in};

    ghost Value = { BookContents J };

    ghost view = { λ b. record {
      plan = b.plan;
      window = b.window;
      state = b.state;
      log = b.log.events;
      table = table_in (option_map (λ h. h.rounds) b.held);
      jobs = jobs_in (option_map (λ h. h.store) b.held);
      side = option_map (λ h. h.side) b.held;
    } };

    ghost invariant = { λ b. record {
      rows : RowsPart b.plan b.rounds b.window b.state (option_map (λ h. h.rounds) b.held);
      log : LogPart b.plan b.window b.state b.log.events b.log.room;
      posts : PostsPart b.state (option_map (λ h. h.side) b.held);
      jobs : JobsPart J.id J.used J.made Q.made b.plan b.state (option_map (λ h. h.store) b.held);
      set : b.plan.set ≡ Q.set;
    } };
}

/// Memory was refused, and these are the jobs.
#[derive(Drop)]
pub struct JobsBack<J> {
    pub jobs: JobList<J>,
}

impl<Q: PostLedger, J: Job> Book<Q, J> {
    /// The book before the first event, for a plan with this number of rounds and a window of 1 to 1,024 rounds. All memory
    /// is taken here: the room for all rows, and for two events of each row. No round is computed yet.
    pub fn new(
        alloc: Global,
        plan: Plan,
        rounds: u64,
        window: u32,
        side: BookSide<Q>,
        jobs: JobList<J>,
    ) -> Result<Book<Q, J>, JobsBack<J>>
        requires compiled { IsCompiled plan }
        requires set { plan.set ≡ Q.set }
        requires rounds { rounds ≡ rounds_of plan }
        requires few { rounds * plan.tree.processors ≤ row_limit }
        requires some_window { 1 ≤ window }
        requires small_window { window ≤ window_limit }
        requires side { side ≡ 0 }
        requires jobs { AllAtHome J.id J.used J.made Q.made (length plan.set.tasks) (λ t. 0) jobs.places }
        ensures book { IfOk result (λ b. b ≡ record {
          plan = plan;
          window = window;
          state = start plan.tree.processors;
          log = [];
          table = record { lanes = replicate plan.tree.processors []; room = rounds };
          jobs = jobs;
          side = Some 0;
        }) }
        ensures back { IfErr result (λ e. e.jobs ≡ jobs) }
    {
        plan.know_lawful();
        let Ok(parts) = Parts::new(alloc, &plan, rounds) else {
            return Err(JobsBack { jobs });
        };
        let Parts {
            computed,
            state,
            log,
            handed,
        } = parts;
        let held = Held {
            rounds: computed,
            store: JobStore::new(jobs, handed),
            side,
        };
        Ok(Book {
            plan,
            rounds,
            window,
            state,
            log,
            held: Some(held),
            waits: Waits::none(),
        })
    }

    /// The plan.
    pub fn plan(&self) -> &Plan
        ensures value { result.now ≡ self.now.plan }
        ensures lawful { IsPlan self.now.plan }
        ensures compiled { IsCompiled self.now.plan }
        ensures set { self.now.plan.set ≡ Q.set }
        ensures lanes { length self.now.state.lanes ≡ self.now.plan.tree.processors }
    {
        self.plan.know_lawful();
        &self.plan
    }

    /// The window, in rounds.
    pub fn window(&self) -> u32
        ensures value { result ≡ self.now.window }
        ensures some { 1 ≤ result }
        ensures small { result ≤ window_limit }
    {
        self.window
    }

    /// The events so far. They lead to a front of the plan's schedule, which is valid.
    pub fn log(&self) -> &EventLog
        ensures value { result.now.events ≡ self.now.log }
        ensures follows { FollowsPlan self.now.plan self.now.window self.now.log self.now.state }
    {
        self.plan.know_lawful();
        &self.log
    }

    /// How many rows lane p has posted, and whether its next one is out.
    pub fn lane(&self, p: u32) -> LaneState
        requires { p < length self.now.state.lanes }
        ensures { result ≡ lane_at self.now.state.lanes p }
    {
        LaneState {
            posted: self.state.posted(p),
            out: self.state.is_out(p),
        }
    }

    /// The least number of rows that a lane has posted.
    pub fn least(&self) -> u64
        ensures { result ≡ least_posted self.now.state }
    {
        self.state.least()
    }

    /// Whether a row has failed.
    pub fn halted(&self) -> bool
        ensures { IsTrue result ↔ (self.now.state.halted ≡ true) }
    {
        self.state.is_halted()
    }

    /// Whether the book is dismissed. Then no row is out.
    pub fn dismissed(&self) -> bool
        ensures value { IsTrue result ↔ IsDismissed self.now }
        ensures none_out { IsDismissed self.now → (p : ℕ) → ¬ (IsOut self.now.state p) }
    {
        self.held.is_none()
    }

    /// The lanes that wait for no more than what is posted, a bit each. They are marked as waiting no more.
    pub fn woken(&mut self) -> u32
        ensures { self.new ≡ self.old }
    {
        let least = self.state.least();
        self.waits.reached(least)
    }

    /// The rounds computed so far.
    pub fn table(&self) -> &RowTable
        requires { ¬ (IsDismissed self.now) }
        ensures value { result.now ≡ self.now.table }
        ensures first { AreFirstRounds self.now.table.lanes (plan_rows self.now.plan) }
        ensures posted { (p : ℕ) → posted_at self.now.state p ≤ rounds_in self.now.table.lanes }
        ensures out { (p : ℕ) → IsOut self.now.state p → posted_at self.now.state p < rounds_in self.now.table.lanes }
        ensures in_window { rounds_in self.now.table.lanes ≤ least_posted self.now.state + self.now.window }
    {
        let Some(held) = &self.held else {
            unreachable!()
        };
        self.plan.know_lawful();
        held.rounds.table()
    }

    /// Whether each task's job that is at home has its given count of faults.
    pub fn faults_are(&self, counts: &[u64]) -> bool
        requires open { ¬ (IsDismissed self.now) }
        requires each { length counts.now ≡ length self.now.plan.set.tasks }
        ensures { IsTrue result ↔ FaultsAre J.faults self.now.jobs.places counts.now }
    {
        let Some(held) = &self.held else {
            unreachable!()
        };
        held.store.faults_are(counts)
    }

    /// What the job that went with the row that is out on lane p had used then: the ticks of its task's posted rows.
    pub fn handed(&self, p: u32) -> u128
        requires { (r : Row) × (t : ℕ) × OutRow (plan_rows self.now.plan) self.now.state p r × (is_of_task t r.leaf ≡ true) }
        ensures { (r : Row) (t : ℕ) → OutRow (plan_rows self.now.plan) self.now.state p r → is_of_task t r.leaf ≡ true →
            result ≡ posted_ticks (plan_rows self.now.plan) self.now.state t }
    {
        let Some(held) = &self.held else {
            unreachable!()
        };
        held.store.handed(p)
    }
}

// What a book needs memory for.
#[derive(Drop)]
struct Parts {
    computed: Rounds,
    state: MachineState,
    log: EventLog,
    handed: Vec<u128>,
}

impl Parts {
    fn new(alloc: Global, plan: &Plan, rounds: u64) -> Result<Parts, NoMemory>
        requires rounds { rounds ≡ rounds_of plan.now }
        requires few { rounds * plan.now.tree.processors ≤ row_limit }
        ensures { IfOk result (λ q. AreParts plan.now q.computed q.state q.log q.handed.items) }
    {
        let lanes = plan.tree().processors();
        let events = 2 * (rounds * u64::from(lanes));
        Ok(Parts {
            computed: Rounds::new(alloc, plan, rounds)?,
            log: EventLog::with_room(alloc, events)?,
            handed: no_notes(alloc, lanes)?,
            state: MachineState::new(alloc, lanes)?,
        })
    }
}
