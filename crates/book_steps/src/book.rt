//! The book, how it begins, and what holds of it.
ghost use Rattle.std.specs.Prelude.{◌≡◌, ◌≤◌, ◌*◌, [], None, length, replicate, IfOk, IfErr};
ghost use Rattle.sched_base.specs.Limits.{window_limit};
ghost use Rattle.circular_buffer.specs.Buffer.{buffer};
ghost use Rattle.book_machine.specs.Machine.{start};
ghost use Rattle.plan_rounds.specs.PlanRows.{IsCompiled};
ghost use Rattle.round_steps.specs.Refusals.{IsRefusedFor};
ghost use Rattle.book_steps.specs.Books.{IsBookOf, IsSound, begun};
ghost use Rattle.book_steps.specs.Sources.{GoesOnWithPlan};

use crate::pending::Pending;
use book_machine::MachineState;
use round_steps::{OpenFault, read_plan};
use run_tree::Plan;
use sched_base::NoMemory;
use std::alloc::Global;
use std::marker::Model;

/// The book of a task set: which rows of its schedule are out and which are posted.
///
/// Rounds are computed on demand, and never one past the window. It holds the rows that are not posted yet, so its memory goes by the window.
#[derive(Drop)]
pub struct StepBook {
    pub(crate) plan: Plan,
    pub(crate) window: u32,
    pub(crate) state: MachineState,
    pub(crate) pending: Pending,
    pub(crate) totals: Vec<u128>,
    pub(crate) faults: Vec<Option<u32>>,
}

impl Model for StepBook {
    ghost use Rattle.book_steps.specs.Books.{BookHeld, BookKept};
    ghost use Rattle.book_steps.specs.Pending.{rounds_up_to};

    ghost Value = { BookHeld };

    ghost view = { λ b. record {
      plan = b.plan;
      window = b.window;
      state = b.state;
      table = rounds_up_to b.plan b.pending.source.tick;
      totals = b.totals.items;
      faults = b.faults.items;
    } };

    ghost invariant = { λ b. BookKept b.plan b.window b.state b.pending b.totals.items b.faults.items };
}

// What a book needs memory for.
#[derive(Drop)]
struct Parts {
    pending: Pending,
    state: MachineState,
    totals: Vec<u128>,
    faults: Vec<Option<u32>>,
}

impl Parts {
    fn new(alloc: Global, plan: &Plan, window: u32) -> Result<Parts, NoMemory>
        requires { window ≤ window_limit }
        ensures source { IfOk result (λ q. GoesOnWithPlan plan.now q.pending.source) }
        ensures start { IfOk result (λ q. q.pending.source.tick ≡ 0) }
        ensures width { IfOk result (λ q. q.pending.width ≡ plan.now.tree.processors) }
        ensures held { IfOk result (λ q. q.pending.held ≡ buffer [] (window * plan.now.tree.processors)) }
        ensures computed { IfOk result (λ q. q.pending.computed ≡ 0) }
        ensures given { IfOk result (λ q. q.pending.given ≡ replicate (length plan.now.set.tasks) 0) }
        ensures last { IfOk result (λ q. q.pending.last ≡ replicate (plan.now.tree.processors * length plan.now.set.tasks) 0) }
        ensures state { IfOk result (λ q. q.state ≡ start plan.now.tree.processors) }
        ensures totals { IfOk result (λ q. q.totals.items ≡ replicate (length plan.now.set.tasks) 0) }
        ensures faults { IfOk result (λ q. q.faults.items ≡ replicate plan.now.tree.processors None) }
    {
        let processors = plan.tree().processors();
        let tasks = plan.set().count();
        Ok(Parts {
            totals: vec![in alloc; 0u128; tasks as usize]?,
            faults: vec![in alloc; None; processors as usize]?,
            state: MachineState::new(alloc, processors)?,
            pending: Pending::new(alloc, plan, window)?,
        })
    }
}

impl StepBook {
    /// The book of a task set, written as a TOML document, before the first event. All memory is taken here.
    pub fn open(alloc: Global, bytes: &[u8], window: u32) -> Result<StepBook, OpenFault>
        requires some_window { 1 ≤ window }
        requires small_window { window ≤ window_limit }
        ensures book { IfOk result (IsBookOf bytes.now window) }
        ensures refused { IfErr result (IsRefusedFor bytes.now) }
    {
        let plan = read_plan(alloc, bytes)?;
        Ok(StepBook::begin(alloc, plan, window)?)
    }

    /// The book of a plan, before the first event.
    pub fn begin(alloc: Global, plan: Plan, window: u32) -> Result<StepBook, NoMemory>
        requires compiled { IsCompiled plan }
        requires some_window { 1 ≤ window }
        requires small_window { window ≤ window_limit }
        ensures { IfOk result (λ b. b ≡ begun plan window) }
    {
        plan.know_lawful();
        let Parts {
            pending,
            state,
            totals,
            faults,
        } = Parts::new(alloc, &plan, window)?;
        Ok(StepBook {
            plan,
            window,
            state,
            pending,
            totals,
            faults,
        })
    }

    /// Brings what holds of each book into the proof of its caller; it does nothing.
    pub fn know_sound(&self)
        ensures { IsSound self.now }
    {
        self.plan.know_lawful();
    }
}
