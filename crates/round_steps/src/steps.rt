//! The rounds of a set, one by one.
ghost use Rattle.std.specs.Prelude.{◌≡◌, ℕ, ◌<◌, ◌≤◌, length, true, false, slice_index, slice_index_or, IfOk, IfErr};
ghost use Rattle.sched_base.specs.declared.rows.Row.{Row as DeclaredRow};
ghost use Rattle.run_tree.specs.Plans.{stop_of};
ghost use Rattle.event_core.specs.Cores.{IsCoreOf};
ghost use Rattle.event_core.specs.Rounds.{IsRoundUpTo, rows_of_round};
ghost use Rattle.round_steps.specs.Refusals.{IsRefusedFor};
ghost use Rattle.round_steps.specs.Steps.{IsPlanOf, task_shown};

use crate::faults::OpenFault;
use event_core::Core;
use run_compile::compile;
use run_tree::Plan;
use sched_base::{Leaf, NoMemory, Row, SET_LIMIT, blank_rows};
use std::alloc::Global;
use std::marker::Model;
use task_reader::read_set;

/// What stands for the number of a task where a processor runs none.
pub const NO_TASK: u32 = 4_294_967_295;

/// The schedule of a task set between two of its rounds: its plan, the tick, and the rows of the round just gone.
#[derive(Drop)]
pub struct Steps {
    plan: Plan,
    core: Core,
    rows: Vec<Row>,
}

impl Model for Steps {
    ghost use Rattle.std.specs.Prelude.{◌≡◌, ◌≤◌, length};
    ghost use Rattle.run_tree.specs.Plans.{stop_of};
    ghost use Rattle.event_core.specs.Cores.{IsCoreOf};
    ghost use Rattle.round_steps.specs.Steps.{StepsHeld};

    ghost Value = { StepsHeld };

    ghost view = { λ s. record { plan = s.plan; core = s.core; rows = s.rows.items } };

    ghost invariant = { λ s. IsCoreOf s.plan s.core × (length s.rows.items ≡ s.plan.tree.processors) };
}

/// The plan of a task set, written as a TOML document.
pub fn read_plan(alloc: Global, bytes: &[u8]) -> Result<Plan, OpenFault>
    ensures plan { IfOk result (IsPlanOf bytes.now) }
    ensures refused { IfErr result (IsRefusedFor bytes.now) }
{
    if bytes.len() > SET_LIMIT {
        return Err(OpenFault::InputTooLong);
    }
    let set = read_set(alloc, bytes)?;
    Ok(compile(alloc, set)?)
}

// The schedule of a plan, before its first round.
fn start(alloc: Global, plan: Plan) -> Result<Steps, NoMemory>
    ensures plan { IfOk result (λ s. s.plan ≡ plan) }
    ensures start { IfOk result (λ s. s.core.tick ≡ 0) }
{
    let (core, rows) = core_of(alloc, &plan)?;
    Ok(Steps { plan, core, rows })
}

// The core of a plan before its first round, and room for the rows of a round.
fn core_of(alloc: Global, plan: &Plan) -> Result<(Core, Vec<Row>), NoMemory>
    ensures belongs { IfOk result (λ made. IsCoreOf plan.now made.0) }
    ensures start { IfOk result (λ made. made.0.tick ≡ 0) }
    ensures rows { IfOk result (λ made. length made.1.items ≡ plan.now.tree.processors) }
{
    let rows = blank_rows(alloc, plan.tree().processors())?;
    let core = Core::new(alloc, plan)?;
    Ok((core, rows))
}

impl Steps {
    /// The schedule of a task set, written as a TOML document, before its first round.
    pub fn open(alloc: Global, bytes: &[u8]) -> Result<Steps, OpenFault>
        ensures plan { IfOk result (λ s. IsPlanOf bytes.now s.plan) }
        ensures start { IfOk result (λ s. s.core.tick ≡ 0) }
        ensures refused { IfErr result (IsRefusedFor bytes.now) }
    {
        let plan = read_plan(alloc, bytes)?;
        Ok(start(alloc, plan)?)
    }

    /// The tick at which the next round starts, or at which the last one ended.
    pub fn now(&self) -> u128
        ensures { result ≡ self.now.core.tick }
    {
        self.core.now()
    }

    /// The tick at which the last round ends: the horizon, in ticks.
    pub fn end(&self) -> u128
        ensures { result ≡ stop_of self.now.plan }
    {
        self.plan.rounds_end()
    }

    /// The ticks of a unit.
    pub fn scale(&self) -> u128
        ensures { result ≡ self.now.plan.tree.scale }
    {
        self.plan.scale()
    }

    /// The number of processors.
    pub fn processors(&self) -> u32
        ensures { result ≡ self.now.plan.tree.processors }
    {
        self.plan.tree().processors()
    }

    /// Goes on by the next round, and says whether there was one. It never answers that memory was refused.
    pub fn go_on(&mut self) -> bool
        ensures plan { self.new.plan ≡ self.old.plan }
        ensures over { result ≡ false → (self.new ≡ self.old) × (stop_of self.old.plan ≤ self.old.core.tick) }
        ensures round { result ≡ true → IsRoundUpTo self.old.plan self.old.core.tick self.new.core.tick }
        ensures rows { result ≡ true → self.new.rows ≡ rows_of_round self.old.plan self.old.core.tick self.new.core.tick }
    {
        if self.core.now() >= self.plan.rounds_end() {
            return false;
        }
        self.core.advance(&self.plan, &mut self.rows);
        true
    }

    /// The number of the task that processor q, numbered from 0, runs in the round just gone; `NO_TASK` where it runs none.
    pub fn task_on(&self, q: u32) -> u32
        requires processor { q < self.now.plan.tree.processors }
        ensures { (none : DeclaredRow) → result ≡ task_shown (slice_index_or self.now.rows q none).leaf }
    {
        task_shown(self.rows[q as usize].leaf)
    }

    /// Writes the number of the task that each processor runs in the round just gone, `NO_TASK` where it runs none.
    pub fn write_tasks(&self, tasks: &mut [u32])
        requires room { self.now.plan.tree.processors ≤ length tasks.old }
        ensures room { length tasks.new ≡ length tasks.old }
        ensures tasks { (q : ℕ) (none : DeclaredRow) → q < self.now.plan.tree.processors →
            slice_index tasks.new q ≡ task_shown (slice_index_or self.now.rows q none).leaf }
        ensures rest { (q : ℕ) → self.now.plan.tree.processors ≤ q → slice_index tasks.new q ≡ slice_index tasks.old q }
    {
        for q in 0..self.rows.len() {
            tasks[q] = task_shown(self.rows[q].leaf);
        }
    }
}

/// The number of the task that a row shows.
pub fn task_shown(leaf: Leaf) -> u32
    ensures { result ≡ task_shown leaf }
{
    match leaf {
        Leaf::Task(task) => task.0,
        Leaf::Idle(_) | Leaf::Wait(_) | Leaf::Empty => NO_TASK,
    }
}
