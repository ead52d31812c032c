//! Modes that are joined.
ghost use Rattle.std.specs.Prelude.{◌≡◌, ◌≤◌, ◌<◌, ◌+◌, [], ◌∷◌, ◌++◌, length, slice_get, take};
ghost use Rattle.std.specs.Prelude.{option_map, Some, IfOk, IfErr, OnOk, OnErr};
ghost use Rattle.std.specs.List.{AllByRecursion, sum_by};
ghost use Rattle.sched_base.specs.Limits.{processor_limit};
ghost use Rattle.mode_join.specs.declared.mode.Mode.{Mode};
ghost use Rattle.mode_join.specs.Joining.{CanBeJoined, IsFirstOf, RefusesAs, SaysOf, processors_of};
ghost use Rattle.mode_join.specs.Modes.{AreModes, PeriodsEndIn, sets_of};

use crate::faults::ModeFault;
use crate::joins::{plan_of, rounds_after, unfit};
use crate::mode::Mode;
use run_tree::Plan;
use sched_base::TaskSet;
use std::alloc::Global;
use std::marker::Model;

/// Sets that follow each other on the same processors, each with its plan. A mode starts where the one before it ends, and no
/// period of its tasks is open there.
pub struct Modes {
    processors: u32,
    modes: Vec<Mode>,
    // The rows of all modes.
    rows: u64,
    // The unit at which the last mode ends.
    end: u64,
}

impl Drop for Modes {
    fn drop(self) {
        let Self {
            processors: _,
            modes: _modes,
            rows: _,
            end: _,
        } = self;
    }
}

impl Model for Modes {
    ghost use Rattle.std.specs.Prelude.{◌≡◌};
    ghost use Rattle.std.specs.List.{sum_by};
    ghost use Rattle.mode_join.specs.Joining.{rows_of};
    ghost use Rattle.mode_join.specs.Modes.{ModesContents, AreModes};

    ghost Value = { ModesContents };

    ghost view = { λ m. record { processors = m.processors; modes = m.modes.items } };

    ghost invariant = { λ m. AreModes (record { processors = m.processors; modes = m.modes.items })
        × (m.rows ≡ sum_by (λ x. rows_of x.plan) m.modes.items) × (m.end ≡ sum_by (λ x. x.plan.set.horizon) m.modes.items) };
}

impl Modes {
    /// Joins sets: compiles each, and counts the rounds of its schedule. The refusal is that of the first set that can't be a
    /// mode, and names the first of what is wrong with it. The sets are dropped then.
    pub fn join(alloc: Global, sets: Vec<TaskSet>) -> Result<Modes, ModeFault>
        requires { 1 ≤ length sets.items }
        ensures processors { IfOk result (λ modes. modes.processors ≡ processors_of sets.items) }
        ensures sets { IfOk result (λ modes. sets_of modes.modes ≡ sets.items) }
        ensures lawful { IfOk result (λ modes. AreModes modes) }
        ensures no_crossing { IfOk result (λ modes. AllByRecursion PeriodsEndIn modes.modes) }
        ensures joined { OnOk result (CanBeJoined sets.items) }
        ensures refused { IfErr result (λ fault. SaysOf sets.items fault) }
    {
        let mut modes = Modes::none(alloc, sets[0].processors());
        for set in sets {
            modes.add(alloc, set)?;
        }
        Ok(modes)
    }

    /// No mode yet, on so many processors.
    fn none(alloc: Global, processors: u32) -> Modes
        requires some { 1 ≤ processors }
        requires few { processors ≤ processor_limit }
        ensures value { result ≡ record { processors = processors; modes = [] } }
        ensures lawful { AreModes result }
    {
        Modes {
            processors,
            modes: Vec::new(alloc),
            rows: 0,
            end: 0,
        }
    }

    /// Adds the mode of a set at the end.
    fn add(&mut self, alloc: Global, set: TaskSet) -> Result<(), ModeFault>
        ensures ok { OnOk result ((mode : Mode) × (mode.plan.set ≡ set)
            × (self.new ≡ record self.old { modes = self.old.modes ++ mode ∷ [] })) }
        ensures lawful { OnOk result (AreModes self.new) }
        ensures err { OnErr result (self.new ≡ self.old) }
        ensures refused { IfErr result (λ fault.
            RefusesAs (length self.old.modes) (IsFirstOf self.old.processors (sets_of self.old.modes) set) fault) }
    {
        let mode = self.modes.len() as u32;
        if let Some(kind) = unfit(self.processors, &set) {
            return Err(ModeFault::Refused { mode, kind });
        }
        let plan = plan_of(alloc, mode, set)?;
        let horizon = plan.set().horizon();
        let rounds = rounds_after(alloc, mode, self.rows, &plan)?;
        self.modes.push(Mode {
            plan,
            rounds,
            start: self.end,
        })?;
        self.rows += rounds * u64::from(self.processors);
        self.end += horizon;
        Ok(())
    }

    /// The number of processors on which all modes run.
    pub fn processors(&self) -> u32
        ensures value { result ≡ self.now.processors }
        ensures lawful { AreModes self.now }
    {
        self.processors
    }

    /// The number of modes.
    pub fn count(&self) -> u32
        ensures value { result ≡ length self.now.modes }
        ensures lawful { AreModes self.now }
    {
        self.modes.len() as u32
    }

    /// The plan of mode j.
    pub fn plan(&self, j: u32) -> &Plan
        requires { j < length self.now.modes }
        ensures value { option_map (λ m. m.plan) (slice_get self.now.modes j) ≡ Some result.now }
        ensures lawful { AreModes self.now }
    {
        &self.modes[j as usize].plan
    }

    /// The number of rounds of mode j's schedule.
    pub fn rounds(&self, j: u32) -> u64
        requires { j < length self.now.modes }
        ensures value { option_map (λ m. m.rounds) (slice_get self.now.modes j) ≡ Some result }
        ensures lawful { AreModes self.now }
    {
        self.modes[j as usize].rounds
    }

    /// The unit at which mode j starts: the sum of the horizons before it.
    pub fn start(&self, j: u32) -> u64
        requires { j < length self.now.modes }
        ensures value { option_map (λ m. m.start) (slice_get self.now.modes j) ≡ Some result }
        ensures sum { result ≡ sum_by (λ m. m.plan.set.horizon) (take j self.now.modes) }
        ensures lawful { AreModes self.now }
    {
        self.modes[j as usize].start
    }
}
