//! Sums of ticks, one for each task.
ghost use Rattle.std.specs.Prelude.{◌≡◌, ◌≤◌, ◌+◌, [], ◌∷◌, ◌++◌, IfOk};

use crate::memory::NoMemory;
use std::alloc::Global;
use std::marker::Model;

/// The ticks of each task, in order, with room for a stated number of tasks.
pub struct Totals {
    ticks: Vec<u128>,
}

impl Drop for Totals {
    fn drop(self) {
        let Self { ticks: _ticks } = self;
    }
}

impl Model for Totals {
    ghost use Rattle.std.specs.Prelude.{◌-◌, vec_capacity, vec_len};
    ghost use Rattle.sched_base.specs.Totals.{TotalsHeld};

    ghost Value = { TotalsHeld };

    ghost view = { λ t. record { ticks = t.ticks.items; room = vec_capacity t.ticks - vec_len t.ticks } };
}

impl Totals {
    /// No totals yet, with room for that many.
    pub fn with_room(alloc: Global, count: u32) -> Result<Totals, NoMemory>
        ensures none { IfOk result (λ t. t.ticks ≡ []) }
        ensures room { IfOk result (λ t. count ≤ t.room) }
    {
        Ok(Totals {
            ticks: Vec::with_capacity(alloc, count as usize)?,
        })
    }

    /// Appends the ticks of the next task.
    pub fn push(&mut self, ticks: u128)
        requires { 1 ≤ self.old.room }
        ensures ticks { self.new.ticks ≡ self.old.ticks ++ ticks ∷ [] }
        ensures room { self.new.room + 1 ≡ self.old.room }
    {
        self.ticks.push_reserved(ticks);
    }

    /// The totals, in the order of the tasks.
    pub fn as_slice(&self) -> &[u128]
        ensures { result.now ≡ self.now.ticks }
    {
        self.ticks.as_slice()
    }
}
