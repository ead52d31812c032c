//! A job that may work so many ticks and no more.
ghost use Rattle.std.specs.Prelude.{◌≡◌, None};

use sched_base::NoMemory;
use sched_edges::{Failed, Job};
use std::marker::Model;

/// A job that works up to its bound, and fails where a call would take it further.
#[derive(Drop)]
pub struct BoundedJob {
    id: u32,
    bound: u128,
    used: u128,
    faults: u64,
}

impl Model for BoundedJob {
    ghost use Rattle.own_crew.specs.Crew.{BoundedHeld};

    ghost Value = { BoundedHeld };

    ghost view = { λ j. record { id = j.id; used = j.used; faults = j.faults } };
}

impl BoundedJob {
    /// A job that has worked no tick yet, and may work `bound` ticks.
    pub fn new(id: u32, bound: u128) -> BoundedJob
        ensures { result ≡ record { id = id; used = 0; faults = 0 } }
    {
        BoundedJob {
            id,
            bound,
            used: 0,
            faults: 0,
        }
    }
}

impl Job for BoundedJob {
    ghost id = { λ j. j.id };

    ghost used = { λ j. j.used };

    ghost faults = { λ j. j.faults };

    // The job has no program.
    ghost made = { λ _. None };

    fn id(&self) -> u32 {
        self.id
    }

    fn used(&self) -> u128 {
        self.used
    }

    fn faults(&self) -> u64 {
        self.faults
    }

    fn work(&mut self, ticks: u128) -> Result<(), Failed> {
        // Here a real job would do its work, or a part of it.
        if self.bound < self.used + ticks {
            self.faults = self.faults.saturating_add(1);
            return Err(Failed);
        }
        self.used += ticks;
        Ok(())
    }

    fn load(&mut self, _code: &[u64], _scale: u128) -> Result<(), NoMemory> {
        self.used = 0;
        Ok(())
    }

    fn state(&self) -> [u64; 9] {
        [0; 9]
    }
}
