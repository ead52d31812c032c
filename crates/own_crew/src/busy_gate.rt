//! A gate that notes how long its processor was busy.
ghost use Rattle.std.specs.Prelude.{None};

use sched_base::{Leaf, Row};
use sched_edges::{Failed, Gate};

/// How long a processor was busy and idle, in ticks.
#[derive(Clone, Copy, Debug)]
pub struct BusyGate {
    busy: u128,
    idle: u128,
}

impl BusyGate {
    /// A gate that has run nothing.
    pub fn new() -> BusyGate {
        BusyGate { busy: 0, idle: 0 }
    }

    /// The ticks in which a task ran.
    pub fn busy(&self) -> u128 {
        self.busy
    }

    /// The other ticks.
    pub fn idle(&self) -> u128 {
        self.idle
    }
}

impl Gate for BusyGate {
    // The gate keeps no list of its rows, and never fails.
    ghost ran = { λ _. None };

    ghost faults = { λ _. 0 };

    fn run(&mut self, row: &Row) -> Result<(), Failed> {
        // Here a real gate would wait until the row's start, and let the task run up to its end.
        let ticks = row.end.saturating_sub(row.start);
        match row.leaf {
            Leaf::Task(_) => self.busy = self.busy.saturating_add(ticks),
            _ => self.idle = self.idle.saturating_add(ticks),
        }
        Ok(())
    }
}
