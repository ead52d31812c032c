//! A gate that waits for the calls of another gate.
ghost use Rattle.std.specs.Prelude.{None};

use sched_base::Row;
use sched_edges::{Failed, Gate};
use std::marker::Model;
use std::process::Abort;
use std::sync::Arc;
use std::sync::atomic::{AtomicU64, Ordering};
use std::thread;
use std::time::{Clock, Duration};

/// How often a gate looks for the calls that it waits for, with a pause of a millisecond after each look.
const PATIENCE: u32 = 1_000;

/// A gate that counts its calls where other threads see it. In its first call it waits until another gate has been called a
/// stated number of times, and fails where it has waited 1,000 turns for it. It is seen as its count of faults.
#[derive(Drop)]
pub struct PatientGate<X: Clock + Copy> {
    rt: X,
    calls: Arc<AtomicU64>,
    awaited: Arc<AtomicU64>,
    wanted: u64,
    faults: u64,
}

impl<X: Clock + Copy> Model for PatientGate<X> {
    ghost use Rattle.std.specs.Prelude.{ℕ};

    ghost Value = { ℕ };

    ghost view = { λ g. g.faults };
}

impl<X: Abort + Clock + Copy> PatientGate<X> {
    /// A gate with this count of its calls, which waits until that one stands at the number wanted.
    pub fn new(
        rt: X,
        calls: &Arc<AtomicU64>,
        awaited: &Arc<AtomicU64>,
        wanted: u64,
    ) -> PatientGate<X> {
        PatientGate {
            rt,
            calls: Arc::try_clone(calls).expect(&rt, "there is memory"),
            awaited: Arc::try_clone(awaited).expect(&rt, "there is memory"),
            wanted,
            faults: 0,
        }
    }
}

impl<X: Clock + Copy> PatientGate<X> {
    /// Waits for the calls of the other gate. False where they don't come.
    fn meets(&self) -> bool {
        for _ in 0..PATIENCE {
            if self.awaited.load(Ordering::SeqCst) >= self.wanted {
                return true;
            }
            thread::sleep(&self.rt, Duration::from_millis(1));
        }
        false
    }
}

impl<X: Clock + Copy> Gate for PatientGate<X> {
    ghost ran = { λ _. None };

    ghost faults = { λ g. g };

    fn run(&mut self, row: &Row) -> Result<(), Failed> {
        let _ = row;
        if self.calls.fetch_add(1, Ordering::SeqCst) == 0 && !self.meets() {
            self.faults = self.faults.saturating_add(1);
            return Err(Failed);
        }
        Ok(())
    }
}
