//! A gate that keeps a pace.
ghost use Rattle.std.specs.Prelude.{◌≡◌, [], Some, IfOk};

use sched_base::{NoMemory, Row};
use sched_edges::{Failed, Gate, ListGate};
use std::alloc::Global;
use std::marker::Model;
use std::thread;
use std::time::{Clock, Duration};

/// How long gates take for a row.
#[derive(Clone, Copy)]
pub enum Pace {
    /// No time.
    Even,
    /// The gate of this processor sleeps at each row, and the others take no time.
    SlowOn(u32),
    /// Each gate sleeps at some rows, which differ from gate to gate.
    AtRandom,
}

/// A gate with a list, which may sleep before it runs a row. It is seen as its list.
#[derive(Drop)]
pub struct PacedGate<X: Clock + Copy> {
    rt: X,
    list: ListGate,
    pace: Pace,
    draw: u64,
}

impl<X: Clock + Copy> Model for PacedGate<X> {
    ghost use Rattle.sched_edges.specs.Gates.{GateHeld};

    ghost Value = { GateHeld };

    ghost view = { λ g. g.list };
}

impl<X: Clock + Copy> PacedGate<X> {
    /// The gate of a processor, which ran nothing yet, with room for that many rows.
    pub fn new(
        rt: X,
        alloc: Global,
        processor: u32,
        room: usize,
        pace: Pace,
    ) -> Result<PacedGate<X>, NoMemory>
        ensures { IfOk result (λ g. g.ran ≡ []) }
    {
        Ok(PacedGate {
            rt,
            list: ListGate::new(alloc, room, &[])?,
            pace,
            draw: u64::from(processor) + 1,
        })
    }

    /// The rows run so far.
    pub fn ran(&self) -> &[Row]
        ensures { result.now ≡ self.now.ran }
    {
        self.list.ran()
    }

    // The next number of a fixed row of numbers.
    fn next_draw(&mut self) -> u64
        ensures { self.new ≡ self.old }
    {
        self.draw = self
            .draw
            .wrapping_mul(6_364_136_223_846_793_005)
            .wrapping_add(1_442_695_040_888_963_407);
        self.draw >> 56
    }

    // Sleeps as the pace says.
    fn pause(&mut self, processor: u32)
        ensures { self.new ≡ self.old }
    {
        let micros = match self.pace {
            Pace::Even => 0,
            Pace::SlowOn(slow) => { if processor == slow { 100 } else { 0 } }
            Pace::AtRandom => self.next_draw().saturating_sub(200),
        };
        if micros > 0 {
            thread::sleep(&self.rt, Duration::from_micros(micros));
        }
    }
}

impl<X: Clock + Copy> Gate for PacedGate<X> {
    ghost ran = { λ g. Some g.ran };

    ghost faults = { λ g. g.faults };

    fn run(&mut self, row: &Row) -> Result<(), Failed> {
        self.pause(row.processor);
        self.list.run(row)
    }
}
