//! Gates for tests: one with a list, of which stated calls fail, and one that never fails.
ghost use Rattle.std.specs.Prelude.{◌≡◌, ◌⊎◌, ◌↔◌, true, [], ◌∷◌, Some, None, OnOk, OnErr, IsOk, IsErr, IfOk};
ghost use Rattle.sched_edges.specs.Causes.{HasCause};
ghost use Rattle.sched_edges.specs.Memory.{next_call, is_listed};
ghost use Rattle.sched_edges.specs.Gates.{grown, rows_left};

use crate::gates::Gate;
use crate::streams::{Failed, call_fails, fault};
use sched_base::{NoMemory, Row};
use std::alloc::Global;
use std::marker::Model;

/// A gate that lists the rows it ran, with a stated room, which is set aside when it is made. A row that finds no room
/// left is a fault.
#[derive(Drop)]
pub struct ListGate {
    rows: Vec<Row>,
    room: usize,
    fails: Vec<u64>,
    calls: u64,
    faults: u64,
}

impl Model for ListGate {
    ghost use Rattle.std.specs.Prelude.{◌≤◌, vec_len, vec_capacity};
    ghost use Rattle.sched_edges.specs.Gates.{GateHeld};

    ghost Value = { GateHeld };

    ghost view = { λ g. record { ran = g.rows.items; room = g.room; fails = g.fails.items; calls = g.calls; faults = g.faults } };

    ghost invariant = { λ g. (vec_len g.rows ≤ g.room) × (g.room ≤ vec_capacity g.rows) };
}

impl ListGate {
    /// A gate that ran nothing yet, with room for that many rows. The calls of these numbers, counted from 1, fail.
    pub fn new(alloc: Global, room: usize, fails: &[u64]) -> Result<ListGate, NoMemory>
        ensures ran { IfOk result (λ g. g.ran ≡ []) }
        ensures room { IfOk result (λ g. g.room ≡ room) }
        ensures fails { IfOk result (λ g. g.fails ≡ fails.now) }
        ensures calls { IfOk result (λ g. g.calls ≡ 0) }
        ensures faults { IfOk result (λ g. g.faults ≡ 0) }
    {
        Ok(ListGate {
            rows: Vec::with_capacity(alloc, room)?,
            room,
            fails: Vec::from_slice(alloc, fails)?,
            calls: 0,
            faults: 0,
        })
    }

    /// The rows run so far.
    pub fn ran(&self) -> &[Row]
        ensures { result.now ≡ self.now.ran }
    {
        self.rows.as_slice()
    }
}

impl Gate for ListGate {
    ghost ran = { λ g. Some g.ran };

    ghost faults = { λ g. g.faults };

    fn run(&mut self, row: &Row) -> Result<(), Failed>
        ensures ok { OnOk result (Some self.new.ran ≡ grown (Some self.old.ran) (row.now ∷ [])) }
        ensures err { OnErr result (Some self.new.ran ≡ Some self.old.ran) }
        ensures count { OnOk result (self.new.faults ≡ self.old.faults) }
        ensures cause { HasCause self.old.faults self.new.faults result }
        ensures failed { IsErr result ↔ ((is_listed self.old.fails self.new.calls ≡ true) ⊎ (rows_left self.old ≡ 0)) }
        ensures calls { self.new.calls ≡ next_call self.old.calls }
        ensures fails { self.new.fails ≡ self.old.fails }
        ensures room { self.new.room ≡ self.old.room }
    {
        if call_fails(&mut self.calls, &self.fails) {
            return Err(fault(&mut self.faults));
        }
        if self.rows.len() >= self.room {
            return Err(fault(&mut self.faults));
        }
        self.rows.push_reserved(*row);
        Ok(())
    }
}

/// A gate that keeps nothing and never fails.
#[derive(Clone, Copy)]
pub struct SureGate;

impl SureGate {
    /// A gate.
    pub fn new() -> SureGate {
        SureGate
    }
}

impl Gate for SureGate {
    ghost ran = { λ _. None };

    ghost faults = { λ _. 0 };

    fn run(&mut self, row: &Row) -> Result<(), Failed>
        ensures { IsOk result }
    {
        let _ = row;
        Ok(())
    }
}
