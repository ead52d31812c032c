//! Jobs for tests: one that counts its ticks, and one of which stated calls fail.
ghost use Rattle.std.specs.Prelude.{◌≡◌, ◌+◌, ◌<◌, ◌^◌, ◌↔◌, true, None, OnOk, OnErr, IsOk, IsErr, IfOk};
ghost use Rattle.sched_edges.specs.Causes.{HasCause};
ghost use Rattle.sched_edges.specs.Memory.{next_call, is_listed};

use crate::jobs::Job;
use crate::streams::{Failed, call_fails, fault};
use sched_base::NoMemory;
use std::alloc::Global;
use std::marker::Model;

/// A job that counts its ticks and never fails.
#[derive(Drop)]
pub struct CountJob {
    id: u32,
    used: u128,
}

impl Model for CountJob {
    ghost use Rattle.sched_edges.specs.Jobs.{CountHeld};

    ghost Value = { CountHeld };

    ghost view = { λ j. record { id = j.id; used = j.used } };
}

impl CountJob {
    /// A job that has worked no tick yet.
    pub fn new(id: u32) -> CountJob
        ensures { result ≡ record { id = id; used = 0 } }
    {
        CountJob { id, used: 0 }
    }
}

impl Job for CountJob {
    ghost id = { λ j. j.id };

    ghost used = { λ j. j.used };

    ghost faults = { λ _. 0 };

    ghost made = { λ _. None };

    fn id(&self) -> u32 {
        self.id
    }

    fn used(&self) -> u128 {
        self.used
    }

    fn faults(&self) -> u64 {
        0
    }

    fn work(&mut self, ticks: u128) -> Result<(), Failed>
        requires { self.old.used + ticks < 2 ^ 127 }
        ensures id { self.new.id ≡ self.old.id }
        ensures ok { OnOk result (self.new.used ≡ self.old.used + ticks) }
        ensures sure { IsOk result }
    {
        self.used += ticks;
        Ok(())
    }

    fn load(&mut self, _code: &[u64], _scale: u128) -> Result<(), NoMemory> {
        self.used = 0;
        Ok(())
    }

    fn state(&self) -> [u64; 9] {
        [0; 9]
    }
}

/// A job that counts its ticks, of which stated calls of `work` fail.
#[derive(Drop)]
pub struct FailJob {
    id: u32,
    used: u128,
    fails: Vec<u64>,
    calls: u64,
    faults: u64,
}

impl Model for FailJob {
    ghost use Rattle.sched_edges.specs.Jobs.{FailHeld};

    ghost Value = { FailHeld };

    ghost view = { λ j. record { id = j.id; used = j.used; fails = j.fails.items; calls = j.calls; faults = j.faults } };
}

impl FailJob {
    /// A job that has worked no tick yet. The calls of these numbers, counted from 1, fail.
    pub fn new(alloc: Global, id: u32, fails: &[u64]) -> Result<FailJob, NoMemory>
        ensures id { IfOk result (λ j. j.id ≡ id) }
        ensures used { IfOk result (λ j. j.used ≡ 0) }
        ensures fails { IfOk result (λ j. j.fails ≡ fails.now) }
        ensures calls { IfOk result (λ j. j.calls ≡ 0) }
        ensures faults { IfOk result (λ j. j.faults ≡ 0) }
    {
        Ok(FailJob {
            id,
            used: 0,
            fails: Vec::from_slice(alloc, fails)?,
            calls: 0,
            faults: 0,
        })
    }
}

impl Job for FailJob {
    ghost id = { λ j. j.id };

    ghost used = { λ j. j.used };

    ghost faults = { λ j. j.faults };

    ghost made = { λ _. None };

    fn id(&self) -> u32 {
        self.id
    }

    fn used(&self) -> u128 {
        self.used
    }

    fn faults(&self) -> u64 {
        self.faults
    }

    fn work(&mut self, ticks: u128) -> Result<(), Failed>
        requires { self.old.used + ticks < 2 ^ 127 }
        ensures id { self.new.id ≡ self.old.id }
        ensures ok { OnOk result (self.new.used ≡ self.old.used + ticks) }
        ensures err { OnErr result (self.new.used ≡ self.old.used) }
        ensures count { OnOk result (self.new.faults ≡ self.old.faults) }
        ensures cause { HasCause self.old.faults self.new.faults result }
        ensures failed { IsErr result ↔ (is_listed self.old.fails self.new.calls ≡ true) }
        ensures calls { self.new.calls ≡ next_call self.old.calls }
        ensures fails { self.new.fails ≡ self.old.fails }
    {
        if call_fails(&mut self.calls, &self.fails) {
            return Err(fault(&mut self.faults));
        }
        self.used += ticks;
        Ok(())
    }

    fn load(&mut self, _code: &[u64], _scale: u128) -> Result<(), NoMemory> {
        self.used = 0;
        Ok(())
    }

    fn state(&self) -> [u64; 9] {
        [0; 9]
    }
}
