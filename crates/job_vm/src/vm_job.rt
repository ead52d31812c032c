//! A job that runs a program.
ghost use Rattle.std.specs.Prelude.{◌≡◌, ◌≤◌, ◌<◌, ◌+◌, ◌/◌, ◌^◌, [], Some, IsOk};
ghost use Rattle.sched_edges.specs.JobMachine.{alone};

use crate::vm::Vm;
use sched_base::NoMemory;
use sched_edges::{Failed, Job};
use std::alloc::Global;
use std::marker::Model;

/// A job that runs one instruction of its program in each unit that it works, and never fails. A program that stands still costs no
/// time, however many ticks it is given.
#[derive(Drop)]
pub struct VmJob {
    id: u32,
    used: u128,
    scale: u128,
    code: Vec<u64>,
    vm: Vm,
}

impl Model for VmJob {
    ghost use Rattle.std.specs.Prelude.{◌≡◌, ◌≤◌, ◌/◌};
    ghost use Rattle.sched_edges.specs.JobMachine.{alone};
    ghost use Rattle.job_vm.specs.VmJobs.{VmHeld};

    ghost Value = { VmHeld };

    ghost view = { λ j. record { id = j.id; used = j.used; scale = j.scale; code = j.code.items } };

    ghost invariant = { λ j. (1 ≤ j.scale) × (j.vm ≡ alone j.code.items (j.used / j.scale)) };
}

impl VmJob {
    /// A job with the empty program, and units of one tick, that has worked no tick yet. This takes no memory.
    pub fn new(alloc: Global, id: u32) -> VmJob
        ensures { result ≡ record { id = id; used = 0; scale = 1; code = [] } }
    {
        VmJob {
            id,
            used: 0,
            scale: 1,
            code: Vec::new(alloc),
            vm: Vm::new(),
        }
    }
}

impl Job for VmJob {
    ghost id = { λ j. j.id };

    ghost used = { λ j. j.used };

    ghost faults = { λ _. 0 };

    ghost made = { λ j. Some (j.scale, j.code) };

    fn id(&self) -> u32 {
        self.id
    }

    fn used(&self) -> u128 {
        self.used
    }

    fn faults(&self) -> u64 {
        0
    }

    fn work(&mut self, ticks: u128) -> Result<(), Failed>
        requires { self.old.used + ticks < 2 ^ 127 }
        ensures worked { self.new ≡ record self.old { used = self.old.used + ticks } }
        ensures sure { IsOk result }
    {
        let used = self.used + ticks;
        work_on(&mut self.vm, &self.code, self.scale, self.used, used);
        self.used = used;
        Ok(())
    }

    fn load(&mut self, code: &[u64], scale: u128) -> Result<(), NoMemory> {
        self.code
            .reserve(code.len().saturating_sub(self.code.len()))?;
        self.code.clear();
        self.code.extend_from_slice(code).unwrap();
        self.scale = scale;
        self.used = 0;
        self.vm = Vm::new();
        Ok(())
    }

    fn state(&self) -> [u64; 9] {
        self.vm.numbers()
    }
}

// Runs the program on, from so many ticks to so many. Nothing is divided for the empty program, which stands still.
fn work_on(vm: &mut Vm, code: &[u64], scale: u128, from: u128, to: u128)
    requires scale { 1 ≤ scale }
    requires on { from ≤ to }
    requires at { vm.old ≡ alone code.now (from / scale) }
    ensures { vm.new ≡ alone code.now (to / scale) }
{
    if !code.is_empty() {
        vm.run(code, from / scale, to / scale);
    }
}
