//! The trait of jobs: what does a task's work.
ghost use Rattle.std.specs.Prelude.{◌≡◌, ◌+◌, ◌<◌, ◌≤◌, ◌^◌, ℕ, List, [], OnOk, OnErr, IsOk};
ghost use Rattle.std.specs.declared.option.Option.{Option};
ghost use Rattle.sched_edges.specs.Causes.{HasCause};
ghost use Rattle.sched_edges.specs.Jobs.{reloaded, computed};

use crate::streams::Failed;
use sched_base::NoMemory;

/// What does the work of one task, tick by tick.
pub trait Job: Drop {
    /// Which job it is. It never changes.
    ghost id: { Self → ℕ };

    /// The ticks worked so far.
    ghost used: { Self → ℕ };

    /// How often it has failed. The count never falls.
    ghost faults: { Self → ℕ };

    /// What it was made of, where it has a program: the scale of its ticks, and the words of its program. Only `load` changes it.
    ghost made: { Self → Option (ℕ × List ℕ) };

    /// Which job it is.
    fn id(&self) -> u32
        ensures { result ≡ id self.now };

    /// The ticks worked so far.
    fn used(&self) -> u128
        ensures { result ≡ used self.now };

    /// How often it has failed.
    fn faults(&self) -> u64
        ensures { result ≡ faults self.now };

    /// Works for that many ticks, or for none where it fails.
    fn work(&mut self, ticks: u128) -> Result<(), Failed>
        requires { used self.old + ticks < 2 ^ 127 }
        ensures id { id self.new ≡ id self.old }
        ensures made { made self.new ≡ made self.old }
        ensures ok { OnOk result (used self.new ≡ used self.old + ticks) }
        ensures err { OnErr result (used self.new ≡ used self.old) }
        ensures count { OnOk result (faults self.new ≡ faults self.old) }
        ensures cause { HasCause (faults self.old) (faults self.new) result };

    /// Begins anew with the program of these words, of which one is run in each unit of `scale` ticks. A job without a program
    /// has none afterwards. The empty program takes no memory.
    fn load(&mut self, code: &[u64], scale: u128) -> Result<(), NoMemory>
        requires low { 1 ≤ scale }
        requires high { scale ≤ 2 ^ 94 }
        ensures id { id self.new ≡ id self.old }
        ensures faults { faults self.new ≡ faults self.old }
        ensures used { OnOk result (used self.new ≡ 0) }
        ensures made { OnOk result (made self.new ≡ reloaded (made self.old) scale code.now) }
        ensures left_used { OnErr result (used self.new ≡ used self.old) }
        ensures left_made { OnErr result (made self.new ≡ made self.old) }
        ensures empty { code.now ≡ [] → IsOk result };

    /// What its program has computed: the program counter, and the registers 0 to 7. Nine zeros where it has no program.
    fn state(&self) -> [u64; 9]
        ensures { result ≡ computed (made self.now) (used self.now) };
}

impl Job for Box<dyn Job + Send> {
    ghost id = { λ b. (Job-box b).id b.value };

    ghost used = { λ b. (Job-box b).used b.value };

    ghost faults = { λ b. (Job-box b).faults b.value };

    ghost made = { λ b. (Job-box b).made b.value };

    fn id(&self) -> u32 {
        (**self).id()
    }

    fn used(&self) -> u128 {
        (**self).used()
    }

    fn faults(&self) -> u64 {
        (**self).faults()
    }

    fn work(&mut self, ticks: u128) -> Result<(), Failed> {
        (**self).work(ticks)
    }

    fn load(&mut self, code: &[u64], scale: u128) -> Result<(), NoMemory> {
        (**self).load(code, scale)
    }

    fn state(&self) -> [u64; 9] {
        (**self).state()
    }
}
