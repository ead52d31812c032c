//! Lists of packs, with room for each of them.
ghost use Rattle.std.specs.Prelude.{◌≡◌, ◌<◌, ◌≤◌, ◌&&◌, ◌+◌, ◌++◌, [], ◌∷◌, not, length, take, IfOk};
ghost use Rattle.cpu_assign.specs.Changed.{with_pack};

use sched_base::NoMemory;
use std::alloc::Global;
use std::marker::Model;

// Packs, one behind the other.
#[derive(Drop)]
struct PackList {
    packs: Vec<u32>,
    count: usize,
}

impl Model for PackList {
    ghost use Rattle.std.specs.Prelude.{◌≤◌, length, take};
    ghost use Rattle.cpu_assign.specs.Changed.{PackLists};

    ghost Value = { PackLists };

    ghost view = { λ l. record { packs = take l.count l.packs.items; room = length l.packs.items } };

    ghost invariant = { λ l. l.count ≤ length l.packs.items };
}

// Pack i behind the first `count`.
#[tactic(auto, using(crate::proofs::ListedLemmas::one_more))]
fn put(packs: &mut [u32], count: usize, i: u32)
    requires { count < length packs.old }
    ensures { take (count + 1) packs.new ≡ take count packs.old ++ i ∷ [] }
{
    packs[count] = i;
}

impl PackList {
    // No pack yet.
    fn new(alloc: Global, room: u32) -> Result<PackList, NoMemory>
        ensures packs { IfOk result (λ l. l.packs ≡ []) }
        ensures room { IfOk result (λ l. l.room ≡ room) }
    {
        let packs = vec![in alloc; 0u32; room as usize]?;
        Ok(PackList { packs, count: 0 })
    }

    fn clear(&mut self)
        ensures packs { self.new.packs ≡ [] }
        ensures room { self.new.room ≡ self.old.room }
    {
        self.count = 0;
    }

    fn push(&mut self, i: u32)
        requires { length self.old.packs < self.old.room }
        ensures packs { self.new.packs ≡ self.old.packs ++ i ∷ [] }
        ensures room { self.new.room ≡ self.old.room }
    {
        put(&mut self.packs, self.count, i);
        self.count += 1;
    }

    // Pack i, where this is so.
    fn push_if(&mut self, on: bool, i: u32)
        requires { length self.old.packs < self.old.room }
        ensures packs { self.new.packs ≡ with_pack self.old.packs i on }
        ensures room { self.new.room ≡ self.old.room }
    {
        if on {
            self.push(i);
        }
    }

    fn as_slice(&self) -> &[u32]
        ensures packs { result.now ≡ self.now.packs }
        ensures room { length self.now.packs ≤ self.now.room }
    {
        &self.packs[..self.count]
    }
}

/// The packs that were looked at for a tick, in order, and of these the ones that stop there and those that begin.
#[derive(Drop)]
pub struct Changes {
    seen: PackList,
    stopped: PackList,
    begun: PackList,
}

impl Model for Changes {
    ghost use Rattle.std.specs.Prelude.{◌≡◌};
    ghost use Rattle.cpu_assign.specs.Changed.{ChangeLists};

    ghost Value = { ChangeLists };

    ghost view = { λ c. record { seen = c.seen.packs; stopped = c.stopped.packs; begun = c.begun.packs; room = c.stopped.room } };

    ghost invariant = { λ c. (c.begun.room ≡ c.stopped.room) × (c.seen.room ≡ c.stopped.room) };
}

impl Changes {
    /// None yet, with room for so many packs.
    pub fn new(alloc: Global, packs: u32) -> Result<Changes, NoMemory>
        ensures room { IfOk result (λ c. c.room ≡ packs) }
        ensures none { IfOk result (λ c. (c.seen ≡ []) × (c.stopped ≡ []) × (c.begun ≡ [])) }
    {
        let seen = PackList::new(alloc, packs)?;
        let stopped = PackList::new(alloc, packs)?;
        let begun = PackList::new(alloc, packs)?;
        Ok(Changes {
            seen,
            stopped,
            begun,
        })
    }

    /// Forgets all of them.
    pub fn clear(&mut self)
        ensures seen { self.new.seen ≡ [] }
        ensures stopped { self.new.stopped ≡ [] }
        ensures begun { self.new.begun ≡ [] }
        ensures room { self.new.room ≡ self.old.room }
    {
        self.seen.clear();
        self.stopped.clear();
        self.begun.clear();
    }

    /// Lists pack i behind the others, as one that stops where it is on a processor and runs no more, and as one that begins where it
    /// runs and is on none.
    pub fn see(&mut self, i: u32, runs: bool, held: bool)
        requires seen { length self.old.seen < self.old.room }
        requires stopped { length self.old.stopped < self.old.room }
        requires begun { length self.old.begun < self.old.room }
        ensures seen { self.new.seen ≡ self.old.seen ++ i ∷ [] }
        ensures stopped { self.new.stopped ≡ with_pack self.old.stopped i (not runs && held) }
        ensures begun { self.new.begun ≡ with_pack self.old.begun i (runs && not held) }
        ensures room { self.new.room ≡ self.old.room }
    {
        self.seen.push(i);
        if runs != held {
            self.stopped.push_if(held, i);
            self.begun.push_if(runs, i);
        }
    }

    /// The packs that were looked at.
    pub fn seen(&self) -> &[u32]
        ensures packs { result.now ≡ self.now.seen }
        ensures room { length self.now.seen ≤ self.now.room }
    {
        self.seen.as_slice()
    }

    pub(crate) fn stopped(&self) -> &[u32]
        ensures { result.now ≡ self.now.stopped }
    {
        self.stopped.as_slice()
    }

    pub(crate) fn begun(&self) -> &[u32]
        ensures { result.now ≡ self.now.begun }
    {
        self.begun.as_slice()
    }
}
