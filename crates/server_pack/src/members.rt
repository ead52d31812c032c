//! The members of a server.
ghost use Rattle.std.specs.Prelude.{◌≡◌, [], ◌∷◌, ◌++◌, OnOk, OnErr};

use sched_base::NoMemory;
use smallvec::SmallVec;
use std::alloc::Global;
use std::marker::Model;

/// The numbers of the items that a server has, in the order in which they came. The first four take no memory.
#[derive(Drop)]
pub struct Members(SmallVec<u32, 4>);

impl Model for Members {
    ghost use Rattle.std.specs.Prelude.{ℕ, List};

    ghost Value = { List ℕ };

    ghost view = { λ m. m.0.items };
}

impl Members {
    /// No members. It takes no memory.
    pub fn new(alloc: Global) -> Members
        ensures { result ≡ [] }
    {
        Members(SmallVec::new(alloc))
    }

    /// Adds a member at the end.
    pub fn push(&mut self, item: u32) -> Result<(), NoMemory>
        ensures ok { OnOk result (self.new ≡ self.old ++ item ∷ []) }
        ensures err { OnErr result (self.new ≡ self.old) }
    {
        self.0.push(item)?;
        Ok(())
    }

    /// The numbers, in order.
    pub fn as_slice(&self) -> &[u32]
        ensures { result.now ≡ self.now }
    {
        self.0.as_slice()
    }
}
