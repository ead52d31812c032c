//! Trees as they were read.
ghost use Rattle.std.specs.Prelude.{◌≡◌, ◌<◌, length};
ghost use Rattle.tree_check.specs.Written.{IsWritten, level_at};

use sched_base::{Name, TaskSet};
use std::marker::Model;

/// A member of a pack as it is written.
#[derive(Drop)]
pub enum Member {
    /// The task of this name, in level 0.
    Name(Name),
    /// In level 0 the idle leaf of this number; in a higher level the dual of the pack of this number in the level below.
    Number(u32),
}

/// A pack as it is written: its rate, and its members in order.
#[derive(Drop)]
pub struct Pack {
    pub(crate) rate: u128,
    pub(crate) members: Vec<Member>,
}

impl Model for Pack {
    ghost use Rattle.tree_check.specs.Written as written;

    ghost Value = { written.Pack };

    ghost view = { λ p. record { rate = p.rate; members = p.members.items } };
}

impl Pack {
    /// A pack of this rate, in ticks a unit, with these members in order.
    pub fn new(rate: u128, members: Vec<Member>) -> Pack
        ensures { result ≡ record { rate = rate; members = members.items } }
    {
        Pack { rate, members }
    }

    /// The printed rate, in ticks a unit.
    pub fn rate(&self) -> u128
        ensures { result ≡ self.now.rate }
    {
        self.rate
    }

    /// The members, in order.
    pub fn members(&self) -> &[Member]
        ensures { result.now ≡ self.now.members }
    {
        self.members.as_slice()
    }
}

/// The packs of a level, in the order of their lines.
#[derive(Drop)]
pub struct Level {
    packs: Vec<Pack>,
}

impl Model for Level {
    ghost use Rattle.std.specs.Prelude.{List};
    ghost use Rattle.tree_check.specs.Written as written;

    ghost Value = { List written.Pack };

    ghost view = { λ l. l.packs.items };
}

impl Level {
    /// A level of these packs.
    pub fn new(packs: Vec<Pack>) -> Level
        ensures { result ≡ packs.items }
    {
        Level { packs }
    }

    /// The packs.
    pub fn packs(&self) -> &[Pack]
        ensures { result.now ≡ self.now }
    {
        self.packs.as_slice()
    }
}

/// What a tree text says: a set with its scale, the rates of the idle leaves, and the packs of each level.
pub struct ReadTree {
    set: TaskSet,
    scale: u128,
    idles: Vec<u128>,
    levels: Vec<Level>,
}

impl Drop for ReadTree {
    fn drop(self) {
        let Self {
            set: _set,
            scale: _,
            idles: _idles,
            levels: _levels,
        } = self;
    }
}

impl Model for ReadTree {
    ghost use Rattle.tree_check.specs.Written.{Written, IsWritten};

    ghost Value = { Written };

    ghost view = { λ t. record { set = t.set; scale = t.scale; idles = t.idles.items; levels = t.levels.items } };

    ghost invariant = { λ t. IsWritten (record { set = t.set; scale = t.scale; idles = t.idles.items; levels = t.levels.items }) };
}

impl ReadTree {
    /// What a text says whose levels are these: its set, its scale in ticks a unit, and the rates of its idle leaves.
    pub fn new(set: TaskSet, scale: u128, idles: Vec<u128>, levels: Vec<Level>) -> ReadTree
        requires { IsWritten (record { set = set; scale = scale; idles = idles.items; levels = levels.items }) }
        ensures { result ≡ record { set = set; scale = scale; idles = idles.items; levels = levels.items } }
    {
        ReadTree {
            set,
            scale,
            idles,
            levels,
        }
    }

    /// The set.
    pub fn set(&self) -> &TaskSet
        ensures value { result.now ≡ self.now.set }
        ensures lawful { IsWritten self.now }
    {
        &self.set
    }

    /// The ticks of a unit.
    pub fn scale(&self) -> u128
        ensures value { result ≡ self.now.scale }
        ensures lawful { IsWritten self.now }
    {
        self.scale
    }

    /// The rates of the idle leaves.
    pub fn idles(&self) -> &[u128]
        ensures { result.now ≡ self.now.idles }
    {
        self.idles.as_slice()
    }

    /// The number of levels.
    pub fn levels(&self) -> usize
        ensures value { result ≡ length self.now.levels }
        ensures lawful { IsWritten self.now }
    {
        self.levels.len()
    }

    /// The packs of level l.
    pub fn packs(&self, l: usize) -> &[Pack]
        requires { l < length self.now.levels }
        ensures { result.now ≡ level_at self.now l }
    {
        self.levels[l].packs()
    }
}
