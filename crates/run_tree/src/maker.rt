//! Trees in the making.
ghost use Rattle.std.specs.Prelude.{◌≡◌, ◌≤◌, ◌<◌, ◌^◌, ◌+◌, ℕ, filter, length, map, nat_lt, slice_index, IfOk, OnOk, OnErr};
ghost use Rattle.sched_base.specs.Limits.{processor_limit};
ghost use Rattle.run_tree.specs.declared.kinds.Kind.TheVariants as kind;
ghost use Rattle.run_tree.specs.Tree.{IsTree, rate as rate_in};
ghost use Rattle.run_tree.specs.Schedule.{packs_at};
ghost use Rattle.run_tree.specs.Growth.{node_in};
ghost use Rattle.run_tree.specs.Making.{started, put, lower_packs, lifted};
ghost use Rattle.run_tree.specs.Maker.{IsMaking, NamesLower, leaf_count, packs_named};

use crate::growth::{Growth, Member};
use crate::kinds::Kind;
use crate::nodes::{Node, node_of};
use crate::tree::Tree;
use sched_base::{Leaf, NoMemory};
use std::alloc::Global;
use std::marker::Model;

/// The packs of a level, in order.
#[derive(Drop)]
struct Packs {
    numbers: Vec<u32>,
}

impl Model for Packs {
    ghost use Rattle.std.specs.Prelude.{List, ℕ};

    ghost Value = { List ℕ };

    ghost view = { λ p. p.numbers.items };
}

/// A tree that is being made, member by member and level by level.
pub struct TreeMaker {
    processors: u32,
    scale: u128,
    levels: u32,
    growth: Growth,
    lower: Vec<Packs>,
}

impl Drop for TreeMaker {
    fn drop(self) {
        let Self {
            processors: _,
            scale: _,
            levels: _,
            growth: _growth,
            lower: _lower,
        } = self;
    }
}

impl Model for TreeMaker {
    ghost use Rattle.run_tree.specs.Making.{Making};
    ghost use Rattle.run_tree.specs.Maker.{IsMaker};

    ghost Value = { Making };

    ghost view = { λ m. record {
      tree = record { processors = m.processors; scale = m.scale; levels = m.levels; nodes = m.growth.nodes };
      last = m.growth.packs;
    } };

    ghost invariant = { λ m. IsMaker m.lower.items (record {
      tree = record {
        processors = m.processors;
        scale = m.scale;
        levels = m.levels;
        nodes = m.growth.nodes;
      };
      last = m.growth.packs;
    }) };
}

// A copy of these levels.
fn copies(levels: &Vec<Packs>) -> Result<Vec<Packs>, NoMemory>
    ensures { IfOk result (λ copied. copied.items ≡ levels.now.items) }
{
    let alloc = *levels.allocator();
    let mut copied = Vec::new(alloc);
    for packs in levels {
        copied.push(Packs {
            numbers: Vec::from_slice(alloc, packs.numbers.as_slice())?,
        })?;
    }
    Ok(copied)
}

// Those of these packs that aren't roots, in order.
fn lower_of(alloc: Global, nodes: &[Node], packs: &[u32], scale: u128) -> Result<Vec<u32>, NoMemory>
    requires { (i : ℕ) → i < length packs.now → slice_index packs.now i < length nodes.now }
    ensures { IfOk result (λ found. found.items ≡ filter (λ p. nat_lt (node_in nodes.now p).rate scale) packs.now) }
{
    let mut found = Vec::new(alloc);
    for pack in packs {
        if node_of(nodes, *pack).head().rate < scale {
            found.push(*pack)?;
        }
    }
    Ok(found)
}

// The packs at these places, in the order told.
fn named_of(alloc: Global, packs: &[u32], order: &[u32]) -> Result<Vec<u32>, NoMemory>
    requires { (k : ℕ) → k < length order.now → slice_index order.now k < length packs.now }
    ensures { IfOk result (λ named. named.items ≡ map (λ i. slice_index packs.now i) order.now) }
{
    let mut named = Vec::new(alloc);
    for place in order {
        named.push(packs[*place as usize])?;
    }
    Ok(named)
}

impl TreeMaker {
    /// No node yet. It takes no memory.
    pub fn start(alloc: Global, processors: u32, scale: u128) -> TreeMaker
        requires some_processors { 1 ≤ processors }
        requires few_processors { processors ≤ processor_limit }
        requires some_scale { 1 ≤ scale }
        requires scale_fits { scale ≤ 2 ^ 94 }
        ensures { result ≡ started processors scale }
    {
        TreeMaker {
            processors,
            scale,
            levels: 1,
            growth: Growth::new(alloc),
            lower: Vec::new(alloc),
        }
    }

    /// The number of packs of the last level.
    pub fn packs(&self) -> u32
        ensures value { result ≡ length self.now.last }
        ensures lawful { IsMaking self.now }
    {
        self.growth.packs().len() as u32
    }

    /// The rate of pack i of the last level, in ticks a unit.
    pub fn pack_rate(&self, i: u32) -> u128
        requires { i < length self.now.last }
        ensures { result ≡ rate_in self.now.tree (slice_index self.now.last i) }
    {
        let pack = self.growth.packs()[i as usize];
        node_of(self.growth.nodes(), pack).head().rate
    }

    /// Adds a leaf at the end of pack `pack` of level 0, which is new where `pack` is the number of packs.
    pub fn leaf(&mut self, leaf: Leaf, rate: u128, pack: u32) -> Result<(), NoMemory>
        requires first_level { self.old.tree.levels ≡ 1 }
        requires few { leaf_count self.old.tree < 1280 }
        requires pack { pack ≤ length self.old.last }
        requires some_rate { 1 ≤ rate }
        requires rate_fits { rate ≤ self.old.tree.scale }
        requires within { pack < length self.old.last → rate_in self.old.tree (slice_index self.old.last pack) + rate ≤ self.old.tree.scale }
        ensures ok { OnOk result (self.new ≡ put (kind.Leaf leaf) rate pack self.old) }
        ensures err { OnErr result (self.new ≡ self.old) }
    {
        let next = Member {
            kind: Kind::Leaf(leaf),
            rate,
        };
        self.growth.put(0, self.levels - 1, next, pack)
    }

    /// Adds a level: the dual of the i-th pack of the last level that isn't a root goes to the end of pack `homes[i]`,
    /// which is new where so many packs aren't there yet.
    pub fn lift(&mut self, homes: &[u32]) -> Result<(), NoMemory>
        requires few_levels { self.old.tree.levels < 4096 }
        requires some { 0 < length (lower_packs self.old) }
        requires homes { length homes.now ≡ length (lower_packs self.old) }
        ensures ok { OnOk result (self.new ≡ lifted (lower_packs self.old) homes.now self.old) }
        ensures err { OnErr result (self.new ≡ self.old) }
    {
        let packs = lower_of(
            *self.lower.allocator(),
            self.growth.nodes(),
            self.growth.packs(),
            self.scale,
        )?;
        self.raise(&packs, homes)
    }

    /// Adds a level: for each i in turn the dual of pack `order[i]` of the last level goes to the end of pack `homes[i]`,
    /// which is new where so many packs aren't there yet.
    pub fn lift_order(&mut self, order: &[u32], homes: &[u32]) -> Result<(), NoMemory>
        requires few_levels { self.old.tree.levels < 4096 }
        requires some { 0 < length (lower_packs self.old) }
        requires order { NamesLower self.old order.now }
        requires homes { length homes.now ≡ length order.now }
        ensures ok { OnOk result (self.new ≡ lifted (packs_named self.old order.now) homes.now self.old) }
        ensures err { OnErr result (self.new ≡ self.old) }
    {
        let packs = named_of(*self.lower.allocator(), self.growth.packs(), order)?;
        self.raise(&packs, homes)
    }

    // One more level, of the duals of these packs, each in the home that is told.
    fn raise(&mut self, packs: &[u32], homes: &[u32]) -> Result<(), NoMemory>
        requires few_levels { self.old.tree.levels < 4096 }
        requires few { length packs.now ≤ 1280 }
        requires packs { (i : ℕ) → i < length packs.now → slice_index packs.now i < length self.old.tree.nodes }
        requires rates { (i : ℕ) → i < length packs.now → rate_in self.old.tree (slice_index packs.now i) ≤ self.old.tree.scale }
        requires homes { length homes.now ≡ length packs.now }
        ensures ok { OnOk result (self.new ≡ lifted packs.now homes.now self.old) }
        ensures err { OnErr result (self.new ≡ self.old) }
    {
        self.lower.reserve(1)?;
        let level = Growth::of_duals(
            *self.lower.allocator(),
            self.growth.nodes(),
            self.scale,
            self.levels,
            packs,
            homes,
        )?;
        let numbers = self.growth.append(level)?;
        self.lower.push_reserved(Packs { numbers });
        self.levels += 1;
        Ok(())
    }

    /// The tree that was made.
    pub fn finish(self) -> Tree
        requires { IsTree self.tree }
        ensures { result ≡ self.tree }
    {
        Tree::of_maker(self)
    }

    /// A copy of the maker.
    pub(crate) fn copy(&self) -> Result<TreeMaker, NoMemory>
        ensures { IfOk result (λ m. m ≡ self.now) }
    {
        Ok(TreeMaker {
            processors: self.processors,
            scale: self.scale,
            levels: self.levels,
            lower: copies(&self.lower)?,
            growth: self.growth.copy()?,
        })
    }

    /// What the type says of a maker.
    pub(crate) fn limits(&self)
        ensures { IsMaking self.now }
    {
        let _levels = self.levels;
    }

    pub(crate) fn processors(&self) -> u32
        ensures { result ≡ self.now.tree.processors }
    {
        self.processors
    }

    pub(crate) fn scale(&self) -> u128
        ensures { result ≡ self.now.tree.scale }
    {
        self.scale
    }

    pub(crate) fn levels(&self) -> u32
        ensures { result ≡ self.now.tree.levels }
    {
        self.levels
    }

    /// The nodes, in order.
    pub(crate) fn nodes(&self) -> &[Node]
        ensures { result.now ≡ self.now.tree.nodes }
    {
        self.growth.nodes()
    }

    /// The packs of a level, in order.
    pub(crate) fn packs_of(&self, level: u32) -> &[u32]
        requires { level < self.now.tree.levels }
        ensures { result.now ≡ packs_at self.now.tree level }
    {
        if (level as usize) < self.lower.len() {
            let packs = &self.lower[level as usize];
            packs.numbers.as_slice()
        } else {
            self.growth.packs()
        }
    }
}
