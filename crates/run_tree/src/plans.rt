//! Plans.
ghost use Rattle.std.specs.Prelude.{◌≡◌, IfOk};
ghost use Rattle.sched_base.specs.Scale.{IsScale};
ghost use Rattle.run_tree.specs.TreeOfSet.{IsTreeOf};
ghost use Rattle.run_tree.specs.Plans.{IsPlan, stop_of};

use crate::tree::Tree;
use sched_base::{NoMemory, TaskSet};
use std::marker::Model;

/// A task set with a reduction tree of it.
pub struct Plan {
    set: TaskSet,
    tree: Tree,
}

impl Drop for Plan {
    fn drop(self) {
        let Self {
            set: _set,
            tree: _tree,
        } = self;
    }
}

impl Model for Plan {
    ghost use Rattle.run_tree.specs.Plans.{PlanContents, IsPlan};

    ghost Value = { PlanContents };

    ghost view = { λ p. record { set = p.set; tree = p.tree } };

    ghost invariant = { λ p. IsPlan (record { set = p.set; tree = p.tree }) };
}

impl Plan {
    /// The plan of a set, its scale and a reduction tree of it.
    pub fn new(set: TaskSet, scale: u128, tree: Tree) -> Plan
        requires scale { IsScale set.tasks scale }
        requires made { tree.scale ≡ scale }
        requires tree { IsTreeOf set tree }
        ensures { result ≡ record { set = set; tree = tree } }
    {
        prove!(tree.scale() == scale);
        set.know_lawful();
        Plan { set, tree }
    }

    /// Brings what each plan keeps into the proof of its caller; it does nothing.
    pub fn know_lawful(&self)
        ensures lawful { IsPlan self.now }
    {
        let _set = &self.set;
    }

    /// The set.
    pub fn set(&self) -> &TaskSet
        ensures value { result.now ≡ self.now.set }
        ensures lawful { IsPlan self.now }
    {
        &self.set
    }

    /// The ticks of a unit.
    pub fn scale(&self) -> u128
        ensures value { result ≡ self.now.tree.scale }
        ensures lawful { IsPlan self.now }
    {
        self.tree.scale()
    }

    /// The tree.
    pub fn tree(&self) -> &Tree
        ensures value { result.now ≡ self.now.tree }
        ensures lawful { IsPlan self.now }
    {
        &self.tree
    }

    /// The tick at which the last round ends: the horizon, in ticks.
    pub fn rounds_end(&self) -> u128
        ensures value { result ≡ stop_of self.now }
        ensures lawful { IsPlan self.now }
    {
        u128::from(self.set.horizon()) * self.tree.scale()
    }

    /// A copy of the plan.
    pub fn copy(&self) -> Result<Plan, NoMemory>
        ensures { IfOk result (λ p. p ≡ self.now) }
    {
        Ok(Plan {
            set: self.set.copy()?,
            tree: self.tree.copy()?,
        })
    }
}
