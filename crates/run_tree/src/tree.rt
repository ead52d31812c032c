//! Reduction trees.
ghost use Rattle.std.specs.Prelude.{◌≡◌, ◌≤◌, ◌<◌, not, length, option_map, slice_index, IfOk};
ghost use Rattle.run_tree.specs.Tree.{IsTree, is_pack, kind_at, rate as rate_in, home as home_in, place as place_in, members as members_in};
ghost use Rattle.run_tree.specs.Tree.{member as member_in, dual as dual_in, numbers};
ghost use Rattle.run_tree.specs.Schedule.{packs_at};
ghost use Rattle.run_tree.specs.Plans.{IsLawfulTree};

use crate::kinds::Kind;
use crate::maker::TreeMaker;
use crate::nodes::node_of;
use sched_base::{NoMemory, NodeId};
use std::marker::Model;

/// A reduction tree: leaves in the packs of level 0, the duals of a level's packs in those of the next, up to packs that
/// are roots.
pub struct Tree {
    made: TreeMaker,
}

impl Drop for Tree {
    fn drop(self) {
        let Self { made: _made } = self;
    }
}

impl Model for Tree {
    ghost use Rattle.run_tree.specs.Tree as tree;
    ghost use Rattle.run_tree.specs.Plans.{IsLawfulTree};

    ghost Value = { tree.Tree };

    ghost view = { λ t. t.made.tree };

    ghost invariant = { λ t. IsLawfulTree t.made.tree };
}

impl Tree {
    /// The tree of a maker that is done.
    pub(crate) fn of_maker(made: TreeMaker) -> Tree
        requires { IsTree made.tree }
        ensures { result ≡ made.tree }
    {
        made.limits();
        Tree { made }
    }

    /// A copy of the tree.
    pub(crate) fn copy(&self) -> Result<Tree, NoMemory>
        ensures { IfOk result (λ t. t ≡ self.now) }
    {
        Ok(Tree {
            made: self.made.copy()?,
        })
    }

    /// The number of processors, from 1 to 32.
    pub fn processors(&self) -> u32
        ensures value { result ≡ self.now.processors }
        ensures lawful { IsLawfulTree self.now }
    {
        self.made.processors()
    }

    /// The ticks of a unit, at most 2^94.
    pub fn scale(&self) -> u128
        ensures value { result ≡ self.now.scale }
        ensures lawful { IsLawfulTree self.now }
    {
        self.made.scale()
    }

    /// The number of levels, at least 1.
    pub fn levels(&self) -> u32
        ensures value { result ≡ self.now.levels }
        ensures lawful { IsLawfulTree self.now }
    {
        self.made.levels()
    }

    /// The number of nodes.
    pub fn nodes(&self) -> u32
        ensures value { result ≡ length self.now.nodes }
        ensures lawful { IsLawfulTree self.now }
    {
        self.made.nodes().len() as u32
    }

    /// The number of packs of a level.
    pub fn packs(&self, level: u32) -> u32
        requires { level < self.now.levels }
        ensures { result ≡ length (packs_at self.now level) }
    {
        self.made.packs_of(level).len() as u32
    }

    /// Pack i of a level, in the order in which they were made.
    pub fn pack(&self, level: u32, i: u32) -> NodeId
        requires level { level < self.now.levels }
        requires pack { i < length (packs_at self.now level) }
        ensures { result.0 ≡ slice_index (packs_at self.now level) i }
    {
        NodeId(self.made.packs_of(level)[i as usize])
    }

    /// What node n is, with the level of a pack and the primal of a dual.
    pub fn kind(&self, n: NodeId) -> Kind
        requires { n.0 < length self.now.nodes }
        ensures { result ≡ kind_at self.now n.0 }
    {
        node_of(self.made.nodes(), n.0).head().kind
    }

    /// Brings what each tree keeps into the proof of its caller; it does nothing.
    pub fn know_lawful(&self)
        ensures lawful { IsLawfulTree self.now }
    {
        let _made = &self.made;
    }

    /// Whether node n is a leaf or a dual.
    pub fn is_member(&self, n: NodeId) -> bool
        requires { n.0 < length self.now.nodes }
        ensures { result ≡ not (is_pack (kind_at self.now n.0)) }
    {
        match self.kind(n) {
            Kind::Leaf(_) => true,
            Kind::Pack(_) => false,
            Kind::Dual(_) => true,
        }
    }

    /// The rate of node n, in ticks a unit, at most the scale.
    pub fn rate(&self, n: NodeId) -> u128
        requires { n.0 < length self.now.nodes }
        ensures value { result ≡ rate_in self.now n.0 }
        ensures within { result ≤ self.now.scale }
    {
        node_of(self.made.nodes(), n.0).head().rate
    }

    /// The pack in which a leaf or a dual stands.
    pub fn home(&self, n: NodeId) -> NodeId
        requires { n.0 < length self.now.nodes }
        ensures { result.0 ≡ home_in self.now n.0 }
    {
        NodeId(node_of(self.made.nodes(), n.0).head().home)
    }

    /// The place of a leaf or a dual among the members of its home.
    pub fn place(&self, n: NodeId) -> u32
        requires { n.0 < length self.now.nodes }
        ensures { result ≡ place_in self.now n.0 }
    {
        node_of(self.made.nodes(), n.0).head().place
    }

    /// The members of a pack, in order.
    pub fn members(&self, n: NodeId) -> &[NodeId]
        requires { n.0 < length self.now.nodes }
        ensures { numbers result.now ≡ members_in self.now n.0 }
    {
        node_of(self.made.nodes(), n.0).members()
    }

    /// Member k of a pack.
    pub fn member(&self, n: NodeId, k: usize) -> NodeId
        requires node { n.0 < length self.now.nodes }
        requires member { k < length (members_in self.now n.0) }
        ensures { result.0 ≡ member_in self.now n.0 k }
    {
        self.members(n)[k]
    }

    /// The dual of a pack, and None exactly where it is a root.
    pub fn dual(&self, n: NodeId) -> Option<NodeId>
        requires { n.0 < length self.now.nodes }
        ensures { option_map (λ d. d.0) result ≡ dual_in self.now n.0 }
    {
        node_of(self.made.nodes(), n.0).dual()
    }
}
