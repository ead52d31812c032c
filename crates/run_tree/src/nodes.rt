//! Nodes as they are stored.
ghost use Rattle.std.specs.Prelude.{◌≡◌, ◌+◌, ◌<◌, ◌^◌, length, option_map, IfOk, OnOk, OnErr};
ghost use Rattle.run_tree.specs.Tree.{numbers};
ghost use Rattle.run_tree.specs.Growth.{node_in};
ghost use Rattle.run_tree.specs.Making.{member_node, pack_node, joined, with_dual};

use crate::kinds::Kind;
use sched_base::{NoMemory, NodeId};
use std::alloc::Global;
use std::marker::Model;

/// What a node is, and where a leaf or a dual stands.
#[derive(Clone, Copy)]
pub(crate) struct NodeHead {
    pub(crate) kind: Kind,
    /// In ticks a unit.
    pub(crate) rate: u128,
    pub(crate) home: u32,
    pub(crate) place: u32,
}

/// A leaf, a pack or a dual. What its kind doesn't use is 0, empty or None.
#[derive(Drop)]
pub(crate) struct Node {
    head: NodeHead,
    members: Vec<NodeId>,
    dual: Option<NodeId>,
}

impl Model for Node {
    ghost use Rattle.std.specs.Prelude.{option_map};
    ghost use Rattle.run_tree.specs.Tree as tree;

    ghost Value = { tree.Node };

    ghost view = { λ n. record {
      kind = n.head.kind;
      rate = n.head.rate;
      home = n.head.home;
      place = n.head.place;
      members = tree.numbers n.members.items;
      dual = option_map (λ d. d.0) n.dual;
    } };
}

impl Node {
    /// A pack with no member yet.
    pub(crate) fn pack(alloc: Global, level: u32) -> Node
        ensures { result ≡ pack_node level }
    {
        let head = NodeHead {
            kind: Kind::Pack(level),
            rate: 0,
            home: 0,
            place: 0,
        };
        Node::member(alloc, head)
    }

    /// A leaf or a dual, in its home.
    pub(crate) fn member(alloc: Global, head: NodeHead) -> Node
        ensures { result ≡ member_node head.kind head.rate head.home head.place }
    {
        Node {
            head,
            members: Vec::new(alloc),
            dual: None,
        }
    }

    /// A copy of the node.
    pub(crate) fn copy(&self) -> Result<Node, NoMemory>
        ensures { IfOk result (λ n. n ≡ self.now) }
    {
        Ok(Node {
            head: self.head,
            members: Vec::from_slice(*self.members.allocator(), self.members.as_slice())?,
            dual: self.dual,
        })
    }

    /// The pack gets one more member.
    pub(crate) fn join(&mut self, member: NodeId, rate: u128) -> Result<(), NoMemory>
        requires { self.old.rate + rate < 2 ^ 128 }
        ensures ok { OnOk result (self.new ≡ joined self.old member.0 rate) }
        ensures err { OnErr result (self.new ≡ self.old) }
    {
        self.members.push(member)?;
        self.head.rate += rate;
        Ok(())
    }

    /// The pack knows its dual.
    pub(crate) fn set_dual(&mut self, dual: NodeId)
        ensures { self.new ≡ with_dual self.old dual.0 }
    {
        self.dual = Some(dual);
    }

    pub(crate) fn head(&self) -> &NodeHead
        ensures kind { result.now.kind ≡ self.now.kind }
        ensures rate { result.now.rate ≡ self.now.rate }
        ensures home { result.now.home ≡ self.now.home }
        ensures place { result.now.place ≡ self.now.place }
    {
        &self.head
    }

    pub(crate) fn members(&self) -> &[NodeId]
        ensures { numbers result.now ≡ self.now.members }
    {
        self.members.as_slice()
    }

    pub(crate) fn dual(&self) -> Option<NodeId>
        ensures { option_map (λ d. d.0) result ≡ self.now.dual }
    {
        self.dual
    }
}

/// Node n of these.
#[tactic(auto, using(crate::proofs::NodeReads::read_node))]
pub(crate) fn node_of(nodes: &[Node], n: u32) -> &Node
    requires { n < length nodes.now }
    ensures { result.now ≡ node_in nodes.now n }
{
    &nodes[n as usize]
}
