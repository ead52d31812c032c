//! Nodes in a row as they are made.
ghost use Rattle.std.specs.Prelude.{◌≡◌, ◌≤◌, ◌<◌, ◌+◌, ◌-◌, ◌^◌, ℕ, [], ◌∷◌, ◌++◌, length, slice_index};
ghost use Rattle.std.specs.Prelude.{vec_capacity, OnOk, OnErr, IfOk};
ghost use Rattle.run_tree.specs.Making.{member_node, pack_node, joined};
ghost use Rattle.run_tree.specs.Growth.{no_growth, node_in, with_member, grown, IsPrimalBelow, mark_primal, with_duals, with_duals_of};

use crate::kinds::Kind;
use crate::nodes::{Node, NodeHead, node_of};
use sched_base::{NoMemory, NodeId};
use std::alloc::Global;
use std::marker::Model;
use std::mem;

/// Nodes whose numbers go up one by one, and the numbers of the packs among them to which members may come.
#[derive(Drop)]
pub(crate) struct Growth {
    nodes: Vec<Node>,
    packs: Vec<u32>,
}

impl Model for Growth {
    ghost use Rattle.run_tree.specs.Growth as growth;

    ghost Value = { growth.Growth };

    ghost view = { λ g. record { nodes = g.nodes.items; packs = g.packs.items } };
}

/// What becomes a member of a pack: a leaf or a dual.
#[derive(Clone, Copy)]
pub(crate) struct Member {
    pub(crate) kind: Kind,
    /// In ticks a unit.
    pub(crate) rate: u128,
}

// A member at the end of the pack at this place, where the numbers of the nodes begin at `base`.
fn join(nodes: &mut Vec<Node>, base: u32, place: usize, next: Member) -> Result<(), NoMemory>
    requires pack { place < length nodes.old.items }
    requires rate_fits { (node_in nodes.old.items place).rate + next.rate < 2 ^ 128 }
    requires members_fit { length (node_in nodes.old.items place).members < 2 ^ 32 }
    requires numbers_fit { base + length nodes.old.items < 2 ^ 32 }
    ensures ok { OnOk result (nodes.new.items ≡ with_member base next.kind next.rate place nodes.old.items) }
    ensures err { OnErr result (nodes.new.items ≡ nodes.old.items) }
{
    nodes.reserve(1)?;
    let number = base + nodes.len() as u32;
    let pack = &mut nodes[place];
    let members = pack.members().len() as u32;
    pack.join(NodeId(number), next.rate)?;
    let alloc = *nodes.allocator();
    let head = NodeHead {
        kind: next.kind,
        rate: next.rate,
        home: base + place as u32,
        place: members,
    };
    nodes.push_reserved(Node::member(alloc, head));
    Ok(())
}

// A pack with a first member.
fn opened(alloc: Global, level: u32, member: NodeId, rate: u128) -> Result<Node, NoMemory>
    ensures { IfOk result (λ n. n ≡ joined (pack_node level) member.0 rate) }
{
    let mut pack = Node::pack(alloc, level);
    pack.join(member, rate)?;
    Ok(pack)
}

// A new pack with one member.
fn open(
    nodes: &mut Vec<Node>,
    packs: &mut Vec<u32>,
    base: u32,
    level: u32,
    next: Member,
) -> Result<(), NoMemory>
    requires numbers_fit { base + length nodes.old.items + 1 < 2 ^ 32 }
    ensures nodes { OnOk result (nodes.new.items ≡ (nodes.old.items ++ joined (pack_node level)
        (base + length nodes.old.items + 1) next.rate ∷ []) ++ member_node next.kind next.rate (base + length nodes.old.items) 0 ∷ []) }
    ensures packs { OnOk result (packs.new.items ≡ packs.old.items ++ (base + length nodes.old.items) ∷ []) }
    ensures err { OnErr result ((nodes.new.items ≡ nodes.old.items) × (packs.new.items ≡ packs.old.items)) }
{
    let alloc = *nodes.allocator();
    nodes.reserve(2)?;
    packs.reserve(1)?;
    let number = base + nodes.len() as u32;
    let pack = opened(alloc, level, NodeId(number + 1), next.rate)?;
    packs.push_reserved(number);
    nodes.push_reserved(pack);
    let head = NodeHead {
        kind: next.kind,
        rate: next.rate,
        home: number,
        place: 0,
    };
    nodes.push_reserved(Node::member(alloc, head));
    Ok(())
}

// A dual's primal knows it by this number.
fn mark(nodes: &mut Vec<Node>, kind: Kind, number: u32)
    requires { IsPrimalBelow (length nodes.old.items) kind }
    ensures nodes { nodes.new.items ≡ mark_primal kind number nodes.old.items }
    ensures length { length nodes.new.items ≡ length nodes.old.items }
    ensures capacity { vec_capacity nodes.new ≡ vec_capacity nodes.old }
{
    match kind {
        Kind::Leaf(_) | Kind::Pack(_) => {}
        Kind::Dual(primal) => {
            let pack = &mut nodes[primal.0 as usize];
            pack.set_dual(NodeId(number));
        }
    }
}

// The duals of a level above are known by their primals. The numbers of that level begin at `number`.
fn mark_duals(nodes: &mut Vec<Node>, number: u32, level: &[Node])
    requires primals { (i : ℕ) → i < length level.now → IsPrimalBelow (length nodes.old.items) (node_in level.now i).kind }
    requires numbers_fit { number + length level.now < 2 ^ 32 }
    ensures nodes { nodes.new.items ≡ with_duals number level.now nodes.old.items }
    ensures length { length nodes.new.items ≡ length nodes.old.items }
    ensures capacity { vec_capacity nodes.new ≡ vec_capacity nodes.old }
{
    for (i, node) in level.iter().enumerate() {
        mark(nodes, node.head().kind, number + i as u32);
    }
}

// A copy of these nodes.
fn copies(nodes: &Vec<Node>) -> Result<Vec<Node>, NoMemory>
    ensures { IfOk result (λ copied. copied.items ≡ nodes.now.items) }
{
    let mut copied = Vec::new(*nodes.allocator());
    for node in nodes {
        copied.push(node.copy()?)?;
    }
    Ok(copied)
}

impl Growth {
    ghost use Rattle.run_tree.specs.Growth as growth;

    /// No node yet. It takes no memory.
    pub(crate) fn new(alloc: Global) -> Growth
        ensures { result ≡ no_growth }
    {
        Growth {
            nodes: Vec::new(alloc),
            packs: Vec::new(alloc),
        }
    }

    /// A copy of the nodes so far.
    pub(crate) fn copy(&self) -> Result<Growth, NoMemory>
        ensures { IfOk result (λ g. g ≡ self.now) }
    {
        Ok(Growth {
            packs: Vec::from_slice(*self.packs.allocator(), self.packs.as_slice())?,
            nodes: copies(&self.nodes)?,
        })
    }

    /// A level of the duals of these packs of `below`, each in the home that is told. Its numbers begin where those of
    /// `below` end.
    pub(crate) fn of_duals(
        alloc: Global,
        below: &[Node],
        scale: u128,
        level: u32,
        packs: &[u32],
        homes: &[u32],
    ) -> Result<Growth, NoMemory>
        requires scale_fits { scale ≤ 2 ^ 94 }
        requires few { length packs.now ≤ 1280 }
        requires numbers_fit { length below.now + 2560 < 2 ^ 32 }
        requires packs { (i : ℕ) → i < length packs.now → slice_index packs.now i < length below.now }
        requires rates { (i : ℕ) → i < length packs.now → (node_in below.now (slice_index packs.now i)).rate ≤ scale }
        requires homes { length homes.now ≡ length packs.now }
        ensures { IfOk result (λ g. g ≡ with_duals_of below.now scale level packs.now homes.now no_growth) }
    {
        let base = below.len() as u32;
        let mut growth = Growth::new(alloc);
        for (i, pack) in packs.iter().enumerate() {
            let dual = Member {
                kind: Kind::Dual(NodeId(*pack)),
                rate: scale - node_of(below, *pack).head().rate,
            };
            growth.put(base, level, dual, homes[i])?;
        }
        Ok(growth)
    }

    /// The nodes, in order.
    pub(crate) fn nodes(&self) -> &[Node]
        ensures { result.now ≡ self.now.nodes }
    {
        self.nodes.as_slice()
    }

    /// The numbers of the packs, in order.
    pub(crate) fn packs(&self) -> &[u32]
        ensures { result.now ≡ self.now.packs }
    {
        self.packs.as_slice()
    }

    /// A new member at the end of pack `b`, which is new where `b` is the number of packs.
    pub(crate) fn put(
        &mut self,
        base: u32,
        level: u32,
        next: Member,
        b: u32,
    ) -> Result<(), NoMemory>
        requires numbers_fit { base + length self.old.nodes + 1 < 2 ^ 32 }
        requires packs { (i : ℕ) → i < length self.old.packs → (base ≤ slice_index self.old.packs i)
            × (slice_index self.old.packs i < base + length self.old.nodes) }
        requires rate_fits { b < length self.old.packs → (node_in self.old.nodes (slice_index self.old.packs b - base)).rate + next.rate < 2 ^ 128 }
        requires members_fit { b < length self.old.packs → length (node_in self.old.nodes (slice_index self.old.packs b - base)).members < 2 ^ 32 }
        ensures ok { OnOk result (self.new ≡ grown base level next.kind next.rate b self.old) }
        ensures err { OnErr result (self.new ≡ self.old) }
    {
        if (b as usize) < self.packs.len() {
            let place = (self.packs[b as usize] - base) as usize;
            join(&mut self.nodes, base, place, next)
        } else {
            open(&mut self.nodes, &mut self.packs, base, level, next)
        }
    }

    /// One more level above these nodes, whose numbers begin where theirs end. Its packs take the place of the packs so
    /// far, which are given back.
    pub(crate) fn append(&mut self, mut level: Growth) -> Result<Vec<u32>, NoMemory>
        requires primals { (i : ℕ) → i < length level.nodes → IsPrimalBelow (length self.old.nodes) (node_in level.nodes i).kind }
        requires numbers_fit { length self.old.nodes + length level.nodes < 2 ^ 32 }
        ensures nodes { OnOk result (self.new.nodes ≡ with_duals (length self.old.nodes) level.nodes self.old.nodes ++ level.nodes) }
        ensures packs { OnOk result (self.new.packs ≡ level.packs) }
        ensures earlier { IfOk result (λ packs. packs.items ≡ self.old.packs) }
        ensures err { OnErr result (self.new ≡ self.old) }
    {
        self.nodes.reserve(level.nodes.len())?;
        let number = self.nodes.len() as u32;
        mark_duals(&mut self.nodes, number, &level.nodes);
        self.nodes.append(&mut level.nodes)?;
        Ok(mem::replace(&mut self.packs, level.packs))
    }
}
