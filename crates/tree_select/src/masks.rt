//! The packs of each level, by the words in which their marks stand: a marked one is found without a look at each.
ghost use Rattle.std.specs.Prelude.{ℕ, ◌≡◌, ◌≢◌, ◌<◌, ◌≤◌, ◌+◌, ◌*◌, ◌/◌, ◌^◌, false, length, replicate, slice_index, slice_index_or, IfOk, IfSome, OnOk, None};
ghost use Rattle.run_tree.specs.Tree.{IsTree, at_level as at_level_of, level as level_of};
ghost use Rattle.run_tree.specs.Schedule.{packs_at};
ghost use Rattle.tree_select.specs.Marks.{has_bit};
ghost use Rattle.tree_select.specs.Masks.{group_at, stands_at, AreMasksOf, ArePlacesOf, AreSpansOf, AreUnmarked, IsFirstIn, IsKept, IsNextOf, IsSpanOf};

use crate::marks::{Marks, WORD};
use run_tree::{Kind, Tree};
use sched_base::{NoMemory, NodeId};
use std::alloc::Global;
use std::marker::Model;

// The packs of a level whose marks stand in one word: bit k of the mask is that of node 64 * word + k.
#[derive(Clone, Copy)]
struct Group {
    word: u32,
    mask: u64,
}

/// The numbers of a level's groups: the first one, and the one behind the last.
#[derive(Clone, Copy)]
pub struct Span {
    pub from: usize,
    pub to: usize,
}

/// A pack that is marked, its place in its level, and the number of its group.
#[derive(Clone, Copy)]
pub struct Found {
    pub pack: NodeId,
    pub place: u32,
    pub group: usize,
}

/// The packs of a tree's levels in groups. They belong to the tree for which they were made.
#[derive(Drop)]
pub struct LevelMasks {
    groups: Vec<Group>,
    // The groups of each level.
    spans: Vec<Span>,
    // The place of each pack in its level.
    places: Vec<u32>,
}

impl Model for LevelMasks {
    ghost use Rattle.tree_select.specs.Masks.{Masks};

    ghost Value = { Masks };

    ghost view = { λ m. record { groups = m.groups.items; spans = m.spans.items; places = m.places.items } };
}

// Whether a node is a pack of this level.
fn at_level(tree: &Tree, level: u32, n: NodeId) -> bool
    requires { n.0 < length tree.now.nodes }
    ensures { result ≡ at_level_of tree.now level n.0 }
{
    match tree.kind(n) {
        Kind::Leaf(_) => false,
        Kind::Pack(own) => own == level,
        Kind::Dual(_) => false,
    }
}

// Whether there is a node of this number, and it is a pack of this level.
fn stands_at(tree: &Tree, level: u32, n: u64) -> bool
    ensures { result ≡ stands_at tree.now level n }
{
    n < u64::from(tree.nodes()) && at_level(tree, level, NodeId(n as u32))
}

// The packs of a level whose marks stand in a word, as its bits.
fn mask_of(tree: &Tree, level: u32, word: u32) -> u64
    ensures { (k : ℕ) → k < 64 → has_bit result k ≡ stands_at tree.now level (word * 64 + k) }
{
    let mut mask = 0;
    for k in 0..WORD {
        if stands_at(
            tree,
            level,
            u64::from(word) * u64::from(WORD) + u64::from(k),
        ) {
            mask |= 1 << k;
        }
    }
    mask
}

// Makes the groups of one level behind those that are there.
fn add_level(tree: &Tree, level: u32, groups: &mut Vec<Group>) -> Result<Span, NoMemory>
    ensures span { IfOk result (IsSpanOf tree.now groups.new.items level) }
    ensures kept { OnOk result (IsKept groups.old.items groups.new.items) }
{
    let from = groups.len();
    for word in 0..tree.nodes() / WORD + 1 {
        let mask = mask_of(tree, level, word);
        if mask != 0 {
            groups.push(Group { word, mask })?;
        }
    }
    Ok(Span {
        from,
        to: groups.len(),
    })
}

// Makes the groups of all levels.
fn add_levels(alloc: Global, tree: &Tree, groups: &mut Vec<Group>) -> Result<Vec<Span>, NoMemory>
    ensures { IfOk result (λ spans. AreSpansOf tree.now groups.new.items spans.items tree.now.levels) }
{
    let mut spans = Vec::new(alloc);
    for level in 0..tree.levels() {
        spans.push(add_level(tree, level, groups)?)?;
    }
    Ok(spans)
}

// Writes the place of each pack of one level.
fn place_level(tree: &Tree, level: u32, places: &mut [u32])
    requires tree { IsTree tree.now }
    requires level { level < tree.now.levels }
    requires long { length places.old ≡ length tree.now.nodes }
    ensures own { (i : ℕ) → i < length (packs_at tree.now level) → slice_index places.new (slice_index (packs_at tree.now level) i) ≡ i }
    ensures others { (n : ℕ) → level_of tree.now n ≢ level → slice_index places.new n ≡ slice_index places.old n }
{
    for i in 0..tree.packs(level) {
        places[tree.pack(level, i).0 as usize] = i;
    }
}

fn no_places(alloc: Global, count: usize) -> Result<Vec<u32>, NoMemory>
    ensures { IfOk result (λ v. v.items ≡ replicate count 0) }
{
    Ok(vec![in alloc; 0u32; count]?)
}

// The place of each pack in its level.
fn places_of(alloc: Global, tree: &Tree) -> Result<Vec<u32>, NoMemory>
    ensures { IfOk result (λ v. ArePlacesOf tree.now v.items tree.now.levels) }
{
    let mut places = no_places(alloc, tree.nodes() as usize)?;
    for level in 0..tree.levels() {
        place_level(tree, level, &mut places);
    }
    Ok(places)
}

// The first pack of a group that is marked.
#[inline(always)]
fn first_in(
    tree: &Tree,
    level: u32,
    groups: &[Group],
    span: Span,
    group: usize,
    stale: &Marks,
) -> Option<NodeId>
    requires span { IsSpanOf tree.now groups.now level span }
    requires from { span.from ≤ group }
    requires to { group < span.to }
    requires stale { length stale.now ≡ length tree.now.nodes }
    ensures { IsFirstIn (group_at groups.now group) stale.now result }
{
    let _spoken_of = (tree.nodes(), level, span);
    let group = groups[group];
    stale.first_of(group.word, group.mask)
}

impl LevelMasks {
    /// The groups of a tree's packs.
    pub fn new(alloc: Global, tree: &Tree) -> Result<LevelMasks, NoMemory>
        ensures { IfOk result (AreMasksOf tree.now) }
    {
        let mut groups = Vec::new(alloc);
        let spans = add_levels(alloc, tree, &mut groups)?;
        let places = places_of(alloc, tree)?;
        Ok(LevelMasks {
            groups,
            spans,
            places,
        })
    }

    /// The groups of a level. The tree is only spoken of.
    #[inline(always)]
    pub fn span(&self, tree: &Tree, level: u32) -> Span
        requires masks { AreMasksOf tree.now self.now }
        requires level { level < tree.now.levels }
        ensures { IsSpanOf tree.now self.now.groups level result }
    {
        let _tree = tree;
        self.spans[level as usize]
    }

    /// The first pack of a level that is marked, where none of the groups before this one has a marked pack, and none of the level's packs
    /// below number `from` is marked. The tree, the level and that number are only spoken of.
    #[inline(always)]
    pub fn next(
        &self,
        tree: &Tree,
        level: u32,
        stale: &Marks,
        span: Span,
        group: usize,
        from: u32,
    ) -> Option<Found>
        requires tree { IsTree tree.now }
        requires masks { AreMasksOf tree.now self.now }
        requires level { level < tree.now.levels }
        requires span { IsSpanOf tree.now self.now.groups level span }
        requires group { span.from ≤ group }
        requires stale { length stale.now ≡ length tree.now.nodes }
        requires before { AreUnmarked self.now.groups stale.now span.from group }
        requires fresh { (k : ℕ) → k < from → slice_index_or stale.now (slice_index (packs_at tree.now level) k) false ≡ false }
        ensures some { IfSome result (IsNextOf tree.now self.now.groups level stale.now span from) }
        ensures none { result ≡ None → (k : ℕ) → k < length (packs_at tree.now level) →
            slice_index_or stale.now (slice_index (packs_at tree.now level) k) false ≡ false }
    {
        let _spoken_of = (tree.nodes(), level, from);
        for g in group..span.to {
            if let Some(pack) = first_in(tree, level, &self.groups, span, g, stale) {
                return Some(Found {
                    pack,
                    place: self.places[pack.0 as usize],
                    group: g,
                });
            }
        }
        None
    }
}
