//! Selection again by packs that know which of their members runs: two members change at most.
ghost use Rattle.std.specs.Prelude.{ℕ, List, ◌≡◌, ◌≢◌, ◌<◌, ◌≤◌, length, true, false, None, Some, option_map, slice_index_or};
ghost use Rattle.sched_base.specs.Candidates.{is_at};
ghost use Rattle.run_tree.specs.Tree.{IsTree, IsPack, level, member, members};
ghost use Rattle.tree_select.specs.Selected.{picked};
ghost use Rattle.tree_select.specs.Marked.{AreLed, AreServed, IsPlaced, IsHanded, served_by};

use crate::marked::{id_of, turn};
use crate::marks::Marks;
use run_tree::Tree;
use sched_base::NodeId;

// Which member runs of those of a pack that runs or rests and has picked.
fn served_by(on: bool, picked: Option<u32>) -> Option<u32>
    ensures value { result ≡ served_by on picked }
    ensures within { (j : ℕ) → result ≡ Some j → picked ≡ Some j }
{
    if on { picked } else { None }
}

/// Which member of a pack ran and which one runs now, and the place of the latter; None where none does. And whether it is another
/// one.
#[derive(Clone, Copy)]
pub struct Handed {
    pub place: Option<u32>,
    pub node: Option<NodeId>,
    pub before: Option<NodeId>,
    pub is_other: bool,
}

// The member at this place of pack p, where there is one.
#[inline(always)]
fn node_at(tree: &Tree, p: NodeId, k: Option<u32>) -> Option<NodeId>
    requires tree { IsTree tree.now }
    requires pack { IsPack tree.now p.0 }
    requires member { (j : ℕ) → k ≡ Some j → j < length (members tree.now p.0) }
    ensures { option_map (λ n. n.0) result ≡ option_map (member tree.now p.0) k }
{
    match k {
        None => None,
        Some(k) => Some(id_of(tree, p, k as usize)),
    }
}

// The member at place k of pack p, where there is one, runs or rests. The place is only spoken of.
#[inline(always)]
fn set_place(
    tree: &Tree,
    p: NodeId,
    k: Option<u32>,
    node: Option<NodeId>,
    leaves: bool,
    on: bool,
    stale: &mut Marks,
    runs: &mut [bool],
)
    requires tree { IsTree tree.now }
    requires pack { IsPack tree.now p.0 }
    requires member { (j : ℕ) → k ≡ Some j → j < length (members tree.now p.0) }
    requires node { option_map (λ n. n.0) node ≡ option_map (member tree.now p.0) k }
    requires leaves { leaves ≡ true → level tree.now p.0 ≡ 0 }
    requires stale { length stale.old ≡ length tree.now.nodes }
    requires runs { length runs.old ≡ length tree.now.nodes }
    ensures { IsPlaced tree.now p.0 k on stale.old runs.old stale.new runs.new }
{
    let _place = (p, k);
    if let Some(m) = node {
        turn(tree, m, leaves, on, stale, runs);
    }
}

// Of pack p, the member at `was` ran, and now the one at `next` does. Whether it is another one.
#[inline(always)]
fn hand_on(
    tree: &Tree,
    p: NodeId,
    was: Option<u32>,
    next: Option<u32>,
    before: Option<NodeId>,
    after: Option<NodeId>,
    leaves: bool,
    stale: &mut Marks,
    runs: &mut [bool],
) -> bool
    requires tree { IsTree tree.now }
    requires pack { IsPack tree.now p.0 }
    requires was { (j : ℕ) → j < length (members tree.now p.0) → slice_index_or runs.old (member tree.now p.0 j) false ≡ is_at was j }
    requires before { (j : ℕ) → was ≡ Some j → j < length (members tree.now p.0) }
    requires after { (j : ℕ) → next ≡ Some j → j < length (members tree.now p.0) }
    requires before_at { option_map (λ n. n.0) before ≡ option_map (member tree.now p.0) was }
    requires after_at { option_map (λ n. n.0) after ≡ option_map (member tree.now p.0) next }
    requires leaves { leaves ≡ true → level tree.now p.0 ≡ 0 }
    requires stale { length stale.old ≡ length tree.now.nodes }
    requires runs { length runs.old ≡ length tree.now.nodes }
    ensures handed { IsHanded tree.now p.0 next stale.old runs.old stale.new runs.new }
    ensures same { result ≡ false → was ≡ next }
    ensures other { result ≡ true → was ≢ next }
{
    if was == next {
        return false;
    }
    set_place(tree, p, was, before, leaves, false, stale, runs);
    set_place(tree, p, next, after, leaves, true, stale, runs);
    true
}

/// Pack p, of whose members the one at `was` ran, loses its mark, and lets the one run that is picked now, where the pack
/// runs. It returns which these are. `leaves` may be said of a pack of level 0: its members are leaves, so that no primal is looked for.
#[inline(always)]
pub fn hand_over_in(
    tree: &Tree,
    p: NodeId,
    was: Option<u32>,
    chosen: Option<u32>,
    leaves: bool,
    stale: &mut Marks,
    runs: &mut [bool],
) -> Handed
    requires tree { IsTree tree.now }
    requires pack { IsPack tree.now p.0 }
    requires was { (j : ℕ) → j < length (members tree.now p.0) → slice_index_or runs.old (member tree.now p.0 j) false ≡ is_at was j }
    requires within { (j : ℕ) → was ≡ Some j → j < length (members tree.now p.0) }
    requires chosen { (j : ℕ) → chosen ≡ Some j → j < length (members tree.now p.0) }
    requires leaves { leaves ≡ true → level tree.now p.0 ≡ 0 }
    requires stale { length stale.old ≡ length tree.now.nodes }
    requires runs { length runs.old ≡ length tree.now.nodes }
    requires led { AreLed tree.now runs.old }
    ensures within { (j : ℕ) → result.place ≡ Some j → j < length (members tree.now p.0) }
    ensures result { result.place ≡ served_by (slice_index_or runs.old p.0 false) chosen }
    ensures node { option_map (λ n. n.0) result.node ≡ option_map (member tree.now p.0) result.place }
    ensures before { option_map (λ n. n.0) result.before ≡ option_map (member tree.now p.0) was }
    ensures same { result.is_other ≡ false → was ≡ result.place }
    ensures other { result.is_other ≡ true → was ≢ result.place }
    ensures now { (j : ℕ) → j < length (members tree.now p.0) → slice_index_or runs.new (member tree.now p.0 j) false ≡ is_at result.place j }
    ensures led { AreLed tree.now runs.new }
    ensures served { (remains ends : List ℕ) → chosen ≡ picked tree.now remains ends p.0 → AreServed tree.now remains ends stale.old runs.old →
        AreServed tree.now remains ends stale.new runs.new }
    ensures others { (q j : ℕ) → IsPack tree.now q → q ≢ p.0 → j < length (members tree.now q) →
        slice_index_or runs.new (member tree.now q j) false ≡ slice_index_or runs.old (member tree.now q j) false }
    ensures long { length stale.new ≡ length stale.old }
    ensures own { slice_index_or stale.new p.0 false ≡ false }
    ensures unmarked { (q : ℕ) → IsPack tree.now q → q ≢ p.0 → slice_index_or stale.new q false ≡ false →
        slice_index_or stale.old q false ≡ false }
    ensures unchanged { (q : ℕ) → IsPack tree.now q → slice_index_or stale.new q false ≡ false →
        slice_index_or runs.new q false ≡ slice_index_or runs.old q false }
    ensures marks { (q : ℕ) → IsPack tree.now q → q ≢ p.0 → level tree.now p.0 ≤ level tree.now q →
        slice_index_or stale.new q false ≡ slice_index_or stale.old q false }
{
    stale.unmark(p);
    let place = served_by(runs[p.0 as usize], chosen);
    let before = node_at(tree, p, was);
    let node = node_at(tree, p, place);
    let is_other = hand_on(tree, p, was, place, before, node, leaves, stale, runs);
    Handed {
        place,
        node,
        before,
        is_other,
    }
}
