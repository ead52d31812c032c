//! Which member of a pack runs, and what is left of its due.
ghost use Rattle.std.specs.Prelude.{ℕ, List, ◌≡◌, ◌≢◌, ◌+◌, ◌<◌, ◌≤◌, ◌^◌, not, length, false, true, Some, option_map, slice_index, slice_index_or, slice_set};
ghost use Rattle.sched_base.specs.Candidates.{is_at};
ghost use Rattle.run_tree.specs.Tree.{IsTree, IsPack, IsMember, level, member, members};
ghost use Rattle.edf_pick.specs.Ready.{AreReady};
ghost use Rattle.tree_select.specs.Selected.{candidates};
ghost use Rattle.tree_select.specs.Marked.{AreLed, AreServed};
ghost use Rattle.event_core.specs.Serving.{dry_by, with_place, AreFitting, IsOver};

use edf_pick::first_ready;
use knockout::Knockout;
use run_tree::Tree;
use sched_base::NodeId;
use server_budget::Dues;
use tree_select::{Handed, Marks, hand_over_in};

// Node n starts or stops.
fn set_node(n: NodeId, on: bool, dues: &mut Dues)
    requires node { n.0 < length dues.old.runs }
    requires other { slice_index_or dues.old.runs n.0 false ≡ not on }
    requires fits { dues.old.tick + slice_index dues.old.remains n.0 < 2 ^ 128 }
    ensures tick { dues.new.tick ≡ dues.old.tick }
    ensures remains { dues.new.remains ≡ dues.old.remains }
    ensures runs { dues.new.runs ≡ slice_set dues.old.runs n.0 on }
{
    if on {
        dues.start(n);
    } else {
        dues.stop(n);
    }
}

// The member at place k of pack p, where there is one, starts or stops. The place is only spoken of.
fn set_place(
    tree: &Tree,
    p: NodeId,
    k: Option<u32>,
    node: Option<NodeId>,
    on: bool,
    dues: &mut Dues,
)
    requires tree { IsTree tree.now }
    requires pack { IsPack tree.now p.0 }
    requires member { (j : ℕ) → k ≡ Some j → j < length (members tree.now p.0) }
    requires node { option_map (λ n. n.0) node ≡ option_map (member tree.now p.0) k }
    requires nodes { length dues.old.runs ≡ length tree.now.nodes }
    requires other { (j : ℕ) → k ≡ Some j → slice_index_or dues.old.runs (member tree.now p.0 j) false ≡ not on }
    requires fits { AreFitting tree.now dues.old }
    ensures tick { dues.new.tick ≡ dues.old.tick }
    ensures remains { dues.new.remains ≡ dues.old.remains }
    ensures runs { dues.new.runs ≡ with_place tree.now p.0 k on dues.old.runs }
{
    let _place = (tree.nodes(), p, k);
    if let Some(n) = node {
        set_node(n, on, dues);
    }
}

/// The member of a pack that runs: its place, None where none does, and the tick at which it has nothing left. And whether it is
/// another one than before.
#[derive(Clone, Copy)]
pub(crate) struct Served {
    pub(crate) place: Option<u32>,
    pub(crate) dry: u128,
    pub(crate) is_other: bool,
}

// The tick at which the member at place k of pack p, which runs, has nothing left. The place is only spoken of.
#[inline(always)]
fn dry_of(tree: &Tree, p: NodeId, k: Option<u32>, node: Option<NodeId>, dues: &Dues) -> u128
    requires tree { IsTree tree.now }
    requires pack { IsPack tree.now p.0 }
    requires member { (j : ℕ) → k ≡ Some j → j < length (members tree.now p.0) }
    requires node { option_map (λ n. n.0) node ≡ option_map (member tree.now p.0) k }
    requires nodes { length dues.now.runs ≡ length tree.now.nodes }
    requires runs { (j : ℕ) → k ≡ Some j → slice_index_or dues.now.runs (member tree.now p.0 j) false ≡ true }
    ensures { result ≡ dry_by tree.now dues.now p.0 k }
{
    let _place = (tree.nodes(), p, k);
    match node {
        None => u128::MAX,
        Some(n) => dues.dry(n),
    }
}

// Of pack p, the member at `was` stops, and the one that is handed to, which is another one, starts. One of them at least isn't there.
fn change_one(tree: &Tree, p: NodeId, was: Option<u32>, next: Handed, dues: &mut Dues) -> u128
    requires tree { IsTree tree.now }
    requires pack { IsPack tree.now p.0 }
    requires before { (j : ℕ) → was ≡ Some j → j < length (members tree.now p.0) }
    requires after { (j : ℕ) → next.place ≡ Some j → j < length (members tree.now p.0) }
    requires before_at { option_map (λ n. n.0) next.before ≡ option_map (member tree.now p.0) was }
    requires after_at { option_map (λ n. n.0) next.node ≡ option_map (member tree.now p.0) next.place }
    requires nodes { length dues.old.runs ≡ length tree.now.nodes }
    requires runs { (j : ℕ) → j < length (members tree.now p.0) → slice_index_or dues.old.runs (member tree.now p.0 j) false ≡ is_at was j }
    requires fits { AreFitting tree.now dues.old }
    ensures tick { dues.new.tick ≡ dues.old.tick }
    ensures remains { dues.new.remains ≡ dues.old.remains }
    ensures over { IsOver tree.now p.0 next.place dues.old.runs dues.new.runs }
    ensures dry { result ≡ dry_by tree.now dues.new p.0 next.place }
{
    set_place(tree, p, was, next.before, false, dues);
    set_place(tree, p, next.place, next.node, true, dues);
    dry_of(tree, p, next.place, next.node, dues)
}

// Of pack p, the member at `was` stops, and the one that is handed to, which is another one, starts. The tick at which the latter has
// nothing left.
#[inline(always)]
fn change(tree: &Tree, p: NodeId, was: Option<u32>, next: Handed, dues: &mut Dues) -> u128
    requires tree { IsTree tree.now }
    requires pack { IsPack tree.now p.0 }
    requires before { (j : ℕ) → was ≡ Some j → j < length (members tree.now p.0) }
    requires after { (j : ℕ) → next.place ≡ Some j → j < length (members tree.now p.0) }
    requires before_at { option_map (λ n. n.0) next.before ≡ option_map (member tree.now p.0) was }
    requires after_at { option_map (λ n. n.0) next.node ≡ option_map (member tree.now p.0) next.place }
    requires nodes { length dues.old.runs ≡ length tree.now.nodes }
    requires runs { (j : ℕ) → j < length (members tree.now p.0) → slice_index_or dues.old.runs (member tree.now p.0 j) false ≡ is_at was j }
    requires fits { AreFitting tree.now dues.old }
    requires other { was ≢ next.place }
    ensures tick { dues.new.tick ≡ dues.old.tick }
    ensures remains { dues.new.remains ≡ dues.old.remains }
    ensures over { IsOver tree.now p.0 next.place dues.old.runs dues.new.runs }
    ensures dry { result ≡ dry_by tree.now dues.new p.0 next.place }
{
    if let Some(before) = next.before
        && let Some(after) = next.node
    {
        return dues.hand_over(before, after);
    }
    change_one(tree, p, was, next, dues)
}

// Of pack p, the member at `was` stops, and the one that is handed to starts; nothing happens where it is one member. The tick at which
// the latter has nothing left.
#[inline(always)]
fn change_if(tree: &Tree, p: NodeId, was: Option<u32>, next: Handed, dues: &mut Dues) -> u128
    requires tree { IsTree tree.now }
    requires pack { IsPack tree.now p.0 }
    requires before { (j : ℕ) → was ≡ Some j → j < length (members tree.now p.0) }
    requires after { (j : ℕ) → next.place ≡ Some j → j < length (members tree.now p.0) }
    requires before_at { option_map (λ n. n.0) next.before ≡ option_map (member tree.now p.0) was }
    requires after_at { option_map (λ n. n.0) next.node ≡ option_map (member tree.now p.0) next.place }
    requires nodes { length dues.old.runs ≡ length tree.now.nodes }
    requires runs { (j : ℕ) → j < length (members tree.now p.0) → slice_index_or dues.old.runs (member tree.now p.0 j) false ≡ is_at was j }
    requires fits { AreFitting tree.now dues.old }
    requires same { next.is_other ≡ false → was ≡ next.place }
    requires other { next.is_other ≡ true → was ≢ next.place }
    ensures tick { dues.new.tick ≡ dues.old.tick }
    ensures remains { dues.new.remains ≡ dues.old.remains }
    ensures over { IsOver tree.now p.0 next.place dues.old.runs dues.new.runs }
    ensures dry { result ≡ dry_by tree.now dues.new p.0 next.place }
{
    if next.is_other {
        change(tree, p, was, next, dues)
    } else {
        dry_of(tree, p, next.place, next.node, dues)
    }
}

/// Pack p, of whose members the one at `was` ran, serves the one that it picks now, where it runs; it returns which that is. What
/// is left stays, and the list of the dues says the same of members as the list of all nodes. `leaves` may be said of a pack of level 0.
#[inline(always)]
pub(crate) fn serve(
    tree: &Tree,
    p: NodeId,
    ready: &Knockout,
    was: Option<u32>,
    leaves: bool,
    dues: &mut Dues,
    stale: &mut Marks,
    runs: &mut [bool],
) -> Served
    requires tree { IsTree tree.now }
    requires pack { IsPack tree.now p.0 }
    requires ready { length ready.now ≡ length (members tree.now p.0) }
    requires before { (j : ℕ) → was ≡ Some j → j < length (members tree.now p.0) }
    requires nodes { length dues.old.runs ≡ length tree.now.nodes }
    requires stale { length stale.old ≡ length tree.now.nodes }
    requires runs { length runs.old ≡ length tree.now.nodes }
    requires was { (j : ℕ) → j < length (members tree.now p.0) → slice_index_or runs.old (member tree.now p.0 j) false ≡ is_at was j }
    requires agree { (x : ℕ) → IsMember tree.now x → slice_index_or dues.old.runs x false ≡ slice_index_or runs.old x false }
    requires fits { AreFitting tree.now dues.old }
    requires led { AreLed tree.now runs.old }
    requires leaves { leaves ≡ true → level tree.now p.0 ≡ 0 }
    ensures now { (j : ℕ) → j < length (members tree.now p.0) → slice_index_or runs.new (member tree.now p.0 j) false ≡ is_at result.place j }
    ensures within { (j : ℕ) → result.place ≡ Some j → j < length (members tree.now p.0) }
    ensures dry { result.dry ≡ dry_by tree.now dues.new p.0 result.place }
    ensures same { result.is_other ≡ false → was ≡ result.place }
    ensures nodes { length dues.new.runs ≡ length dues.old.runs }
    ensures tick { dues.new.tick ≡ dues.old.tick }
    ensures remains { dues.new.remains ≡ dues.old.remains }
    ensures agree { (x : ℕ) → IsMember tree.now x → slice_index_or dues.new.runs x false ≡ slice_index_or runs.new x false }
    ensures rest { (x : ℕ) → (IsMember tree.now x → ⊥) → slice_index_or dues.new.runs x false ≡ slice_index_or dues.old.runs x false }
    ensures led { AreLed tree.now runs.new }
    ensures served { (ends : List ℕ) → AreReady (candidates tree.now dues.old.remains ends p.0) ready.now →
        AreServed tree.now dues.old.remains ends stale.old runs.old → AreServed tree.now dues.old.remains ends stale.new runs.new }
    ensures others { (q j : ℕ) → IsPack tree.now q → q ≢ p.0 → j < length (members tree.now q) →
        slice_index_or runs.new (member tree.now q j) false ≡ slice_index_or runs.old (member tree.now q j) false }
    ensures long { length stale.new ≡ length stale.old }
    ensures own { slice_index_or stale.new p.0 false ≡ false }
    ensures unmarked { (q : ℕ) → IsPack tree.now q → q ≢ p.0 → slice_index_or stale.new q false ≡ false →
        slice_index_or stale.old q false ≡ false }
    ensures unchanged { (q : ℕ) → IsPack tree.now q → slice_index_or stale.new q false ≡ false →
        slice_index_or runs.new q false ≡ slice_index_or runs.old q false }
    ensures marks { (q : ℕ) → IsPack tree.now q → q ≢ p.0 → level tree.now p.0 ≤ level tree.now q →
        slice_index_or stale.new q false ≡ slice_index_or stale.old q false }
{
    let chosen = first_ready(ready);
    let next = hand_over_in(tree, p, was, chosen, leaves, stale, runs);
    let dry = change_if(tree, p, was, next, dues);
    Served {
        place: next.place,
        dry,
        is_other: next.is_other,
    }
}
