//! Selection again, where little has changed since the last one.
ghost use Rattle.std.specs.Prelude.{ℕ, List, Bool, ◌≡◌, ◌≢◌, ◌+◌, ◌<◌, ◌≤◌, not, length, replicate, slice_index, slice_index_or, slice_set, true, false};
ghost use Rattle.run_tree.specs.Tree.{IsTree, IsPack, IsMember, level};
ghost use Rattle.run_tree.specs.Schedule.{packs_at};
ghost use Rattle.run_tree.specs.Runs.{runs_now};
ghost use Rattle.tree_select.specs.Marked.{AreLed, AreServed, AreFreshFrom, IsTurned};

use crate::marked::{id_of, primal_of};
use crate::{count_of, is_chosen, pick};
use run_tree::Tree;
use sched_base::NodeId;

// A primal runs where its dual doesn't, and is marked.
fn turn_primal(primal: NodeId, on: bool, stale: &mut [bool], runs: &mut [bool])
    requires stale { primal.0 < length stale.old }
    requires runs { primal.0 < length runs.old }
    ensures stale { stale.new ≡ slice_set stale.old primal.0 true }
    ensures runs { runs.new ≡ slice_set runs.old primal.0 (not on) }
{
    runs[primal.0 as usize] = !on;
    stale[primal.0 as usize] = true;
}

// Member m, which did the other before, runs or rests from now on, and its primal does the other, and is marked.
fn turn(tree: &Tree, m: NodeId, on: bool, stale: &mut [bool], runs: &mut [bool])
    requires tree { IsTree tree.now }
    requires member { IsMember tree.now m.0 }
    requires stale { length stale.old ≡ length tree.now.nodes }
    requires runs { length runs.old ≡ length tree.now.nodes }
    ensures { IsTurned tree.now m.0 on stale.old runs.old stale.new runs.new }
{
    runs[m.0 as usize] = on;
    if let Some(primal) = primal_of(tree, m) {
        turn_primal(primal, on, stale, runs);
    }
}

// Member m runs or rests. Where that is new, its primal does the other, and is marked.
fn set_member(tree: &Tree, m: NodeId, on: bool, stale: &mut [bool], runs: &mut [bool])
    requires tree { IsTree tree.now }
    requires member { IsMember tree.now m.0 }
    requires stale { length stale.old ≡ length tree.now.nodes }
    requires runs { length runs.old ≡ length tree.now.nodes }
    ensures { IsTurned tree.now m.0 on stale.old runs.old stale.new runs.new }
{
    if runs[m.0 as usize] != on {
        turn(tree, m, on, stale, runs);
    }
}

// Pack p, where it is marked, loses its mark, and of its members the picked one alone runs, where the pack does.
fn refresh(
    tree: &Tree,
    p: NodeId,
    remains: &[u128],
    ends: &[u128],
    stale: &mut [bool],
    runs: &mut [bool],
)
    requires tree { IsTree tree.now }
    requires pack { IsPack tree.now p.0 }
    requires remains { length remains.now ≡ length tree.now.nodes }
    requires ends { length ends.now ≡ length tree.now.nodes }
    requires stale { length stale.old ≡ length tree.now.nodes }
    requires runs { length runs.old ≡ length tree.now.nodes }
    requires led { AreLed tree.now runs.old }
    requires served { AreServed tree.now remains.now ends.now stale.old runs.old }
    ensures led { AreLed tree.now runs.new }
    ensures served { AreServed tree.now remains.now ends.now stale.new runs.new }
    ensures own { slice_index_or stale.new p.0 false ≡ false }
    ensures marks { (q : ℕ) → IsPack tree.now q → q ≢ p.0 → level tree.now p.0 ≤ level tree.now q →
        slice_index_or stale.new q false ≡ slice_index_or stale.old q false }
{
    if !stale[p.0 as usize] {
        return;
    }
    let on = runs[p.0 as usize];
    let chosen = pick(tree, p, remains, ends);
    stale[p.0 as usize] = false;
    for k in 0..count_of(tree, p) {
        let m = id_of(tree, p, k);
        set_member(tree, m, is_chosen(on, chosen, k), stale, runs);
    }
}

// Pack i of a level.
fn pack_of(tree: &Tree, level: u32, i: u32) -> NodeId
    requires tree { IsTree tree.now }
    requires level { level < tree.now.levels }
    requires pack { i < length (packs_at tree.now level) }
    ensures value { result.0 ≡ slice_index (packs_at tree.now level) i }
    ensures pack { IsPack tree.now result.0 }
{
    tree.pack(level, i)
}

// The marked packs of one level, once none above it is marked.
fn refresh_level(
    tree: &Tree,
    level: u32,
    remains: &[u128],
    ends: &[u128],
    stale: &mut [bool],
    runs: &mut [bool],
)
    requires tree { IsTree tree.now }
    requires level { level < tree.now.levels }
    requires remains { length remains.now ≡ length tree.now.nodes }
    requires ends { length ends.now ≡ length tree.now.nodes }
    requires stale { length stale.old ≡ length tree.now.nodes }
    requires runs { length runs.old ≡ length tree.now.nodes }
    requires led { AreLed tree.now runs.old }
    requires served { AreServed tree.now remains.now ends.now stale.old runs.old }
    requires above { AreFreshFrom tree.now stale.old (level + 1) }
    ensures led { AreLed tree.now runs.new }
    ensures served { AreServed tree.now remains.now ends.now stale.new runs.new }
    ensures fresh { AreFreshFrom tree.now stale.new level }
{
    for i in 0..tree.packs(level) {
        let p = pack_of(tree, level, i);
        refresh(tree, p, remains, ends, stale, runs);
    }
}

// The marked packs of all levels, from the last one down.
fn refresh_all(tree: &Tree, remains: &[u128], ends: &[u128], stale: &mut [bool], runs: &mut [bool])
    requires remains { length remains.now ≡ length tree.now.nodes }
    requires ends { length ends.now ≡ length tree.now.nodes }
    requires stale { length stale.old ≡ length tree.now.nodes }
    requires runs { length runs.old ≡ length tree.now.nodes }
    requires led { AreLed tree.now runs.old }
    requires served { AreServed tree.now remains.now ends.now stale.old runs.old }
    ensures selected { (n : ℕ) → n < length tree.now.nodes → slice_index_or runs.new n false
        ≡ runs_now tree.now (λ x. slice_index remains.now x) (λ x. slice_index ends.now x) n }
    ensures led { AreLed tree.now runs.new }
    ensures served { (stale : List Bool) → AreServed tree.now remains.now ends.now stale runs.new }
{
    let mut level = tree.levels();
    while level > 0 {
        level -= 1;
        refresh_level(tree, level, remains, ends, stale, runs);
    }
}

/// Says again of each node whether it runs, as `select` does, where `runs` is right but for the packs that are marked in `stale`: what is
/// left at one of their members, or where its window ends, has changed. Marks of other nodes say nothing. Afterwards no mark is left. It
/// looks at the members of marked packs alone, and of those whose dual turns out to run or rest anew, and takes no memory.
pub fn reselect(tree: &Tree, remains: &[u128], ends: &[u128], stale: &mut [bool], runs: &mut [bool])
    requires remains { length remains.now ≡ length tree.now.nodes }
    requires ends { length ends.now ≡ length tree.now.nodes }
    requires stale { length stale.old ≡ length tree.now.nodes }
    requires runs { length runs.old ≡ length tree.now.nodes }
    requires led { AreLed tree.now runs.old }
    requires served { AreServed tree.now remains.now ends.now stale.old runs.old }
    ensures selected { (n : ℕ) → n < length tree.now.nodes → slice_index_or runs.new n false
        ≡ runs_now tree.now (λ x. slice_index remains.now x) (λ x. slice_index ends.now x) n }
    ensures clear { stale.new ≡ replicate (length stale.old) false }
    ensures led { AreLed tree.now runs.new }
    ensures served { AreServed tree.now remains.now ends.now stale.new runs.new }
{
    refresh_all(tree, remains, ends, stale, runs);
    stale.fill(false);
}
