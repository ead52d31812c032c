//! Sets into plans.
ghost use Rattle.std.specs.Prelude.{ℕ, ◌≡◌, ◌<◌, ◌≤◌, ◌+◌, ◌-◌, ◌^◌, ◌⊎◌, IfOk, IfErr};
ghost use Rattle.sched_base.specs.Scale.{Fits};
ghost use Rattle.run_tree.specs.TreeOfSet.{IsTreeOf};
ghost use Rattle.run_tree.specs.Compiled.{tree_of};
ghost use Rattle.run_compile.specs.Answers.{HasScale, IsRefused, IsSmall};
ghost use Rattle.sched_laws.specs.LevelCounts.{duals_of};

use crate::faults::CompileFault;
use crate::higher;
use crate::rates::Rates;
use rate_scale::{load_of, rates_of};
use run_tree::{Plan, Tree};
use sched_base::{NoMemory, TaskSet};
use std::alloc::Global;

/// Compiles a set: its scale, and the tree that has the tasks by first fit and idle leaves at level 0, and the duals by
/// first fit at each further level.
///
/// Refused where the scale is past 2^94 ticks per unit, with the first task that brings it past; else where the tasks ask for
/// more than the processors have, with both sums in ticks per unit.
pub fn compile(alloc: Global, set: TaskSet) -> Result<Plan, CompileFault>
    ensures set { IfOk result (λ plan. plan.set ≡ set) }
    ensures scale { IfOk result (λ plan. HasScale set plan.tree.scale) }
    ensures fits { IfOk result (λ plan. Fits plan.tree.scale set) }
    ensures tree { IfOk result (λ plan. plan.tree ≡ tree_of plan.tree.scale set) }
    ensures refused { IfErr result (λ fault. IsRefused set fault) }
    ensures small { IfErr result IsSmall }
{
    let load = load_of(&set)?;
    let tree = set_tree(alloc, &set, load.scale)?;
    Ok(Plan::new(set, load.scale, tree))
}

// The tree of a set that fits at this scale.
fn set_tree(alloc: Global, set: &TaskSet, scale: u128) -> Result<Tree, NoMemory>
    requires scale { HasScale set.now scale }
    requires fits { Fits scale set.now }
    ensures tree { IfOk result (λ tree. tree ≡ tree_of scale set.now) }
    ensures scale { IfOk result (λ tree. tree.scale ≡ scale) }
    ensures of_set { IfOk result (λ tree. IsTreeOf set.now tree) }
{
    let each = rates_of(alloc, set, scale)?;
    let rates = Rates {
        processors: set.processors(),
        scale,
        each: each.as_slice(),
    };
    higher::tree_of(alloc, rates)
}

/// The number of levels of a plan's tree, level 0 included.
pub fn levels(plan: &Plan) -> u32
    ensures value { result ≡ plan.now.tree.levels }
    // With p packs of level 0 that aren't roots there are at most log2 (p - 1) levels above it.
    ensures height { (k : ℕ) → k + 1 ≡ result → (k ≡ 0) ⊎ (2 ^ k ≤ duals_of plan.now.tree 0 - 1) }
    // A level with a pack that isn't a root has at least three of them.
    ensures three { (l : ℕ) → l < result → 0 < duals_of plan.now.tree l → 3 ≤ duals_of plan.now.tree l }
{
    plan.tree().levels()
}
