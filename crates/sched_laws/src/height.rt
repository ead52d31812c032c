//! How many levels a tree has.
ghost use Rattle.std.specs.Prelude.{ℕ, ◌≡◌, ◌<◌, ◌≤◌, ◌+◌, ◌-◌, ◌^◌, ◌⊎◌};
ghost use Rattle.run_tree.specs.Tree.{Tree, IsTree};
ghost use Rattle.sched_laws.specs.LevelCounts.{duals_of};

/// The law of height: with k levels above level 0 and p packs of level 0 that are no roots, k is 0 or 2^k is at most
/// p - 1. A level with a pack that is no root has at least three of them.
pub fn height_law()
    ensures three { (t : Tree) → IsTree t → (l : ℕ) → l < t.levels → 0 < duals_of t l → 3 ≤ duals_of t l }
    ensures levels { (t : Tree) → IsTree t → (k : ℕ) → k + 1 ≡ t.levels → (k ≡ 0) ⊎ (2 ^ k ≤ duals_of t 0 - 1) }
{}
