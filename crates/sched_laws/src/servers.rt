//! One server, and its dual.
ghost use Rattle.std.specs.Prelude.{ℕ, Bool, true, ◌≡◌, ◌<◌, length};
ghost use Rattle.sched_base.specs.declared.rows.Leaf.{Leaf};
ghost use Rattle.run_tree.specs.Boundaries.{HaveBoundaries, is_boundary};
ghost use Rattle.run_tree.specs.Runs.{runs};
ghost use Rattle.run_tree.specs.Tree.{Tree, IsTree, IsPack, dual, member, members};
ghost use Rattle.sched_laws.specs.Rates.{RunsRate};

/// The law of a server that serves by earliest deadline first: where a pack runs its rate in each of its windows, each
/// member runs exactly its due in each of the member's windows, and at each tick at which the pack runs a member runs.
pub fn edf_law()
    ensures served { (of_leaf : Leaf → ℕ → Bool) (t : Tree) → IsTree t → HaveBoundaries of_leaf t → (p k : ℕ) → IsPack t p →
        RunsRate of_leaf t p →
        k < length (members t p) → RunsRate of_leaf t (member t p k) }
    ensures runs { (of_leaf : Leaf → ℕ → Bool) (t : Tree) → IsTree t → HaveBoundaries of_leaf t → (p n : ℕ) → IsPack t p →
        RunsRate of_leaf t p →
        runs of_leaf t p n ≡ true → (k : ℕ) × (k < length (members t p)) × (runs of_leaf t (member t p k) n ≡ true) }
{}

/// The law of duals: a dual has the boundaries of its primal, and where it runs its rate in each of its windows the
/// primal runs its own in each of the same windows.
pub fn dual_law()
    ensures same { (of_leaf : Leaf → ℕ → Bool) (t : Tree) → IsTree t → (p d : ℕ) → IsPack t p → dual t p ≡ Some d → (u : ℕ) →
        is_boundary of_leaf t d u ≡ is_boundary of_leaf t p u }
    ensures served { (of_leaf : Leaf → ℕ → Bool) (t : Tree) → IsTree t → HaveBoundaries of_leaf t → (p d : ℕ) → IsPack t p →
        dual t p ≡ Some d →
        RunsRate of_leaf t d → RunsRate of_leaf t p }
{}
