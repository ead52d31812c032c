//! All levels of a tree.
ghost use Rattle.std.specs.Prelude.{ℕ, Bool, true, ◌≡◌, ◌<◌, ◌*◌, length, count_by, slice_index_or};
ghost use Rattle.sched_base.specs.declared.rows.Leaf.{Leaf};
ghost use Rattle.sched_base.specs.Counting.{bit};
ghost use Rattle.sched_base.specs.Candidates.{is_at};
ghost use Rattle.run_tree.specs.Boundaries.{HaveBoundaries};
ghost use Rattle.run_tree.specs.Runs.{runs};
ghost use Rattle.run_tree.specs.Schedule.{packs_at, onto_at};
ghost use Rattle.run_tree.specs.Tree.{Tree, IsTree, IsPack, IsMember, member, members};
ghost use Rattle.sched_laws.specs.LevelCounts.{running, level_rate};
ghost use Rattle.sched_laws.specs.Rates.{RunsRate};

/// The law of levels: each pack runs its rate in each of its windows, each leaf and each dual exactly its due in each
/// of its own, and at each tick at which a pack runs a member of it runs.
pub fn levels_law()
    ensures packs { (of_leaf : Leaf → ℕ → Bool) (t : Tree) → IsTree t → HaveBoundaries of_leaf t → (p : ℕ) → IsPack t p →
        RunsRate of_leaf t p }
    ensures members { (of_leaf : Leaf → ℕ → Bool) (t : Tree) → IsTree t → HaveBoundaries of_leaf t → (x : ℕ) → IsMember t x →
        RunsRate of_leaf t x }
    ensures runs { (of_leaf : Leaf → ℕ → Bool) (t : Tree) → IsTree t → HaveBoundaries of_leaf t → (p n : ℕ) → IsPack t p →
        runs of_leaf t p n ≡ true →
        (k : ℕ) × (k < length (members t p)) × (runs of_leaf t (member t p k) n ≡ true) }
{}

/// The law of counts: at each tick the number of a level's packs that run, times the scale, is what their rates come
/// to. So as many packs of level 0 run as there are processors, and each of them is placed on exactly one.
pub fn count_law()
    ensures each { (of_leaf : Leaf → ℕ → Bool) (t : Tree) → IsTree t → HaveBoundaries of_leaf t → (l n : ℕ) → l < t.levels →
        running of_leaf t l n * t.scale ≡ level_rate t l }
    ensures first { (of_leaf : Leaf → ℕ → Bool) (t : Tree) → IsTree t → HaveBoundaries of_leaf t → (n : ℕ) →
        running of_leaf t 0 n ≡ t.processors }
    ensures placed { (of_leaf : Leaf → ℕ → Bool) (t : Tree) → IsTree t → HaveBoundaries of_leaf t → (n i : ℕ) → i < length (packs_at t 0) →
        count_by (λ o. is_at o i) (onto_at of_leaf t n) ≡ bit (runs of_leaf t (slice_index_or (packs_at t 0) i 0) n) }
{}
