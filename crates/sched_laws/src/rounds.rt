//! Rounds of rows.
ghost use Rattle.std.specs.Prelude.{ℕ, Bool, Some, ◌≡◌, ◌<◌, ◌+◌, ◌^◌, length, slice_get, slice_index_or};
ghost use Rattle.std.specs.List.{AllByRecursion};
ghost use Rattle.sched_base.specs.Sets.{SetContents, IsLawful};
ghost use Rattle.sched_base.specs.Tables.{IsRound};
ghost use Rattle.sched_base.specs.declared.rows.Leaf.{Leaf};
ghost use Rattle.run_tree.specs.Rounds.{events_below};
ghost use Rattle.run_tree.specs.Schedule.{round_rows, schedule};
ghost use Rattle.run_tree.specs.Tree.{Tree};
ghost use Rattle.run_tree.specs.TreeOfSet.{IsTreeOf};

/// The rows of each round are those of a whole round, one for each processor.
pub fn round_law()
    ensures whole { (s : SetContents) → IsLawful s → (t : Tree) → IsTreeOf s t → (start end : ℕ) → start < end → end < 2 ^ 127 →
        IsRound start (round_rows s.tasks t start end) }
    ensures each { (s : SetContents) (t : Tree) (start end : ℕ) → length (round_rows s.tasks t start end) ≡ t.processors }
{}

/// Rounds follow one another from tick 0: each begins at an event, which is below the next one and below the end of
/// the schedule. So every row starts before it ends.
pub fn order_law()
    ensures first { (of_leaf : Leaf → ℕ → Bool) (t : Tree) (stop : ℕ) → 0 < stop → slice_get (events_below of_leaf t stop) 0 ≡ Some 0 }
    ensures next { (of_leaf : Leaf → ℕ → Bool) (t : Tree) (stop k : ℕ) → k + 1 < length (events_below of_leaf t stop) →
        slice_index_or (events_below of_leaf t stop) k 0 < slice_index_or (events_below of_leaf t stop) (k + 1) 0 }
    ensures last { (of_leaf : Leaf → ℕ → Bool) (t : Tree) (stop k : ℕ) → k < length (events_below of_leaf t stop) →
        slice_index_or (events_below of_leaf t stop) k 0 < stop }
    ensures forward { (s : SetContents) (t : Tree) (stop : ℕ) → AllByRecursion (λ r. r.start < r.end) (schedule s.tasks t stop) }
{}
