//! What processors of a partitioned plan run.
ghost use Rattle.std.specs.Prelude.{ℕ, ◌≡◌, ◌<◌, ◌≤◌, ◌*◌, ◌/◌, ◌%◌, true, false, length, None, Some, slice_index_or};
ghost use Rattle.run_tree.specs.Boundaries.{set_boundary};
ghost use Rattle.run_tree.specs.Plans.{IsPlan, PlanContents};
ghost use Rattle.run_tree.specs.Rounds.{is_event};
ghost use Rattle.run_tree.specs.Runs.{runs};
ghost use Rattle.run_tree.specs.Schedule.{leaf_on, onto_at, packs_at};
ghost use Rattle.run_tree.specs.Tree.{leaf};
ghost use Rattle.partition_laws.specs.Partitions.{AreOwnPlans, IsOwnPlan, IsPartitioned, member_count, member_of};

/// The law of a processor's own plan: where every pack of level 0 is a root, a member of such a pack runs at a tick where its like runs in
/// the pack's own plan, whose ticks are longer by a factor.
pub fn own_runs_law()
    ensures { (whole own : PlanContents) (i factor : ℕ) → IsPlan whole → IsPlan own → IsPartitioned whole.tree → IsOwnPlan whole own i factor →
        (n k : ℕ) → k < member_count own.tree 0 →
        runs (set_boundary whole.set.tasks) whole.tree (member_of whole.tree i k) n
        ≡ runs (set_boundary own.set.tasks) own.tree (member_of own.tree 0 k) (n / factor) }
{}

/// The law of their events: a tick after 0 is an event where it is one of the own plan of some pack, and else it is none.
pub fn own_events_law()
    ensures some { (whole : PlanContents) (own : ℕ → PlanContents) (factor : ℕ → ℕ) → IsPlan whole → ((i : ℕ) → IsPlan (own i)) → IsPartitioned whole.tree →
        AreOwnPlans whole own factor → (n i : ℕ) → 0 < n → i < length (packs_at whole.tree 0) → n % factor i ≡ 0 →
        is_event (set_boundary (own i).set.tasks) (own i).tree (n / factor i) ≡ true → is_event (set_boundary whole.set.tasks) whole.tree n ≡ true }
    ensures none { (whole : PlanContents) (own : ℕ → PlanContents) (factor : ℕ → ℕ) → IsPlan whole → ((i : ℕ) → IsPlan (own i)) → IsPartitioned whole.tree →
        AreOwnPlans whole own factor → (n : ℕ) → 0 < n → ((i : ℕ) → i < length (packs_at whole.tree 0) → n % factor i ≡ 0 →
        is_event (set_boundary (own i).set.tasks) (own i).tree (n / factor i) ≡ false) → is_event (set_boundary whole.set.tasks) whole.tree n ≡ false }
{}

/// The law of their places: there are as many packs as processors, each processor holds the pack of its number from tick 0 on, and what runs
/// there is the leaf of the member whose like runs in the pack's own plan.
pub fn own_leaf_law()
    ensures packs { (whole : PlanContents) → IsPlan whole → IsPartitioned whole.tree → length (packs_at whole.tree 0) ≡ whole.tree.processors }
    ensures places { (whole : PlanContents) → IsPlan whole → IsPartitioned whole.tree → (n q : ℕ) → q < whole.tree.processors →
        slice_index_or (onto_at (set_boundary whole.set.tasks) whole.tree n) q None ≡ Some q }
    ensures leaf { (whole own : PlanContents) (i factor : ℕ) → IsPlan whole → IsPlan own → IsPartitioned whole.tree → IsOwnPlan whole own i factor →
        (n k : ℕ) → k < member_count own.tree 0 →
        runs (set_boundary own.set.tasks) own.tree (member_of own.tree 0 k) (n / factor) ≡ true →
        leaf_on (set_boundary whole.set.tasks) whole.tree n (Some i) ≡ leaf whole.tree (member_of whole.tree i k) }
{}
