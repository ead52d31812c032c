//! What the parts of a plan run.
ghost use Rattle.std.specs.Prelude.{ℕ, ◌≡◌, ◌<◌, ◌/◌, ◌%◌, true, false, length, Some};
ghost use Rattle.run_tree.specs.Boundaries.{set_boundary};
ghost use Rattle.run_tree.specs.Plans.{IsPlan, PlanContents};
ghost use Rattle.run_tree.specs.Rounds.{is_event};
ghost use Rattle.run_tree.specs.Runs.{runs};
ghost use Rattle.run_tree.specs.Schedule.{leaf_on};
ghost use Rattle.run_tree.specs.Tree.{IsPack, leaf, level, member, members};
ghost use Rattle.partition_laws.specs.Partitions.{first_pack};
ghost use Rattle.partition_laws.specs.Parts.{AreParts, IsPartPlan, Parts};

/// The law of a part's own plan: a node of the whole plan runs at a tick where its like runs in the part's own plan, whose ticks are longer by
/// a factor.
pub fn part_runs_law()
    ensures { (whole own : PlanContents) (onto : ℕ → ℕ) (factor : ℕ) → IsPlan whole → IsPlan own → IsPartPlan whole own onto factor →
        (n x : ℕ) → x < length own.tree.nodes →
        runs (set_boundary whole.set.tasks) whole.tree (onto x) n ≡ runs (set_boundary own.set.tasks) own.tree x (n / factor) }
{}

/// The law of their events: a tick after 0 is an event where it is one of the own plan of some part, and where it is one of none of the parts
/// that the plan falls into it is none.
pub fn part_events_law()
    ensures some { (whole own : PlanContents) (onto : ℕ → ℕ) (factor : ℕ) → IsPlan whole → IsPlan own → IsPartPlan whole own onto factor →
        (n : ℕ) → 0 < n → n % factor ≡ 0 → is_event (set_boundary own.set.tasks) own.tree (n / factor) ≡ true →
        is_event (set_boundary whole.set.tasks) whole.tree n ≡ true }
    ensures none { (whole : PlanContents) (parts : Parts) → IsPlan whole → ((c : ℕ) → c < parts.count → IsPlan (parts.own c)) → AreParts whole parts →
        (n : ℕ) → 0 < n → ((c : ℕ) → c < parts.count → n % parts.factor c ≡ 0 →
        is_event (set_boundary (parts.own c).set.tasks) (parts.own c).tree (n / parts.factor c) ≡ false) →
        is_event (set_boundary whole.set.tasks) whole.tree n ≡ false }
{}

/// The law of what is shown: a pack has the level of its like, and on the processor of one of level 0 runs the leaf of the member whose like runs
/// in the part's own plan.
pub fn part_leaf_law()
    ensures level { (whole own : PlanContents) (onto : ℕ → ℕ) (factor : ℕ) → IsPlan whole → IsPlan own → IsPartPlan whole own onto factor →
        (p : ℕ) → IsPack own.tree p → level whole.tree (onto p) ≡ level own.tree p }
    ensures leaf { (whole own : PlanContents) (onto : ℕ → ℕ) (factor : ℕ) → IsPlan whole → IsPlan own → IsPartPlan whole own onto factor →
        (n i p k : ℕ) → IsPack own.tree p → first_pack whole.tree i ≡ onto p → k < length (members own.tree p) →
        runs (set_boundary own.set.tasks) own.tree (member own.tree p k) (n / factor) ≡ true →
        leaf_on (set_boundary whole.set.tasks) whole.tree n (Some i) ≡ leaf whole.tree (onto (member own.tree p k)) }
{}
