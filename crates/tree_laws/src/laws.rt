//! The laws of the compiled tree. Each function runs nothing: its clauses are the law.
ghost use Rattle.std.specs.Prelude.{◌≡◌, ◌≤◌, ◌<◌, ◌+◌, ◌-◌, ◌*◌, ℕ, suc, List, length, map, max, sum, All};
ghost use Rattle.sched_base.specs.Sets.{SetContents, IsLawful};
ghost use Rattle.sched_base.specs.Scale.{IsScale, Fits, rate_of};
ghost use Rattle.sched_base.specs.FirstFit.{packed, homes, idles};
ghost use Rattle.run_tree.specs.Tree.{IsPack, level, dual};
ghost use Rattle.run_tree.specs.TreeOfSet.{IsTreeOf};
ghost use Rattle.run_tree.specs.Making.{started, last_rates, lower_packs, put_items, lifted};
ghost use Rattle.run_tree.specs.Compiled.{pack_items, task_items, put_idles, first_level, tree_of_rates, tree_of};
ghost use Rattle.run_tree.specs.Maker.{leaf_count};
ghost use Rattle.tree_laws.specs.Raised.{RatesFit, raised, IsRaised, lower_duals};

/// The compiled tree of a lawful set that fits is a reduction tree of the set. So its levels end, and the last one has
/// roots alone.
pub fn tree_law()
    ensures is { (s : SetContents) (scale : ℕ) → IsLawful s → IsScale s.tasks scale → Fits scale s → IsTreeOf s (tree_of scale s) }
    // The compiled tree has the set's scale.
    ensures scale { (s : SetContents) (scale : ℕ) → IsLawful s → IsScale s.tasks scale → Fits scale s → (tree_of scale s).scale ≡ scale }
    // The rates of the set's tasks are those of which the other laws speak.
    ensures rates { (s : SetContents) (scale : ℕ) → IsLawful s → IsScale s.tasks scale → Fits scale s →
        RatesFit s.processors scale (map (rate_of scale) s.tasks) }
{}

/// The sizes of the compiled tree, level by level.
pub fn sizes_law()
    // First fit needs no more servers than items.
    ensures servers { (scale : ℕ) (rates : List ℕ) → length (packed scale rates) ≤ length rates }
    // Level 0 has as many packs as first fit needs, or as there are processors.
    ensures packs { (processors scale : ℕ) (rates : List ℕ) → RatesFit processors scale rates →
        length (first_level processors scale rates).last ≤ max processors (length (packed scale rates)) }
    // Level 0 has a leaf for each task, and at most one idle leaf for each pack.
    ensures leaves { (processors scale : ℕ) (rates : List ℕ) → RatesFit processors scale rates →
        leaf_count (first_level processors scale rates).tree ≤ length rates + max processors (length (packed scale rates)) }
    // A further level has fewer packs than the one below has packs that aren't roots.
    ensures fewer { (processors scale : ℕ) (rates : List ℕ) (n : ℕ) → RatesFit processors scale rates →
        let first = first_level processors scale rates in
        IsRaised (suc n) first → length (raised (suc n) first).last < length (lower_packs (raised n first)) }
    // The levels above level 0, together with the packs of the last one, are at most as many as the packs of level 0.
    ensures few { (processors scale : ℕ) (rates : List ℕ) (n : ℕ) → RatesFit processors scale rates →
        let first = first_level processors scale rates in IsRaised n first → n + length (raised n first).last ≤ length first.last }
    ensures levels { (processors scale : ℕ) (rates : List ℕ) (n : ℕ) → RatesFit processors scale rates →
        let first = first_level processors scale rates in IsRaised n first → (raised n first).tree.levels ≡ n + 1 }
    // The rates of a level's packs are from 1 to the scale.
    ensures rates { (processors scale : ℕ) (rates : List ℕ) (n : ℕ) → RatesFit processors scale rates →
        let first = first_level processors scale rates in IsRaised n first → All (λ rate. (1 ≤ rate) × (rate ≤ scale)) (last_rates (raised n first)) }
    ensures scale { (processors scale : ℕ) (rates : List ℕ) (n : ℕ) → RatesFit processors scale rates →
        let first = first_level processors scale rates in IsRaised n first → (raised n first).tree.scale ≡ scale }
    ensures processors { (processors scale : ℕ) (rates : List ℕ) (n : ℕ) → RatesFit processors scale rates →
        let first = first_level processors scale rates in IsRaised n first → (raised n first).tree.processors ≡ processors }
    // The level with roots alone is the last one.
    ensures last { (processors scale : ℕ) (rates : List ℕ) (n : ℕ) → RatesFit processors scale rates →
        let first = first_level processors scale rates in IsRaised n first → length (lower_packs (raised n first)) ≡ 0 →
        tree_of_rates processors scale rates ≡ (raised n first).tree }
{}

/// Items that go to the homes that first fit gives them are packed by first fit, and the idle leaves that the servers'
/// rates ask for make level 0 whole.
pub fn homes_law()
    ensures tasks { (processors scale : ℕ) (rates : List ℕ) → RatesFit processors scale rates →
        put_items (task_items 0 rates) (homes scale rates) (started processors scale) ≡ pack_items (task_items 0 rates) (started processors scale) }
    ensures servers { (processors scale : ℕ) (rates : List ℕ) → RatesFit processors scale rates →
        last_rates (pack_items (task_items 0 rates) (started processors scale)) ≡ packed scale rates }
    ensures sum { (scale : ℕ) (rates : List ℕ) → sum (packed scale rates) ≡ sum rates }
    ensures idles { (processors scale : ℕ) (rates : List ℕ) → RatesFit processors scale rates →
        put_idles 0 0 (idles scale (processors * scale - sum rates) (packed scale rates)) (pack_items (task_items 0 rates) (started processors scale))
        ≡ first_level processors scale rates }
    // The next level is made of the duals, each told its home.
    ensures next { (processors scale : ℕ) (rates : List ℕ) (n : ℕ) → RatesFit processors scale rates →
        let m = raised n (first_level processors scale rates) in IsRaised n (first_level processors scale rates) →
        lifted (lower_packs m) (homes scale (lower_duals m)) m ≡ raised (suc n) (first_level processors scale rates) }
    ensures next_rates { (processors scale : ℕ) (rates : List ℕ) (n : ℕ) → RatesFit processors scale rates →
        let first = first_level processors scale rates in
        IsRaised n first → last_rates (raised (suc n) first) ≡ packed scale (lower_duals (raised n first)) }
{}

/// Where first fit needs no more servers than there are processors, each pack of level 0 of the compiled tree is a root.
pub fn no_migration_premise()
    ensures { (s : SetContents) (scale : ℕ) → IsLawful s → IsScale s.tasks scale → Fits scale s →
        length (packed scale (map (rate_of scale) s.tasks)) ≤ s.processors → (p : ℕ) → IsPack (tree_of scale s) p →
        level (tree_of scale s) p ≡ 0 →
        dual (tree_of scale s) p ≡ None }
{}
