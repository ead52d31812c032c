//! Schedules are valid.
ghost use Rattle.std.specs.Prelude.{ℕ, ◌≡◌, ◌≤◌, ◌*◌, ◌^◌};
ghost use Rattle.std.specs.List.{AllByRecursion};
ghost use Rattle.sched_base.specs.Sets.{SetContents, IsLawful};
ghost use Rattle.sched_base.specs.Valid.{IsValid};
ghost use Rattle.sched_base.specs.declared.rows.Leaf.TheVariants.{Empty};
ghost use Rattle.run_tree.specs.Schedule.{schedule};
ghost use Rattle.run_tree.specs.Tree.{Tree};
ghost use Rattle.run_tree.specs.TreeOfSet.{IsTreeOf};

/// The law of validity: for each lawful set and each reduction tree of it, whatever rule packed the tree, the schedule
/// up to the set's horizon is valid, and so is that up to each tick within 2^33 units: each period that ends by then
/// gets its work in full. No row is empty.
pub fn valid_law()
    ensures set { (s : SetContents) → IsLawful s → (t : Tree) → IsTreeOf s t →
        IsValid s t.scale (s.horizon * t.scale) (s.horizon * t.scale) (schedule s.tasks t (s.horizon * t.scale)) }
    ensures rows { (s : SetContents) → IsLawful s → (t : Tree) → IsTreeOf s t → (stop : ℕ) → stop ≤ 2 ^ 33 * t.scale → (horizon : ℕ) →
        horizon ≤ stop → IsValid s t.scale horizon stop (schedule s.tasks t stop) }
    ensures full { (s : SetContents) → IsLawful s → (t : Tree) → IsTreeOf s t → (stop : ℕ) →
        AllByRecursion (λ r. r.leaf ≡ Empty → ⊥) (schedule s.tasks t stop) }
{}
