//! Where no task migrates.
ghost use Rattle.std.specs.Prelude.{ℕ, ◌≡◌, None};
ghost use Rattle.sched_base.specs.Sets.{SetContents, IsLawful};
ghost use Rattle.run_tree.specs.Schedule.{schedule};
ghost use Rattle.run_tree.specs.Tree.{Tree, IsPack, level, dual};
ghost use Rattle.run_tree.specs.TreeOfSet.{IsTreeOf};
ghost use Rattle.sched_laws.specs.Migration.{NoneMigrates};

/// The law of one level: where every pack of level 0 is a root, as where no more servers are needed than there are
/// processors, all rows of a task have one processor.
pub fn one_level_law()
    ensures { (s : SetContents) → IsLawful s → (t : Tree) → IsTreeOf s t → ((p : ℕ) → IsPack t p → level t p ≡ 0 → dual t p ≡ None) →
        (stop : ℕ) → NoneMigrates (schedule s.tasks t stop) }
{}
