//! Where no task of a compiled plan migrates.
ghost use Rattle.std.specs.Prelude.{ℕ, ◌≤◌, length, map};
ghost use Rattle.sched_base.specs.FirstFit.{packed};
ghost use Rattle.sched_base.specs.Scale.{Fits, IsScale, rate_of};
ghost use Rattle.sched_base.specs.Sets.{SetContents, IsLawful};
ghost use Rattle.run_tree.specs.Compiled.{tree_of};
ghost use Rattle.run_tree.specs.Schedule.{schedule};
ghost use Rattle.sched_laws.specs.Migration.{NoneMigrates};

/// The law of partitioned sets: where first fit needs no more servers than there are processors, no task of the compiled
/// schedule migrates.
pub fn no_migration_law()
    ensures { (s : SetContents) (scale : ℕ) → IsLawful s → IsScale s.tasks scale → Fits scale s
        → length (packed scale (map (rate_of scale) s.tasks)) ≤ s.processors → (stop : ℕ) → NoneMigrates (schedule s.tasks (tree_of scale s) stop) }
{
    sched_laws::one_level_law();
    tree_laws::tree_law();
    tree_laws::no_migration_premise();
}
