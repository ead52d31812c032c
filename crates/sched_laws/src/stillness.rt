//! Between events.
ghost use Rattle.std.specs.Prelude.{ℕ, false, ◌≡◌, ◌<◌, ◌+◌, ◌*◌, ◌^◌, length};
ghost use Rattle.sched_base.specs.Sets.{SetContents, IsLawful};
ghost use Rattle.run_tree.specs.Boundaries.{set_boundary};
ghost use Rattle.run_tree.specs.Rounds.{is_event};
ghost use Rattle.run_tree.specs.Runs.{runs};
ghost use Rattle.run_tree.specs.Schedule.{onto_at};
ghost use Rattle.run_tree.specs.Tree.{Tree};
ghost use Rattle.run_tree.specs.TreeOfSet.{IsTreeOf};

/// The law between events: at a tick below 2^33 units that is no event, the same nodes run as at the tick before, and each
/// processor keeps its pack.
pub fn still_law()
    ensures nodes { (s : SetContents) → IsLawful s → (t : Tree) → IsTreeOf s t → (n : ℕ) → n + 1 < 2 ^ 33 * t.scale →
        is_event (set_boundary s.tasks) t (n + 1) ≡ false → (x : ℕ) → x < length t.nodes →
        runs (set_boundary s.tasks) t x (n + 1) ≡ runs (set_boundary s.tasks) t x n }
    ensures places { (s : SetContents) → IsLawful s → (t : Tree) → IsTreeOf s t → (n : ℕ) → n + 1 < 2 ^ 33 * t.scale →
        is_event (set_boundary s.tasks) t (n + 1) ≡ false → onto_at (set_boundary s.tasks) t (n + 1) ≡ onto_at (set_boundary s.tasks) t n }
{}
