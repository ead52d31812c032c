//! The laws of tree texts, without code: of which set such a text speaks, that the numbers of a tree's nodes play no part in its schedule, and that
//! what is written of a plan is read again.
#![tactic(auto)]

ghost use Rattle.std.specs.Prelude.{ℕ, ◌≡◌, ◌≤◌, ◌^◌, List, Ok};
ghost use Rattle.sched_base.specs.declared.sets.Task.{Task};
ghost use Rattle.sched_base.specs.Scale.{IsScale, Fits};
ghost use Rattle.sched_base.specs.Sets.{SetContents, IsLawful};
ghost use Rattle.run_tree.specs.Boundaries.{HaveBoundaries, set_boundary};
ghost use Rattle.run_tree.specs.Compiled.{tree_of};
ghost use Rattle.run_tree.specs.Schedule.{schedule, rounds};
ghost use Rattle.run_tree.specs.Tree.{Tree, IsTree};
ghost use Rattle.run_tree.specs.TreeOfSet.{IsTreeOf, idle_count};
ghost use Rattle.trace_format.specs.Conditions.{AreOnTime};
ghost use Rattle.tree_check.specs.Written.{Written};
ghost use Rattle.tree_reader.specs.Reading.{reading};
ghost use Rattle.tree_text_laws.specs.Again.{IsReadAgain};
ghost use Rattle.tree_text_laws.specs.Renumbered.{IsRenumbered};

/// The law of numbers. Where a reduction tree's nodes get other numbers, its schedule stays the same, up to each tick.
pub fn numbers_law()
    ensures rows { (tasks : List Task) (f : ℕ → ℕ) (t u : Tree) → IsTree t → HaveBoundaries (set_boundary tasks) t → IsRenumbered f t u →
        (stop : ℕ) → schedule tasks u stop ≡ schedule tasks t stop }
    ensures rounds { (tasks : List Task) (f : ℕ → ℕ) (t u : Tree) → IsTree t → HaveBoundaries (set_boundary tasks) t → IsRenumbered f t u →
        (stop : ℕ) → rounds tasks u stop ≡ rounds tasks t stop }
{}

/// The set of a text that is read is within the limits of a set, and each of its tasks is released at unit 0.
pub fn form_law()
    ensures lawful { (bytes : List ℕ) (w : Written) → reading bytes ≡ Ok w → IsLawful w.set }
    ensures on_time { (bytes : List ℕ) (w : Written) → reading bytes ≡ Ok w → AreOnTime w.set.tasks }
{}

/// The law of reading again. The text of a reduction tree of a set whose tasks are released at unit 0, with a scale of at most 2^94 and
/// at most 1,024 idle leaves, is read, and says just what the tree is written as; and the tree of that text runs as the tree itself does.
pub fn again_law()
    ensures tree { (s : SetContents) (t : Tree) → IsLawful s → AreOnTime s.tasks → IsTreeOf s t → t.scale ≤ 2 ^ 94 → idle_count t ≤ 1024 →
        IsReadAgain (record { set = s; tree = t }) }
    // The text of the compiled tree, which has at most 256 idle leaves, is read so too.
    ensures compiled { (s : SetContents) (scale : ℕ) → IsLawful s → AreOnTime s.tasks → IsScale s.tasks scale → scale ≤ 2 ^ 94 → Fits scale s →
        IsReadAgain (record { set = s; tree = tree_of scale s }) }
{}
