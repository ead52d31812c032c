//! The boundaries of a set's leaves.
ghost use Rattle.sched_base.specs.Sets.{SetContents, IsLawful};
ghost use Rattle.run_tree.specs.Boundaries.{HaveBoundaries, set_boundary};
ghost use Rattle.run_tree.specs.Tree.{Tree};
ghost use Rattle.run_tree.specs.TreeOfSet.{IsTreeOf};

/// The law of boundaries: every leaf of a reduction tree of a lawful set has a boundary at 0 and, above each unit, one
/// within 2^33 units. This is all that the laws of servers, duals, levels and counts ask of boundaries, so they hold of
/// every lawful set and every reduction tree of it.
pub fn boundaries_law()
    ensures { (s : SetContents) → IsLawful s → (t : Tree) → IsTreeOf s t → HaveBoundaries (set_boundary s.tasks) t }
{}
