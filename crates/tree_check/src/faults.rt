//! What can be wrong with a tree that was read.
ghost use Rattle.std.specs.Prelude.{◌≡◌};
ghost use Rattle.tree_check.specs.declared.faults.TreeRefused.TheVariants.{NoMemory};

use sched_base::NoMemory;

/// What is wrong at a line of a tree text. Of several at one line the first of this list is told.
#[derive(Clone, Copy, PartialEq, Eq)]
pub enum TreeKind {
    /// The leaves' rates don't fill the processors: at the line of level 0.
    Total,
    /// A leaf or a dual stands in no pack of the level: at the level's line.
    Unplaced,
    /// The pack has a member that there isn't, or that stood earlier in the level.
    Member,
    /// The pack's rate isn't the sum of its members' rates.
    Rate,
    /// The pack and an earlier one of its level have room in one.
    Pair,
    /// The last level has a pack that is no root: at the line of the number of levels.
    Unfinished,
}

/// Why a tree that was read has no plan.
#[derive(Clone, Copy)]
pub enum TreeRefused {
    /// The text is that of no reduction tree of its set. This line is the first at fault, counted from 1.
    Fault { line: u64, kind: TreeKind },
    /// Memory was refused. No clause says when.
    NoMemory,
}

impl From<NoMemory> for TreeRefused {
    ghost from_gives = { λ _ e. e ≡ NoMemory };

    fn from(_: NoMemory) -> TreeRefused {
        TreeRefused::NoMemory
    }
}
