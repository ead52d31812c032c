//! A tree that was read is judged, and its plan made.
ghost use Rattle.std.specs.Prelude.{◌≡◌, IfOk, IfErr, MatchBool};
ghost use Rattle.tree_check.specs.Faults.{HasFault, IsUnfinished};
ghost use Rattle.tree_check.specs.Scans.{IsFound};
ghost use Rattle.tree_check.specs.TextTree.{text_tree, IsTextOfTree};
ghost use Rattle.tree_check.specs.Refusals.{IsRefused};

use crate::faults::{TreeKind, TreeRefused};
use crate::levels::level_fault;
use crate::plan::plan_of;
use crate::written::ReadTree;
use run_tree::Plan;
use sched_base::NoMemory;
use std::alloc::Global;

/// A line at fault, and what is wrong there.
#[derive(Clone, Copy)]
pub(crate) struct Fault {
    pub(crate) line: u64,
    pub(crate) kind: TreeKind,
}

// Whether the last level has a pack that is no root.
fn is_unfinished(tree: &ReadTree) -> bool
    ensures { MatchBool result (IsUnfinished tree.now) (¬ IsUnfinished tree.now) }
{
    let scale = tree.scale();
    for pack in tree.packs(tree.levels() - 1) {
        if pack.rate < scale {
            return true;
        }
    }
    false
}

/// The line of the first idle leaf of a tree text without tasks, counted from 1: the five lines of its head and `idles`
/// come before it.
const FIRST_IDLE_LINE: u64 = 7;

// The first fault of a tree that was read.
fn first_fault(alloc: Global, tree: &ReadTree) -> Result<Option<Fault>, NoMemory>
    ensures { IfOk result (IsFound (HasFault tree.now)) }
{
    let mut line = FIRST_IDLE_LINE + u64::from(tree.set().count()) + tree.idles().len() as u64;
    for l in 0..tree.levels() {
        if let Some(fault) = level_fault(alloc, tree, l, line)? {
            return Ok(Some(fault));
        }
        line += 1 + tree.packs(l).len() as u64;
    }
    if is_unfinished(tree) {
        return Ok(Some(Fault {
            line,
            kind: TreeKind::Unfinished,
        }));
    }
    Ok(None)
}

/// The plan of a tree that was read: its set and scale, with the text's own tree, each level's packs in the order of their
/// lines and each pack's members in the order of its line. Where the text is that of no reduction tree of its set, the
/// answer is its first fault.
pub fn check_tree(alloc: Global, tree: &ReadTree) -> Result<Plan, TreeRefused>
    ensures plan { IfOk result (λ plan. plan ≡ record { set = tree.now.set; tree = text_tree tree.now }) }
    ensures text { IfOk result (λ plan. IsTextOfTree tree.now) }
    ensures refused { IfErr result (λ refused. IsRefused tree.now refused) }
{
    match first_fault(alloc, tree)? {
        Some(fault) => Err(TreeRefused::Fault {
            line: fault.line,
            kind: fault.kind,
        }),
        None => Ok(plan_of(alloc, tree)?),
    }
}
