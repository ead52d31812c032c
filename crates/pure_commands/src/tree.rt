//! The command `tree`.
ghost use Rattle.std.specs.Prelude.{OnOk, IfErr};
ghost use Rattle.pure_commands.specs.Input.{WroteSet, StopsAtSet};
ghost use Rattle.pure_commands.specs.Commands.{server_tree};

use crate::plan::plan_of;
use crate::refusal::Refusal;
use crate::unwritten::written;
use sched_base::TaskSet;
use sched_edges::Sink;
use std::alloc::Global;
use tree_text::write_tree;

/// Writes the compiled tree of a set, where it fits.
pub(crate) fn write_set<W: Sink>(alloc: Global, set: TaskSet, out: &mut W) -> Result<(), Refusal>
    ensures done { OnOk result (WroteSet server_tree (W.taken out.old) (W.taken out.new) set) }
    ensures stops { IfErr result (StopsAtSet server_tree (W.taken out.old) (W.taken out.new)
        (W.faults out.old) (W.faults out.new) set) }
{
    let plan = plan_of(alloc, set)?;
    written(write_tree(&plan, out))
}
