//! The command `follow`.
ghost use Rattle.std.specs.Prelude.{◌≡◌, IfOk, IfErr, OnOk};
ghost use Rattle.tree_check.specs.TextTree.{IsTextOfTree};
ghost use Rattle.trace_format.specs.Conditions.{AreOnTime};
ghost use Rattle.pure_commands.specs.Commands.{set_limit, of_tree, Writes};
ghost use Rattle.pure_commands.specs.Ends.{streams_of, IsTold, StopsAs};
ghost use Rattle.pure_commands.specs.Follow.{RefusesFollow, GaveTree, GaveNoTree, WrotePlan, StopsAtPlan, plan_told};
ghost use Rattle.exit_status.specs.declared.Status.TheVariants.{Done};

use crate::refusal::Refusal;
use crate::trace::merged_rows_of;
use crate::unwritten::written;
use run_tree::Plan;
use sched_base::SET_LIMIT;
use sched_edges::{Sink, Source, read_all};
use std::alloc::Global;
use trace_writer::write_merged;
use tree_check::check_tree;
use tree_reader::{ReadTree, read_tree};
use tree_text_laws::form_law;

/// Reads a tree text that anybody wrote, of at most as many bytes as a task set, and writes the schedule of its own tree.
pub(crate) fn follow<R: Source, W: Sink>(
    alloc: Global,
    source: &mut R,
    out: &mut W,
) -> Result<(), Refusal>
    ensures done { OnOk result (IsTold set_limit (Writes of_tree) Done
        (streams_of R.Source W.Sink source.old out.old) (streams_of R.Source W.Sink source.new out.new)) }
    ensures stops { IfErr result (StopsAs set_limit (Writes of_tree) RefusesFollow
        (streams_of R.Source W.Sink source.old out.old) (streams_of R.Source W.Sink source.new out.new)) }
{
    form_law();
    let tree = read_tree_input(alloc, source)?;
    write_schedule(alloc, &tree, out)
}

// Reads the source to its end, as a tree text.
fn read_tree_input<R: Source>(alloc: Global, source: &mut R) -> Result<ReadTree, Refusal>
    ensures tree { IfOk result (GaveTree (R.left source.old) (R.left source.new) SET_LIMIT) }
    ensures refusal { IfErr result (GaveNoTree (R.left source.old) (R.left source.new)
        (R.faults source.old) (R.faults source.new) SET_LIMIT) }
{
    let bytes = read_all(alloc, source, SET_LIMIT)?;
    Ok(read_tree(alloc, bytes.as_slice())?)
}

// Writes the schedule of a tree text, where it is that of a reduction tree of its set.
fn write_schedule<W: Sink>(alloc: Global, tree: &ReadTree, out: &mut W) -> Result<(), Refusal>
    requires { AreOnTime tree.now.set.tasks }
    ensures done { OnOk result (WrotePlan (W.taken out.old) (W.taken out.new) tree.now) }
    ensures stops { IfErr result (StopsAtPlan (W.taken out.old) (W.taken out.new)
        (W.faults out.old) (W.faults out.new) tree.now) }
{
    let plan = check_tree(alloc, tree)?;
    write_plan(alloc, tree, &plan, out)
}

// Writes the schedule of the plan of a tree text.
fn write_plan<W: Sink>(
    alloc: Global,
    tree: &ReadTree,
    plan: &Plan,
    out: &mut W,
) -> Result<(), Refusal>
    requires on_time { AreOnTime tree.now.set.tasks }
    requires text { IsTextOfTree tree.now }
    requires plan { plan.now ≡ plan_told tree.now }
    ensures done { OnOk result (WrotePlan (W.taken out.old) (W.taken out.new) tree.now) }
    ensures stops { IfErr result (StopsAtPlan (W.taken out.old) (W.taken out.new)
        (W.faults out.old) (W.faults out.new) tree.now) }
{
    let (rows, totals) = merged_rows_of(alloc, plan)?;
    written(write_merged(out, tree.set(), plan.scale(), &rows, totals.as_slice()))
}
