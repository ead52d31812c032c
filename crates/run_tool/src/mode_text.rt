//! The text of modes that were run.
ghost use Rattle.std.specs.Prelude.{◌≡◌, ◌≤◌, ◌<◌, ◌*◌, ◌∷◌, [], length, codes, decimal, slice_get, Some};
ghost use Rattle.std.specs.List.{AllZip};
ghost use Rattle.sched_base.specs.Tables.{row_limit};
ghost use Rattle.sched_edges.specs.Causes.{HasCause};
ghost use Rattle.sched_edges.specs.Lines.{line_of};
ghost use Rattle.sched_edges.specs.Streams.{Wrote};
ghost use Rattle.plan_rounds.specs.PlanRows.{plan_rows};
ghost use Rattle.mode_join.specs.declared.mode.Mode.{Mode};
ghost use Rattle.mode_switch.specs.Runs.{IsRunOf};
ghost use Rattle.run_tree.specs.Plans.{rounds_of};
ghost use Rattle.trace_format.specs.Conditions.{AreOnTime};
ghost use Rattle.row_totals.specs.Sums.{totals_of};
ghost use Rattle.pure_commands.specs.Numbered.{numbered, several};
ghost use Rattle.pure_commands.specs.SetTexts.{schedule_text};
ghost use Rattle.trace_format.specs.declared.versions.Version.TheVariants.{One};
ghost use Rattle.run_tool.specs.ModeTexts.{mode_part};

use mode_switch::{Modes, ModesRun};
use pure_commands::write_count;
use round_table::table_law;
use run_tree::Plan;
use sched_base::RowTable;
use sched_edges::{Failed, Line, Sink, write_all};
use trace_writer::write_trace;

/// Writes modes that were run: how many there are, and of each when it starts, how long it lasts, and its rows.
pub(crate) fn write_modes<W: Sink>(modes: &Modes, run: &ModesRun, out: &mut W) -> Result<(), Failed>
    requires { AllZip IsRunOf modes.now.modes run.now }
    ensures wrote { Wrote (W.taken out.old) (W.taken out.new) (several (codes "run-modes") (codes "modes") mode_part modes.now.modes) result }
    ensures cause { HasCause (W.faults out.old) (W.faults out.new) result }
{
    write_count(b"run-modes", b"modes", modes.count(), out)?;
    write_each(modes, run, out)
}

// Writes each mode.
fn write_each<W: Sink>(modes: &Modes, run: &ModesRun, out: &mut W) -> Result<(), Failed>
    requires { AllZip IsRunOf modes.now.modes run.now }
    ensures wrote { Wrote (W.taken out.old) (W.taken out.new) (numbered mode_part 0 modes.now.modes) result }
    ensures cause { HasCause (W.faults out.old) (W.faults out.new) result }
{
    for j in 0..modes.count() {
        write_mode(modes, run, j, out)?;
    }
    Ok(())
}

// Writes mode j.
fn write_mode<W: Sink>(modes: &Modes, run: &ModesRun, j: u32, out: &mut W) -> Result<(), Failed>
    requires runs { AllZip IsRunOf modes.now.modes run.now }
    requires within { j < length modes.now.modes }
    ensures wrote { (m : Mode) → slice_get modes.now.modes j ≡ Some m →
        Wrote (W.taken out.old) (W.taken out.new) (mode_part j m) result }
    ensures cause { HasCause (W.faults out.old) (W.faults out.new) result }
{
    let plan = modes.plan(j);
    write_all(
        out,
        mode_head(j, modes.start(j), plan.set().horizon()).as_slice(),
    )?;
    write_rows(plan, run.table(j), run.totals(j), out)
}

// Writes the rows of a mode.
fn write_rows<W: Sink>(
    plan: &Plan,
    table: &RowTable,
    totals: &[u128],
    out: &mut W,
) -> Result<(), Failed>
    requires on_time { AreOnTime plan.now.set.tasks }
    requires few { rounds_of plan.now * plan.now.tree.processors ≤ row_limit }
    requires lanes { table.now.lanes ≡ plan_rows plan.now }
    requires totals { totals.now ≡ totals_of (length plan.now.set.tasks) (plan_rows plan.now) }
    ensures wrote { Wrote (W.taken out.old) (W.taken out.new) (schedule_text One plan.now) result }
    ensures cause { HasCause (W.faults out.old) (W.faults out.new) result }
{
    table_law();
    write_trace(out, plan.set(), plan.scale(), table, totals)
}

// The number of a mode, and its start and its horizon in units.
#[tactic(auto, unfolding(sched_edges::specs::Lines::line_of))]
fn mode_head(j: u32, start: u64, horizon: u64) -> Line
    ensures { result ≡ line_of (codes "mode") (decimal j ∷ decimal start ∷ decimal horizon ∷ []) }
{
    let mut line = Line::new();
    line.text(b"mode");
    line.space();
    line.number(u128::from(j));
    line.space();
    line.number(u128::from(start));
    line.space();
    line.number(u128::from(horizon));
    line.end();
    line
}
