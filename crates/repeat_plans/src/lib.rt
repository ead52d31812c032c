//! The schedule of a plan, and a trace that anybody wrote, begin anew.
#![tactic(auto)]

ghost use Rattle.std.specs.Prelude.{ℕ, ◌*◌, map};
ghost use Rattle.sched_base.specs.Lanes.{lanes_of};
ghost use Rattle.sched_base.specs.Tables.{IsTable, all_rows};
ghost use Rattle.sched_base.specs.Valid.{IsValid};
ghost use Rattle.run_tree.specs.Plans.{PlanContents, IsPlan, schedule_of, stop_of};
ghost use Rattle.merged_rows.specs.Merging.{merged};
ghost use Rattle.stat_report.specs.Report.{IsValidTrace};
ghost use Rattle.trace_check.specs.Traces.{Trace};
ghost use Rattle.repeat_laws.specs.Repeats.{repeated, up_to, CanRepeat};
ghost use Rattle.repeat_plans.specs.Again.{times, HasTree};

/// The law of plans that begin anew: where no task has an offset and each period divides the horizon, RUN's schedule, n times one after the
/// other, is a valid schedule of the set up to n times its horizon. A plan has any reduction tree, so this holds of foreign ones too.
pub fn plan_law()
    ensures { (p : PlanContents) → IsPlan p → CanRepeat p.set → (n : ℕ) →
        IsValid (up_to (n * p.set.horizon) p.set) p.tree.scale (n * p.set.horizon * p.tree.scale) (n * p.set.horizon * p.tree.scale)
        (repeated (stop_of p) (schedule_of p) n) }
{}

/// The law of traces that begin anew: a valid trace of a set without offsets, whose horizon each period divides, is valid n times.
pub fn trace_law()
    ensures { (t : Trace) → IsValidTrace t → CanRepeat t.set → (n : ℕ) → IsValidTrace (times n t) }
{}

/// The law of merged plans, whatever reduction tree of its set a plan has: the rows of each processor in RUN's schedule are a table's, and merged
/// they are a valid schedule too: those that a table in C tells.
pub fn merged_plan_law()
    ensures table { (p : PlanContents) → HasTree p → IsTable (lanes_of p.tree.processors (schedule_of p)) }
    ensures valid { (p : PlanContents) → HasTree p → IsValid p.set p.tree.scale (stop_of p) (stop_of p)
        (all_rows (map merged (lanes_of p.tree.processors (schedule_of p)))) }
{}
