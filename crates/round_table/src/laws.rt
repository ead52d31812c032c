//! The law of what a plan's table holds.
ghost use Rattle.std.specs.Prelude.{ℕ, ◌≡◌, ◌<◌, length};
ghost use Rattle.std.specs.List.{AllByRecursion};
ghost use Rattle.sched_base.specs.Tables.{lane_of};
ghost use Rattle.sched_base.specs.Valid.{IsValid};
ghost use Rattle.run_tree.specs.Plans.{PlanContents, IsPlan, schedule_of, stop_of};
ghost use Rattle.sched_base.specs.Lanes.{NamesOneOf, lanes_of, rows_on};

/// The rows of a plan's schedule are a valid schedule of its set up to its horizon. The table has a lane for each
/// processor of the set, with the rows of the processor in their order and nothing else, and each row is one of these
/// processors. A task that a row names, running or waiting, is one of the set.
pub fn table_law()
    ensures valid { (p : PlanContents) → IsPlan p → IsValid p.set p.tree.scale (stop_of p) (stop_of p) (schedule_of p) }
    ensures processors { (p : PlanContents) → IsPlan p → length (lanes_of p.tree.processors (schedule_of p)) ≡ p.set.processors }
    ensures placed { (p : PlanContents) → IsPlan p → AllByRecursion (λ r. r.processor < p.tree.processors) (schedule_of p) }
    ensures lane { (p : PlanContents) (q : ℕ) → q < p.tree.processors →
        lane_of (lanes_of p.tree.processors (schedule_of p)) q ≡ rows_on q (schedule_of p) }
    ensures rows { (p : PlanContents) → IsPlan p → AllByRecursion (λ r. NamesOneOf p.set.tasks r.leaf) (schedule_of p) }
    ensures lanes { (p : PlanContents) → IsPlan p → AllByRecursion (λ rows. AllByRecursion (λ r. NamesOneOf p.set.tasks r.leaf) rows)
        (lanes_of p.tree.processors (schedule_of p)) }
{}
