//! Finds when periods were done, in one pass over the rows.
ghost use Rattle.std.specs.Prelude.{◌≡◌, ◌≤◌, ◌<◌, ◌^◌, ◌++◌, List, length};
ghost use Rattle.std.specs.List.{AllByRecursion};
ghost use Rattle.sched_base.specs.declared.rows.Row.{Row as declared_row};
ghost use Rattle.sched_base.specs.Tables.{all_rows, lane_of};
ghost use Rattle.row_totals.specs.Sums.{NamesAmong};
ghost use Rattle.trace_writer.specs.Finishes.{HaveRoom, AreDoneBy};

use crate::finishes::Finishes;
use crate::shown::ShownRows;
use sched_base::TaskSet;

/// Finds when the periods were done by these rows.
pub(crate) fn note_rows<R: ShownRows>(finishes: &mut Finishes, set: &TaskSet, scale: u128, rows: &R)
    requires scale { scale ≤ 2 ^ 94 }
    requires room { HaveRoom set.now finishes.old }
    requires names { AllByRecursion (NamesAmong (length set.now.tasks)) (R.lanes rows.now) }
    ensures room { HaveRoom set.now finishes.new }
    ensures done { AreDoneBy scale set.now.tasks (all_rows (R.lanes rows.now)) finishes.new }
{
    finishes.begin(set, scale);
    for p in 0..rows.processors() {
        note_lane(finishes, set, scale, rows, p);
    }
}

// The rows of processor p go by.
fn note_lane<R: ShownRows>(finishes: &mut Finishes, set: &TaskSet, scale: u128, rows: &R, p: u32)
    requires scale { scale ≤ 2 ^ 94 }
    requires processor { p < length (R.lanes rows.now) }
    requires whole { R.left rows.now p 0 ≡ lane_of (R.lanes rows.now) p }
    requires room { HaveRoom set.now finishes.old }
    requires names { NamesAmong (length set.now.tasks) (lane_of (R.lanes rows.now) p) }
    ensures room { HaveRoom set.now finishes.new }
    ensures done { (before : List declared_row) → AreDoneBy scale set.now.tasks before finishes.old
        → AreDoneBy scale set.now.tasks (before ++ lane_of (R.lanes rows.now) p) finishes.new }
{
    let mut place = 0;
    while let Some((row, later)) = rows.next_row(p, place) {
        finishes.note(set, scale, &row);
        place = later;
    }
}
