//! Adds rows to sums, of which there is one for each of the first tasks.
ghost use Rattle.std.specs.Prelude.{◌≡◌, ◌≤◌, ◌<◌, [], ◌∷◌, length, slice_index, EachIndex};
ghost use Rattle.std.specs.List.{AllByRecursion};
ghost use Rattle.sched_base.specs.Tables.{all_rows, lane_of};
ghost use Rattle.row_totals.specs.Sums.{IsAmong, NamesAmong, AreForward, Adds, HaveRoomFor};

use sched_base::{Leaf, Row, RowTable};

/// Adds the ticks of a row to the sum of its task; a row of a waiting task or of an idle leaf adds nothing.
pub fn add_row(sums: &mut [u128], row: &Row)
    requires among { IsAmong (length sums.old) row.now.leaf }
    requires forward { row.now.start ≤ row.now.end }
    requires room { HaveRoomFor (row.now ∷ []) sums.old }
    ensures { Adds (row.now ∷ []) sums.old sums.new }
{
    if let Leaf::Task(id) = row.leaf {
        sums[id.0 as usize] += row.end - row.start;
    }
}

// Adds the rows of processor p.
fn add_lane(sums: &mut [u128], table: &RowTable, p: u32)
    requires lane { p < length table.now.lanes }
    requires names { NamesAmong (length sums.old) (lane_of table.now.lanes p) }
    requires forward { AreForward (lane_of table.now.lanes p) }
    requires room { HaveRoomFor (lane_of table.now.lanes p) sums.old }
    ensures { Adds (lane_of table.now.lanes p) sums.old sums.new }
{
    for k in 0..table.rounds() {
        add_row(sums, &table.row(p, k));
    }
}

/// Adds the rows of all processors to sums that are 0. A task stands at most once in a round, so none overflows.
pub(crate) fn add_lanes(sums: &mut [u128], table: &RowTable)
    requires names { AllByRecursion (NamesAmong (length sums.old)) table.now.lanes }
    requires none { EachIndex sums.old (λ j. slice_index sums.old j ≡ 0) }
    ensures { Adds (all_rows table.now.lanes) sums.old sums.new }
{
    for p in 0..table.processors() {
        add_lane(sums, table, p);
    }
}
