//! The ticks of each task in merged rows.
ghost use Rattle.std.specs.Prelude.{◌≡◌, ◌<◌, length, replicate, IfOk};
ghost use Rattle.std.specs.List.{AllByRecursion};
ghost use Rattle.sched_base.specs.Tables.{all_rows};
ghost use Rattle.row_totals.specs.Sums.{NamesAmong, AreForward, Adds, HaveRoomFor, totals_of};
ghost use Rattle.merged_rows.specs.Sums.{TicksFit};

use crate::merging::MergedRows;
use sched_base::NoMemory;
use std::alloc::Global;

/// For each of the first `tasks` tasks, in order, the ticks of its rows. Rows of waiting tasks and of idle leaves count for no task.
/// The only error is want of memory.
pub fn totals_of_merged(alloc: Global, rows: &MergedRows, tasks: u32) -> Result<Vec<u128>, NoMemory>
    requires names { AllByRecursion (NamesAmong tasks) rows.now.lanes }
    requires forward { AllByRecursion AreForward rows.now.lanes }
    requires fit { TicksFit (all_rows rows.now.lanes) }
    ensures { IfOk result (λ v. v.items ≡ totals_of tasks rows.now.lanes) }
{
    let mut sums = no_ticks(alloc, tasks)?;
    add_lanes(&mut sums, rows);
    Ok(sums)
}

fn no_ticks(alloc: Global, tasks: u32) -> Result<Vec<u128>, NoMemory>
    ensures { IfOk result (λ v. v.items ≡ replicate tasks 0) }
{
    Ok(vec![in alloc; 0u128; tasks as usize]?)
}

// Adds the rows of all processors to sums that are 0.
fn add_lanes(sums: &mut [u128], rows: &MergedRows)
    requires names { AllByRecursion (NamesAmong (length sums.old)) rows.now.lanes }
    requires forward { AllByRecursion AreForward rows.now.lanes }
    requires room { HaveRoomFor (all_rows rows.now.lanes) sums.old }
    ensures { Adds (all_rows rows.now.lanes) sums.old sums.new }
{
    for p in 0..rows.processors() {
        rows.add_lane(sums, p);
    }
}
