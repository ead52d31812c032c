//! The sums of a table's rows: how many ticks each task was given.
#![tactic(auto)]

ghost use Rattle.std.specs.Prelude.{◌≡◌, ◌<◌, ◌^◌, length, replicate, IfOk};
ghost use Rattle.std.specs.List.{AllByRecursion};
ghost use Rattle.row_totals.specs.Sums.{NamesAmong, totals_of};

mod sums;

use crate::sums::add_lanes;
use sched_base::{NoMemory, RowTable, Totals};
use std::alloc::Global;
pub use sums::add_row;

/// For each of the first `tasks` tasks, in order, the ticks that the rows of the table give to it. Rows of waiting tasks and
/// of idle leaves count for no task. The only error is want of memory.
pub fn totals_of(alloc: Global, table: &RowTable, tasks: u32) -> Result<Totals, NoMemory>
    requires { AllByRecursion (NamesAmong tasks) table.now.lanes }
    ensures { IfOk result (λ t. t.ticks ≡ totals_of tasks table.now.lanes) }
{
    let mut sums = no_ticks(alloc, tasks)?;
    add_lanes(&mut sums, table);
    totals_from(alloc, &sums)
}

fn no_ticks(alloc: Global, tasks: u32) -> Result<Vec<u128>, NoMemory>
    ensures { IfOk result (λ v. v.items ≡ replicate tasks 0) }
{
    Ok(vec![in alloc; 0u128; tasks as usize]?)
}

fn totals_from(alloc: Global, sums: &[u128]) -> Result<Totals, NoMemory>
    requires few { length sums.now < 2 ^ 32 }
    ensures { IfOk result (λ t. t.ticks ≡ sums.now) }
{
    let mut totals = Totals::with_room(alloc, sums.len() as u32)?;
    for sum in sums {
        totals.push(*sum);
    }
    Ok(totals)
}
