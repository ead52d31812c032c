//! Tables of whole rounds.
ghost use Rattle.std.specs.Prelude.{◌<◌, length};

use super::{Round, is_row_of};
use sched_base::RowTable;

/// Whether the table's rows of a processor are those of these rounds.
fn is_lane(table: &RowTable, processor: u32, rounds: &[Round]) -> bool
    requires { processor < length table.now.lanes }
{
    for k in 0..table.rounds() {
        if !is_row_of(&table.row(processor, k), processor, rounds, k as usize) {
            return false;
        }
    }
    table.rounds() == rounds.len() as u64
}

/// Whether the table has these rounds of so many processors.
pub(super) fn is_table(table: &RowTable, processors: u32, rounds: &[Round]) -> bool {
    for p in 0..table.processors() {
        if !is_lane(table, p, rounds) {
            return false;
        }
    }
    table.processors() == processors && table.rounds() == rounds.len() as u64
}
