//! Rows that stand in the order of processors, none of them over another: their order is that in which they stand.
ghost use Rattle.std.specs.Prelude.{◌≡◌, ◌<◌, ◌≤◌, ◌-◌, ◌^◌, true, false, None, length, take, IfOk, IsTrue};
ghost use Rattle.trace_verdict.specs.Orders.{processor_key, entries_from, places};
ghost use Rattle.trace_verdict.specs.Searches.{hits};
ghost use Rattle.trace_verdict.specs.Standing.{comes_after, stand};

use crate::row_list::RowList;
use sched_base::{NoMemory, Row};
use std::alloc::Global;

/// Whether the row stands where a valid schedule has it after the last one, if any.
pub fn comes_after(last: &Option<Row>, row: &Row) -> bool
    ensures { result ≡ comes_after last.now row.now }
{
    match last {
        None => true,
        Some(before) => {
            before.processor < row.processor
                || (before.processor == row.processor && before.end <= row.start)
        }
    }
}

/// Whether each row comes after the one before it.
pub fn stand(rows: &RowList) -> bool
    ensures { result ≡ stand None rows.now }
{
    standing_len(rows) == rows.len()
}

/// How many rows at the front come each after the one before it. The next one doesn't, where there is one.
pub fn standing_len(rows: &RowList) -> usize
    ensures within { result ≤ length rows.now }
    ensures stands { stand None (take result rows.now) ≡ true }
    ensures stops { result < length rows.now → stand None rows.now ≡ false }
{
    let mut last: Option<Row> = None;
    for i in 0..rows.len() {
        let row = rows.get(i);
        if !comes_after(&last, &row) {
            return i;
        }
        last = Some(row);
    }
    rows.len()
}

/// Whether this row and the one before it are of one processor and overlap.
pub fn hits_last(rows: &RowList, i: usize) -> bool
    requires { i < length rows.now }
    ensures some { IsTrue result → 0 < i }
    ensures hits { IsTrue result → hits processor_key rows.now i (i - 1) ≡ true }
{
    if i == 0 {
        return false;
    }
    let last = rows.get(i - 1);
    let row = rows.get(i);
    last.processor == row.processor && last.start < row.end && row.start < last.end
}

/// The places of all rows, as they stand.
pub fn all_places(alloc: Global, rows: &RowList) -> Result<Vec<u32>, NoMemory>
    requires { length rows.now < 2 ^ 32 }
    ensures { IfOk result (λ v. v.items ≡ places (entries_from processor_key 0 rows.now)) }
{
    let mut places = Vec::with_capacity(alloc, rows.len())?;
    for i in 0..rows.len() {
        places.push(i as u32)?;
    }
    Ok(places)
}
