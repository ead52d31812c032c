//! Whether no two rows of one key overlap, by the places of rows alone: no entries are made. Where it isn't found so, that says nothing.
ghost use Rattle.std.specs.Prelude.{◌≡◌, ◌<◌, ◌^◌, List, length, IfOk, IsTrue};
ghost use Rattle.sched_base.specs.declared.rows.Row.{Row};
ghost use Rattle.trace_verdict.specs.Orders.{key_by};
ghost use Rattle.trace_verdict.specs.declared.orders.RowKey.{RowKey};
ghost use Rattle.trace_verdict.specs.Dealt.{AreDealt};
ghost use Rattle.trace_verdict.specs.Searches.{IsFirstHit};

use crate::dealing::{TASKS, count_rows, deal_places};
use crate::dealt_orders::{comes_up, entry_at, is_rising};
use crate::entries::Entry;
use crate::orders::RowKey;
use crate::row_list::RowList;
use crate::supplied::{by_start, part_of};
use sched_base::NoMemory;
use std::alloc::Global;

/// How many rows were gone through, by their keys and in the order of time, and the last of them.
#[derive(Clone, Copy)]
pub(crate) struct DealtCount {
    pub count: usize,
    pub last: Option<Entry>,
}

impl DealtCount {
    // No row yet.
    fn none() -> DealtCount
        ensures { (by : RowKey) (rows : List Row) → AreDealt (key_by by) rows result }
    {
        DealtCount {
            count: 0,
            last: None,
        }
    }

    // Goes through the rows at these places, where each has a key and comes after the last one.
    fn add(&mut self, by: RowKey, rows: &RowList, places: &[u32]) -> bool
        requires few { length rows.now < 2 ^ 32 }
        requires dealt { AreDealt (key_by by) rows.now self.old }
        ensures { AreDealt (key_by by) rows.now self.new }
    {
        for place in places {
            let Some(entry) = entry_at(by, rows, *place) else {
                return false;
            };
            if !comes_up(&self.last, &entry) {
                return false;
            }
            self.count += 1;
            self.last = Some(entry);
        }
        true
    }

    // Goes through a key's rows in the order of their starts.
    fn add_by_start(
        &mut self,
        alloc: Global,
        by: RowKey,
        rows: &RowList,
        places: &[u32],
    ) -> Result<bool, NoMemory>
        requires few { length rows.now < 2 ^ 32 }
        requires dealt { AreDealt (key_by by) rows.now self.old }
        ensures { IfOk result (λ _. AreDealt (key_by by) rows.now self.new) }
    {
        if is_rising(rows, places) {
            return Ok(self.add(by, rows, places));
        }
        let sorted = by_start(alloc, rows, places)?;
        Ok(self.add(by, rows, &sorted))
    }
}

/// Whether no two rows of one key overlap. Where it is false, that says nothing.
pub fn are_apart(alloc: Global, by: RowKey, rows: &RowList) -> Result<bool, NoMemory>
    requires few { length rows.now < 2 ^ 32 }
    ensures { IfOk result (λ apart. IsTrue apart → IsFirstHit (key_by by) rows.now (length rows.now)) }
{
    let mut ends = [0u32; TASKS];
    let count = count_rows(&mut ends, by, rows);
    let places = deal_places(alloc, &mut ends, by, rows, count)?;
    let mut dealt = DealtCount::none();
    for key in 0..TASKS {
        let mine = part_of(&places, &ends, key);
        if !dealt.add_by_start(alloc, by, rows, mine)? {
            return Ok(false);
        }
    }
    Ok(count <= dealt.count)
}
