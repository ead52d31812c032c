//! The rows of a trace in the orders of processors and of tasks.
ghost use Rattle.std.specs.Prelude.{◌≡◌, ◌<◌, ◌^◌, ◌++◌, length, IfOk, OnOk, IsSorted};
ghost use Rattle.trace_verdict.specs.Orders.{entry_cmp, processor_key, task_key, key_by, entry_of, entries_from, places, IsOrder, AreStarts};
ghost use Rattle.trace_verdict.specs.Searches.{AreFirstWithKey};

use crate::dealt_orders::dealt_order;
use crate::entries::Entry;
use crate::row_list::RowList;
use sched_base::{Leaf, NoMemory, Row};
use std::alloc::Global;

/// The task of a row, where it is one of a task.
pub fn task_key(row: &Row) -> Option<u32>
    ensures { result ≡ task_key row.now }
{
    match row.leaf {
        Leaf::Task(id) => Some(id.0),
        _ => None,
    }
}

// Adds the entry of a row, where it has a key.
fn add_entry(
    entries: &mut Vec<Entry>,
    key: Option<u32>,
    row: &Row,
    place: u32,
) -> Result<(), NoMemory>
    ensures { OnOk result (entries.new.items ≡ entries.old.items ++ entry_of key row.now place) }
{
    if let Some(key) = key {
        entries.push(Entry {
            key,
            start: row.start,
            place,
            end: row.end,
        })?;
    }
    Ok(())
}

/// By what rows are put in order.
#[derive(Clone, Copy)]
pub enum RowKey {
    Processor,
    Task,
}

/// The key of a row, where it has one.
#[inline(always)]
pub(crate) fn key_of(by: RowKey, row: &Row) -> Option<u32>
    ensures { result ≡ key_by by row.now }
{
    match by {
        RowKey::Processor => Some(row.processor),
        RowKey::Task => task_key(row),
    }
}

// The entries of the rows that have a key, as they stand.
fn entries_by(alloc: Global, by: RowKey, rows: &RowList) -> Result<Vec<Entry>, NoMemory>
    requires { length rows.now < 2 ^ 32 }
    ensures { IfOk result (λ v. v.items ≡ entries_from (key_by by) 0 rows.now) }
{
    let mut entries = Vec::new(alloc);
    for i in 0..rows.len() {
        let row = rows.get(i);
        add_entry(&mut entries, key_of(by, &row), &row, i as u32)?;
    }
    Ok(entries)
}

/// All rows, in the order of processor, start and place.
pub fn order_by_processor(alloc: Global, rows: &RowList) -> Result<Vec<Entry>, NoMemory>
    requires { length rows.now < 2 ^ 32 }
    ensures { IfOk result (λ v. IsOrder processor_key rows.now v.items) }
{
    let mut entries = entries_by(alloc, RowKey::Processor, rows)?;
    entries.sort()?;
    Ok(entries)
}

/// The rows of tasks, in the order of task, start and place.
pub fn order_by_task(alloc: Global, rows: &RowList) -> Result<Vec<Entry>, NoMemory>
    requires { length rows.now < 2 ^ 32 }
    ensures { IfOk result (λ v. IsOrder task_key rows.now v.items) }
{
    if let Some(entries) = dealt_order(alloc, rows)? {
        return Ok(entries);
    }
    let mut entries = entries_by(alloc, RowKey::Task, rows)?;
    entries.sort()?;
    Ok(entries)
}

/// The places of entries, in their order.
pub fn places_of(alloc: Global, entries: &[Entry]) -> Result<Vec<u32>, NoMemory>
    ensures { IfOk result (λ v. v.items ≡ places entries.now) }
{
    let mut places = Vec::new(alloc);
    for entry in entries {
        places.push(entry.place)?;
    }
    Ok(places)
}

/// How many entries at the front have this key.
pub fn front_len(entries: &[Entry], key: u32) -> usize
    ensures { AreFirstWithKey key entries.now result }
{
    for (i, entry) in entries.iter().enumerate() {
        if entry.key != key {
            return i;
        }
    }
    entries.len()
}

/// Where the part of each of the first keys begins, and at the end where the last of these parts ends.
pub fn starts_of(alloc: Global, entries: &[Entry], count: u32) -> Result<Vec<u32>, NoMemory>
    requires sorted { IsSorted entry_cmp entries.now }
    requires few { length entries.now < 2 ^ 32 }
    ensures { IfOk result (λ v. AreStarts count v.items entries.now) }
{
    let mut starts = Vec::new(alloc);
    starts.push(0)?;
    let mut at = 0;
    for key in 0..count {
        at += front_len(&entries[at..], key);
        starts.push(at as u32)?;
    }
    Ok(starts)
}
