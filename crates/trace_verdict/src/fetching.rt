//! Rows at given places, brought together.
ghost use Rattle.std.specs.Prelude.{ℕ, ◌≡◌, ◌<◌, ◌≤◌, ◌++◌, length, take, map, slice_index, IsTrue};
ghost use Rattle.trace_verdict.specs.Faults.{row_at};

use crate::row_list::RowList;
use sched_base::{Leaf, Row};

/// How many rows are brought together at once.
pub(crate) const PART: usize = 64;

/// Room for rows that are brought together.
pub(crate) fn no_rows() -> [Row; PART]
    ensures { length result ≡ 64 }
{
    let none = Row {
        processor: 0,
        start: 0,
        end: 0,
        leaf: Leaf::Empty,
    };
    [none; PART]
}

/// The first of these places, as many as are brought together at once, and the others.
pub(crate) fn next_part(places: &[u32]) -> (&[u32], &[u32])
    requires some { 0 < length places.now }
    ensures parts { places.now ≡ result.0.now ++ result.1.now }
    ensures fits { length result.0.now ≤ 64 }
    ensures less { length result.1.now < length places.now }
{
    places.split_at(places.len().min(PART))
}

/// Whether these places are among the first `count`.
pub fn are_within(places: &[u32], count: usize) -> bool
    ensures { IsTrue result → (i : ℕ) → i < length places.now → slice_index places.now i < count }
{
    for place in places {
        if *place as usize >= count {
            return false;
        }
    }
    true
}

/// Brings the rows at these places together, so that those who go through them don't wait for each row's memory by itself.
pub(crate) fn fetch(part: &mut [Row], rows: &RowList, places: &[u32])
    requires room { length places.now ≤ length part.old }
    requires within { (i : ℕ) → i < length places.now → slice_index places.now i < length rows.now }
    ensures rows { take (length places.now) part.new ≡ map (row_at rows.now) places.now }
    ensures room { length part.new ≡ length part.old }
{
    for (i, place) in places.iter().enumerate() {
        part[i] = rows.get(*place as usize);
    }
}
