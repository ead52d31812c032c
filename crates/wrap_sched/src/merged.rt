//! The merged rows of the wrapped schedule, in one pass over its rounds.
ghost use Rattle.std.specs.Prelude.{ℕ, ◌≡◌, ◌<◌, ◌≤◌, ◌+◌, ◌*◌, ◌^◌, IfOk};
ghost use Rattle.std.specs.Prelude.{List, [], ◌++◌, length, replicate};
ghost use Rattle.sched_base.specs.Scale.{IsScale, Fits};
ghost use Rattle.sched_base.specs.Tables.{row_limit};
ghost use Rattle.sched_base.specs.declared.rows.Row.{Row as DeclaredRow};
ghost use Rattle.merged_rows.specs.Lawful.{AreLawful};
ghost use Rattle.wrap_sched.specs.Merged.{AreMergedOf, AreMergedUpTo};
ghost use Rattle.wrap_sched.specs.Slices.{AreSlices};
ghost use Rattle.wrap_sched.specs.Wrapped.{slice_rows, wrapped_rounds};

use crate::points::next_point;
use crate::tables::write_rows;
use crate::units::Slices;
use merged_rows::MergedRows;
use sched_base::{NoMemory, Row, TaskSet, blank_rows};
use std::alloc::Global;

// Merges the rounds of the slice from unit x up to unit y onto those before it.
fn merge_slice(
    slices: &Slices,
    x: u64,
    y: u64,
    rows: &mut [Row],
    before: MergedRows,
) -> Result<MergedRows, NoMemory>
    requires slices { AreSlices slices.now }
    requires forward { x < y }
    requires early { y ≤ slices.now.set.now.horizon }
    requires rows { length rows.old ≡ slices.now.set.now.processors }
    requires before { (done : List DeclaredRow) × (count : ℕ) × AreMergedUpTo slices.now.set.now.processors (x * slices.now.scale) count done before }
    ensures { IfOk result (λ now. let m = slices.now.set.now.processors in (done : List DeclaredRow) (count : ℕ)
        → AreMergedUpTo m (x * slices.now.scale) count done before → AreMergedUpTo m (y * slices.now.scale) (count + length slices.now.pattern.items)
        (done ++ slice_rows slices.now.scale slices.now.set.now.tasks m (record { begin = x; end = y })) now) }
{
    let set = slices.set;
    set.know_lawful();
    let start = u128::from(x) * slices.scale;
    let mut merged = before;
    for round in &slices.pattern {
        write_rows(set, x, y, start, round, rows);
        merged = merged.with_rows(rows)?;
    }
    Ok(merged)
}

// Merges the rounds of all slices.
fn merge_slices(slices: &Slices, rows: &mut [Row], none: MergedRows) -> Result<MergedRows, NoMemory>
    requires slices { AreSlices slices.now }
    requires rows { length rows.old ≡ slices.now.set.now.processors }
    requires few { wrapped_rounds slices.now.scale slices.now.set.now * slices.now.set.now.processors ≤ row_limit }
    requires none { none.lanes ≡ replicate slices.now.set.now.processors [] }
    requires start { none.end ≡ 0 }
    ensures rows { IfOk result (λ merged. AreMergedOf slices.now.scale slices.now.set.now merged.lanes) }
    ensures lawful { IfOk result (λ merged. AreLawful slices.now.set.now merged.lanes) }
{
    let set = slices.set;
    set.know_lawful();
    let mut merged = none;
    let mut x: u64 = 0;
    'slices: while x < set.horizon() {
        let y = next_point(set, x);
        merged = merge_slice(slices, x, y, rows, merged)?;
        x = y;
    }
    Ok(merged)
}

/// The merged rows of the wrapped schedule of a set, whose rows are at most 2,097,152. It goes over each round once, and keeps no
/// row that is merged with the one before.
pub fn merged_wrap(alloc: Global, set: &TaskSet, scale: u128) -> Result<MergedRows, NoMemory>
    requires scale { IsScale set.now.tasks scale }
    requires scale_fits { scale ≤ 2 ^ 94 }
    requires fits { Fits scale set.now }
    requires few { wrapped_rounds scale set.now * set.now.processors ≤ row_limit }
    ensures rows { IfOk result (λ merged. AreMergedOf scale set.now merged.lanes) }
    ensures lawful { IfOk result (λ merged. AreLawful set.now merged.lanes) }
{
    let processors = set.processors();
    let mut rows = blank_rows(alloc, processors)?;
    let slices = Slices::of(alloc, set, scale)?;
    let none = MergedRows::new(alloc, processors)?;
    merge_slices(&slices, &mut rows, none)
}
