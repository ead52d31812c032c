//! Vectors of rows that grow, and that go to another form.
ghost use Rattle.std.specs.Prelude.{◌≡◌, ◌<◌, [], ◌∷◌, ◌++◌, map, IfOk, IfSome, OnErr, OnOk, vec_capacity, vec_len};
ghost use Rattle.merged_rows.specs.Forms.{begun_full};

use crate::forms::{FullRow, RowForm};
use sched_base::{Leaf, NoMemory};
use std::alloc::Global;

// For how many rows more there is to be room where there are so many and no room. Room that isn't used costs little, and a copy of the rows
// more: beyond a few there is room for so many that they have pages of their own, which move as they grow, and aren't copied.
fn more_rows(count: usize) -> usize
    ensures { 0 < result }
{
    match count {
        0..=15 => 16,
        16..=63 => 3 * count,
        64..=16383 => 16384,
        _ => count,
    }
}

/// One row more.
#[inline(always)]
pub(crate) fn push_row<R: RowForm>(rows: &mut Vec<R>, row: R) -> Result<(), NoMemory>
    ensures pushed { OnOk result (rows.new.items ≡ rows.old.items ++ row ∷ []) }
    ensures err { OnErr result (rows.new.items ≡ rows.old.items) }
{
    if rows.len() == rows.capacity() {
        grow(rows)?;
    }
    rows.push_reserved(row);
    Ok(())
}

// Takes room for more rows.
#[cold]
#[inline(never)]
fn grow<R: RowForm>(rows: &mut Vec<R>) -> Result<(), NoMemory>
    ensures rows { rows.new.items ≡ rows.old.items }
    ensures room { OnOk result (vec_len rows.new < vec_capacity rows.new) }
{
    rows.reserve(more_rows(rows.len()))?;
    Ok(())
}

/// The same rows and one more in another form, where all fit there.
pub(crate) fn moved<F: RowForm, T: RowForm>(
    alloc: Global,
    rows: &[F],
    start: u128,
    leaf: Leaf,
) -> Result<Option<Vec<T>>, NoMemory>
    ensures { IfOk result (λ o. IfSome o (λ moved. map T.begun moved.items ≡ map F.begun rows.now ++ record { start = start; leaf = leaf } ∷ [])) }
{
    let Some(last) = T::packed(start, leaf) else {
        return Ok(None);
    };
    let mut moved = Vec::with_capacity(alloc, rows.len())?;
    for row in rows {
        let Some(same) = T::packed(row.start(), row.leaf()) else {
            return Ok(None);
        };
        push_row(&mut moved, same)?;
    }
    push_row(&mut moved, last)?;
    Ok(Some(moved))
}

/// The same rows and one more in the form in which any fit.
pub(crate) fn moved_full<F: RowForm>(
    alloc: Global,
    rows: &[F],
    start: u128,
    leaf: Leaf,
) -> Result<Vec<FullRow>, NoMemory>
    ensures { IfOk result (λ moved. map begun_full moved.items ≡ map F.begun rows.now ++ record { start = start; leaf = leaf } ∷ []) }
{
    let mut moved = Vec::with_capacity(alloc, rows.len())?;
    for row in rows {
        let same = FullRow {
            start: row.start(),
            leaf: row.leaf(),
        };
        push_row(&mut moved, same)?;
    }
    push_row(&mut moved, FullRow { start, leaf })?;
    Ok(moved)
}
