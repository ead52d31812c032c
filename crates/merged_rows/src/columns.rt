//! Merged rows of one processor as they begin, all in one form.
ghost use Rattle.std.specs.Prelude.{◌≡◌, ◌<◌, [], ◌∷◌, ◌++◌, length, map, IfOk, OnErr, OnOk, Some, slice_get};
ghost use Rattle.row_totals.specs.Sums.{NamesAmong, AreForward, Adds, HaveRoomFor};
ghost use Rattle.merged_rows.specs.Columns.{rows_up_to};
ghost use Rattle.merged_rows.specs.Forms.{begun_in, IsPushed};

use crate::forms::{FullRow, MediumRow, NarrowRow, RowForm, WideRow};
use crate::growth::{moved, moved_full, push_row};
use row_totals::add_row;
use sched_base::{Leaf, NoMemory, Row};
use std::alloc::Global;

/// Rows in the narrowest form in which all of them fit.
#[derive(Drop)]
pub(crate) enum Column {
    Narrow(Vec<NarrowRow>),
    Medium(Vec<MediumRow>),
    Wide(Vec<WideRow>),
    Full(Vec<FullRow>),
}

impl Column {
    /// No row yet. It takes no memory.
    pub(crate) fn new(alloc: Global) -> Column
        ensures { begun_in result ≡ [] }
    {
        Column::Narrow(Vec::new(alloc))
    }

    /// One row more. Where it doesn't fit, all go to the next form in which it does.
    #[inline(always)]
    pub(crate) fn push(&mut self, start: u128, leaf: Leaf) -> Result<(), NoMemory>
        ensures pushed { OnOk result (begun_in self.new ≡ begun_in self.old ++ record { start = start; leaf = leaf } ∷ []) }
        ensures err { OnErr result (begun_in self.new ≡ begun_in self.old) }
    {
        if self.push_fitting(start, leaf)? {
            return Ok(());
        }
        self.push_wider(start, leaf)
    }

    // One row more, where it fits; whether it did.
    #[inline(always)]
    fn push_fitting(&mut self, start: u128, leaf: Leaf) -> Result<bool, NoMemory>
        ensures pushed { IfOk result (λ fits. IsPushed (begun_in self.old) (record { start = start; leaf = leaf }) fits (begun_in self.new)) }
        ensures err { OnErr result (begun_in self.new ≡ begun_in self.old) }
    {
        match self {
            Column::Narrow(rows) => push_packed(rows, start, leaf),
            Column::Medium(rows) => push_packed(rows, start, leaf),
            Column::Wide(rows) => push_packed(rows, start, leaf),
            Column::Full(rows) => push_packed(rows, start, leaf),
        }
    }

    // One row more, which all rows follow to a wider form.
    #[cold]
    #[inline(never)]
    fn push_wider(&mut self, start: u128, leaf: Leaf) -> Result<(), NoMemory>
        ensures pushed { OnOk result (begun_in self.new ≡ begun_in self.old ++ record { start = start; leaf = leaf } ∷ []) }
        ensures err { OnErr result (begun_in self.new ≡ begun_in self.old) }
    {
        *self = match self {
            Column::Narrow(rows) => wider(*rows.allocator(), rows, start, leaf)?,
            Column::Medium(rows) => wider(*rows.allocator(), rows, start, leaf)?,
            Column::Wide(rows) => wider(*rows.allocator(), rows, start, leaf)?,
            Column::Full(rows) => wider(*rows.allocator(), rows, start, leaf)?,
        };
        Ok(())
    }

    /// The number of rows.
    #[inline(always)]
    pub(crate) fn count(&self) -> usize
        ensures { result ≡ length (begun_in self.now) }
    {
        match self {
            Column::Narrow(rows) => rows.len(),
            Column::Medium(rows) => rows.len(),
            Column::Wide(rows) => rows.len(),
            Column::Full(rows) => rows.len(),
        }
    }

    /// Row i, as one of processor p: up to the start of the next one, or to `end`.
    #[inline(always)]
    pub(crate) fn row(&self, p: u32, end: u128, i: usize) -> Row
        requires { i < length (begun_in self.now) }
        ensures { slice_get (rows_up_to p end (begun_in self.now)) i ≡ Some result }
    {
        match self {
            Column::Narrow(rows) => row_in(rows, p, end, i),
            Column::Medium(rows) => row_in(rows, p, end, i),
            Column::Wide(rows) => row_in(rows, p, end, i),
            Column::Full(rows) => row_in(rows, p, end, i),
        }
    }

    /// Adds the rows, as those of processor p up to `end`.
    pub(crate) fn add_to(&self, sums: &mut [u128], p: u32, end: u128)
        requires names { NamesAmong (length sums.old) (rows_up_to p end (begun_in self.now)) }
        requires forward { AreForward (rows_up_to p end (begun_in self.now)) }
        requires room { HaveRoomFor (rows_up_to p end (begun_in self.now)) sums.old }
        ensures { Adds (rows_up_to p end (begun_in self.now)) sums.old sums.new }
    {
        match self {
            Column::Narrow(rows) => add_rows(sums, rows, p, end),
            Column::Medium(rows) => add_rows(sums, rows, p, end),
            Column::Wide(rows) => add_rows(sums, rows, p, end),
            Column::Full(rows) => add_rows(sums, rows, p, end),
        }
    }
}

// One row more, where it fits; whether it did.
#[inline(always)]
fn push_packed<R: RowForm>(rows: &mut Vec<R>, start: u128, leaf: Leaf) -> Result<bool, NoMemory>
    ensures pushed { IfOk result (λ fits. IsPushed (map R.begun rows.old.items) (record { start = start; leaf = leaf }) fits (map R.begun rows.new.items)) }
    ensures err { OnErr result (rows.new.items ≡ rows.old.items) }
{
    let Some(row) = R::packed(start, leaf) else {
        return Ok(false);
    };
    push_row(rows, row)?;
    Ok(true)
}

// The same rows and one more, in the next form in which they fit.
fn wider<R: RowForm>(alloc: Global, rows: &[R], start: u128, leaf: Leaf) -> Result<Column, NoMemory>
    ensures { IfOk result (λ column. begun_in column ≡ map R.begun rows.now ++ record { start = start; leaf = leaf } ∷ []) }
{
    if let Some(rows) = moved(alloc, rows, start, leaf)? {
        return Ok(Column::Medium(rows));
    }
    if let Some(rows) = moved(alloc, rows, start, leaf)? {
        return Ok(Column::Wide(rows));
    }
    Ok(Column::Full(moved_full(alloc, rows, start, leaf)?))
}

// Row i, as one of processor p: up to the start of the next one, or to `end`.
#[inline(always)]
fn row_in<R: RowForm>(rows: &[R], p: u32, end: u128, i: usize) -> Row
    requires { i < length rows.now }
    ensures { slice_get (rows_up_to p end (map R.begun rows.now)) i ≡ Some result }
{
    let row = rows[i];
    let last = rows.len() - 1;
    let end = if i < last { rows[i + 1].start() } else { end };
    Row {
        processor: p,
        leaf: row.leaf(),
        start: row.start(),
        end,
    }
}

// Adds rows of one form, as those of processor p up to `end`.
fn add_rows<R: RowForm>(sums: &mut [u128], rows: &[R], p: u32, end: u128)
    requires names { NamesAmong (length sums.old) (rows_up_to p end (map R.begun rows.now)) }
    requires forward { AreForward (rows_up_to p end (map R.begun rows.now)) }
    requires room { HaveRoomFor (rows_up_to p end (map R.begun rows.now)) sums.old }
    ensures { Adds (rows_up_to p end (map R.begun rows.now)) sums.old sums.new }
{
    for i in 0..rows.len() {
        add_row(sums, &row_in(rows, p, end, i));
    }
}
