//! The merged rows of one processor, and what the last one shows.
ghost use Rattle.std.specs.Prelude.{◌≡◌, ◌<◌, [], ◌∷◌, ◌++◌, length, OnOk, OnErr, Some, slice_get};
ghost use Rattle.row_totals.specs.Sums.{NamesAmong, AreForward, Adds, HaveRoomFor};
ghost use Rattle.merged_rows.specs.Columns.{Begun, going_on, rows_up_to, shows_last, showing};

use crate::columns::Column;
use crate::neighbours::shown_mark;
use sched_base::{Leaf, NoMemory, Row};
use std::alloc::Global;
use std::marker::Model;

/// The rows of one processor as they begin, each at a tick and with what it shows. A row goes on up to the next one's start.
#[derive(Drop)]
pub(crate) struct MergedLane {
    rows: Column,
    // What the last row shows, as `shown_mark` tells it, or 0 where there is none.
    last: u64,
}

impl Model for MergedLane {
    ghost use Rattle.std.specs.Prelude.{◌≡◌, List};
    ghost use Rattle.merged_rows.specs.Columns.{Begun, last_mark};
    ghost use Rattle.merged_rows.specs.Forms.{begun_in};

    ghost Value = { List Begun };

    ghost view = { λ l. begun_in l.rows };

    ghost invariant = { λ l. l.last ≡ last_mark (begun_in l.rows) };
}

impl MergedLane {
    /// No row yet. It takes no memory.
    pub(crate) fn new(alloc: Global) -> MergedLane
        ensures { result ≡ [] }
    {
        MergedLane {
            rows: Column::new(alloc),
            last: 0,
        }
    }

    /// What is shown from tick `start` on: where the last row shows the same, it goes on.
    #[inline(always)]
    pub(crate) fn show(&mut self, start: u128, leaf: Leaf) -> Result<(), NoMemory>
        ensures shown { OnOk result (self.new ≡ showing self.old start leaf) }
    {
        if self.shows(leaf) {
            return Ok(());
        }
        self.begin(start, leaf)
    }

    /// What is shown from tick `start` on, where a leaf is told; else the last row goes on.
    #[inline(always)]
    pub(crate) fn go_on(&mut self, start: u128, told: Option<Leaf>) -> Result<(), NoMemory>
        ensures shown { OnOk result (self.new ≡ going_on self.old start told) }
    {
        match told {
            None => Ok(()),
            Some(leaf) => self.show(start, leaf),
        }
    }

    // Whether the last row shows what this leaf does.
    #[inline(always)]
    fn shows(&self, leaf: Leaf) -> bool
        ensures { result ≡ shows_last self.now leaf }
    {
        self.last == shown_mark(leaf)
    }

    #[inline(always)]
    fn begin(&mut self, start: u128, leaf: Leaf) -> Result<(), NoMemory>
        ensures begun { OnOk result (self.new ≡ self.old ++ record { start = start; leaf = leaf } ∷ []) }
        ensures err { OnErr result (self.new ≡ self.old) }
    {
        self.rows.push(start, leaf)?;
        self.last = shown_mark(leaf);
        Ok(())
    }

    /// The number of rows.
    #[inline(always)]
    pub(crate) fn count(&self) -> usize
        ensures { result ≡ length self.now }
    {
        self.rows.count()
    }

    /// Row i, as one of processor p: up to the start of the next one, or to `end`.
    #[inline(always)]
    pub(crate) fn row(&self, p: u32, end: u128, i: usize) -> Row
        requires { i < length self.now }
        ensures { slice_get (rows_up_to p end self.now) i ≡ Some result }
    {
        self.rows.row(p, end, i)
    }

    /// Adds the rows, as those of processor p up to `end`.
    pub(crate) fn add_to(&self, sums: &mut [u128], p: u32, end: u128)
        requires names { NamesAmong (length sums.old) (rows_up_to p end self.now) }
        requires forward { AreForward (rows_up_to p end self.now) }
        requires room { HaveRoomFor (rows_up_to p end self.now) sums.old }
        ensures { Adds (rows_up_to p end self.now) sums.old sums.new }
    {
        self.rows.add_to(sums, p, end);
    }
}
