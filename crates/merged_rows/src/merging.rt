//! The merged rows of all processors.
ghost use Rattle.std.specs.Prelude.{ℕ, ◌≡◌, ◌<◌, [], List, length, map, replicate, slice_index, slice_index_or, slice_set, IfOk, OnOk};
ghost use Rattle.sched_base.specs.declared.rows.Row.{Row as declared_row};
ghost use Rattle.sched_base.specs.Tables.{IsRound, RowAt, end_after, lane_of, with_round};
ghost use Rattle.row_totals.specs.Sums.{NamesAmong, AreForward, Adds, HaveRoomFor};
ghost use Rattle.merged_rows.specs.Merging.{merged};
ghost use Rattle.merged_rows.specs.Columns.{lanes_up_to, showing, showing_each, going_on_each, AreChangesTold, AreGoingOn, AreShown};

use crate::lanes::MergedLane;
use sched_base::{Leaf, NoMemory, Row};
use std::alloc::Global;
use std::marker::Model;

/// The rows of each processor up to a tick, merged: those that follow one another under one name are one row.
///
/// Seen as these rows, lane by lane, the tick, and the rows as they begin. They take 8 bytes for each merged
/// row of a processor while starts have 48 bits, 12 up to 80 bits, 16 up to 112 and 32 past them or where a leaf has a number past 16,383.
pub struct MergedRows {
    lanes: Vec<MergedLane>,
    end: u128,
}

impl Drop for MergedRows {
    fn drop(self) {
        let Self {
            lanes: _lanes,
            end: _end,
        } = self;
    }
}

impl Model for MergedRows {
    ghost use Rattle.std.specs.Prelude.{◌<◌, ◌^◌, length};
    ghost use Rattle.merged_rows.specs.Columns.{MergedContents, lanes_up_to};

    ghost Value = { MergedContents };

    ghost view = { λ m. record { lanes = lanes_up_to 0 m.end m.lanes.items; end = m.end; begun = m.lanes.items } };

    ghost invariant = { λ m. length m.lanes.items < 2 ^ 32 };
}

impl MergedRows {
    /// No round yet, up to tick 0.
    pub fn new(alloc: Global, processors: u32) -> Result<MergedRows, NoMemory>
        ensures none { IfOk result (λ m. m.lanes ≡ replicate processors []) }
        ensures start { IfOk result (λ m. m.end ≡ 0) }
    {
        let mut lanes = Vec::new(alloc);
        for _p in 0..processors {
            lanes.push(MergedLane::new(alloc))?;
        }
        Ok(MergedRows { lanes, end: 0 })
    }

    /// Adds the next round, up to tick `end`. Of each processor in order it is told what it shows there, or nothing where its last
    /// row before shows the same. Memory is taken for a processor that shows something else than before. After an error the rows are of no use.
    #[inline(always)]
    pub fn add_round(&mut self, end: u128, told: &[Option<Leaf>]) -> Result<(), NoMemory>
        requires whole { length told.now ≡ length self.old.lanes }
        ensures merged { OnOk result ((lanes : List (List declared_row)) (rows : List declared_row) → self.old.lanes ≡ map merged lanes
            → IsRound self.old.end rows → end_after self.old.end rows ≡ end → AreChangesTold self.old.lanes told.now rows
            → self.new.lanes ≡ map merged (with_round lanes rows)) }
        ensures end { OnOk result (self.new.end ≡ end) }
        ensures processors { OnOk result (length self.new.lanes ≡ length self.old.lanes) }
    {
        show_told(self.lanes.as_mut_slice(), self.end, told)?;
        self.end = end;
        Ok(())
    }

    /// Adds the next round, up to tick `end`, given what its processors show. Those are listed that may show something else than their last
    /// row; one may stand there twice. It costs time for these. After an error the rows are of no use.
    #[inline(always)]
    pub fn add_changed(
        &mut self,
        end: u128,
        changed: &[u32],
        shown: &[Option<Leaf>],
    ) -> Result<(), NoMemory>
        requires whole { length shown.now ≡ length self.old.lanes }
        requires within { (k : ℕ) → k < length changed.now → slice_index changed.now k < length self.old.lanes }
        ensures merged { OnOk result ((lanes : List (List declared_row)) (rows : List declared_row) → self.old.lanes ≡ map merged lanes
            → IsRound self.old.end rows → end_after self.old.end rows ≡ end → AreShown self.old.lanes changed.now shown.now rows
            → self.new.lanes ≡ map merged (with_round lanes rows)) }
        ensures end { OnOk result (self.new.end ≡ end) }
        ensures processors { OnOk result (length self.new.lanes ≡ length self.old.lanes) }
    {
        show_changed(self.lanes.as_mut_slice(), self.end, changed, shown)?;
        self.end = end;
        Ok(())
    }

    /// Processor p shows this leaf from the rows' tick on; where its last row shows the same, that one goes on. The round is added when
    /// `go_to` tells its end. After an error the rows are of no use.
    #[inline(always)]
    pub fn show(&mut self, p: u32, leaf: Leaf) -> Result<(), NoMemory>
        requires { p < length self.old.begun }
        ensures shown { OnOk result (self.new.begun ≡ slice_set self.old.begun p (showing (slice_index_or self.old.begun p []) self.old.end leaf)) }
        ensures end { OnOk result (self.new.end ≡ self.old.end) }
    {
        show_on(self.lanes.as_mut_slice(), p, self.end, leaf)?;
        Ok(())
    }

    /// What was shown so far goes on up to this tick.
    #[inline(always)]
    pub fn go_to(&mut self, end: u128)
        ensures begun { self.new.begun ≡ self.old.begun }
        ensures end { self.new.end ≡ end }
    {
        self.end = end;
    }

    /// Brings into the proof of its caller what the rows are by where they begin; it does nothing.
    #[inline(always)]
    pub fn know_begun(&self)
        ensures lanes { self.now.lanes ≡ lanes_up_to 0 self.now.end self.now.begun }
        ensures many { length self.now.begun ≡ length self.now.lanes }
    {
        let _lanes = &self.lanes;
    }

    /// With the next round, where its rows are at hand: one for each processor in order. Memory is taken as `add_round` takes it.
    pub fn with_rows(mut self, rows: &[Row]) -> Result<MergedRows, NoMemory>
        requires whole { length rows.now ≡ length self.lanes }
        requires round { IsRound self.end rows.now }
        ensures merged { IfOk result (λ m. (lanes : List (List declared_row)) → self.lanes ≡ map merged lanes
            → m.lanes ≡ map merged (with_round lanes rows.now)) }
        ensures end { IfOk result (λ m. m.end ≡ end_after self.end rows.now) }
        ensures processors { IfOk result (λ m. length m.lanes ≡ length self.lanes) }
    {
        show_each(self.lanes.as_mut_slice(), self.end, rows)?;
        self.end = end_of_round(self.end, rows);
        Ok(self)
    }

    /// The number of processors.
    pub fn processors(&self) -> u32
        ensures { result ≡ length self.now.lanes }
    {
        self.lanes.len() as u32
    }

    /// The number of merged rows of processor p.
    #[inline(always)]
    pub fn count(&self, p: u32) -> usize
        requires { p < length self.now.lanes }
        ensures { result ≡ length (lane_of self.now.lanes p) }
    {
        self.lanes[p as usize].count()
    }

    /// Merged row i of processor p.
    #[inline(always)]
    pub fn row(&self, p: u32, i: usize) -> Row
        requires processor { p < length self.now.lanes }
        requires row { i < length (lane_of self.now.lanes p) }
        ensures { RowAt self.now.lanes p i result }
    {
        self.lanes[p as usize].row(p, self.end, i)
    }

    /// Adds the merged rows of processor p.
    pub(crate) fn add_lane(&self, sums: &mut [u128], p: u32)
        requires processor { p < length self.now.lanes }
        requires names { NamesAmong (length sums.old) (lane_of self.now.lanes p) }
        requires forward { AreForward (lane_of self.now.lanes p) }
        requires room { HaveRoomFor (lane_of self.now.lanes p) sums.old }
        ensures { Adds (lane_of self.now.lanes p) sums.old sums.new }
    {
        self.lanes[p as usize].add_to(sums, p, self.end);
    }
}

// Each processor shows what is told of it, from tick `start` on, and else goes on.
#[inline(always)]
fn show_told(lanes: &mut [MergedLane], start: u128, told: &[Option<Leaf>]) -> Result<(), NoMemory>
    requires whole { length told.now ≡ length lanes.old }
    ensures shown { OnOk result (lanes.new ≡ going_on_each lanes.old start told.now) }
{
    for p in 0..told.len() {
        lanes[p].go_on(start, told[p])?;
    }
    Ok(())
}

// Processor p shows this leaf, from tick `start` on.
#[inline(always)]
fn show_on(lanes: &mut [MergedLane], p: u32, start: u128, leaf: Leaf) -> Result<(), NoMemory>
    requires { p < length lanes.old }
    ensures shown { OnOk result (lanes.new ≡ slice_set lanes.old p (showing (slice_index_or lanes.old p []) start leaf)) }
{
    lanes[p as usize].show(start, leaf)?;
    Ok(())
}

// Each of these processors shows what is told of it, from tick `start` on.
#[inline(always)]
fn show_changed(
    lanes: &mut [MergedLane],
    start: u128,
    changed: &[u32],
    told: &[Option<Leaf>],
) -> Result<(), NoMemory>
    requires whole { length told.now ≡ length lanes.old }
    requires within { (k : ℕ) → k < length changed.now → slice_index changed.now k < length lanes.old }
    ensures shown { OnOk result (AreGoingOn lanes.old start changed.now told.now lanes.new (length changed.now)) }
{
    for k in 0..changed.len() {
        let p = changed[k] as usize;
        lanes[p].go_on(start, told[p])?;
    }
    Ok(())
}

// Each processor shows what its row of the round does, from tick `start` on.
fn show_each(lanes: &mut [MergedLane], start: u128, rows: &[Row]) -> Result<(), NoMemory>
    requires whole { length rows.now ≡ length lanes.old }
    ensures shown { OnOk result (lanes.new ≡ showing_each lanes.old start rows.now) }
{
    for p in 0..rows.len() {
        lanes[p].show(start, rows[p].leaf)?;
    }
    Ok(())
}

// Where the last row ends, or `before` where there is none.
fn end_of_round(before: u128, rows: &[Row]) -> u128
    ensures { result ≡ end_after before rows.now }
{
    match rows.last() {
        Some(row) => row.end,
        None => before,
    }
}
