//! Whole rounds of rows.
ghost use Rattle.std.specs.Prelude.{◌≡◌, ◌≤◌, ◌<◌, ◌+◌, [], replicate, length, IfOk};
ghost use Rattle.sched_base.specs.Tables.{rounds_in, end_of, RowAt, IsRound, IsTable, with_round};

use crate::columns::{LaneLeaves, RoundEnds, push_leaves};
use crate::memory::NoMemory;
use crate::rows::{Leaf, Row};
use std::alloc::Global;
use std::marker::Model;

/// Rows to be overwritten, one for each processor.
pub fn blank_rows(alloc: Global, processors: u32) -> Result<Vec<Row>, NoMemory>
    ensures { IfOk result (λ v. length v.items ≡ processors) }
{
    let blank = Row {
        processor: 0,
        start: 0,
        end: 0,
        leaf: Leaf::Empty,
    };
    Ok(vec![in alloc; blank; processors as usize]?)
}

/// Whole rounds of rows, each processor's rows together, with room for a stated number of further rounds.
///
/// Row p of each round is that of processor p. Rounds follow one another from tick 0, and no task stands twice in one.
///
/// A row takes two bytes, and a round eight besides, where the leaves' numbers are below 256 and the ends below 2^64.
pub struct RowTable {
    ends: RoundEnds,
    lanes: Vec<LaneLeaves>,
    room: u64,
}

impl Drop for RowTable {
    fn drop(self) {
        let Self {
            ends: _ends,
            lanes: _lanes,
            room: _room,
        } = self;
    }
}

impl Model for RowTable {
    ghost use Rattle.sched_base.specs.Tables.{Table, lanes_held, IsHeld};

    ghost Value = { Table };

    ghost view = { λ t. record { lanes = lanes_held 0 t.ends.ends t.lanes.items; room = t.room } };

    ghost invariant = { λ t. IsHeld t.ends t.lanes.items t.room };
}

impl RowTable {
    /// No round yet, with room for that many. All memory is taken here.
    pub fn new(alloc: Global, processors: u32, rounds: u64) -> Result<RowTable, NoMemory>
        ensures none { IfOk result (λ t. t.lanes ≡ replicate processors []) }
        ensures room { IfOk result (λ t. t.room ≡ rounds) }
    {
        let ends = RoundEnds::with_room(alloc, rounds)?;
        let mut lanes = Vec::new(alloc);
        for _p in 0..processors {
            lanes.push(LaneLeaves::with_room(alloc, rounds)?)?;
        }
        Ok(RowTable {
            ends,
            lanes,
            room: rounds,
        })
    }

    /// Appends the next round, one row for each processor in order.
    pub fn push_round(&mut self, rows: &[Row])
        requires whole { length rows.now ≡ length self.old.lanes }
        requires round { IsRound (end_of self.old.lanes) rows.now }
        requires room { 1 ≤ self.old.room }
        ensures lanes { self.new.lanes ≡ with_round self.old.lanes rows.now }
        ensures room { self.new.room + 1 ≡ self.old.room }
    {
        self.ends.push(rows);
        push_leaves(self.lanes.as_mut_slice(), rows);
        self.room -= 1;
    }

    /// The number of processors.
    pub fn processors(&self) -> u32
        ensures value { result ≡ length self.now.lanes }
        ensures lawful { IsTable self.now.lanes }
    {
        self.lanes.len() as u32
    }

    /// Brings what each table keeps into the proof of its caller; it does nothing.
    pub fn know_whole(&self)
        ensures lawful { IsTable self.now.lanes }
    {
        let _lanes = &self.lanes;
    }

    /// The number of rounds.
    pub fn rounds(&self) -> u64
        ensures value { result ≡ rounds_in self.now.lanes }
        ensures lawful { IsTable self.now.lanes }
    {
        match self.lanes.first() {
            Some(lane) => lane.len(),
            None => 0,
        }
    }

    /// The row of processor p in round k.
    pub fn row(&self, p: u32, k: u64) -> Row
        requires processor { p < length self.now.lanes }
        requires round { k < rounds_in self.now.lanes }
        ensures value { RowAt self.now.lanes p k result }
        ensures lawful { IsTable self.now.lanes }
    {
        Row {
            processor: p,
            start: self.ends.start(k),
            end: self.ends.at(k),
            leaf: self.lanes[p as usize].at(k),
        }
    }
}
