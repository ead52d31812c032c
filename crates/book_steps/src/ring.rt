//! The rows that are computed and not yet let go, in a ring of one piece of memory.
ghost use Rattle.std.specs.Prelude.{◌≡◌, ◌≢◌, ◌<◌, ◌++◌, ◌∷◌, [], drop, length, slice_get, true, false, Some, IfOk};
ghost use Rattle.book_steps.specs.declared.ring.PendingRow.{PendingRow as DeclaredRow};
ghost use Rattle.circular_buffer.specs.Buffer.{buffer};

use circular_buffer::HeapCircularBuffer;
use sched_base::{Leaf, NoMemory, Row};
use std::alloc::Global;
use std::marker::Model;

/// A row that is computed, with the ticks of its task's rows in the rounds before it.
#[derive(Clone, Copy)]
pub struct PendingRow {
    pub row: Row,
    pub before: u128,
}

/// Computed rows, in the order in which they were pushed.
#[derive(Drop)]
pub(crate) struct Ring {
    rows: HeapCircularBuffer<PendingRow>,
}

impl Model for Ring {
    ghost use Rattle.circular_buffer.specs.Buffer.{Buffer};
    ghost use Rattle.book_steps.specs.declared.ring.PendingRow.{PendingRow};

    ghost Value = { Buffer PendingRow };

    ghost view = { λ r. r.rows };
}

impl Ring {
    /// No row, with that many places.
    pub(crate) fn new(alloc: Global, places: usize) -> Result<Ring, NoMemory>
        ensures { IfOk result (λ r. r ≡ buffer [] places) }
    {
        Ok(Ring {
            rows: HeapCircularBuffer::with_capacity(alloc, places)?,
        })
    }

    /// The number of rows.
    pub(crate) fn len(&self) -> usize
        ensures { result ≡ length self.now.items }
    {
        self.rows.len()
    }

    /// Appends a row.
    pub(crate) fn push(&mut self, next: PendingRow)
        requires { length self.old.items < self.old.capacity }
        ensures { self.new ≡ buffer (self.old.items ++ next ∷ []) self.old.capacity }
    {
        let _none = self.rows.push_back(next);
    }

    /// The row in this place.
    pub(crate) fn row(&self, place: usize) -> &PendingRow
        requires { place < length self.now.items }
        ensures { slice_get self.now.items place ≡ Some result.now }
    {
        match self.rows.get(place) {
            Some(next) => next,
            None => unreachable!(),
        }
    }

    /// Lets the first rows go, as many as that.
    pub(crate) fn let_go(&mut self, count: usize)
        ensures { self.new ≡ buffer (drop count self.old.items) self.old.capacity }
    {
        for _row in 0..count {
            let _first = self.rows.pop_front();
        }
    }

    /// Whether the row in this place is of the leaf.
    pub(crate) fn is_of(&self, place: usize, leaf: Leaf) -> bool
        ensures some { result ≡ true → (next : DeclaredRow) × (slice_get self.now.items place ≡ Some next) × (next.row.leaf ≡ leaf) }
        ensures none { result ≡ false → (next : DeclaredRow) → slice_get self.now.items place ≡ Some next → next.row.leaf ≢ leaf }
    {
        match self.rows.get(place) {
            Some(next) => next.row.leaf == leaf,
            None => false,
        }
    }
}
