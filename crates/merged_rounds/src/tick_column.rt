//! Ticks in a column, each as narrow as it is.
ghost use Rattle.std.specs.Prelude.{◌≡◌, ◌<◌, [], ◌∷◌, ◌++◌, length, slice_index, IfOk, OnOk, OnErr};

use sched_base::NoMemory;
use std::alloc::Global;
use std::marker::Model;

/// Ticks one after another: those in front of the first past 64 bits take 8 bytes each, that one and those behind it 16.
///
/// It is seen as the list of them.
#[derive(Drop)]
pub(crate) struct TickColumn {
    narrow: Vec<u64>,
    wide: Vec<u128>,
}

impl Model for TickColumn {
    ghost use Rattle.std.specs.Prelude.{ℕ, List, ◌++◌};

    ghost Value = { List ℕ };

    ghost view = { λ s. s.narrow.items ++ s.wide.items };
}

// One tick more in this column.
#[inline(always)]
fn push_to<T: Drop>(column: &mut Vec<T>, tick: T) -> Result<(), NoMemory>
    ensures pushed { OnOk result (column.new.items ≡ column.old.items ++ tick ∷ []) }
    ensures err { OnErr result (column.new.items ≡ column.old.items) }
{
    if column.len() < column.capacity() {
        column.push_reserved(tick);
        return Ok(());
    }
    push_growing(column, tick)
}

// So where there is no room.
#[cold]
#[inline(never)]
fn push_growing<T: Drop>(column: &mut Vec<T>, tick: T) -> Result<(), NoMemory>
    ensures pushed { OnOk result (column.new.items ≡ column.old.items ++ tick ∷ []) }
    ensures err { OnErr result (column.new.items ≡ column.old.items) }
{
    column.push(tick)?;
    Ok(())
}

impl TickColumn {
    /// No tick yet, with room for so many of 8 bytes.
    pub(crate) fn with_room(alloc: Global, room: usize) -> Result<TickColumn, NoMemory>
        ensures { IfOk result (λ ticks. ticks ≡ []) }
    {
        Ok(TickColumn {
            narrow: Vec::with_capacity(alloc, room)?,
            wide: Vec::new(alloc),
        })
    }

    /// One tick more.
    #[inline(always)]
    pub(crate) fn push(&mut self, tick: u128) -> Result<(), NoMemory>
        ensures pushed { OnOk result (self.new ≡ self.old ++ tick ∷ []) }
        ensures err { OnErr result (self.new ≡ self.old) }
    {
        if self.wide.is_empty() && tick <= u128::from(u64::MAX) {
            push_to(&mut self.narrow, tick as u64)
        } else {
            push_to(&mut self.wide, tick)
        }
    }

    /// How many ticks there are.
    #[inline(always)]
    pub(crate) fn len(&self) -> usize
        ensures { result ≡ length self.now }
    {
        self.narrow.len() + self.wide.len()
    }

    /// Tick i.
    #[inline(always)]
    pub(crate) fn at(&self, i: usize) -> u128
        requires { i < length self.now }
        ensures { result ≡ slice_index self.now i }
    {
        let count = self.narrow.len();
        if i < count {
            u128::from(self.narrow[i])
        } else {
            self.wide[i - count]
        }
    }
}
