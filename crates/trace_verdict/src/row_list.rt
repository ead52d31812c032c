//! A list of rows that takes a third of the memory where their ticks have at most 64 bits.
ghost use Rattle.std.specs.Prelude.{◌≡◌, ◌+◌, ◌*◌, ◌<◌, ◌≤◌, nat_le, ◌++◌, ◌∷◌, [], length, map, is_some, IfSome, IfOk, OnOk};
ghost use Rattle.std.specs.Prelude.{vec_len, vec_capacity};
ghost use Rattle.trace_verdict.specs.Faults.{row_at};
ghost use Rattle.trace_verdict.specs.Orders.{task_key};
ghost use Rattle.trace_verdict.specs.RowLists.{leaf_for, row_for};

use sched_base::{Leaf, NoMemory, Row, TaskId};
use std::alloc::{AllocError, Global};
use std::marker::Model;

/// The number that stands for the idle leaf 0.
const IDLE: u32 = 511;

/// How many numbers of leaves there are.
const LEAVES: u32 = 512;

/// What the processor of a short row is below.
const PROCESSORS: u32 = 128;

/// The greatest start of a short row.
const MOST_START: u128 = u64::MAX as u128;

/// What the number of ticks of a short row is below.
const MANY: u128 = 1 << 48;

/// What the last 32 bits of that number are below.
const LOWS: u64 = 1 << 32;

/// A row that starts at a tick of 64 bits and has ticks of 48, of a task of a small number or of the idle leaf 0, which are all
/// that a text names.
#[derive(Clone, Copy)]
pub struct ShortRow {
    pub start: u64,
    /// The last 32 bits of the number of its ticks.
    pub low: u32,
    /// The first 16 bits of that number.
    pub high: u16,
    /// The processor, and behind it the number of the leaf.
    pub owner: u16,
}

impl ShortRow {
    /// No ticks of processor 0 at tick 0.
    pub(crate) fn none() -> ShortRow
        ensures processor { (row_for result).processor ≡ 0 }
        ensures end { (row_for result).end ≡ 0 }
    {
        ShortRow {
            start: 0,
            low: 0,
            high: 0,
            owner: 0,
        }
    }

    /// The row's processor.
    #[inline(always)]
    pub(crate) fn processor(&self) -> u32
        ensures { result ≡ (row_for self.now).processor }
    {
        u32::from(self.owner) / LEAVES
    }

    // The number of its ticks.
    #[inline(always)]
    fn ticks(&self) -> u64
        ensures { result ≡ self.now.high * 4294967296 + self.now.low }
    {
        u64::from(self.high) * LOWS + u64::from(self.low)
    }

    /// Where it ends.
    #[inline(always)]
    pub(crate) fn end(&self) -> u128
        ensures { result ≡ (row_for self.now).end }
    {
        u128::from(self.start) + u128::from(self.ticks())
    }

    /// Whether it ends by this tick.
    #[inline(always)]
    pub(crate) fn ends_by(&self, tick: u64) -> bool
        ensures { result ≡ nat_le (row_for self.now).end tick }
    {
        self.start <= tick && self.ticks() <= tick - self.start
    }

    /// Where it ends, if that is by this tick.
    #[inline(always)]
    pub(crate) fn end_by(&self, tick: u64) -> Option<u64>
        ensures end { IfSome result (λ end. end ≡ (row_for self.now).end) }
        ensures within { IfSome result (λ end. end ≤ tick) }
    {
        let ticks = self.ticks();
        if self.start > tick || ticks > tick - self.start {
            return None;
        }
        Some(self.start + ticks)
    }

    /// The number of its task, where it is one of a task.
    #[inline(always)]
    pub(crate) fn task(&self) -> Option<u32>
        ensures { result ≡ task_key (row_for self.now) }
    {
        let leaf = u32::from(self.owner) % LEAVES;
        if leaf == IDLE { None } else { Some(leaf) }
    }

    /// Whether it is one of a task.
    #[inline(always)]
    pub(crate) fn is_of_task(&self) -> bool
        ensures { result ≡ is_some (task_key (row_for self.now)) }
    {
        u32::from(self.owner) % LEAVES != IDLE
    }

    /// The row that it stands for.
    #[inline(always)]
    pub(crate) fn row(&self) -> Row
        ensures { result ≡ row_for self.now }
    {
        Row {
            processor: self.processor(),
            leaf: leaf_for(u32::from(self.owner) % LEAVES),
            start: u128::from(self.start),
            end: self.end(),
        }
    }
}

#[inline(always)]
fn leaf_for(number: u32) -> Leaf
    ensures { result ≡ leaf_for number }
{
    if number == IDLE {
        Leaf::Idle(0)
    } else {
        Leaf::Task(TaskId(number))
    }
}

// The number that stands for a leaf, where one does.
#[inline(always)]
fn number_for(leaf: Leaf) -> Option<u32>
    ensures leaf { IfSome result (λ n. leaf_for n ≡ leaf) }
    ensures small { IfSome result (λ n. n < 512) }
{
    match leaf {
        Leaf::Task(id) => { if id.0 < IDLE { Some(id.0) } else { None } }
        Leaf::Idle(0) => Some(IDLE),
        _ => None,
    }
}

/// The short row that stands for a row, where one does.
#[inline(always)]
pub(crate) fn short_for(row: &Row) -> Option<ShortRow>
    ensures { IfSome result (λ short. row_for short ≡ row.now) }
{
    if row.start > MOST_START || row.end < row.start || row.processor >= PROCESSORS {
        return None;
    }
    let ticks = row.end - row.start;
    if ticks >= MANY {
        return None;
    }
    let ticks = ticks as u64;
    let leaf = number_for(row.leaf)?;
    Some(ShortRow {
        start: row.start as u64,
        low: (ticks % LOWS) as u32,
        high: (ticks / LOWS) as u16,
        owner: (row.processor * LEAVES + leaf) as u16,
    })
}

// Makes room for a row more.
#[cold]
#[inline(never)]
fn make_room(rows: &mut Vec<ShortRow>) -> Result<(), AllocError>
    ensures items { OnOk result (rows.new.items ≡ rows.old.items) }
    ensures room { OnOk result (vec_len rows.new < vec_capacity rows.new) }
{
    rows.reserve(1)
}

/// Rows in the order of their lines: short ones, and from the first on that is none the rows as they are.
#[derive(Drop)]
pub struct RowList {
    short: Vec<ShortRow>,
    long: Vec<Row>,
}

impl Model for RowList {
    ghost use Rattle.std.specs.Prelude.{List, map, ◌++◌};
    ghost use Rattle.sched_base.specs.declared.rows.Row.{Row};
    ghost use Rattle.trace_verdict.specs.RowLists.{row_for};

    ghost Value = { List Row };

    ghost view = { λ l. map row_for l.short.items ++ l.long.items };
}

impl RowList {
    /// A list without rows.
    pub fn new(alloc: Global) -> RowList
        ensures { result ≡ [] }
    {
        RowList {
            short: Vec::new(alloc),
            long: Vec::new(alloc),
        }
    }

    /// The list of these rows.
    pub fn of(alloc: Global, rows: Vec<Row>) -> Result<RowList, NoMemory>
        ensures { IfOk result (λ l. l ≡ rows.items) }
    {
        let mut list = RowList::new(alloc);
        for row in &rows {
            list.push(row)?;
        }
        Ok(list)
    }

    /// The number of rows.
    pub fn len(&self) -> usize
        ensures { result ≡ length self.now }
    {
        self.short.len() + self.long.len()
    }

    /// The row at index i.
    #[inline(always)]
    pub fn get(&self, i: usize) -> Row
        requires { i < length self.now }
        ensures { result ≡ row_at self.now i }
    {
        let count = self.short.len();
        if i < count {
            self.short[i].row()
        } else {
            self.long[i - count]
        }
    }

    /// The tick at which the row at index i starts.
    #[inline(always)]
    pub fn start(&self, i: usize) -> u128
        requires { i < length self.now }
        ensures { result ≡ (row_at self.now i).start }
    {
        let count = self.short.len();
        if i < count {
            u128::from(self.short[i].start)
        } else {
            self.long[i - count].start
        }
    }

    /// The rows as short ones, where all of them are short.
    pub fn all_short(&self) -> Option<&[ShortRow]>
        ensures { IfSome result (λ short. self.now ≡ map row_for short.now) }
    {
        if !self.long.is_empty() {
            return None;
        }
        Some(self.short.as_slice())
    }

    /// Row i's start, without so many of its last digits. What it gives of a start that still has more than 64 is any number.
    pub(crate) fn moment(&self, i: usize, dropped: u32) -> u64
        requires { i < length self.now }
    {
        let count = self.short.len();
        if i < count && dropped == 0 {
            return self.short[i].start;
        }
        (self.get(i).start.wrapping_shr(dropped) % (1 << 64)) as u64
    }

    /// Appends a row.
    #[inline(always)]
    pub fn push(&mut self, row: &Row) -> Result<(), AllocError>
        ensures { OnOk result (self.new ≡ self.old ++ row.now ∷ []) }
    {
        if self.long.is_empty() {
            if let Some(short) = short_for(row) {
                if self.short.len() == self.short.capacity() {
                    make_room(&mut self.short)?;
                }
                self.short.push_reserved(short);
                return Ok(());
            }
        }
        self.push_wide(*row)
    }

    // Appends a row as it is.
    #[cold]
    #[inline(never)]
    fn push_wide(&mut self, row: Row) -> Result<(), AllocError>
        ensures { OnOk result (self.new ≡ self.old ++ row ∷ []) }
    {
        self.long.reserve(1)?;
        self.long.push_reserved(row);
        Ok(())
    }

    /// All rows, as they are.
    pub fn to_vec(&self, alloc: Global) -> Result<Vec<Row>, NoMemory>
        ensures { IfOk result (λ v. v.items ≡ self.now) }
    {
        let mut rows = Vec::with_capacity(alloc, self.len())?;
        for i in 0..self.len() {
            rows.push(self.get(i))?;
        }
        Ok(rows)
    }
}
