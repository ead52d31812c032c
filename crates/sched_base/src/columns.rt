//! The columns of a table of rounds: where each round ends, and what each processor runs in it.
ghost use Rattle.std.specs.Prelude.{◌≡◌, ◌≤◌, ◌<◌, ◌+◌, ◌-◌, [], ◌∷◌, ◌++◌, map, length, Some, slice_get, vec_capacity, vec_len, IfOk, IfSome};
ghost use Rattle.sched_base.specs.Columns.{leaf_of, with_leaf, with_leaves, with_end};
ghost use Rattle.sched_base.specs.Tables.{HaveRoom};

use crate::memory::NoMemory;
use crate::rows::{Leaf, Row, TaskId};
use std::alloc::Global;
use std::marker::Model;

/// A leaf in two bytes.
#[derive(Clone, Copy)]
pub(crate) enum ShortLeaf {
    Task(u8),
    Idle(u8),
    Wait(u8),
    Empty,
}

impl ShortLeaf {
    // The leaf in two bytes, where its number fits.
    fn of(leaf: Leaf) -> Option<ShortLeaf>
        ensures { IfSome result (λ short. leaf_of short ≡ leaf) }
    {
        match leaf {
            Leaf::Task(id) => Some(ShortLeaf::Task(short_number(id.0)?)),
            Leaf::Idle(number) => Some(ShortLeaf::Idle(short_number(number)?)),
            Leaf::Wait(id) => Some(ShortLeaf::Wait(short_number(id.0)?)),
            Leaf::Empty => Some(ShortLeaf::Empty),
        }
    }

    fn leaf(self) -> Leaf
        ensures { result ≡ leaf_of self }
    {
        match self {
            ShortLeaf::Task(number) => Leaf::Task(TaskId(u32::from(number))),
            ShortLeaf::Idle(number) => Leaf::Idle(u32::from(number)),
            ShortLeaf::Wait(number) => Leaf::Wait(TaskId(u32::from(number))),
            ShortLeaf::Empty => Leaf::Empty,
        }
    }
}

fn short_number(number: u32) -> Option<u8>
    ensures { IfSome result (λ short. short ≡ number) }
{
    if number < 256 {
        Some(number as u8)
    } else {
        None
    }
}

/// A column in two forms: short ones as long as the elements fit, long ones from there on. Each form has room for a stated
/// number more.
#[derive(Drop)]
struct TwoForms<S: Drop, L: Drop> {
    short: Vec<S>,
    long: Vec<L>,
    room: u64,
    ghost short_room: { room ≤ vec_capacity short - vec_len short },
    ghost long_room: { room ≤ vec_capacity long - vec_len long },
}

impl<S: Drop, L: Drop> TwoForms<S, L> {
    // No element yet, with room for that many.
    fn with_room(alloc: Global, room: u64) -> Result<TwoForms<S, L>, NoMemory>
        ensures short { IfOk result (λ f. f.short.items ≡ []) }
        ensures long { IfOk result (λ f. f.long.items ≡ []) }
        ensures room { IfOk result (λ f. f.room ≡ room) }
    {
        let short = Vec::with_capacity(alloc, room as usize)?;
        let long = Vec::with_capacity(alloc, room as usize)?;
        Ok(TwoForms { short, long, room })
    }
}

/// What one processor runs in each round, with room for a stated number of rounds.
///
/// A leaf takes two bytes in the rounds before the first whose leaf has a number of 256 or more, and eight from there on.
#[derive(Drop)]
pub(crate) struct LaneLeaves {
    forms: TwoForms<ShortLeaf, Leaf>,
}

impl Model for LaneLeaves {
    ghost use Rattle.std.specs.Prelude.{◌++◌, map};
    ghost use Rattle.sched_base.specs.Tables.{LaneHeld};
    ghost use Rattle.sched_base.specs.Columns.{leaf_of};

    ghost Value = { LaneHeld };

    ghost view = { λ l. record { leaves = map leaf_of l.forms.short.items ++ l.forms.long.items; room = l.forms.room } };
}

impl LaneLeaves {
    /// No round yet, with room for that many.
    pub(crate) fn with_room(alloc: Global, rounds: u64) -> Result<LaneLeaves, NoMemory>
        ensures { IfOk result (λ l. l ≡ record { leaves = []; room = rounds }) }
    {
        let forms = TwoForms::with_room(alloc, rounds)?;
        Ok(LaneLeaves { forms })
    }

    // Appends what is run in the next round.
    fn push(&mut self, leaf: Leaf)
        requires { 1 ≤ self.old.room }
        ensures { self.new ≡ with_leaf self.old leaf }
    {
        self.forms.room -= 1;
        push_leaf(&mut self.forms.short, &mut self.forms.long, leaf);
    }

    /// The number of rounds.
    pub(crate) fn len(&self) -> u64
        ensures { result ≡ length self.now.leaves }
    {
        self.forms.short.len() as u64 + self.forms.long.len() as u64
    }

    /// What is run in round k.
    pub(crate) fn at(&self, k: u64) -> Leaf
        requires { k < length self.now.leaves }
        ensures { slice_get self.now.leaves k ≡ Some result }
    {
        leaf_at(&self.forms.short, &self.forms.long, k as usize)
    }
}

fn push_leaf(short: &mut Vec<ShortLeaf>, long: &mut Vec<Leaf>, leaf: Leaf)
    requires short { 1 ≤ vec_capacity short.old - vec_len short.old }
    requires long { 1 ≤ vec_capacity long.old - vec_len long.old }
    ensures leaves { map leaf_of short.new.items ++ long.new.items ≡ (map leaf_of short.old.items ++ long.old.items) ++ leaf ∷ [] }
    ensures short { vec_capacity short.old - vec_len short.old ≤ (vec_capacity short.new - vec_len short.new) + 1 }
    ensures long { vec_capacity long.old - vec_len long.old ≤ (vec_capacity long.new - vec_len long.new) + 1 }
{
    if long.is_empty()
        && let Some(it) = ShortLeaf::of(leaf)
    {
        short.push_reserved(it);
    } else {
        long.push_reserved(leaf);
    }
}

fn leaf_at(short: &[ShortLeaf], long: &[Leaf], k: usize) -> Leaf
    requires { k < length short.now + length long.now }
    ensures { slice_get (map leaf_of short.now ++ long.now) k ≡ Some result }
{
    if k < short.len() {
        short[k].leaf()
    } else {
        long[k - short.len()]
    }
}

/// The ends of rounds in ticks, with room for a stated number of rounds.
///
/// An end takes eight bytes in the rounds before the first that ends at 2^64 or later, and sixteen from there on.
#[derive(Drop)]
pub(crate) struct RoundEnds {
    forms: TwoForms<u64, u128>,
}

impl Model for RoundEnds {
    ghost use Rattle.std.specs.Prelude.{◌++◌};
    ghost use Rattle.sched_base.specs.Tables.{EndsHeld};

    ghost Value = { EndsHeld };

    ghost view = { λ e. record { ends = e.forms.short.items ++ e.forms.long.items; room = e.forms.room } };
}

impl RoundEnds {
    /// No round yet, with room for that many.
    pub(crate) fn with_room(alloc: Global, rounds: u64) -> Result<RoundEnds, NoMemory>
        ensures { IfOk result (λ e. e ≡ record { ends = []; room = rounds }) }
    {
        let forms = TwoForms::with_room(alloc, rounds)?;
        Ok(RoundEnds { forms })
    }

    /// Appends where these rows of the next round end. No rows are no round.
    pub(crate) fn push(&mut self, rows: &[Row])
        requires { 1 ≤ self.old.room }
        ensures { self.new ≡ with_end self.old rows.now }
    {
        if let Some(row) = rows.first() {
            self.forms.room -= 1;
            push_end(&mut self.forms.short, &mut self.forms.long, row.end);
        }
    }

    /// Where round k ends.
    pub(crate) fn at(&self, k: u64) -> u128
        requires { k < length self.now.ends }
        ensures { slice_get self.now.ends k ≡ Some result }
    {
        end_at(&self.forms.short, &self.forms.long, k as usize)
    }

    /// Where round k starts.
    pub(crate) fn start(&self, k: u64) -> u128
        requires { k < length self.now.ends }
        ensures { slice_get (0 ∷ self.now.ends) k ≡ Some result }
    {
        if k == 0 { 0 } else { self.at(k - 1) }
    }
}

fn push_end(low: &mut Vec<u64>, high: &mut Vec<u128>, end: u128)
    requires low { 1 ≤ vec_capacity low.old - vec_len low.old }
    requires high { 1 ≤ vec_capacity high.old - vec_len high.old }
    ensures ends { low.new.items ++ high.new.items ≡ (low.old.items ++ high.old.items) ++ end ∷ [] }
    ensures low { vec_capacity low.old - vec_len low.old ≤ (vec_capacity low.new - vec_len low.new) + 1 }
    ensures high { vec_capacity high.old - vec_len high.old ≤ (vec_capacity high.new - vec_len high.new) + 1 }
{
    if high.is_empty() && end < 18_446_744_073_709_551_616 {
        low.push_reserved(end as u64);
    } else {
        high.push_reserved(end);
    }
}

fn end_at(low: &[u64], high: &[u128], k: usize) -> u128
    requires { k < length low.now + length high.now }
    ensures { slice_get (low.now ++ high.now) k ≡ Some result }
{
    if k < low.len() {
        u128::from(low[k])
    } else {
        high[k - low.len()]
    }
}

/// Appends to each lane the leaf of its row.
pub(crate) fn push_leaves(lanes: &mut [LaneLeaves], rows: &[Row])
    requires whole { length rows.now ≡ length lanes.old }
    requires room { HaveRoom 1 lanes.old }
    ensures { lanes.new ≡ with_leaves lanes.old rows.now }
{
    for p in 0..rows.len() {
        lanes[p].push(rows[p].leaf);
    }
}
