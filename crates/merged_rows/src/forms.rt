//! Merged rows as they begin, in records of 8, 12, 16 and 32 bytes.
ghost use Rattle.std.specs.Prelude.{◌≡◌, ◌+◌, ◌*◌, ◌/◌, ◌%◌, ◌^◌, ◌<◌, IfSome};
ghost use Rattle.merged_rows.specs.Columns.{Begun};
ghost use Rattle.merged_rows.specs.Forms.{begun_full, begun_medium, begun_narrow, begun_wide, leaf_for, leaf_of};

use sched_base::{Leaf, TaskId};

/// What the number of a leaf that has a code is below.
const NUMBERS: u16 = 16384;

/// What half of a number of 64 bits is below.
const HALVES: u64 = 1 << 32;

/// What a number of 64 bits is below.
const WORDS: u128 = 1 << 64;

/// A row as it begins, in a record of some bytes.
pub(crate) trait RowForm: Copy {
    /// Where the row begins, and what it shows.
    ghost begun: { Self → Begun };

    /// The row in this form, where it fits.
    fn packed(start: u128, leaf: Leaf) -> Option<Self>
        ensures { IfSome result (λ row. begun row ≡ record { start = start; leaf = leaf }) };

    /// Where the row begins.
    fn start(self) -> u128
        ensures { result ≡ (begun self).start };

    /// What the row shows.
    fn leaf(self) -> Leaf
        ensures { result ≡ (begun self).leaf };
}

/// A row in 8 bytes: a start of 48 bits, and a leaf that has a code.
#[derive(Clone, Copy)]
pub(crate) struct NarrowRow {
    low: u32,
    high: u16,
    code: u16,
}

impl RowForm for NarrowRow {
    ghost begun = { begun_narrow };

    #[inline(always)]
    fn packed(start: u128, leaf: Leaf) -> Option<NarrowRow> {
        if start >= 1 << 48 {
            return None;
        }
        let start = start as u64;
        Some(NarrowRow {
            low: low_half(start),
            high: (start / HALVES) as u16,
            code: leaf_code(leaf)?,
        })
    }

    #[inline(always)]
    fn start(self) -> u128 {
        u128::from(joined(self.low, u32::from(self.high)))
    }

    #[inline(always)]
    fn leaf(self) -> Leaf {
        leaf_for(self.code)
    }
}

/// A row in 12 bytes: a start of 80 bits, and a leaf that has a code.
#[derive(Clone, Copy)]
pub(crate) struct MediumRow {
    low: u32,
    middle: u32,
    high: u16,
    code: u16,
}

impl RowForm for MediumRow {
    ghost begun = { begun_medium };

    #[inline(always)]
    fn packed(start: u128, leaf: Leaf) -> Option<MediumRow> {
        if start >= 1 << 80 {
            return None;
        }
        let word = (start % WORDS) as u64;
        Some(MediumRow {
            low: low_half(word),
            middle: high_half(word),
            high: (start / WORDS) as u16,
            code: leaf_code(leaf)?,
        })
    }

    #[inline(always)]
    fn start(self) -> u128 {
        u128::from(self.high) * WORDS + u128::from(joined(self.low, self.middle))
    }

    #[inline(always)]
    fn leaf(self) -> Leaf {
        leaf_for(self.code)
    }
}

/// A row in 16 bytes: a start of 112 bits, and a leaf that has a code.
#[derive(Clone, Copy)]
pub(crate) struct WideRow {
    low: u64,
    middle: u32,
    high: u16,
    code: u16,
}

impl RowForm for WideRow {
    ghost begun = { begun_wide };

    #[inline(always)]
    fn packed(start: u128, leaf: Leaf) -> Option<WideRow> {
        if start >= 1 << 112 {
            return None;
        }
        let word = (start / WORDS) as u64;
        Some(WideRow {
            low: (start % WORDS) as u64,
            middle: low_half(word),
            high: (word / HALVES) as u16,
            code: leaf_code(leaf)?,
        })
    }

    #[inline(always)]
    fn start(self) -> u128 {
        u128::from(joined(self.middle, u32::from(self.high))) * WORDS + u128::from(self.low)
    }

    #[inline(always)]
    fn leaf(self) -> Leaf {
        leaf_for(self.code)
    }
}

/// A row in 32 bytes: any start, and any leaf.
#[derive(Clone, Copy)]
pub(crate) struct FullRow {
    pub(crate) start: u128,
    pub(crate) leaf: Leaf,
}

impl RowForm for FullRow {
    ghost begun = { begun_full };

    #[inline(always)]
    fn packed(start: u128, leaf: Leaf) -> Option<FullRow> {
        Some(FullRow { start, leaf })
    }

    #[inline(always)]
    fn start(self) -> u128 {
        self.start
    }

    #[inline(always)]
    fn leaf(self) -> Leaf {
        self.leaf
    }
}

// The last 32 bits of a number.
#[inline(always)]
fn low_half(number: u64) -> u32
    ensures { result ≡ number % 2 ^ 32 }
{
    (number % HALVES) as u32
}

// The first 32 bits of a number.
#[inline(always)]
fn high_half(number: u64) -> u32
    ensures { result ≡ number / 2 ^ 32 }
{
    (number / HALVES) as u32
}

// The number that has these halves.
#[inline(always)]
fn joined(low: u32, high: u32) -> u64
    ensures { result ≡ high * 2 ^ 32 + low }
{
    u64::from(high) * HALVES + u64::from(low)
}

// The code of a leaf, where it has one.
#[inline(always)]
fn leaf_code(leaf: Leaf) -> Option<u16>
    ensures { IfSome result (λ code. leaf_for code ≡ leaf) }
{
    let (kind, number) = kind_of(leaf);
    code_of(kind, number)
}

// The kind of a leaf, and its number among those of the kind.
#[inline(always)]
fn kind_of(leaf: Leaf) -> (u16, u32)
    ensures kind { result.0 < 4 }
    ensures leaf { leaf_of result.0 result.1 ≡ leaf }
{
    match leaf {
        Leaf::Task(id) => (0, id.0),
        Leaf::Idle(number) => (1, number),
        Leaf::Wait(id) => (2, id.0),
        Leaf::Empty => (3, 0),
    }
}

// The code of this number of a kind of leaves, where it has one.
#[inline(always)]
fn code_of(kind: u16, number: u32) -> Option<u16>
    requires { kind < 4 }
    ensures kind { IfSome result (λ code. code / 16384 ≡ kind) }
    ensures number { IfSome result (λ code. code % 16384 ≡ number) }
{
    if number < u32::from(NUMBERS) {
        Some(kind * NUMBERS + number as u16)
    } else {
        None
    }
}

// The leaf that has this code.
#[inline(always)]
fn leaf_for(code: u16) -> Leaf
    ensures { result ≡ leaf_for code }
{
    let number = u32::from(code % NUMBERS);
    match code / NUMBERS {
        0 => Leaf::Task(TaskId(number)),
        1 => Leaf::Idle(number),
        2 => Leaf::Wait(TaskId(number)),
        _ => Leaf::Empty,
    }
}
