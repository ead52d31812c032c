//! Rows as a trace text shows them: those of a processor that follow one another under one name are one.
ghost use Rattle.std.specs.Prelude.{◌≡◌, ◌<◌, [], ◌∷◌, ℕ, List, map, length, drop, IfSome, IfNone};
ghost use Rattle.sched_base.specs.declared.rows.Row.{Row as declared_row};
ghost use Rattle.sched_base.specs.Tables.{lane_of};
ghost use Rattle.merged_rows.specs.Merging.{merged};

use merged_rows::{MergedRows, first_merged};
use sched_base::{Row, RowTable};

/// The merged rows of each processor, handed out one by one.
pub(crate) trait ShownRows {
    /// The merged rows of each processor.
    ghost lanes: { Self → List (List declared_row) };

    /// Of a processor the merged rows from a place on.
    ghost left: { Self → ℕ → ℕ → List declared_row };

    /// The number of processors.
    fn processors(&self) -> u32
        ensures count { result ≡ length (lanes self.now) }
        ensures whole { (p : ℕ) → p < length (lanes self.now) → left self.now p 0 ≡ lane_of (lanes self.now) p };

    /// The first merged row of processor p from a place on, and the place behind it.
    fn next_row(&self, p: u32, place: usize) -> Option<(Row, usize)>
        requires { p < length (lanes self.now) }
        ensures first { IfSome result (λ r. left self.now p place ≡ r.0 ∷ left self.now p r.1) }
        ensures none { IfNone result (left self.now p place ≡ []) };
}

impl ShownRows for RowTable {
    ghost lanes = { λ t. map merged t.lanes };

    ghost left = { λ t p place. merged (drop place (lane_of t.lanes p)) };

    fn processors(&self) -> u32 {
        self.processors()
    }

    fn next_row(&self, p: u32, place: usize) -> Option<(Row, usize)> {
        let (row, later) = first_merged(self, p, place as u64)?;
        Some((row, later as usize))
    }
}

impl ShownRows for MergedRows {
    ghost lanes = { λ m. m.lanes };

    ghost left = { λ m p place. drop place (lane_of m.lanes p) };

    fn processors(&self) -> u32 {
        self.processors()
    }

    #[inline(always)]
    fn next_row(&self, p: u32, place: usize) -> Option<(Row, usize)> {
        if place >= self.count(p) {
            return None;
        }
        Some((self.row(p, place), place + 1))
    }
}
