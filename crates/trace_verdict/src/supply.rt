//! Whether the rows of a task give each of its periods its due: few divisions, however many periods a row covers.
ghost use Rattle.std.specs.Prelude.{◌≡◌, ◌+◌, ◌-◌, ◌*◌, ◌<◌, ◌≤◌, ◌^◌, [], nat_eq, IsTrue, ◌↔◌};
ghost use Rattle.trace_verdict.specs.Supply.{AreLawful, bound_at, gap_holds, row_holds, holds_from, IsCounted, Follows, IsSupplied};

use crate::entries::Entry;
use crate::walks::Walk;

/// A task's periods, in ticks: the first begins at `base`, each has `period` ticks and gets `due` of them, and the schedule
/// ends at `stop`.
#[derive(Clone, Copy)]
pub struct Periods {
    pub base: u128,
    pub period: u128,
    pub due: u128,
    pub stop: u128,
}

/// The ticks from one up to another, and how many of a task's periods have ended by the first and by the second.
#[derive(Clone, Copy)]
pub(crate) struct Stretch {
    pub from: u128,
    pub to: u128,
    pub before: u128,
    pub after: u128,
}

// Where a period ends between two rows, what was done by then is its due and those before. Two ends would need a due of 0.
pub(crate) fn gap_holds(periods: &Periods, done: u128, gap: &Stretch) -> bool
    requires lawful { AreLawful periods.now }
    requires counted { IsCounted periods.now gap.now }
    ensures { result ≡ gap_holds periods.now done gap.now.from gap.now.to }
{
    gap.before == gap.after || (gap.before + 1 == gap.after && done == gap.after * periods.due)
}

// Whether what is done by the end of the first k periods is what is due in them, where a row that begins at `from` goes on up to
// there.
fn is_due(periods: &Periods, done: u128, from: u128, k: u128) -> bool
    requires within { periods.now.due ≤ periods.now.period }
    requires ordered { from ≤ bound_at periods.now k }
    requires fits { bound_at periods.now k < 2 ^ 127 }
    requires small { done ≤ from }
    ensures { result ≡ nat_eq (done + (bound_at periods.now k - from)) (k * periods.now.due) }
{
    let end = periods.base + k * periods.period;
    done + (end - from) == k * periods.due
}

// The ticks done and the dues are both lines: where they meet at the first and at the last end of a period within the row,
// they meet at each between.
pub(crate) fn row_holds(periods: &Periods, done: u128, row: &Stretch) -> bool
    requires lawful { AreLawful periods.now }
    requires counted { IsCounted periods.now row.now }
    requires small { done ≤ row.now.from }
    ensures { result ≡ row_holds periods.now done row.now.from row.now.to }
{
    row.before == row.after
        || (is_due(periods, done, row.from, row.before + 1)
            && is_due(periods, done, row.from, row.after))
}

// Whether the ticks done meet the dues in all gaps and rows from the first period on.
fn holds_from_base(periods: &Periods, rows: &[Entry]) -> bool
    requires lawful { AreLawful periods.now }
    requires begun { periods.now.base ≤ periods.now.stop }
    requires apart { Follows periods.now.stop periods.now.base rows.now }
    ensures { result ≡ holds_from periods.now 0 periods.now.base rows.now }
{
    let mut walk = Walk::new(periods);
    for row in rows {
        if !walk.pass(periods, row.start, row.end) {
            return false;
        }
    }
    walk.ends(periods)
}

/// Whether each period that ends by `stop` has exactly its due, and each other at most that.
pub fn is_supplied(periods: &Periods, rows: &[Entry]) -> bool
    requires lawful { AreLawful periods.now }
    requires apart { periods.now.base ≤ periods.now.stop → Follows periods.now.stop periods.now.base rows.now }
    requires none { periods.now.stop < periods.now.base → rows.now ≡ [] }
    ensures { IsTrue result ↔ IsSupplied periods.now rows.now }
{
    if periods.stop < periods.base {
        return true;
    }
    holds_from_base(periods, rows)
}
