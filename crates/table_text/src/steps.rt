//! The step in which a table tells the starts and ends of its rows.
ghost use Rattle.std.specs.Prelude.{ℕ, ◌≡◌, ◌≤◌, ◌<◌, ◌*◌, ◌/◌, List, length};
ghost use Rattle.std.specs.Int.{◌∣◌};
ghost use Rattle.sched_base.specs.declared.rows.Row.{Row as declared_row};
ghost use Rattle.sched_base.specs.Tables.{all_rows, lane_of};
ghost use Rattle.table_text.specs.Steps.{step_of, AreWhole, DividesRows, IsStep};

use merged_rows::MergedRows;
use rate_scale::gcd;

/// The law of steps: times the step the whole numbers that are told of rows, and of all ticks, are their ticks; and no greater number
/// of ticks divides them all. This runs nothing: its clauses are the law.
pub fn step_law()
    ensures rows { (ticks : ℕ) (rows : List declared_row) → 1 ≤ ticks → AreWhole (step_of ticks rows) rows }
    ensures ticks { (ticks : ℕ) (rows : List declared_row) → 1 ≤ ticks → ticks / step_of ticks rows * step_of ticks rows ≡ ticks }
    ensures greatest { (ticks : ℕ) (rows : List declared_row) → 1 ≤ ticks → (d : ℕ) → d ∣ ticks → DividesRows d rows → d ≤ step_of ticks rows }
{}

/// The ticks of a step: the greatest number that divides all ticks, and each start and end of the rows.
pub(crate) fn step_of(ticks: u128, rows: &MergedRows) -> u128
    requires { 1 ≤ ticks }
    ensures value { result ≡ step_of ticks (all_rows rows.now.lanes) }
    ensures some { 1 ≤ result }
{
    common_step(ticks, rows)
}

// The greatest number that divides this one, and each start and end of the rows.
fn common_step(ticks: u128, rows: &MergedRows) -> u128
    ensures { IsStep ticks (all_rows rows.now.lanes) result }
{
    let mut step = ticks;
    for p in 0..rows.processors() {
        step = lane_step(step, rows, p);
    }
    step
}

// The greatest number that divides this one, and each start and end of the rows of processor p.
fn lane_step(before: u128, rows: &MergedRows, p: u32) -> u128
    requires { p < length rows.now.lanes }
    ensures { IsStep before (lane_of rows.now.lanes p) result }
{
    let mut step = before;
    for i in 0..rows.count(p) {
        let row = rows.row(p, i);
        step = gcd(row.end, gcd(row.start, step));
    }
    step
}
