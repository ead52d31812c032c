//! How the rows of a task serve one of its periods.
ghost use Rattle.std.specs.Prelude.{ℕ, ◌≡◌, ◌-◌, ◌*◌, ◌≤◌, ◌<◌, ◌^◌, min, max, length, slice_index};
ghost use Rattle.sched_base.specs.Rows.{overlap, task_ticks};
ghost use Rattle.trace_format.specs.Finishes.{finish_between};
ghost use Rattle.trace_draw.specs.Served.{given_at, reach_at};

use sched_base::Row;
use trace_check::ReadTrace;

/// What the rows of a task did from one tick up to another.
#[derive(Clone, Copy)]
pub(crate) struct Served {
    /// Their ticks. Rows of one task may overlap where a trace isn't valid, so it stops at the greatest number of 128 bits.
    pub given: u128,
    /// The last of these ticks' end, and the first tick where there is none.
    pub done: u128,
}

// The ticks that lie both in the row and from one tick up to another.
fn overlap(row: &Row, from: u128, to: u128) -> u128
    ensures { result ≡ overlap row.now.start row.now.end from to }
{
    row.end.min(to).saturating_sub(row.start.max(from))
}

fn given_at(rows: &[Row], places: &[u32], from: u128, to: u128) -> u128
    requires { (i : ℕ) → i < length places.now → slice_index places.now i < length rows.now }
    ensures { result ≡ min (given_at rows.now places.now from to) (2 ^ 128 - 1) }
{
    let mut given: u128 = 0;
    for place in places {
        given = given.saturating_add(overlap(&rows[*place as usize], from, to));
    }
    given
}

// The rows stand in the order of time, but that isn't needed.
fn reach_at(rows: &[Row], places: &[u32], to: u128) -> u128
    requires { (i : ℕ) → i < length places.now → slice_index places.now i < length rows.now }
    ensures { result ≡ reach_at rows.now places.now to }
{
    let mut reach = 0;
    for place in places {
        let row = &rows[*place as usize];
        if row.start < to {
            reach = row.end.max(reach);
        }
    }
    reach
}

/// What the rows of a task did from one tick up to another. It goes by the rows of this task alone.
pub(crate) fn served_between(trace: &ReadTrace, task: u32, from: u128, to: u128) -> Served
    requires task { task < length trace.now.set.tasks }
    requires ordered { from ≤ to }
    ensures given { result.given ≡ min (task_ticks trace.now.rows task from to) (2 ^ 128 - 1) }
    ensures done { result.done ≡ finish_between trace.now.rows task from to }
{
    let rows = trace.rows();
    let places = trace.by_task(task);
    Served {
        given: given_at(rows, places, from, to),
        done: from.max(to.min(reach_at(rows, places, to))),
    }
}
