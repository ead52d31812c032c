//! From where on the rows of a table come again.
ghost use Rattle.std.specs.Prelude.{ℕ, ◌≡◌, ◌<◌, ◌≤◌, ◌+◌, ◌*◌, ◌^◌, ◌==◌, ◌&&◌, nat_le, length, slice_index, IfOk};
ghost use Rattle.std.specs.List.{AllByRecursion, list_all, range_with_len};
ghost use Rattle.sched_base.specs.Sets.{task_at};
ghost use Rattle.sched_base.specs.Tables.{all_rows};
ghost use Rattle.merged_rows.specs.Lawful.{AreLawful};
ghost use Rattle.repeat_laws.specs.Repeats.{ends_again, repeat_unit, stands_again};
ghost use Rattle.table_text.specs.Given.{is_given_again};

use crate::given::{Look, given_each};
use merged_rows::MergedRows;
use repeat_laws::can_repeat;
use sched_base::{NoMemory, Task, TaskSet};
use std::alloc::Global;

/// The unit from which the merged rows of a set come again, for ever, once all were followed; the horizon where they don't. `scale` is in
/// ticks per unit. It takes 32 bytes for each task, and goes over the rows twice at most.
pub fn repeat_unit(
    alloc: Global,
    set: &TaskSet,
    scale: u128,
    rows: &MergedRows,
) -> Result<u64, NoMemory>
    requires fits { set.now.horizon * scale < 2 ^ 64 }
    requires lawful { AreLawful set.now rows.now.lanes }
    ensures { IfOk result (λ unit. unit ≡ repeat_unit set.now scale (all_rows rows.now.lanes)) }
{
    if can_repeat(set) {
        return Ok(0);
    }
    // The rows may stand at the horizon as a scale's number of units before it.
    let horizon = u128::from(set.horizon());
    if scale <= horizon && stands_again(alloc, set, scale, horizon - scale, rows)? {
        return Ok((horizon - scale) as u64);
    }
    Ok(set.horizon())
}

// Whether the rows have given each task as much of its open period a scale's number of units after unit `from` as at it.
fn stands_again(
    alloc: Global,
    set: &TaskSet,
    scale: u128,
    from: u128,
    rows: &MergedRows,
) -> Result<bool, NoMemory>
    requires within { from + scale ≤ set.now.horizon }
    requires lawful { AreLawful set.now rows.now.lanes }
    ensures { IfOk result (λ stands. stands ≡ stands_again set.now scale from scale (all_rows rows.now.lanes)) }
{
    set.know_lawful();
    let tasks = set.tasks();
    let shift = 0;
    let before = given_each(alloc, tasks, Look { scale, from, shift }, rows)?;
    let shift = scale;
    let after = given_each(alloc, tasks, Look { scale, from, shift }, rows)?;
    Ok(are_given_again(tasks, from, &before, &after))
}

// Whether each task is released by unit `from`, and its two sums are the same.
fn are_given_again(tasks: &[Task], from: u128, before: &[u128], after: &[u128]) -> bool
    requires before { length before.now ≡ length tasks.now }
    requires after { length after.now ≡ length tasks.now }
    ensures { result ≡ list_all (is_given_again tasks.now from before.now after.now) (range_with_len 0 (length tasks.now)) }
{
    for (j, task) in tasks.iter().enumerate() {
        if !is_given_again(task, from, before[j], after[j]) {
            return false;
        }
    }
    true
}

// Whether a task is released by unit `from`, and its two sums are the same.
fn is_given_again(task: &Task, from: u128, before: u128, after: u128) -> bool
    ensures { result ≡ (nat_le task.now.offset from && after == before) }
{
    u128::from(task.offset) <= from && after == before
}
