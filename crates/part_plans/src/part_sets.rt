//! The tasks of a part, as a set of its processors.
ghost use Rattle.std.specs.Prelude.{ℕ, ◌≡◌, ◌<◌, ◌≤◌, length, slice_index, IfOk, IfSome};
ghost use Rattle.sched_base.specs.Limits.{processor_limit};
ghost use Rattle.run_tree.specs.Schedule.{packs_at};
ghost use Rattle.run_tree.specs.Tree.{IsPack};

use crate::first_level::first_pack;
use crate::leaves::leaf_of;
use run_compile::{CompileFault, compile};
use run_tree::{Plan, Tree};
use sched_base::{Leaf, NoMemory, NodeId, PROCESSOR_LIMIT, TASK_LIMIT, TaskId, TaskSet};
use std::alloc::Global;

// The set with this task of another one at its end; `None` where a task of it has that name already, or where it is full.
fn with_task(set: TaskSet, whole: &TaskSet, id: TaskId) -> Result<Option<TaskSet>, NoMemory>
    requires { id.0 < length whole.now.tasks }
    ensures { IfOk result (λ found. IfSome found (λ more. more.horizon ≡ set.horizon)) }
{
    let mut more = set;
    let task = &whole.tasks()[id.0 as usize];
    let name = task.name.as_slice();
    if more.count() >= TASK_LIMIT {
        return Ok(None);
    }
    if more.find(name).is_some() {
        return Ok(None);
    }
    more.add_late(name, task.work, task.period, task.offset)?;
    Ok(Some(more))
}

// The set with the task that node n is, if it isn't an idle leaf; `None` where it is neither.
fn with_leaf(set: TaskSet, whole: &Plan, n: NodeId) -> Result<Option<TaskSet>, NoMemory>
    requires { n.0 < length whole.now.tree.nodes }
    ensures { IfOk result (λ found. IfSome found (λ more. more.horizon ≡ set.horizon)) }
{
    whole.know_lawful();
    match leaf_of(whole.tree(), n) {
        Leaf::Task(id) => with_task(set, whole.set(), id),
        Leaf::Idle(_) => Ok(Some(set)),
        Leaf::Wait(_) | Leaf::Empty => Ok(None),
    }
}

/// The set with the tasks of a pack in the order of its members; `None` where there is no such set.
pub fn with_pack(set: TaskSet, whole: &Plan, pack: NodeId) -> Result<Option<TaskSet>, NoMemory>
    requires { IsPack whole.now.tree pack.0 }
    ensures { IfOk result (λ found. IfSome found (λ more. more.horizon ≡ set.horizon)) }
{
    whole.know_lawful();
    let mut more = set;
    for k in 0..whole.tree().members(pack).len() {
        more = match with_leaf(more, whole, whole.tree().member(pack, k))? {
            Some(next) => next,
            None => return Ok(None),
        };
    }
    Ok(Some(more))
}

// How many processors these packs of level 0 fill; `None` where that is no whole number, or none that a set can have.
fn processors_of(tree: &Tree, packs: &[u32]) -> Option<u32>
    requires { (k : ℕ) → k < length packs.now → slice_index packs.now k < length (packs_at tree.now 0) }
    ensures some { IfSome result (λ count. 1 ≤ count) }
    ensures few { IfSome result (λ count. count ≤ processor_limit) }
{
    tree.know_lawful();
    let mut rates: u128 = 0;
    for k in 0..packs.len() {
        rates = rates.checked_add(tree.rate(first_pack(tree, packs[k])))?;
    }
    let count = rates / tree.scale();
    if rates % tree.scale() != 0 || count == 0 || count > u128::from(PROCESSOR_LIMIT) {
        return None;
    }
    Some(count as u32)
}

// The tasks of these packs of level 0 in turn, as a set of the processors that they fill; `None` where there is no such set.
fn part_set(alloc: Global, whole: &Plan, packs: &[u32]) -> Result<Option<TaskSet>, NoMemory>
    requires { (k : ℕ) → k < length packs.now → slice_index packs.now k < length (packs_at whole.now.tree 0) }
    ensures { IfOk result (λ found. IfSome found (λ set. set.horizon ≡ whole.now.set.horizon)) }
{
    whole.know_lawful();
    let processors = match processors_of(whole.tree(), packs) {
        Some(processors) => processors,
        None => return Ok(None),
    };
    let mut set = TaskSet::start(alloc, processors, whole.set().horizon());
    for k in 0..packs.len() {
        set = match with_pack(set, whole, first_pack(whole.tree(), packs[k]))? {
            Some(more) => more,
            None => return Ok(None),
        };
    }
    Ok(Some(set))
}

/// The compiled plan of a set; `None` where it has none.
pub fn plan_of(alloc: Global, set: TaskSet) -> Result<Option<Plan>, NoMemory>
    ensures { IfOk result (λ found. IfSome found (λ plan. plan.set.horizon ≡ set.horizon)) }
{
    match compile(alloc, set) {
        Ok(plan) => Ok(Some(plan)),
        Err(CompileFault::NoMemory) => Err(NoMemory),
        Err(CompileFault::ScaleTooLarge { .. } | CompileFault::Overload { .. }) => Ok(None),
    }
}

/// The compiled plan of the tasks of these packs of level 0, on the processors that they fill; `None` where there is none.
pub(crate) fn compiled(alloc: Global, whole: &Plan, packs: &[u32]) -> Result<Option<Plan>, NoMemory>
    requires { (k : ℕ) → k < length packs.now → slice_index packs.now k < length (packs_at whole.now.tree 0) }
    ensures { IfOk result (λ found. IfSome found (λ plan. plan.set.horizon ≡ whole.now.set.horizon)) }
{
    match part_set(alloc, whole, packs)? {
        Some(set) => plan_of(alloc, set),
        None => Ok(None),
    }
}
