//! The boundaries of nodes, in units.
ghost use Rattle.std.specs.Prelude.{◌≡◌, ◌≤◌, ◌<◌, ◌^◌, length};
ghost use Rattle.sched_base.specs.Sets.{IsLawful, IsLawfulTask};
ghost use Rattle.run_tree.specs.Windows.{window_end};
ghost use Rattle.sched_base.specs.Boundaries.{task_boundary};
ghost use Rattle.run_tree.specs.Boundaries.{set_boundary};
ghost use Rattle.run_tree.specs.TreeOfSet.{IsKnown};
ghost use Rattle.run_tree.specs.Plans.{boundary_of};

use crate::kinds::Kind;
use crate::plans::Plan;
use sched_base::{Leaf, NodeId, Task, TaskSet};

/// The boundary of an idle leaf that follows 0. It lies past every horizon.
const IDLE_BOUNDARY: u64 = 8_589_934_592;

// The least boundary of a task above a unit.
fn task_end(task: &Task, after: u64) -> u64
    requires lawful { IsLawfulTask task.now }
    requires after { after < 2 ^ 32 }
    ensures { result ≡ window_end (task_boundary task.now) after }
{
    if after < task.offset {
        task.offset
    } else {
        task.offset + ((after - task.offset) / task.period + 1) * task.period
    }
}

// The least boundary of a leaf above a unit.
fn leaf_end(set: &TaskSet, leaf: Leaf, after: u64) -> u64
    requires lawful { IsLawful set.now }
    requires leaf { IsKnown set.now.tasks leaf }
    requires after { after < 2 ^ 32 }
    ensures { result ≡ window_end (set_boundary set.now.tasks leaf) after }
{
    match leaf {
        Leaf::Task(id) => task_end(&set.tasks()[id.0 as usize], after),
        Leaf::Idle(_) => IDLE_BOUNDARY,
        Leaf::Wait(_) | Leaf::Empty => unreachable!(),
    }
}

/// The least boundary of node n above a unit, in units. A task's boundaries are 0, its offset, and each further period
/// after it; a pack has those of its members, and a dual those of its primal.
pub fn next_boundary(plan: &Plan, n: NodeId, after: u64) -> u64
    requires node { n.0 < length plan.now.tree.nodes }
    requires after { after ≤ plan.now.set.horizon }
    ensures { result ≡ window_end (boundary_of plan.now n.0) after }
{
    match plan.tree().kind(n) {
        Kind::Leaf(leaf) => leaf_end(plan.set(), leaf, after),
        Kind::Dual(primal) => next_boundary(plan, primal, after),
        Kind::Pack(_) => {
            let mut least = u64::MAX;
            for member in plan.tree().members(n) {
                least = least.min(next_boundary(plan, *member, after));
            }
            least
        }
    }
}
