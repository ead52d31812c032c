//! The tasks of a pack, as a set of one processor.
ghost use Rattle.std.specs.Prelude.{◌≡◌, IfOk, IfSome};
ghost use Rattle.run_tree.specs.Tree.{IsPack};

use part_plans::{plan_of, with_pack};
use run_tree::Plan;
use sched_base::{NoMemory, NodeId, TaskSet};
use std::alloc::Global;

/// The compiled plan of the tasks of a pack on one processor; `None` where there is none.
pub(crate) fn compiled(alloc: Global, whole: &Plan, pack: NodeId) -> Result<Option<Plan>, NoMemory>
    requires { IsPack whole.now.tree pack.0 }
    ensures { IfOk result (λ found. IfSome found (λ plan. plan.set.horizon ≡ whole.now.set.horizon)) }
{
    let first = TaskSet::start(alloc, 1, whole.set().horizon());
    match with_pack(first, whole, pack)? {
        Some(set) => plan_of(alloc, set),
        None => Ok(None),
    }
}
