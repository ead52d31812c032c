//! What is left of each due at the core's tick.
ghost use Rattle.std.specs.Prelude.{◌≡◌, length, IfOk};

use run_tree::Plan;
use sched_base::{NoMemory, NodeId};
use server_budget::Dues;
use std::alloc::Global;

/// What is left of each due, by nodes.
pub(crate) fn dues_left(alloc: Global, plan: &Plan, dues: &Dues) -> Result<Vec<u128>, NoMemory>
    requires remains { length dues.now.remains ≡ length plan.now.tree.nodes }
    requires runs { length dues.now.runs ≡ length plan.now.tree.nodes }
    ensures { IfOk result (λ left. left.items ≡ dues.now.remains) }
{
    let count = plan.tree().nodes();
    let mut left = Vec::new(alloc);
    for x in 0..count {
        left.push(dues.left_of(NodeId(x)))?;
    }
    Ok(left)
}
