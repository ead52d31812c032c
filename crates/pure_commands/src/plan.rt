//! Plans of the sets that fit.
ghost use Rattle.std.specs.Prelude.{◌≡◌, IfOk, IfErr};
ghost use Rattle.run_tree.specs.Compiled.{tree_of};
ghost use Rattle.pure_commands.specs.Input.{IsSchedulable, IsRefusedSet};

use crate::refusal::Refusal;
use run_compile::compile;
use run_tree::Plan;
use sched_base::TaskSet;
use std::alloc::Global;

/// The plan of a set, where it fits.
pub fn plan_of(alloc: Global, set: TaskSet) -> Result<Plan, Refusal>
    ensures set { IfOk result (λ plan. plan.set ≡ set) }
    ensures run { IfOk result (λ plan. IsSchedulable set plan.tree.scale) }
    ensures tree { IfOk result (λ plan. plan.tree ≡ tree_of plan.tree.scale set) }
    ensures refused { IfErr result (IsRefusedSet set) }
{
    Ok(compile(alloc, set)?)
}
