//! The own plans of the packs of a partitioned plan.
ghost use Rattle.std.specs.Prelude.{◌≡◌, ◌<◌, length, IfOk, IfSome};
ghost use Rattle.run_tree.specs.Schedule.{packs_at};
ghost use Rattle.own_plans.specs.OwnPlans.{AreOwnPlansOf, IsOwnPlanOf};

use crate::leaves::leaves_of;
use crate::likeness::is_own;
use crate::own_sets::compiled;
use crate::partitions::is_partitioned;
use part_plans::{factor_of, first_pack, first_packs};
use run_tree::Plan;
use sched_base::{Leaf, NoMemory};
use std::alloc::Global;

/// What a processor of a partitioned plan does alone: a plan of one processor, in which a tick is `factor` ticks of the whole plan. Of each of its
/// nodes by its number, what the like node of the whole plan shows; `Leaf::Empty` for a pack.
pub struct OwnPlan {
    pub plan: Plan,
    pub factor: u128,
    pub leaves: Vec<Leaf>,
}

impl Drop for OwnPlan {
    fn drop(self) {
        let Self {
            plan: _plan,
            factor: _,
            leaves: _leaves,
        } = self;
    }
}

// The own plan of pack i of level 0, if one is found.
fn own_plan(alloc: Global, whole: &Plan, i: u32) -> Result<Option<OwnPlan>, NoMemory>
    requires { i < length (packs_at whole.now.tree 0) }
    ensures { IfOk result (λ found. IfSome found (λ own. IsOwnPlanOf whole.now i own)) }
{
    let pack = first_pack(whole.tree(), i);
    let plan = match compiled(alloc, whole, pack)? {
        Some(plan) => plan,
        None => return Ok(None),
    };
    let factor = match factor_of(whole, &plan) {
        Some(factor) => factor,
        None => return Ok(None),
    };
    if !is_own(whole, &plan, i, factor) {
        return Ok(None);
    }
    let root = first_pack(plan.tree(), 0);
    let leaves = leaves_of(alloc, whole.tree(), plan.tree(), pack, root)?;
    Ok(Some(OwnPlan {
        plan,
        factor,
        leaves,
    }))
}

/// The own plans of all packs of level 0 in order, which are as many as processors; `None` where some pack of level 0 is no root, or where no such plan
/// is found for some pack.
pub fn own_plans(alloc: Global, plan: &Plan) -> Result<Option<Vec<OwnPlan>>, NoMemory>
    ensures { IfOk result (λ found. IfSome found (λ plans. AreOwnPlansOf plan.now plans.items)) }
{
    if !is_partitioned(plan.tree()) {
        return Ok(None);
    }
    let mut owns = Vec::new(alloc);
    for i in 0..first_packs(plan.tree()) {
        match own_plan(alloc, plan, i)? {
            Some(own) => owns.push(own)?,
            None => return Ok(None),
        }
    }
    Ok(Some(owns))
}
