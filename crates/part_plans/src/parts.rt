//! The plans of the parts of a plan.
ghost use Rattle.std.specs.Prelude.{◌≡◌, length, IfOk, IfSome};
ghost use Rattle.part_plans.specs.PartPlans.{ArePartPlans, ArePartPlansOf, IsPartPlanOf};

use crate::covers::{are_covered, likes_of};
use crate::embedding::embedding;
use crate::first_level::packs_of;
use crate::leaves::leaves_of;
use crate::part_checks::{are_packs_like, factor_of, is_part};
use crate::part_sets::compiled;
use crate::roots::{Roots, roots_of};
use run_tree::Plan;
use sched_base::{Leaf, NoMemory};
use std::alloc::Global;

/// What a part of a plan does alone.
pub struct PartPlan {
    /// The part's own plan.
    pub plan: Plan,
    /// How many ticks of the whole plan a tick of the part's is.
    pub factor: u128,
    /// Of each node of the part, by its number: the node of the whole plan that it is.
    pub onto: Vec<u32>,
    /// Of each node of the part, by its number: the leaf that the whole plan shows for it; `Leaf::Empty` where it is none.
    pub leaves: Vec<Leaf>,
    /// Of each of the part's packs of level 0, in order: its number among those of the whole plan.
    pub packs: Vec<u32>,
}

impl Drop for PartPlan {
    fn drop(self) {
        let Self {
            plan: _plan,
            factor: _,
            onto: _onto,
            leaves: _leaves,
            packs: _packs,
        } = self;
    }
}

/// The parts into which a plan falls.
#[derive(Drop)]
pub struct PartPlans {
    /// The plans of the parts.
    pub parts: Vec<PartPlan>,
    /// Of each node of the plan, by its number: the part in which it stands.
    pub part: Vec<u32>,
    /// Of each node of the plan, by its number: its number in that part's own plan.
    pub like: Vec<u32>,
}

// The plan of part c of a plan, if one is found.
fn part_plan(
    alloc: Global,
    whole: &Plan,
    part: &[u32],
    c: u32,
) -> Result<Option<PartPlan>, NoMemory>
    requires { length part.now ≡ length whole.now.tree.nodes }
    ensures { IfOk result (λ found. IfSome found (λ own. IsPartPlanOf whole.now own)) }
{
    let packs = packs_of(alloc, whole.tree(), part, c)?;
    let plan = match compiled(alloc, whole, &packs)? {
        Some(plan) => plan,
        None => return Ok(None),
    };
    let factor = match factor_of(whole, &plan) {
        Some(factor) => factor,
        None => return Ok(None),
    };
    let onto = embedding(alloc, whole.tree(), plan.tree(), &packs)?;
    if !is_part(whole, &plan, &onto, factor)
        || !are_packs_like(whole.tree(), plan.tree(), &onto, &packs)
    {
        return Ok(None);
    }
    let leaves = leaves_of(alloc, whole.tree(), &onto)?;
    Ok(Some(PartPlan {
        plan,
        factor,
        onto,
        leaves,
        packs,
    }))
}

// The plans of all parts in turn; `None` where none is found for some part.
fn plans_of(
    alloc: Global,
    whole: &Plan,
    part: &[u32],
    count: u32,
) -> Result<Option<Vec<PartPlan>>, NoMemory>
    requires { length part.now ≡ length whole.now.tree.nodes }
    ensures { IfOk result (λ found. IfSome found (λ parts. ArePartPlans whole.now parts.items)) }
{
    let mut parts = Vec::new(alloc);
    for c in 0..count {
        match part_plan(alloc, whole, part, c)? {
            Some(own) => parts.push(own)?,
            None => return Ok(None),
        }
    }
    Ok(Some(parts))
}

/// The parts into which a plan falls, one for each root, if there are several and plans of their own are found for all of them.
pub fn part_plans(alloc: Global, plan: &Plan) -> Result<Option<PartPlans>, NoMemory>
    ensures { IfOk result (λ found. IfSome found (λ parts. ArePartPlansOf plan.now parts)) }
{
    let tree = plan.tree();
    let Roots { part, count } = roots_of(alloc, tree)?;
    if count < 2 {
        return Ok(None);
    }
    let parts = match plans_of(alloc, plan, &part, count)? {
        Some(parts) => parts,
        None => return Ok(None),
    };
    let like = likes_of(alloc, tree.nodes(), &parts)?;
    if !are_covered(tree.nodes(), &parts, &part, &like) {
        return Ok(None);
    }
    Ok(Some(PartPlans { parts, part, like }))
}
