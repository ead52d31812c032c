//! Whether the parts that are found cover the whole tree.
ghost use Rattle.std.specs.Prelude.{◌≡◌, ◌<◌, true, length, IfOk};
ghost use Rattle.part_plans.specs.PartPlans.{onto_of};
ghost use Rattle.part_plans.specs.Covers.{AreCovered, IsCovered};

use crate::parts::PartPlan;
use sched_base::NoMemory;
use std::alloc::Global;

/// Stands where a node is in no part.
const NO_LIKE: u32 = u32::MAX;

// Writes for each node of the whole tree that is the like of one of a part which one that is.
fn note_likes(onto: &[u32], like: &mut [u32])
    ensures { length like.new ≡ length like.old }
{
    for (x, n) in (0u32..).zip(onto) {
        if let Some(place) = like.get_mut(*n as usize) {
            *place = x;
        }
    }
}

/// Of each node of the whole tree the node of its part whose like it is.
pub(crate) fn likes_of(alloc: Global, nodes: u32, parts: &[PartPlan]) -> Result<Vec<u32>, NoMemory>
    ensures { IfOk result (λ like. length like.items ≡ nodes) }
{
    let mut like = vec![in alloc; NO_LIKE; nodes as usize]?;
    for part in parts {
        note_likes(&part.onto, &mut like);
    }
    Ok(like)
}

// Whether node n of the whole tree is the like of node x of this part.
fn is_like(part: &PartPlan, x: u32, n: u32) -> bool
    ensures known { result ≡ true → x < length part.now.plan.tree.nodes }
    ensures like { result ≡ true → onto_of part.now x ≡ n }
{
    x < part.plan.tree().nodes() && part.onto.get(x as usize) == Some(&n)
}

// Whether node n of the whole tree stands in the part that is noted for it, as the like that is noted.
fn is_covered(parts: &[PartPlan], part: u32, like: u32, n: u32) -> bool
    ensures { result ≡ true → IsCovered parts.now part like n }
{
    match parts.get(part as usize) {
        Some(found) => is_like(found, like, n),
        None => false,
    }
}

/// Whether each node of the whole tree stands in the part that is noted for it, as the like that is noted.
pub(crate) fn are_covered(nodes: u32, parts: &[PartPlan], part: &[u32], like: &[u32]) -> bool
    requires part { length part.now ≡ nodes }
    requires like { length like.now ≡ nodes }
    ensures { result ≡ true → AreCovered parts.now part.now like.now }
{
    for n in 0..nodes {
        if !is_covered(parts, part[n as usize], like[n as usize], n) {
            return false;
        }
    }
    true
}
