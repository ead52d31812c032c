//! The rounds of the first hyperperiod of a part.
ghost use Rattle.std.specs.Prelude.{◌≡◌, ◌<◌, ◌≤◌, ◌*◌, [], length, IfOk, None, Some, slice_index_or};
ghost use Rattle.sched_base.specs.declared.rows.Leaf.TheVariants.{Empty as empty_leaf};
ghost use Rattle.sched_base.specs.declared.rows.NodeId.{NodeId as DeclaredNodeId};
ghost use Rattle.run_tree.specs.Plans.{stop_of};
ghost use Rattle.event_core.specs.Cores.{IsCoreOf};
ghost use Rattle.event_core.specs.Rounds.{IsRoundUpTo};
ghost use Rattle.merged_rounds.specs.Replays.{packs_of};
ghost use Rattle.part_plans.specs.PartPlans.{IsPartPlanOf};
ghost use Rattle.part_rounds.specs.PartRounds.{AreKeptOf, IsPartRound, IsShownAt, kept_end};

use event_core::Core;
use part_plans::PartPlan;
use run_tree::Plan;
use sched_base::{Leaf, NoMemory, NodeId};
use std::alloc::Global;

// So many rounds are kept at most.
const MOST_KEPT: usize = 65536;

/// The rounds of a part from tick 0 on: where each ends, in ticks of the whole plan, and for each what the whole plan shows of each of the
/// part's packs of level 0 in order, or nothing where it rests.
pub(crate) struct KeptRounds {
    pub(crate) ends: Vec<u128>,
    pub(crate) shows: Vec<Option<Leaf>>,
}

impl Drop for KeptRounds {
    fn drop(self) {
        let Self {
            ends: _ends,
            shows: _shows,
        } = self;
    }
}

/// No round.
pub(crate) fn no_kept(alloc: Global) -> KeptRounds
    ensures ends { result.ends.items ≡ [] }
    ensures shows { result.shows.items ≡ [] }
{
    KeptRounds {
        ends: Vec::new(alloc),
        shows: Vec::new(alloc),
    }
}

// What the whole plan shows of pack k of level 0 of a part in the round just gone, which began at the part's tick `start`.
#[inline(always)]
fn shown_of(part: &PartPlan, core: &Core, start: u128, k: u32) -> Option<Leaf>
    requires leaves { length part.now.leaves.items ≡ length part.now.plan.tree.nodes }
    requires belongs { IsCoreOf part.now.plan core.now }
    requires round { IsRoundUpTo part.now.plan start core.now.tick }
    requires pack { k < packs_of part.now.plan }
    ensures { IsShownAt part.now start k result }
{
    part.plan.know_lawful();
    let places = core.places();
    places.know_noted();
    if !places.holds(k) {
        return None;
    }
    match places.last_of(k) {
        None => None,
        Some(q) => leaf_for(&part.leaves, core.node_on(&part.plan, start, q)),
    }
}

// What this node shows, where there is one.
#[inline(always)]
fn leaf_for(leaves: &[Leaf], node: Option<NodeId>) -> Option<Leaf>
    requires { (n : DeclaredNodeId) → node ≡ Some n → n.0 < length leaves.now }
    ensures none { node ≡ None → result ≡ None }
    ensures some { (n : DeclaredNodeId) → node ≡ Some n → result ≡ Some (slice_index_or leaves.now n.0 empty_leaf) }
{
    match node {
        None => None,
        Some(n) => Some(leaves[n.0 as usize]),
    }
}

/// Moves the core of a part to the end of its next round, and tells what the whole plan shows there of each of its packs. It takes no memory.
#[inline(always)]
pub(crate) fn run_part(plan: &Plan, part: &PartPlan, core: &mut Core, shows: &mut [Option<Leaf>])
    requires part { IsPartPlanOf plan.now part.now }
    requires belongs { IsCoreOf part.now.plan core.old }
    requires early { core.old.tick < stop_of part.now.plan }
    requires long { length shows.old ≡ packs_of part.now.plan }
    ensures belongs { IsCoreOf part.now.plan core.new }
    ensures round { IsPartRound part.now (core.old.tick * part.now.factor) (core.new.tick * part.now.factor) shows.new }
{
    let _plan = plan;
    part.plan.know_lawful();
    let start = core.now();
    core.go(&part.plan);
    for k in 0..part.plan.tree().packs(0) {
        shows[k as usize] = shown_of(part, core, start, k);
    }
}

/// Keeps rounds of a part from tick 0 on, up to the first that begins at its tick `until` or later, or so many as there is room for; `shows` is
/// overwritten.
pub(crate) fn keep_rounds(
    alloc: Global,
    plan: &Plan,
    part: &PartPlan,
    core: &mut Core,
    shows: &mut [Option<Leaf>],
    until: u128,
) -> Result<KeptRounds, NoMemory>
    requires part { IsPartPlanOf plan.now part.now }
    requires belongs { IsCoreOf part.now.plan core.old }
    requires first { core.old.tick ≡ 0 }
    requires until { until ≤ stop_of part.now.plan }
    requires long { length shows.old ≡ packs_of part.now.plan }
    ensures belongs { IfOk result (λ _. IsCoreOf part.now.plan core.new) }
    ensures kept { IfOk result (λ kept. AreKeptOf part.now kept) }
    ensures end { IfOk result (λ kept. kept_end kept ≡ core.new.tick * part.now.factor) }
    ensures long { IfOk result (λ _. length shows.new ≡ packs_of part.now.plan) }
{
    plan.know_lawful();
    let mut kept = no_kept(alloc);
    'rounds: while core.now() < until && kept.ends.len() < MOST_KEPT {
        run_part(plan, part, core, shows);
        kept.ends.push(core.now() * part.factor)?;
        kept.shows.extend_from_slice(shows)?;
    }
    Ok(kept)
}
