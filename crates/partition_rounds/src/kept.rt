//! The rounds of the first hyperperiod of an own plan.
ghost use Rattle.std.specs.Prelude.{ℕ, ◌≡◌, ◌<◌, ◌≤◌, ◌*◌, [], length, IfOk, None, Some, slice_index_or};
ghost use Rattle.sched_base.specs.declared.rows.Leaf.TheVariants.{Empty as empty_leaf};
ghost use Rattle.sched_base.specs.declared.rows.NodeId.{NodeId as DeclaredNodeId};
ghost use Rattle.run_tree.specs.Plans.{stop_of};
ghost use Rattle.event_core.specs.Cores.{IsCoreOf};
ghost use Rattle.own_plans.specs.OwnPlans.{IsOwnPlanOf};
ghost use Rattle.partition_rounds.specs.OwnRounds.{AreKeptOf, IsOwnRound, kept_end};

use event_core::Core;
use own_plans::OwnPlan;
use run_tree::Plan;
use sched_base::{Leaf, NoMemory, NodeId};
use std::alloc::Global;

// So many rounds are kept at most.
const MOST_KEPT: usize = 65536;

/// The rounds of an own plan from tick 0 on: where each ends, in ticks of the whole plan, and what its processor shows in it.
pub(crate) struct KeptRounds {
    pub(crate) ends: Vec<u128>,
    pub(crate) shows: Vec<Leaf>,
}

impl Drop for KeptRounds {
    fn drop(self) {
        let Self {
            ends: _ends,
            shows: _shows,
        } = self;
    }
}

/// No round.
pub(crate) fn no_kept(alloc: Global) -> KeptRounds
    ensures ends { result.ends.items ≡ [] }
    ensures shows { result.shows.items ≡ [] }
{
    KeptRounds {
        ends: Vec::new(alloc),
        shows: Vec::new(alloc),
    }
}

/// Moves the core of the own plan of processor q to the end of its next round, and tells what the whole plan shows there. It takes no memory.
#[inline(always)]
pub(crate) fn run_own(plan: &Plan, q: u32, own: &OwnPlan, core: &mut Core) -> Leaf
    requires own { IsOwnPlanOf plan.now q own.now }
    requires belongs { IsCoreOf own.now.plan core.old }
    requires early { core.old.tick < stop_of own.now.plan }
    ensures belongs { IsCoreOf own.now.plan core.new }
    ensures round { IsOwnRound own.now (core.old.tick * own.now.factor) (core.new.tick * own.now.factor) result }
{
    let _plan = plan;
    let _q = q;
    own.plan.know_lawful();
    let start = core.now();
    core.go(&own.plan);
    shown_by(&own.leaves, core.node_on(&own.plan, start, 0))
}

// What this node shows, where there is one.
#[inline(always)]
fn shown_by(leaves: &[Leaf], node: Option<NodeId>) -> Leaf
    requires { (n : DeclaredNodeId) → node ≡ Some n → n.0 < length leaves.now }
    ensures none { node ≡ None → result ≡ empty_leaf }
    ensures some { (n : DeclaredNodeId) → node ≡ Some n → result ≡ slice_index_or leaves.now n.0 empty_leaf }
{
    match node {
        None => Leaf::Empty,
        Some(n) => leaves[n.0 as usize],
    }
}

/// Keeps rounds of the own plan of processor q from tick 0 on, up to the first that begins at its tick `until` or later, or so many as there is room for.
pub(crate) fn keep_rounds(
    alloc: Global,
    plan: &Plan,
    q: u32,
    own: &OwnPlan,
    core: &mut Core,
    until: u128,
) -> Result<KeptRounds, NoMemory>
    requires own { IsOwnPlanOf plan.now q own.now }
    requires belongs { IsCoreOf own.now.plan core.old }
    requires first { core.old.tick ≡ 0 }
    requires until { until ≤ stop_of own.now.plan }
    ensures belongs { IfOk result (λ _. IsCoreOf own.now.plan core.new) }
    ensures kept { IfOk result (λ kept. AreKeptOf own.now kept) }
    ensures end { IfOk result (λ kept. kept_end kept ≡ core.new.tick * own.now.factor) }
{
    plan.know_lawful();
    let mut kept = no_kept(alloc);
    'rounds: while core.now() < until && kept.ends.len() < MOST_KEPT {
        let leaf = run_own(plan, q, own, core);
        kept.ends.push(core.now() * own.factor)?;
        kept.shows.push(leaf)?;
    }
    Ok(kept)
}
