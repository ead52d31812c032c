//! What each processor shows in a round, where that may be something else than in the one before.
#![tactic(auto)]

ghost use Rattle.std.specs.Prelude.{◌≡◌, ℕ, ◌<◌, ◌≤◌, true, length, Option, None, Some, slice_index_or};
ghost use Rattle.sched_base.specs.declared.rows.Leaf.TheVariants.{Wait as waiting_leaf};
ghost use Rattle.sched_base.specs.declared.rows.NodeId.{NodeId as DeclaredNodeId};
ghost use Rattle.sched_base.specs.declared.rows.TaskId.{TaskId as DeclaredTaskId};
ghost use Rattle.event_core.specs.Rounds.{IsRoundUpTo};
ghost use Rattle.event_core.specs.Cores.{IsCoreOf};
ghost use Rattle.round_looks.specs.Looks.{shown_for, IsLooked, IsNodeOn};

use event_core::{Core, leaf_shown_for};
use run_tree::Plan;
use sched_base::{Leaf, NodeId};

// The node, unless its task waits: only then will it show something else.
#[inline(always)]
fn node_to_keep(n: NodeId, leaf: Leaf) -> Option<NodeId>
    ensures node { (k : DeclaredNodeId) → result ≡ Some k → k ≡ n }
    ensures stays { (k : DeclaredNodeId) (task : DeclaredTaskId) → result ≡ Some k → leaf ≡ waiting_leaf task → ⊥ }
{
    match leaf {
        Leaf::Task(_) | Leaf::Idle(_) | Leaf::Empty => Some(n),
        Leaf::Wait(_) => None,
    }
}

// What node n shows in a round that begins at tick `start`, and the node to keep.
#[inline(always)]
fn look_at(plan: &Plan, n: NodeId, start: u128) -> (Option<NodeId>, Leaf)
    requires node { n.0 < length plan.now.tree.nodes }
    ensures leaf { shown_for plan.now n.0 start ≡ result.1 }
    ensures stays { (k : DeclaredNodeId) (t : ℕ) → result.0 ≡ Some k → start ≤ t → shown_for plan.now k.0 t ≡ result.1 }
{
    let leaf = leaf_shown_for(plan, n, start);
    (node_to_keep(n, leaf), leaf)
}

// The node that runs on processor q in the round just gone, which began at tick `start`.
#[inline(always)]
fn node_on(plan: &Plan, core: &Core, start: u128, q: u32) -> Option<NodeId>
    requires belongs { IsCoreOf plan.now core.now }
    requires round { IsRoundUpTo plan.now start core.now.tick }
    requires processor { q < plan.now.tree.processors }
    ensures { IsNodeOn plan.now start core.now.tick q result }
{
    core.node_on(plan, start, q)
}

// What processor q shows where this node runs on it, and the node to keep of it. The core and the processor are only spoken of.
#[inline(always)]
fn shown_at(
    plan: &Plan,
    core: &Core,
    start: u128,
    q: u32,
    node: Option<NodeId>,
) -> (Option<NodeId>, Leaf)
    requires on { IsNodeOn plan.now start core.now.tick q node }
    ensures { (before : Option DeclaredNodeId) → IsLooked plan.now start core.now.tick q before result.0 (Some result.1) }
{
    let _core = core;
    let _q = q;
    match node {
        None => (None, Leaf::Empty),
        Some(n) => look_at(plan, n, start),
    }
}

// Whether this node, which runs on processor q, is the one that is kept of it. All but the nodes is only spoken of.
#[inline(always)]
fn goes_on(
    plan: &Plan,
    core: &Core,
    start: u128,
    q: u32,
    node: Option<NodeId>,
    before: Option<NodeId>,
) -> bool
    requires on { IsNodeOn plan.now start core.now.tick q node }
    ensures { result ≡ true → IsLooked plan.now start core.now.tick q before before None }
{
    let _plan = plan;
    let _core = core;
    let _start = start;
    let _q = q;
    match node {
        None => false,
        Some(n) => before == Some(n),
    }
}

// The first processor from number `from` on where another node runs than the one that is kept, and that node; or the number of
// processors where there is none.
#[inline(always)]
fn next_other(
    plan: &Plan,
    core: &Core,
    start: u128,
    kept: &[Option<NodeId>],
    from: u32,
) -> (u32, Option<NodeId>)
    requires belongs { IsCoreOf plan.now core.now }
    requires round { IsRoundUpTo plan.now start core.now.tick }
    requires kept { length kept.now ≡ plan.now.tree.processors }
    requires from { from ≤ plan.now.tree.processors }
    ensures after { from ≤ result.0 }
    ensures within { result.0 ≤ plan.now.tree.processors }
    ensures skipped { (q : ℕ) → from ≤ q → q < result.0 →
        IsLooked plan.now start core.now.tick q (slice_index_or kept.now q None) (slice_index_or kept.now q None) None }
    ensures node { result.0 < plan.now.tree.processors → IsNodeOn plan.now start core.now.tick result.0 result.1 }
{
    let count = plan.tree().processors();
    for q in from..count {
        let node = node_on(plan, core, start, q);
        if !goes_on(plan, core, start, q, node, kept[q as usize]) {
            return (q, node);
        }
    }
    (count, None)
}

// Nothing is told of any processor.
#[inline(always)]
fn forget(told: &mut [Option<Leaf>])
    ensures { (q : ℕ) → slice_index_or told.new q None ≡ None }
{
    for q in 0..told.len() {
        told[q] = None;
    }
}

/// Tells of each processor what it shows in the round just gone, which began at tick `start`, or nothing where the node that is kept of
/// it runs there again. Of each a node is kept for the next round, where what that one shows will stay the same.
#[inline(always)]
pub fn look_each(
    plan: &Plan,
    core: &Core,
    start: u128,
    kept: &mut [Option<NodeId>],
    told: &mut [Option<Leaf>],
)
    requires belongs { IsCoreOf plan.now core.now }
    requires round { IsRoundUpTo plan.now start core.now.tick }
    requires kept { length kept.old ≡ plan.now.tree.processors }
    requires told { length told.old ≡ plan.now.tree.processors }
    ensures { (q : ℕ) → q < plan.now.tree.processors → IsLooked plan.now start core.now.tick q (slice_index_or kept.old q None)
        (slice_index_or kept.new q None) (slice_index_or told.new q None) }
{
    forget(told);
    let count = plan.tree().processors();
    let mut other = next_other(plan, core, start, kept, 0);
    'others: while other.0 < count {
        let q = other.0;
        let (node, leaf) = shown_at(plan, core, start, q, other.1);
        kept[q as usize] = node;
        told[q as usize] = Some(leaf);
        other = next_other(plan, core, start, kept, q + 1);
    }
}
