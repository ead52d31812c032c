//! How windows turn: those that end at a unit are followed by the next ones.
ghost use Rattle.std.specs.Prelude.{◌≡◌, ℕ, ◌<◌, ◌≤◌, ◌^◌, ◌+◌, ◌++◌, [], ◌∷◌, true};
ghost use Rattle.std.specs.Prelude.{false, length, replicate, take};
ghost use Rattle.std.specs.Prelude.{slice_index, slice_set, IfOk, IfSome};
ghost use Rattle.run_tree.specs.Windows.{window_end};
ghost use Rattle.run_tree.specs.Tree.{kind_at, is_pack, is_leaf, numbers, IsMember};
ghost use Rattle.run_tree.specs.Plans.{IsPlan, boundary_of};
ghost use Rattle.knockout.specs.Knockouts.{never};
ghost use Rattle.release_calendar.specs.Calendars.{HasWindow, EndsFit, PacksNeverEnd, AreEnds, AreSteps, AreDue, AreListed, AreReady};
ghost use Rattle.release_calendar.specs.Calendars.{AreTurned, AreTurning, EndElsewhere, IsFirstEnd, IsLeastEnd, IsNext};

use crate::next_ends::end_from;
use knockout::{Knockout, NEVER};
use run_tree::{Kind, Plan, next_boundary};
use sched_base::{NoMemory, NodeId};
use std::alloc::Global;

/// 2^33 units, which are past every boundary of a task up to the horizon.
const NO_TASKS: u64 = 8_589_934_592;

/// Up to how many nodes it takes less to go over all ends at each turn than to keep their order.
const GONE_OVER: usize = 20;

/// Begins of windows, before they are known.
pub(crate) fn first_begins(alloc: Global, count: usize) -> Result<Vec<u64>, NoMemory>
    ensures { IfOk result (λ v. v.items ≡ replicate count 0) }
{
    Ok(vec![in alloc; 0u64; count]?)
}

/// Ends of windows that all end at unit 0, so that the first ones follow.
pub(crate) fn first_ends(alloc: Global, count: usize) -> Result<Vec<u128>, NoMemory>
    ensures { IfOk result (λ v. v.items ≡ replicate count 0) }
{
    Ok(vec![in alloc; 0u128; count]?)
}

/// Room for as many nodes.
pub(crate) fn no_nodes(alloc: Global, count: usize) -> Result<Vec<NodeId>, NoMemory>
    ensures { IfOk result (λ v. length v.items ≡ count) }
{
    Ok(vec![in alloc; NodeId(0); count]?)
}

/// Node k of the first `count`.
#[tactic(auto, using(crate::proofs::BegunLemmas::node_among))]
pub(crate) fn node_at(begun: &[NodeId], count: usize, k: usize) -> NodeId
    requires count { count ≤ length begun.now }
    requires node { k < length (numbers (take count begun.now)) }
    ensures { result.0 ≡ slice_index (numbers (take count begun.now)) k }
{
    let _count = count;
    begun[k]
}

// Whether node n is a leaf.
fn is_leaf(plan: &Plan, n: NodeId) -> bool
    requires { n.0 < length plan.now.tree.nodes }
    ensures { result ≡ is_leaf (kind_at plan.now.tree n.0) }
{
    match plan.tree().kind(n) {
        Kind::Leaf(_) => true,
        Kind::Pack(_) => false,
        Kind::Dual(_) => false,
    }
}

// A leaf or dual whose window ended at a unit gets the window that begins there.
fn turn_node(plan: &Plan, n: NodeId, at: u64, begins: &mut [u64], ends: &mut [u128])
    requires node { n.0 < length plan.now.tree.nodes }
    requires at { at ≤ plan.now.set.horizon }
    requires begins { length begins.old ≡ length plan.now.tree.nodes }
    requires ends { length ends.old ≡ length plan.now.tree.nodes }
    ensures turned { is_pack (kind_at plan.now.tree n.0) ≡ false → slice_index ends.old n.0 ≡ at → (slice_index begins.new n.0 ≡ at)
        × (slice_index ends.new n.0 ≡ window_end (boundary_of plan.now n.0) at) }
    ensures kept { is_pack (kind_at plan.now.tree n.0) ≡ false → (slice_index ends.old n.0 ≡ at → ⊥) →
        (slice_index begins.new n.0 ≡ slice_index begins.old n.0) × (slice_index ends.new n.0 ≡ slice_index ends.old n.0) }
    ensures others { (x : ℕ) → (x ≡ n.0 → ⊥) → (slice_index begins.new x ≡ slice_index begins.old x)
        × (slice_index ends.new x ≡ slice_index ends.old x) }
    ensures packs { is_pack (kind_at plan.now.tree n.0) ≡ true → slice_index ends.new n.0 ≡ slice_index ends.old n.0 }
    ensures fit { EndsFit ends.old → EndsFit ends.new }
{
    if plan.tree().is_member(n) {
        if ends[n.0 as usize] == u128::from(at) {
            begins[n.0 as usize] = at;
            ends[n.0 as usize] = u128::from(next_boundary(plan, n, at));
        }
    }
}

// All windows that ended at a unit turn.
fn turn_all(plan: &Plan, at: u64, begins: &mut [u64], ends: &mut [u128])
    requires at { at ≤ plan.now.set.horizon }
    requires begins { length begins.old ≡ length plan.now.tree.nodes }
    requires ends { length ends.old ≡ length plan.now.tree.nodes }
    requires ready { AreReady plan.now begins.old ends.old at }
    ensures turned { AreTurned plan.now begins.old ends.old begins.new ends.new at (length plan.now.tree.nodes) }
    ensures packs { PacksNeverEnd plan.now.tree ends.old → PacksNeverEnd plan.now.tree ends.new }
    ensures fit { EndsFit ends.old → EndsFit ends.new }
{
    for x in 0..plan.tree().nodes() {
        turn_node(plan, NodeId(x), at, begins, ends);
    }
}

// The first unit at which the window of a leaf ends.
fn first_end(plan: &Plan, ends: &[u128]) -> u64
    requires { length ends.now ≡ length plan.now.tree.nodes }
    ensures { IsFirstEnd plan.now.tree ends.now (length plan.now.tree.nodes) result }
{
    let mut first = u128::from(NO_TASKS);
    for x in 0..plan.tree().nodes() {
        if is_leaf(plan, NodeId(x)) {
            first = first.min(ends[x as usize]);
        }
    }
    first as u64
}

/// Gives each leaf and dual its window of a unit, where some end, and the others are those of the unit already. The next unit
/// with a boundary of a task.
pub(crate) fn turn(plan: &Plan, at: u64, begins: &mut [u64], ends: &mut [u128]) -> u64
    requires at { at ≤ plan.now.set.horizon }
    requires begins { length begins.old ≡ length plan.now.tree.nodes }
    requires ends { length ends.old ≡ length plan.now.tree.nodes }
    requires ready { AreReady plan.now begins.old ends.old at }
    ensures windows { (x : ℕ) → IsMember plan.now.tree x → HasWindow plan.now begins.new ends.new at x }
    ensures next { IsNext plan.now.set.tasks at result }
    ensures packs { PacksNeverEnd plan.now.tree ends.old → PacksNeverEnd plan.now.tree ends.new }
    ensures fit { EndsFit ends.old → EndsFit ends.new }
{
    plan.know_lawful();
    turn_all(plan, at, begins, ends);
    first_end(plan, ends)
}

// The ends of packs are no windows' ends: they never come.
fn part_packs(plan: &Plan, ends: &mut [u128])
    requires ends { length ends.old ≡ length plan.now.tree.nodes }
    ensures members { (x : ℕ) → IsMember plan.now.tree x → slice_index ends.new x ≡ slice_index ends.old x }
    ensures packs { PacksNeverEnd plan.now.tree ends.new }
    ensures fit { EndsFit ends.old → EndsFit ends.new }
{
    for x in 0..plan.tree().nodes() {
        part_node(plan, NodeId(x), ends);
    }
}

fn part_node(plan: &Plan, n: NodeId, ends: &mut [u128])
    requires node { n.0 < length plan.now.tree.nodes }
    requires ends { length ends.old ≡ length plan.now.tree.nodes }
    ensures member { is_pack (kind_at plan.now.tree n.0) ≡ false → ends.new ≡ ends.old }
    ensures pack { is_pack (kind_at plan.now.tree n.0) ≡ true → ends.new ≡ slice_set ends.old n.0 never }
{
    if !plan.tree().is_member(n) {
        ends[n.0 as usize] = u128::from(NEVER);
    }
}

/// The windows of unit 0, the next unit with a boundary of a task, and the order of the ends.
pub(crate) fn turn_first(
    alloc: Global,
    plan: &Plan,
    begins: &mut [u64],
    ends: &mut [u128],
) -> Result<(u64, Option<Knockout>), NoMemory>
    requires plan { IsPlan plan.now }
    requires begins { length begins.old ≡ length plan.now.tree.nodes }
    requires ends { length ends.old ≡ length plan.now.tree.nodes }
    requires none { ends.old ≡ replicate (length plan.now.tree.nodes) 0 }
    ensures windows { (x : ℕ) → IsMember plan.now.tree x → HasWindow plan.now begins.new ends.new 0 x }
    ensures next { IfOk result (λ r. IsNext plan.now.set.tasks 0 r.0) }
    ensures order { IfOk result (λ r. IfSome r.1 (λ o. o ≡ ends.new)) }
    ensures packs { PacksNeverEnd plan.now.tree ends.new }
    ensures fit { EndsFit ends.new }
{
    plan.know_lawful();
    part_packs(plan, ends);
    let next = turn(plan, 0, begins, ends);
    let order = order_if_many(alloc, ends)?;
    Ok((next, order))
}

// The order of the ends, where they are too many to go over all of them at each turn.
fn order_if_many(alloc: Global, ends: &[u128]) -> Result<Option<Knockout>, NoMemory>
    requires some { 1 ≤ length ends.now }
    requires few { length ends.now < 2 ^ 32 }
    requires fit { EndsFit ends.now }
    ensures { IfOk result (λ r. IfSome r (λ o. o ≡ ends.now)) }
{
    if ends.len() <= GONE_OVER {
        return Ok(None);
    }
    let order = order_of(alloc, ends)?;
    Ok(Some(order))
}

// The ends in a knockout.
fn order_of(alloc: Global, ends: &[u128]) -> Result<Knockout, NoMemory>
    requires some { 1 ≤ length ends.now }
    requires few { length ends.now < 2 ^ 32 }
    requires fit { EndsFit ends.now }
    ensures { IfOk result (λ order. order ≡ ends.now) }
{
    let mut order = Knockout::new(alloc, ends.len())?;
    put_ends(&mut order, ends);
    Ok(order)
}

fn put_ends(order: &mut Knockout, ends: &[u128])
    requires long { length order.old ≡ length ends.now }
    requires few { length ends.now < 2 ^ 32 }
    requires fit { EndsFit ends.now }
    ensures { order.new ≡ ends.now }
{
    for x in 0..ends.len() {
        order.set(x as u32, ends[x] as u64);
    }
}

// Where the window of leaf or dual n that begins at a unit ends: a step later where there is one.
#[inline(always)]
fn end_of(plan: &Plan, n: NodeId, at: u64, steps: &[u64], ends: &[u128]) -> u64
    requires plan { IsPlan plan.now }
    requires member { IsMember plan.now.tree n.0 }
    requires at { at ≤ plan.now.set.horizon }
    requires begins { boundary_of plan.now n.0 at ≡ true }
    requires steps { AreSteps plan.now steps.now }
    requires ends { length ends.now ≡ length plan.now.tree.nodes }
    requires known { AreEnds plan.now ends.now at }
    ensures { result ≡ window_end (boundary_of plan.now n.0) at }
{
    let step = steps[n.0 as usize];
    if step > 0 {
        at + step
    } else {
        end_from(plan, n, at, ends)
    }
}

// A leaf or dual gets the window that begins at a unit. The window's end.
#[inline(always)]
fn turn_due(
    plan: &Plan,
    n: NodeId,
    at: u64,
    steps: &[u64],
    begins: &mut [u64],
    ends: &mut [u128],
) -> u64
    requires plan { IsPlan plan.now }
    requires member { IsMember plan.now.tree n.0 }
    requires at { at ≤ plan.now.set.horizon }
    requires boundary { boundary_of plan.now n.0 at ≡ true }
    requires steps { AreSteps plan.now steps.now }
    requires begins { length begins.old ≡ length plan.now.tree.nodes }
    requires ends { length ends.old ≡ length plan.now.tree.nodes }
    requires known { AreEnds plan.now ends.old at }
    ensures end { result ≡ window_end (boundary_of plan.now n.0) at }
    ensures begins { begins.new ≡ slice_set begins.old n.0 at }
    ensures ends { ends.new ≡ slice_set ends.old n.0 (window_end (boundary_of plan.now n.0) at) }
    ensures fits { window_end (boundary_of plan.now n.0) at ≤ never }
{
    let end = end_of(plan, n, at, steps, ends);
    begins[n.0 as usize] = at;
    ends[n.0 as usize] = u128::from(end);
    end
}

// Puts a node behind the first `count`.
#[tactic(auto, using(crate::proofs::BegunLemmas::one_more))]
fn list_one(begun: &mut [NodeId], count: usize, n: NodeId)
    requires { count < length begun.old }
    ensures { numbers (take (count + 1) begun.new) ≡ numbers (take count begun.old) ++ n.0 ∷ [] }
{
    begun[count] = n;
}

// All windows that end at a unit turn, one by one, as they come first in the order, and their nodes are listed. The first end
// then, or 2^33 where none is less, and how many turned.
fn turn_in_order(
    plan: &Plan,
    at: u64,
    steps: &[u64],
    begins: &mut [u64],
    ends: &mut [u128],
    order: &mut Knockout,
    begun: &mut [NodeId],
) -> (u64, usize)
    requires plan { IsPlan plan.now }
    requires at { at ≤ plan.now.set.horizon }
    requires steps { AreSteps plan.now steps.now }
    requires begins { length begins.old ≡ length plan.now.tree.nodes }
    requires ends { length ends.old ≡ length plan.now.tree.nodes }
    requires order { order.old ≡ ends.old }
    requires turning { AreTurning plan.now begins.old ends.old [] at }
    requires begun { length begun.old ≡ length plan.now.tree.nodes }
    ensures order { order.new ≡ ends.new }
    ensures turning { AreTurning plan.now begins.new ends.new (numbers (take result.1 begun.new)) at }
    ensures first { IsLeastEnd ends.new (length ends.new) result.0 }
    ensures later { EndElsewhere ends.new at (length ends.new) }
    ensures fit { EndsFit ends.old → EndsFit ends.new }
    ensures count { result.1 ≤ length begun.new }
{
    let mut first = order.first();
    let mut turned: usize = 0;
    while first.end == at {
        let n = NodeId(first.index);
        let end = turn_due(plan, n, at, steps, begins, ends);
        order.set(n.0, end);
        list_one(begun, turned, n);
        turned += 1;
        first = order.first();
    }
    (first.end.min(NO_TASKS), turned)
}

// All windows that end at a unit turn, by the numbers of their nodes, which are listed. The first end then, or 2^33 where none
// is less, and how many turned.
fn turn_each(
    plan: &Plan,
    at: u64,
    steps: &[u64],
    begins: &mut [u64],
    ends: &mut [u128],
    begun: &mut [NodeId],
) -> (u64, usize)
    requires plan { IsPlan plan.now }
    requires at { at ≤ plan.now.set.horizon }
    requires steps { AreSteps plan.now steps.now }
    requires begins { length begins.old ≡ length plan.now.tree.nodes }
    requires ends { length ends.old ≡ length plan.now.tree.nodes }
    requires fit { EndsFit ends.old }
    requires turning { AreTurning plan.now begins.old ends.old [] at }
    requires begun { length begun.old ≡ length plan.now.tree.nodes }
    ensures turning { AreTurning plan.now begins.new ends.new (numbers (take result.1 begun.new)) at }
    ensures first { IsLeastEnd ends.new (length ends.new) result.0 }
    ensures later { EndElsewhere ends.new at (length ends.new) }
    ensures fit { EndsFit ends.new }
    ensures count { result.1 ≤ length begun.new }
{
    let mut first = NO_TASKS;
    let mut turned: usize = 0;
    for x in 0..ends.len() {
        let mut end = ends[x] as u64;
        if end == at {
            let n = NodeId(x as u32);
            end = turn_due(plan, n, at, steps, begins, ends);
            list_one(begun, turned, n);
            turned += 1;
        }
        first = first.min(end);
    }
    (first, turned)
}

// All windows that end at a unit turn: in the order of the ends where it is kept, else by the numbers of their nodes. The first
// end then, or 2^33 where none is less, and how many turned.
fn turn_ended(
    plan: &Plan,
    at: u64,
    steps: &[u64],
    begins: &mut [u64],
    ends: &mut [u128],
    order: &mut Option<Knockout>,
    begun: &mut [NodeId],
) -> (u64, usize)
    requires plan { IsPlan plan.now }
    requires at { at ≤ plan.now.set.horizon }
    requires steps { AreSteps plan.now steps.now }
    requires begins { length begins.old ≡ length plan.now.tree.nodes }
    requires ends { length ends.old ≡ length plan.now.tree.nodes }
    requires fit { EndsFit ends.old }
    requires order { IfSome order.old (λ o. o ≡ ends.old) }
    requires turning { AreTurning plan.now begins.old ends.old [] at }
    requires begun { length begun.old ≡ length plan.now.tree.nodes }
    ensures order { IfSome order.new (λ o. o ≡ ends.new) }
    ensures turning { AreTurning plan.now begins.new ends.new (numbers (take result.1 begun.new)) at }
    ensures first { IsLeastEnd ends.new (length ends.new) result.0 }
    ensures later { EndElsewhere ends.new at (length ends.new) }
    ensures fit { EndsFit ends.new }
    ensures count { result.1 ≤ length begun.new }
{
    match order {
        Some(order) => turn_in_order(plan, at, steps, begins, ends, order, begun),
        None => turn_each(plan, at, steps, begins, ends, begun),
    }
}

/// Gives each leaf and dual its window of a unit, where some end, and the others are those of the unit already, and lists
/// those that have a boundary there. The next unit with a boundary of a task, and how many are listed.
pub(crate) fn turn_listed(
    plan: &Plan,
    at: u64,
    steps: &[u64],
    begins: &mut [u64],
    ends: &mut [u128],
    order: &mut Option<Knockout>,
    begun: &mut [NodeId],
) -> (u64, usize)
    requires plan { IsPlan plan.now }
    requires at { at ≤ plan.now.set.horizon }
    requires steps { AreSteps plan.now steps.now }
    requires begins { length begins.old ≡ length plan.now.tree.nodes }
    requires ends { length ends.old ≡ length plan.now.tree.nodes }
    requires fit { EndsFit ends.old }
    requires order { IfSome order.old (λ o. o ≡ ends.old) }
    requires ready { AreReady plan.now begins.old ends.old at }
    requires packs { PacksNeverEnd plan.now.tree ends.old }
    requires earlier { (x : ℕ) → IsMember plan.now.tree x → slice_index begins.old x < at }
    requires begun { length begun.old ≡ length plan.now.tree.nodes }
    ensures windows { (x : ℕ) → IsMember plan.now.tree x → HasWindow plan.now begins.new ends.new at x }
    ensures next { IsNext plan.now.set.tasks at result.0 }
    ensures order { IfSome order.new (λ o. o ≡ ends.new) }
    ensures packs { PacksNeverEnd plan.now.tree ends.new }
    ensures fit { EndsFit ends.new }
    ensures due { AreDue plan.now at (numbers (take result.1 begun.new)) }
    ensures count { result.1 ≤ length begun.new }
{
    turn_ended(plan, at, steps, begins, ends, order, begun)
}

/// Marks the first `count` of these nodes, and no other.
pub(crate) fn mark_listed(begun: &[NodeId], count: usize, due: &mut [bool])
    requires count { count ≤ length begun.now }
    requires nodes { (k : ℕ) → k < length (numbers (take count begun.now)) → slice_index (numbers (take count begun.now)) k < length due.old }
    ensures { AreListed due.new (numbers (take count begun.now)) }
{
    due.fill(false);
    for k in 0..count {
        due[begun[k].0 as usize] = true;
    }
}
