//! What a core keeps at tick 0.
ghost use Rattle.std.specs.Prelude.{◌≡◌, ℕ, ◌+◌, ◌<◌, ◌≤◌, ◌^◌, [], true, false, length, replicate};
ghost use Rattle.std.specs.Prelude.{slice_index, slice_index_or};
ghost use Rattle.std.specs.Prelude.{slice_set, None, IfOk};
ghost use Rattle.std.specs.List.{range_with_len};
ghost use Rattle.run_tree.specs.Tree.{home, is_pack, kind_at, member, members, place, IsMember, IsPack};
ghost use Rattle.run_tree.specs.Plans.{IsPlan};
ghost use Rattle.knockout.specs.Knockouts.{never};
ghost use Rattle.release_calendar.specs.Calendars.{BelongsTo};
ghost use Rattle.event_core.specs.Serving.{due_of, AreBegun, AreLong, IsBlank, IsServing};
ghost use Rattle.event_core.specs.Cores.{HasLeft, IsCoreOf};
ghost use Rattle.event_core.specs.States.{contents};

use crate::begun::begin_one;
use crate::cores::processor_count;
use crate::kept::Serving;
use crate::rounds::node_count;
use crate::rows::pack_count;
use crate::states::State;
use crate::ticks::Ticks;
use cpu_assign::Places;
use knockout::Knockout;
use release_calendar::Calendar;
use run_tree::Plan;
use sched_base::{NoMemory, NodeId};
use server_budget::Dues;
use std::alloc::Global;
use tree_select::{LevelMasks, Marks};

// How many ends the knockout of a node has: one for each member of a pack, and one at least.
fn room_of(plan: &Plan, n: NodeId) -> usize
    requires plan { IsPlan plan.now }
    requires node { n.0 < length plan.now.tree.nodes }
    ensures pack { is_pack (kind_at plan.now.tree n.0) ≡ true → result ≡ length (members plan.now.tree n.0) }
    ensures some { 1 ≤ result }
    ensures few { result ≤ 2 ^ 32 }
{
    if plan.tree().is_member(n) {
        1
    } else {
        places_of(plan, n)
    }
}

// How many members a pack has, by the place of the last.
fn places_of(plan: &Plan, p: NodeId) -> usize
    requires plan { IsPlan plan.now }
    requires pack { IsPack plan.now.tree p.0 }
    ensures value { result ≡ length (members plan.now.tree p.0) }
    ensures some { 1 ≤ result }
    ensures few { result ≤ 2 ^ 32 }
{
    let count = plan.tree().members(p).len();
    let last = plan.tree().member(p, count - 1);
    plan.tree().place(last) as usize + 1
}

// A knockout for each node, in which nothing is ready.
fn no_ends(alloc: Global, plan: &Plan) -> Result<Vec<Knockout>, NoMemory>
    requires plan { IsPlan plan.now }
    ensures long { IfOk result (λ v. length v.items ≡ length plan.now.tree.nodes) }
    ensures packs { IfOk result (λ v. (p : ℕ) → IsPack plan.now.tree p →
        slice_index_or v.items p [] ≡ replicate (length (members plan.now.tree p)) never) }
{
    let mut ready = Vec::with_capacity(alloc, node_count(plan) as usize)?;
    for x in 0..node_count(plan) {
        ready.push_reserved(Knockout::new(alloc, room_of(plan, NodeId(x)))?);
    }
    Ok(ready)
}

fn no_places(alloc: Global, count: usize) -> Result<Vec<Option<u32>>, NoMemory>
    ensures { IfOk result (λ v. v.items ≡ replicate count None) }
{
    Ok(vec![in alloc; None; count]?)
}

fn all_marks(alloc: Global, count: usize) -> Result<Vec<bool>, NoMemory>
    ensures { IfOk result (λ v. v.items ≡ replicate count true) }
{
    Ok(vec![in alloc; true; count]?)
}

// Members rest, so each pack runs.
fn rest_members(plan: &Plan, runs: &mut [bool])
    requires { length runs.old ≡ length plan.now.tree.nodes }
    ensures { (x : ℕ) → x < length plan.now.tree.nodes → slice_index_or runs.new x false ≡ is_pack (kind_at plan.now.tree x) }
{
    for x in 0..node_count(plan) {
        runs[x as usize] = !plan.tree().is_member(NodeId(x));
    }
}

// Who runs where members rest.
fn packs_run(alloc: Global, plan: &Plan) -> Result<Vec<bool>, NoMemory>
    ensures long { IfOk result (λ v. length v.items ≡ length plan.now.tree.nodes) }
    ensures runs { IfOk result (λ v. (x : ℕ) → x < length plan.now.tree.nodes → slice_index_or v.items x false ≡ is_pack (kind_at plan.now.tree x)) }
{
    let mut runs = all_marks(alloc, node_count(plan) as usize)?;
    rest_members(plan, &mut runs);
    Ok(runs)
}

// Nothing is ready, no member runs, and all packs are to be looked at.
fn blank_serving(alloc: Global, plan: &Plan) -> Result<Serving, NoMemory>
    requires plan { IsPlan plan.now }
    ensures { IfOk result (λ s. IsBlank plan.now.tree s) }
{
    let count = node_count(plan) as usize;
    let serves = no_places(alloc, count)?;
    let runs = packs_run(alloc, plan)?;
    let stale = Marks::new(alloc, node_count(plan))?;
    let dry = Ticks::new(alloc, plan.tree())?;
    let ready = no_ends(alloc, plan)?;
    Ok(Serving {
        ready,
        serves,
        dry,
        stale,
        runs,
    })
}

// The first window of node n begins, where it is a leaf or a dual.
fn begin_if(
    plan: &Plan,
    calendar: &Calendar,
    n: NodeId,
    dues: &mut Dues,
    ready: &mut [Knockout],
    stale: &mut Marks,
)
    requires plan { IsPlan plan.now }
    requires calendar { BelongsTo plan.now calendar.now }
    requires node { n.0 < length plan.now.tree.nodes }
    requires first { dues.old.tick ≡ 0 }
    requires nodes { length dues.old.runs ≡ length plan.now.tree.nodes }
    requires ready { length ready.old ≡ length plan.now.tree.nodes }
    requires place { IsMember plan.now.tree n.0 → place plan.now.tree n.0 < length (slice_index_or ready.old (home plan.now.tree n.0) []) }
    requires stale { length stale.old ≡ length plan.now.tree.nodes }
    ensures tick { dues.new.tick ≡ 0 }
    ensures runs { dues.new.runs ≡ dues.old.runs }
    ensures remains { is_pack (kind_at plan.now.tree n.0) ≡ false → dues.new.remains
        ≡ slice_set dues.old.remains n.0 (due_of plan.now.tree calendar.now.begins calendar.now.ends n.0) }
    ensures ready { is_pack (kind_at plan.now.tree n.0) ≡ false → ready.new
        ≡ slice_set ready.old (home plan.now.tree n.0) (slice_set (slice_index_or ready.old (home plan.now.tree n.0) []) (place plan.now.tree n.0)
        (slice_index calendar.now.ends n.0)) }
    ensures stale { is_pack (kind_at plan.now.tree n.0) ≡ false → stale.new ≡ slice_set stale.old (home plan.now.tree n.0) true }
    ensures pack { is_pack (kind_at plan.now.tree n.0) ≡ true → (dues.new.remains ≡ dues.old.remains) × (ready.new ≡ ready.old)
        × (stale.new ≡ stale.old) }
{
    if plan.tree().is_member(n) {
        begin_one(plan, calendar, n, dues, ready, stale);
    }
}

/// The first windows of all leaves and duals begin.
pub(crate) fn begin_first(
    plan: &Plan,
    calendar: &Calendar,
    dues: &mut Dues,
    ready: &mut [Knockout],
    stale: &mut Marks,
)
    requires plan { IsPlan plan.now }
    requires calendar { BelongsTo plan.now calendar.now }
    requires first { dues.old.tick ≡ 0 }
    requires nodes { length dues.old.runs ≡ length plan.now.tree.nodes }
    requires remains { length dues.old.remains ≡ length plan.now.tree.nodes }
    requires ready { length ready.old ≡ length plan.now.tree.nodes }
    requires places { (x : ℕ) → IsMember plan.now.tree x → place plan.now.tree x < length (slice_index_or ready.old (home plan.now.tree x) []) }
    requires stale { length stale.old ≡ length plan.now.tree.nodes }
    ensures tick { dues.new.tick ≡ 0 }
    ensures runs { dues.new.runs ≡ dues.old.runs }
    ensures begun { AreBegun plan.now.tree calendar.now.begins calendar.now.ends
        (range_with_len 0 (length plan.now.tree.nodes)) dues.old.remains ready.old stale.old dues.new.remains ready.new stale.new (length plan.now.tree.nodes) }
{
    for x in 0..node_count(plan) {
        begin_if(plan, calendar, NodeId(x), dues, ready, stale);
    }
}

// What is kept of packs, and what is left of the dues of the first windows.
fn first_serving(
    alloc: Global,
    plan: &Plan,
    calendar: &Calendar,
) -> Result<(Dues, Serving), NoMemory>
    requires plan { IsPlan plan.now }
    requires calendar { BelongsTo plan.now calendar.now }
    requires unit { calendar.now.unit ≡ 0 }
    ensures tick { IfOk result (λ r. r.0.tick ≡ 0) }
    ensures nodes { IfOk result (λ r. length r.0.remains ≡ length plan.now.tree.nodes) }
    ensures left { IfOk result (λ r. HasLeft plan.now 0 r.0.remains) }
    ensures long { IfOk result (λ r. AreLong plan.now.tree r.0 r.1) }
    ensures serving { IfOk result (λ r. IsServing plan.now.tree r.0 calendar.now.ends r.1) }
    ensures marked { IfOk result (λ r. (q : ℕ) → IsPack plan.now.tree q → slice_index_or r.1.stale q false ≡ false → ⊥) }
{
    let mut dues = Dues::new(alloc, plan.tree())?;
    let mut serving = blank_serving(alloc, plan)?;
    serving.begin_first(plan, calendar, &mut dues);
    Ok((dues, serving))
}

/// What a core keeps at tick 0.
pub(crate) fn first_state(alloc: Global, plan: &Plan) -> Result<State, NoMemory>
    requires plan { IsPlan plan.now }
    ensures { IfOk result (λ s. (s.dues.tick ≡ 0) × IsCoreOf plan.now (contents s)) }
{
    let masks = LevelMasks::new(alloc, plan.tree())?;
    let places = Places::new(alloc, pack_count(plan), processor_count(plan))?;
    let calendar = Calendar::new(alloc, plan)?;
    let (dues, serving) = first_serving(alloc, plan, &calendar)?;
    Ok(State {
        dues,
        calendar,
        places,
        serving,
        masks,
    })
}
