//! What a window that begins gives: its due, its end, and a pack that is to be looked at again.
ghost use Rattle.std.specs.Prelude.{ℕ, [], ◌≡◌, ◌<◌, ◌≤◌, ◌-◌, ◌^◌, length, true, slice_index, slice_index_or, slice_set};
ghost use Rattle.run_tree.specs.Tree.{home, place, members, IsMember};
ghost use Rattle.run_tree.specs.Plans.{IsPlan};
ghost use Rattle.release_calendar.specs.Calendars.{BelongsTo};
ghost use Rattle.event_core.specs.Serving.{due_of, AreBegun};

use crate::dried::put_end;
use knockout::Knockout;
use release_calendar::Calendar;
use run_tree::Plan;
use sched_base::NodeId;
use server_budget::{Budgets, Dues};
use tree_select::Marks;

// The due of the window of leaf or dual n, and the window's end.
fn window_of(plan: &Plan, calendar: &Calendar, n: NodeId) -> (u128, u64)
    requires plan { IsPlan plan.now }
    requires calendar { BelongsTo plan.now calendar.now }
    requires member { IsMember plan.now.tree n.0 }
    ensures due { result.0 ≡ due_of plan.now.tree calendar.now.begins calendar.now.ends n.0 }
    ensures end { result.1 ≡ slice_index calendar.now.ends n.0 }
    ensures fits { result.0 ≤ 2 ^ 127 }
{
    let (begin, end) = calendar.window(n);
    (Budgets::budget_of(plan.tree(), n, end - begin), end)
}

// The home of leaf or dual n, and its place there.
fn home_of(plan: &Plan, n: NodeId) -> (NodeId, u32)
    requires plan { IsPlan plan.now }
    requires member { IsMember plan.now.tree n.0 }
    ensures home { result.0.0 ≡ home plan.now.tree n.0 }
    ensures place { result.1 ≡ place plan.now.tree n.0 }
    ensures within { result.0.0 < length plan.now.tree.nodes }
    ensures member { result.1 < length (members plan.now.tree result.0.0) }
{
    let tree = plan.tree();
    (tree.home(n), tree.place(n))
}

/// Leaf or dual n gets the due of its window, and is ready up to its end; its pack is marked.
pub(crate) fn begin_one(
    plan: &Plan,
    calendar: &Calendar,
    n: NodeId,
    dues: &mut Dues,
    ready: &mut [Knockout],
    stale: &mut Marks,
)
    requires plan { IsPlan plan.now }
    requires calendar { BelongsTo plan.now calendar.now }
    requires member { IsMember plan.now.tree n.0 }
    requires early { dues.old.tick ≤ 2 ^ 126 }
    requires nodes { length dues.old.runs ≡ length plan.now.tree.nodes }
    requires ready { length ready.old ≡ length plan.now.tree.nodes }
    requires place { place plan.now.tree n.0 < length (slice_index_or ready.old (home plan.now.tree n.0) []) }
    requires stale { length stale.old ≡ length plan.now.tree.nodes }
    ensures tick { dues.new.tick ≡ dues.old.tick }
    ensures runs { dues.new.runs ≡ dues.old.runs }
    ensures remains { dues.new.remains ≡ slice_set dues.old.remains n.0 (due_of plan.now.tree calendar.now.begins calendar.now.ends n.0) }
    ensures ready { ready.new ≡ slice_set ready.old (home plan.now.tree n.0)
        (slice_set (slice_index_or ready.old (home plan.now.tree n.0) []) (place plan.now.tree n.0) (slice_index calendar.now.ends n.0)) }
    ensures stale { stale.new ≡ slice_set stale.old (home plan.now.tree n.0) true }
{
    let (due, end) = window_of(plan, calendar, n);
    let (home, place) = home_of(plan, n);
    dues.give(n, due);
    put_end(home, place, end, ready, stale);
}

/// All leaves and duals whose windows begin at the calendar's unit get their dues, and are ready up to the windows' ends; their
/// packs are marked.
pub(crate) fn begin_all(
    plan: &Plan,
    calendar: &Calendar,
    dues: &mut Dues,
    ready: &mut [Knockout],
    stale: &mut Marks,
)
    requires plan { IsPlan plan.now }
    requires calendar { BelongsTo plan.now calendar.now }
    requires members { (k : ℕ) → k < length calendar.now.begun → IsMember plan.now.tree (slice_index calendar.now.begun k) }
    requires early { dues.old.tick ≤ 2 ^ 126 }
    requires nodes { length dues.old.runs ≡ length plan.now.tree.nodes }
    requires remains { length dues.old.remains ≡ length plan.now.tree.nodes }
    requires ready { length ready.old ≡ length plan.now.tree.nodes }
    requires places { (x : ℕ) → IsMember plan.now.tree x → place plan.now.tree x < length (slice_index_or ready.old (home plan.now.tree x) []) }
    requires stale { length stale.old ≡ length plan.now.tree.nodes }
    ensures tick { dues.new.tick ≡ dues.old.tick }
    ensures runs { dues.new.runs ≡ dues.old.runs }
    ensures begun { AreBegun plan.now.tree calendar.now.begins calendar.now.ends calendar.now.begun dues.old.remains ready.old stale.old
        dues.new.remains ready.new stale.new (length calendar.now.begun) }
{
    for k in 0..calendar.begun_count() {
        begin_one(plan, calendar, calendar.begun(k), dues, ready, stale);
    }
}
