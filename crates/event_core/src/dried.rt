//! What a member that ran dry leaves: it is ready no more, and its pack is to be looked at again.
ghost use Rattle.std.specs.Prelude.{ℕ, [], ◌≡◌, ◌<◌, ◌≤◌, length, true, None, Some, slice_index_or, slice_set};
ghost use Rattle.knockout.specs.Knockouts.{never};
ghost use Rattle.event_core.specs.Serving.{lists, IsServing, IsDrying};
ghost use Rattle.event_core.specs.Ticks.{ticks_by, AreInBlocks, AreNarrowed, ArePlaces};

use crate::ticks::next_of;
use knockout::{Knockout, NEVER};
use run_tree::Tree;
use sched_base::NodeId;
use server_budget::Dues;
use tree_select::Marks;

/// Member k of pack p is ready up to an end, and the pack is to be looked at.
pub(crate) fn put_end(p: NodeId, k: u32, end: u64, ready: &mut [Knockout], stale: &mut Marks)
    requires ready { p.0 < length ready.old }
    requires member { k < length (slice_index_or ready.old p.0 []) }
    requires end { end ≤ never }
    requires stale { p.0 < length stale.old }
    ensures ready { ready.new ≡ slice_set ready.old p.0 (slice_set (slice_index_or ready.old p.0 []) k end) }
    ensures stale { stale.new ≡ slice_set stale.old p.0 true }
{
    ready[p.0 as usize].set(k, end);
    stale.mark(p);
}

// The member at this place, where there is one, is ready no more.
fn take_out(p: NodeId, k: Option<u32>, ready: &mut [Knockout], stale: &mut Marks)
    requires ready { p.0 < length ready.old }
    requires member { (j : ℕ) → k ≡ Some j → j < length (slice_index_or ready.old p.0 []) }
    requires stale { p.0 < length stale.old }
    ensures some { (j : ℕ) → k ≡ Some j → (ready.new ≡ slice_set ready.old p.0 (slice_set (slice_index_or ready.old p.0 []) j never))
        × (stale.new ≡ slice_set stale.old p.0 true) }
    ensures none { k ≡ None → (ready.new ≡ ready.old) × (stale.new ≡ stale.old) }
{
    if let Some(k) = k {
        put_end(p, k, NEVER, ready, stale);
    }
}

/// Members that ran dry at the present tick are ready no more, and their packs are marked. The ends and who runs are only spoken of.
pub(crate) fn run_dry(
    tree: &Tree,
    number: &[u32],
    nodes: &[u32],
    least: &[u64],
    narrow: &[u64],
    dry: &[u128],
    used: usize,
    ends: &[u128],
    dues: &Dues,
    serves: &[Option<u32>],
    runs: &[bool],
    ready: &mut [Knockout],
    stale: &mut Marks,
)
    requires places { ArePlaces number.now nodes.now (length dry.now) }
    requires narrowed { AreNarrowed narrow.now dry.now used }
    requires blocks { AreInBlocks least.now narrow.now used }
    requires ready { length ready.old ≡ length tree.now.nodes }
    requires serves { length serves.now ≡ length tree.now.nodes }
    requires stale { length stale.old ≡ length tree.now.nodes }
    requires drying { IsDrying tree.now dues.now ends.now (lists ready.old serves.now (ticks_by number.now dry.now) stale.old runs.now) (λ q. ⊥) }
    ensures serving { IsServing tree.now dues.now ends.now (lists ready.new serves.now (ticks_by number.now dry.now) stale.new runs.now) }
    ensures long { length stale.new ≡ length stale.old }
{
    let _tree = tree;
    let _number = number.len();
    let _ends = ends.len();
    let _runs = runs.len();
    let now = dues.now();
    let mut k = 0;
    'dried: while k < used {
        let next = next_of(least, narrow, dry, used, now, k);
        if next >= used {
            return;
        }
        let p = NodeId(nodes[next]);
        take_out(p, serves[p.0 as usize], ready, stale);
        k = next + 1;
    }
}
