//! Where a plan's schedule stands at a tick, and whether it stands there again.
ghost use Rattle.std.specs.Prelude.{ℕ, ◌≡◌, ◌<◌, ◌-◌, true, false, length, IfOk, IfSome, slice_index};
ghost use Rattle.run_tree.specs.Tree.{leaf};
ghost use Rattle.run_tree.specs.TreeOfSet.{is_idle};
ghost use Rattle.merged_rounds.specs.Replays.{IsSourceOf};
ghost use Rattle.merged_rounds.specs.Standings.{IsLeftAt, IsStanding, StandsAlike};

use crate::apart::{is_idle, is_on_time};
use crate::sources::Source;
use cpu_assign::Places;
use run_tree::{Plan, Tree};
use sched_base::{NoMemory, NodeId};
use std::alloc::Global;

/// The places at a tick, and what is left of each due there, where tasks have offsets: where none waits any more, these decide what follows.
pub(crate) struct Standing {
    pub(crate) tick: u128,
    places: Places,
    left: Vec<u128>,
}

impl Drop for Standing {
    fn drop(self) {
        let Self {
            tick: _tick,
            places: _places,
            left: _left,
        } = self;
    }
}

// What is left of each due at the source's tick, or nothing where no task has an offset.
fn left_at(alloc: Global, plan: &Plan, source: &Source) -> Result<Vec<u128>, NoMemory>
    requires { IsSourceOf plan.now source.now }
    ensures { IfOk result (λ left. IsLeftAt plan.now source.now.tick left.items) }
{
    if source.replays(plan) || is_on_time(plan) {
        return Ok(Vec::new(alloc));
    }
    source.core.dues_left(alloc, plan)
}

/// Where the schedule stands at the source's tick.
pub(crate) fn standing_at(alloc: Global, plan: &Plan, source: &Source) -> Result<Standing, NoMemory>
    requires { IsSourceOf plan.now source.now }
    ensures tick { IfOk result (λ standing. standing.tick ≡ source.now.tick) }
    ensures is { IfOk result (λ standing. IsStanding plan.now standing) }
{
    let left = left_at(alloc, plan, source)?;
    let places = source.places(plan).copy(alloc)?;
    Ok(Standing {
        tick: source.now(),
        places,
        left,
    })
}

// Whether there is the same left of the due of each node but idle leaves.
fn is_left_again(tree: &Tree, before: &[u128], now: &[u128]) -> bool
    ensures { result ≡ true → (x : ℕ) → x < length tree.now.nodes → is_idle (leaf tree.now x) ≡ false →
        slice_index now.now x ≡ slice_index before.now x }
{
    let nodes = tree.nodes();
    if before.len() < nodes as usize || now.len() < nodes as usize {
        return false;
    }
    for x in 0..nodes {
        if before[x as usize] != now[x as usize] && !is_idle(tree, NodeId(x)) {
            return false;
        }
    }
    true
}

impl Standing {
    /// Whether the schedule stands so again at the source's tick.
    pub(crate) fn is_again(
        &self,
        alloc: Global,
        plan: &Plan,
        source: &Source,
    ) -> Result<bool, NoMemory>
        requires is { IsStanding plan.now self.now }
        requires belongs { IsSourceOf plan.now source.now }
        ensures { IfOk result (λ again. again ≡ true → StandsAlike plan.now self.now.tick source.now.tick) }
    {
        if !source.places(plan).is_same(&self.places) {
            return Ok(false);
        }
        if is_on_time(plan) {
            return Ok(true);
        }
        let left = left_at(alloc, plan, source)?;
        Ok(is_left_again(plan.tree(), &self.left, &left))
    }

    /// How many ticks later the schedule stands so again at the source's tick, where it does.
    pub(crate) fn again_after(
        &self,
        alloc: Global,
        plan: &Plan,
        source: &Source,
    ) -> Result<Option<u128>, NoMemory>
        requires is { IsStanding plan.now self.now }
        requires belongs { IsSourceOf plan.now source.now }
        ensures { IfOk result (λ again. IfSome again (λ ticks. StandsAlike plan.now (source.now.tick - ticks) source.now.tick)) }
    {
        let now = source.now();
        let again = self.is_again(alloc, plan, source)?;
        if again && now > self.tick {
            return Ok(Some(now - self.tick));
        }
        Ok(None)
    }
}
