//! What each processor shows in a round that a source tells.
ghost use Rattle.std.specs.Prelude.{◌≡◌, length, IfOk, vec_len};
ghost use Rattle.event_core.specs.Rounds.{IsRoundUpTo};
ghost use Rattle.merged_rounds.specs.Laps.{IsAllTold};
ghost use Rattle.merged_rounds.specs.Replays.{IsSourceOf};

use crate::sources::Source;
use run_tree::Plan;
use sched_base::{Leaf, NoMemory};
use std::alloc::Global;

/// Room for what is told of the processors.
pub(crate) fn no_leaves(alloc: Global, plan: &Plan) -> Result<Vec<Option<Leaf>>, NoMemory>
    ensures { IfOk result (λ v. vec_len v ≡ plan.now.tree.processors) }
{
    Ok(vec![in alloc; None; plan.tree().processors() as usize]?)
}

/// Tells of each processor what it shows in the round just gone, which began at tick `start`.
pub(crate) fn look_all(plan: &Plan, source: &Source, start: u128, told: &mut [Option<Leaf>])
    requires belongs { IsSourceOf plan.now source.now }
    requires round { IsRoundUpTo plan.now start source.now.tick }
    requires told { length told.old ≡ plan.now.tree.processors }
    ensures { IsAllTold plan.now start source.now.tick told.new }
{
    let count = plan.tree().processors();
    for q in 0..count {
        told[q as usize] = Some(source.leaf_on(plan, start, q));
    }
}
