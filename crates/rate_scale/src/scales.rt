//! The scale of a set.
ghost use Rattle.std.specs.Prelude.{◌≡◌, ◌≤◌, ◌<◌, ◌^◌, ◌↔◌, ℕ, List, IsErr, IfOk, IfErr};
ghost use Rattle.sched_base.specs.declared.sets.Task.{Task};
ghost use Rattle.sched_base.specs.Sets.{SetContents, IsLawful};
ghost use Rattle.sched_base.specs.Scale.{IsScale, PassesAt};

use crate::multiples::lcm;
use sched_base::TaskSet;

/// The greatest scale that is run, in ticks per unit.
const LIMIT: u128 = 1 << 94;

/// The scale is past 2^94 ticks per unit.
#[derive(Clone, Copy, Debug, PartialEq, Eq)]
pub struct ScaleTooLarge {
    /// The first task whose period brings the least common multiple of the periods up to it past that limit.
    pub at: u32,
}

/// The scale of a set, in ticks per unit: the least positive number that every period divides, 1 for no tasks. Refused past 2^94.
pub fn scale_of(set: &TaskSet) -> Result<u128, ScaleTooLarge>
    ensures scale { IfOk result (λ scale. IsScale set.now.tasks scale) }
    ensures within { IfOk result (λ scale. scale ≤ 2 ^ 94) }
    ensures first { IfErr result (λ refusal. PassesAt (2 ^ 94) set.now.tasks refusal.at) }
    ensures refused { IsErr result ↔ ((scale : ℕ) → IsScale set.now.tasks scale → 2 ^ 94 < scale) }
{
    let mut scale: u128 = 1;
    for (i, task) in set.tasks().iter().enumerate() {
        let next = lcm(scale, u128::from(task.period));
        if next > LIMIT {
            return Err(ScaleTooLarge { at: i as u32 });
        }
        scale = next;
    }
    Ok(scale)
}

/// Each lawful set has one scale. This runs nothing: its clauses are the law.
pub fn scale_law()
    ensures some { (set : SetContents) → IsLawful set → (scale : ℕ) × IsScale set.tasks scale }
    ensures same { (tasks : List Task) (a b : ℕ) → IsScale tasks a → IsScale tasks b → a ≡ b }
{}
