//! What a set asks of its processors, or why they can't give it.
ghost use Rattle.std.specs.Prelude.{◌≡◌, ◌≤◌, ◌<◌, ◌^◌, IfOk, IfErr};
ghost use Rattle.sched_base.specs.Scale.{IsScale, room_of};
ghost use Rattle.rate_scale.specs.Loads.{IsLoadOf, IsUnfit, AreSmall};

use crate::rates::total;
use crate::scales::{ScaleTooLarge, scale_of};
use sched_base::TaskSet;

/// What the tasks of a set ask for, all in ticks per unit. The utilization is `total` of `scale`.
#[derive(Clone, Copy)]
pub struct Load {
    /// The ticks of a unit.
    pub scale: u128,
    /// The rates of all tasks together.
    pub total: u128,
    /// What the processors have, no less than the total.
    pub room: u128,
}

/// Why the tasks of a set don't fit on its processors.
#[derive(Clone, Copy)]
pub enum LoadFault {
    /// The scale is past 2^94 ticks per unit.
    ScaleTooLarge {
        /// The first task whose period brings the least common multiple of the periods up to it past that limit.
        at: u32,
    },
    /// The tasks ask for more than the processors have, both in ticks per unit.
    Overload {
        total: u128,
        room: u128,
    },
}

impl From<ScaleTooLarge> for LoadFault {
    ghost use Rattle.std.specs.Prelude.{◌≡◌};
    ghost use Rattle.rate_scale.specs.declared.loads.LoadFault.TheVariants as fault;

    ghost from_gives = { λ e f. f ≡ fault.ScaleTooLarge e.at };

    fn from(refusal: ScaleTooLarge) -> Self {
        LoadFault::ScaleTooLarge { at: refusal.at }
    }
}

/// The load of a set, where it fits; else the first reason why it doesn't. The rates of its tasks at that scale are `rates_of`.
pub fn load_of(set: &TaskSet) -> Result<Load, LoadFault>
    ensures load { IfOk result (IsLoadOf set.now) }
    ensures refused { IfErr result (IsUnfit set.now) }
    ensures small { IfErr result AreSmall }
{
    let scale = scale_of(set)?;
    let total = total(set, scale);
    let room = room(set, scale);
    if total > room {
        return Err(LoadFault::Overload { total, room });
    }
    Ok(Load { scale, total, room })
}

// What the processors of a set have in each unit, in ticks.
fn room(set: &TaskSet, scale: u128) -> u128
    requires { scale ≤ 2 ^ 94 }
    ensures value { result ≡ room_of scale set.now }
    ensures within { result < 2 ^ 100 }
{
    u128::from(set.processors()) * scale
}
