//! How many rounds a wrapped schedule has.
ghost use Rattle.std.specs.Prelude.{◌≡◌, ◌≤◌, ◌<◌, ◌^◌, ◌*◌, length, IfOk, IfErr, IfSome, IfNone};
ghost use Rattle.sched_base.specs.Scale.{IsScale, Fits};
ghost use Rattle.sched_base.specs.Tables.{row_limit};
ghost use Rattle.wrap_sched.specs.Faults.{IsWrapFault};
ghost use Rattle.wrap_sched.specs.Steps.{points};
ghost use Rattle.wrap_sched.specs.Wrapped.{wrapped_rounds};

use crate::cuts::count_cuts;
use crate::points::next_point;
use rate_scale::rates_of;
use sched_base::{NoMemory, ROW_LIMIT, TaskSet};
use std::alloc::Global;
use thiserror::Error;

/// Why the rounds of a wrapped schedule aren't counted.
#[derive(Clone, Copy, Debug, PartialEq, Eq, Error)]
pub enum WrapFault {
    /// The rounds have more than 2,097,152 rows.
    #[error("more rows than a schedule may have: {rows}")]
    TooLong {
        /// The least multiple of the number of processors above that limit.
        rows: u64,
    },
    /// Memory was refused.
    #[error("no memory")]
    NoMemory,
}

// The rounds of all slices, where each slice has that many, and they are at most `most`.
fn count_slices(set: &TaskSet, each: u128, most: u64) -> Option<u64>
    ensures count { IfSome result (λ count. (count ≡ each * length (points set.now)) × (count ≤ most)) }
    ensures past { IfNone result (most < each * length (points set.now)) }
{
    let mut count: u64 = 0;
    let mut x: u64 = 0;
    'slices: while x < set.horizon() {
        if u128::from(most - count) < each {
            return None;
        }
        count += each as u64;
        x = next_point(set, x);
    }
    Some(count)
}

/// The number of rounds of the wrapped schedule, where their rows, one for each processor, are at most 2,097,152. It goes
/// over each slice once.
pub fn wrap_rounds(alloc: Global, set: &TaskSet, scale: u128) -> Result<u64, WrapFault>
    requires scale { IsScale set.now.tasks scale }
    requires scale_fits { scale ≤ 2 ^ 94 }
    requires fits { Fits scale set.now }
    ensures count { IfOk result (λ count. (count ≡ wrapped_rounds scale set.now) × (count * set.now.processors ≤ row_limit)) }
    ensures fault { IfErr result (λ fault. IsWrapFault scale set.now fault) }
{
    let rates = match rates_of(alloc, set, scale) {
        Ok(rates) => rates,
        Err(NoMemory) => return Err(WrapFault::NoMemory),
    };
    let each = count_cuts(&rates, scale);
    let processors = u64::from(set.processors());
    let most = ROW_LIMIT / processors;
    match count_slices(set, each, most) {
        Some(count) => Ok(count),
        None => Err(WrapFault::TooLong {
            rows: (most + 1) * processors,
        }),
    }
}
