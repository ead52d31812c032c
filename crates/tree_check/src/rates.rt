//! The rates of what a level has to place.
ghost use Rattle.std.specs.Prelude.{◌≡◌, ◌<◌, ◌-◌, ◌^◌, length, map, min, sum, IfOk};
ghost use Rattle.tree_check.specs.Faults.{to_place};

use crate::written::{Pack, ReadTree};
use rate_scale::rate;
use sched_base::NoMemory;
use std::alloc::Global;

// The rates of the tasks and of the idle leaves.
fn leaf_rates(alloc: Global, tree: &ReadTree) -> Result<Vec<u128>, NoMemory>
    ensures { IfOk result (λ rates. rates.items ≡ to_place tree.now 0) }
{
    let scale = tree.scale();
    let mut rates = Vec::new(alloc);
    for task in tree.set().tasks() {
        rates.push(rate(task.work, task.period, scale))?;
    }
    rates.extend_from_slice(tree.idles())?;
    Ok(rates)
}

// What the packs lack.
fn lacks(alloc: Global, scale: u128, packs: &[Pack]) -> Result<Vec<u128>, NoMemory>
    ensures { IfOk result (λ rates. rates.items ≡ map (λ p. scale - p.rate) packs.now) }
{
    let mut rates = Vec::new(alloc);
    for pack in packs {
        rates.push(scale.saturating_sub(pack.rate))?;
    }
    Ok(rates)
}

/// The rates of what level l has to place, in ticks a unit.
pub(crate) fn to_place(alloc: Global, tree: &ReadTree, l: usize) -> Result<Vec<u128>, NoMemory>
    requires { l < length tree.now.levels }
    ensures { IfOk result (λ rates. rates.items ≡ to_place tree.now l) }
{
    if l == 0 {
        leaf_rates(alloc, tree)
    } else {
        lacks(alloc, tree.scale(), tree.packs(l - 1))
    }
}

/// The sum of rates, as far as a number goes.
pub(crate) fn total_of(rates: &[u128]) -> u128
    ensures { result ≡ min (sum rates.now) (2 ^ 128 - 1) }
{
    let mut total: u128 = 0;
    for rate in rates {
        total = total.saturating_add(*rate);
    }
    total
}
