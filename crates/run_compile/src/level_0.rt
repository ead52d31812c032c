//! Level 0: the tasks by first fit, then the idle leaves.
ghost use Rattle.std.specs.Prelude.{ℕ, ◌≡◌, IfOk};
ghost use Rattle.sched_base.specs.FirstFit.{homes, packed};
ghost use Rattle.run_tree.specs.Making.{started};
ghost use Rattle.run_tree.specs.Compiled.{pack_items, task_items, first_level as level_0};
ghost use Rattle.server_pack.specs.Servers.{server_at, rates_of, items_of};
ghost use Rattle.run_compile.specs.Rates.{AreOfSet};

use crate::homes::homes_of;
use crate::rates::Rates;
use idle_fill::fill;
use run_tree::TreeMaker;
use sched_base::{Leaf, NoMemory, TaskId};
use server_pack::{Packing, first_fit};
use std::alloc::Global;

/// Level 0 of the tree of tasks of these rates.
pub(crate) fn first_level(alloc: Global, rates: Rates) -> Result<TreeMaker, NoMemory>
    requires { AreOfSet rates.processors rates.scale rates.each.now }
    ensures { IfOk result (λ maker. maker ≡ level_0 rates.entry.processors rates.entry.scale rates.entry.each.now) }
{
    let mut packing = first_fit(alloc, rates.each, rates.scale)?;
    let mut maker = packed_tasks(alloc, rates, &packing)?;
    fill(alloc, &mut packing, rates.processors, rates.scale)?;
    let mut number = 0;
    for s in 0..packing.servers() {
        let rate = packing.idle(s);
        if rate > 0 {
            maker.leaf(Leaf::Idle(number), rate, s)?;
            number += 1;
        }
    }
    Ok(maker)
}

// The tasks of these rates, each in the server that a packing by first fit gave it.
fn packed_tasks(alloc: Global, rates: Rates, packing: &Packing) -> Result<TreeMaker, NoMemory>
    requires of_set { AreOfSet rates.processors rates.scale rates.each.now }
    requires scale { packing.now.scale ≡ rates.scale }
    requires rates { rates_of packing.now.servers ≡ packed packing.now.scale rates.each.now }
    requires members { (b : ℕ) → (server_at packing.now.servers b).members ≡ items_of (homes packing.now.scale rates.each.now) b }
    ensures { IfOk result (λ maker. maker ≡ pack_items (task_items 0 rates.entry.each.now) (started rates.entry.processors rates.entry.scale)) }
{
    let homes = homes_of(alloc, packing, rates.each)?;
    pack_tasks(alloc, rates, homes.as_slice())
}

// The tasks of these rates, each in the home that it is told.
fn pack_tasks(alloc: Global, rates: Rates, told: &[u32]) -> Result<TreeMaker, NoMemory>
    requires of_set { AreOfSet rates.processors rates.scale rates.each.now }
    requires homes { told.now ≡ homes rates.scale rates.each.now }
    ensures { IfOk result (λ maker. maker ≡ pack_items (task_items 0 rates.entry.each.now) (started rates.entry.processors rates.entry.scale)) }
{
    let mut maker = TreeMaker::start(alloc, rates.processors, rates.scale);
    for (j, rate) in rates.each.iter().enumerate() {
        maker.leaf(Leaf::Task(TaskId(j as u32)), *rate, told[j])?;
    }
    Ok(maker)
}
