//! The levels above level 0: the duals of a level's packs that aren't roots, by first fit, until all packs are roots.
ghost use Rattle.std.specs.Prelude.{◌≡◌, ◌≤◌, ◌<◌, ◌^◌, ℕ, length, map, slice_index, IfOk, OnOk};
ghost use Rattle.sched_base.specs.FirstFit.{homes};
ghost use Rattle.run_tree.specs.Tree.{rate};
ghost use Rattle.run_tree.specs.Making.{lower_packs, lifted};
ghost use Rattle.run_tree.specs.Compiled.{tree_of_rates};
ghost use Rattle.tree_laws.specs.Raised.{lower_duals};
ghost use Rattle.run_compile.specs.Rates.{AreOfSet};

use crate::homes::homes_of;
use crate::level_0::first_level;
use crate::rates::Rates;
use dual_step::duals;
use run_tree::{Tree, TreeMaker};
use sched_base::NoMemory;
use server_pack::first_fit;
use std::alloc::Global;

/// The compiled tree of tasks of these rates.
pub(crate) fn tree_of(alloc: Global, rates: Rates) -> Result<Tree, NoMemory>
    requires { AreOfSet rates.processors rates.scale rates.each.now }
    ensures { IfOk result (λ tree. tree ≡ tree_of_rates rates.entry.processors rates.entry.scale rates.entry.each.now) }
{
    let mut maker = first_level(alloc, rates)?;
    let mut lower = lower_rates(alloc, &maker, rates.scale)?;
    while !lower.is_empty() {
        raise(alloc, &mut maker, rates.scale, lower.as_slice())?;
        lower = lower_rates(alloc, &maker, rates.scale)?;
    }
    Ok(maker.finish())
}

// The rates of the packs of the last level that aren't roots.
fn lower_rates(alloc: Global, maker: &TreeMaker, scale: u128) -> Result<Vec<u128>, NoMemory>
    requires { maker.now.tree.scale ≡ scale }
    ensures { IfOk result (λ rates. rates.items ≡ map (rate maker.now.tree) (lower_packs maker.now)) }
{
    let mut rates = Vec::new(alloc);
    for i in 0..maker.packs() {
        let rate = maker.pack_rate(i);
        if rate < scale {
            rates.push(rate)?;
        }
    }
    Ok(rates)
}

// One more level, of the duals of the packs that aren't roots, whose rates are these.
fn raise(alloc: Global, maker: &mut TreeMaker, scale: u128, lower: &[u128]) -> Result<(), NoMemory>
    requires scale { maker.old.tree.scale ≡ scale }
    requires scale_fits { scale ≤ 2 ^ 94 }
    requires some { 0 < length lower.now }
    requires few { length lower.now ≤ 1024 }
    requires few_levels { maker.old.tree.levels < 4096 }
    requires lower { lower.now ≡ map (rate maker.old.tree) (lower_packs maker.old) }
    requires positive { (k : ℕ) → k < length lower.now → 0 < slice_index lower.now k }
    ensures { OnOk result (maker.new ≡ lifted (lower_packs maker.old) (homes scale (lower_duals maker.old)) maker.old) }
{
    let duals = duals(alloc, lower, scale)?;
    let packing = first_fit(alloc, duals.as_slice(), scale)?;
    let homes = homes_of(alloc, &packing, duals.as_slice())?;
    maker.lift(homes.as_slice())
}
