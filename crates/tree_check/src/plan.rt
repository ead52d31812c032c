//! The plan of a text with no fault.
ghost use Rattle.std.specs.Prelude.{◌≡◌, ◌≤◌, ◌<◌, ◌-◌, ◌++◌, [], suc, length, map, replicate, IfOk, OnOk};
ghost use Rattle.run_tree.specs.Making.{lower_packs, lifted};
ghost use Rattle.run_tree.specs.Maker.{NamesLower, packs_named};
ghost use Rattle.tree_check.specs.Faults.{HasNoFault, to_place, before, members_of};
ghost use Rattle.tree_check.specs.TextTree.{number_of, homes_from, text_making, text_tree, IsTextOfTree};
ghost use Rattle.tree_check.specs.FirstSteps.{first_making};
ghost use Rattle.tree_check.specs.Written.{level_at, pack_at};

use crate::names::{leaf_of, named, number_of, rate_named};
use crate::rates::to_place;
use crate::written::{Member, Pack, ReadTree};
use run_tree::{Plan, Tree, TreeMaker};
use sched_base::NoMemory;
use std::alloc::Global;

// Adds the number by which each of these members names a pack of the level below, and that of their own pack.
fn add_members(
    order: &mut Vec<u32>,
    homes: &mut Vec<u32>,
    members: &[Member],
    pack: u32,
) -> Result<(), NoMemory>
    ensures order { OnOk result (order.new.items ≡ order.old.items ++ map number_of members.now) }
    ensures homes { OnOk result (homes.new.items ≡ homes.old.items ++ replicate (length members.now) pack) }
{
    for member in members {
        order.push(number_of(member))?;
        homes.push(pack)?;
    }
    Ok(())
}

// Adds the numbers of the members of these packs, and those of the packs, one pack after the other.
fn add_packs(order: &mut Vec<u32>, homes: &mut Vec<u32>, packs: &[Pack]) -> Result<(), NoMemory>
    requires few { length packs.now ≤ 1280 }
    requires order { order.old.items ≡ [] }
    requires homes { homes.old.items ≡ [] }
    ensures order { OnOk result (order.new.items ≡ map number_of (members_of packs.now)) }
    ensures homes { OnOk result (homes.new.items ≡ homes_from 0 packs.now) }
{
    for (i, pack) in packs.iter().enumerate() {
        add_members(order, homes, pack.members(), i as u32)?;
    }
    Ok(())
}

// One more level.
fn add_level(alloc: Global, maker: &mut TreeMaker, packs: &[Pack]) -> Result<(), NoMemory>
    requires few { length packs.now ≤ 1280 }
    requires few_levels { maker.old.tree.levels < 4096 }
    requires some { 0 < length (lower_packs maker.old) }
    requires order { NamesLower maker.old (map number_of (members_of packs.now)) }
    ensures { OnOk result (maker.new ≡ lifted (packs_named maker.old (map number_of (members_of packs.now))) (homes_from 0 packs.now) maker.old) }
{
    let mut order = Vec::new(alloc);
    let mut homes = Vec::new(alloc);
    add_packs(&mut order, &mut homes, packs)?;
    maker.lift_order(&order, &homes)
}

// The members of pack i of level 0, each as a leaf at the pack's end.
fn add_leaves(
    tree: &ReadTree,
    rates: &[u128],
    maker: &mut TreeMaker,
    i: u32,
    members: &[Member],
) -> Result<(), NoMemory>
    requires no_fault { HasNoFault tree.now }
    requires rates { rates.now ≡ to_place tree.now 0 }
    requires pack { i < length (level_at tree.now 0) }
    requires members { members.now ≡ (pack_at (level_at tree.now 0) i).members }
    requires maker { maker.old ≡ first_making tree.now (before (level_at tree.now 0) i) }
    ensures { OnOk result (maker.new ≡ first_making tree.now (before (level_at tree.now 0) (suc i))) }
{
    let _scale = tree.scale();
    for member in members {
        let leaf = leaf_of(tree.set(), member);
        let rate = rate_named(rates, named(tree, 0, member));
        maker.leaf(leaf, rate, i)?;
    }
    Ok(())
}

// Level 0.
fn first_level(tree: &ReadTree, rates: &[u128], maker: &mut TreeMaker) -> Result<(), NoMemory>
    requires no_fault { HasNoFault tree.now }
    requires rates { rates.now ≡ to_place tree.now 0 }
    requires maker { maker.old ≡ first_making tree.now 0 }
    ensures { OnOk result (maker.new ≡ text_making tree.now 0) }
{
    let _levels = tree.levels();
    for (i, pack) in tree.packs(0).iter().enumerate() {
        add_leaves(tree, rates, maker, i as u32, pack.members())?;
    }
    Ok(())
}

// All levels.
fn add_levels(alloc: Global, tree: &ReadTree, maker: &mut TreeMaker) -> Result<(), NoMemory>
    requires no_fault { HasNoFault tree.now }
    requires maker { maker.old ≡ first_making tree.now 0 }
    ensures { OnOk result (maker.new ≡ text_making tree.now (length tree.now.levels - 1)) }
{
    let levels = tree.levels();
    let rates = to_place(alloc, tree, 0)?;
    first_level(tree, &rates, maker)?;
    for l in 1..levels {
        add_level(alloc, maker, tree.packs(l))?;
    }
    Ok(())
}

// The tree of the text.
fn tree_of(alloc: Global, tree: &ReadTree) -> Result<Tree, NoMemory>
    requires { HasNoFault tree.now }
    ensures { IfOk result (λ made. made ≡ text_tree tree.now) }
{
    let scale = tree.scale();
    let mut maker = TreeMaker::start(alloc, tree.set().processors(), scale);
    add_levels(alloc, tree, &mut maker)?;
    Ok(maker.finish())
}

/// The plan whose tree is that of the text.
pub(crate) fn plan_of(alloc: Global, tree: &ReadTree) -> Result<Plan, NoMemory>
    requires { HasNoFault tree.now }
    ensures plan { IfOk result (λ plan. plan ≡ record { set = tree.now.set; tree = text_tree tree.now }) }
    ensures text { IfOk result (λ plan. IsTextOfTree tree.now) }
{
    let scale = tree.scale();
    let set = tree.set().copy()?;
    Ok(Plan::new(set, scale, tree_of(alloc, tree)?))
}
