//! The words of members.
ghost use Rattle.std.specs.Prelude.{◌≡◌, ◌<◌, ◌∷◌, decimal};
ghost use Rattle.sched_base.specs.Bytes.{space};
ghost use Rattle.run_tree.specs.Tree.{IsPack, IsMember, level as level_in};
ghost use Rattle.run_tree.specs.TreeOfSet.{IsKnown};
ghost use Rattle.tree_text.specs.Text.{leaf_word, member_word, place_in_level};

use run_tree::{Kind, Plan, Tree};
use sched_base::{Leaf, NodeId, TaskSet};
use sched_edges::Line;

/// A space, and the word of a member.
#[tactic(auto, unfolding(crate::specs::Text::member_word))]
pub(crate) fn spaced_word(plan: &Plan, member: NodeId) -> Line
    requires { IsMember plan.now.tree member.0 }
    ensures { result ≡ space ∷ member_word plan.now member.0 }
{
    match plan.tree().kind(member) {
        Kind::Leaf(leaf) => spaced_leaf(plan.set(), leaf),
        Kind::Dual(primal) => spaced_dual(plan.tree(), primal),
        Kind::Pack(_) => unreachable!(),
    }
}

// A leaf: its task's name, or its number as an idle leaf after `-`.
fn spaced_leaf(set: &TaskSet, leaf: Leaf) -> Line
    requires { IsKnown set.now.tasks leaf }
    ensures { result ≡ space ∷ leaf_word set.now.tasks leaf }
{
    let mut line = Line::new();
    line.space();
    match leaf {
        Leaf::Task(id) => line.text(set.tasks()[id.0 as usize].name.as_slice()),
        Leaf::Idle(number) => {
            line.text(b"-");
            line.number(u128::from(number));
        }
        Leaf::Wait(_) | Leaf::Empty => unreachable!(),
    }
    line
}

// A dual: the place of its primal in the level below after `~`.
fn spaced_dual(tree: &Tree, primal: NodeId) -> Line
    requires { IsPack tree.now primal.0 }
    ensures { result ≡ space ∷ 126 ∷ decimal (place_in_level tree.now primal.0) }
{
    let mut line = Line::new();
    line.text(b" ~");
    line.number(u128::from(place_of(tree, primal)));
    line
}

// The place of a pack among the packs of its level, of which it is one: the search ends before the last line.
fn place_of(tree: &Tree, pack: NodeId) -> u32
    requires { IsPack tree.now pack.0 }
    ensures { result ≡ place_in_level tree.now pack.0 }
{
    let level = level_of(tree, pack);
    let packs = tree.packs(level);
    for i in 0..packs {
        if tree.pack(level, i) == pack {
            return i;
        }
    }
    packs
}

fn level_of(tree: &Tree, pack: NodeId) -> u32
    requires { IsPack tree.now pack.0 }
    ensures value { result ≡ level_in tree.now pack.0 }
    ensures within { result < tree.now.levels }
{
    let _levels = tree.levels();
    match tree.kind(pack) {
        Kind::Pack(level) => level,
        Kind::Leaf(_) | Kind::Dual(_) => unreachable!(),
    }
}
