//! The tree of a worked set, node by node: as it is compiled, and as it is made.
use super::{THREE_TASKS, plan_with};
use run_tree::{Kind, Tree, TreeMaker};
use sched_base::{Leaf, NodeId, TaskId};
use std::alloc::Global;
use std::process::Abort;

/// Compares node n with its kind, its rate, its members and its dual.
fn assert_node(
    rt: &impl Abort,
    tree: &Tree,
    n: u32,
    kind: Kind,
    rate: u128,
    members: &[NodeId],
    dual: Option<NodeId>,
) {
    assert!(rt; n < tree.nodes());
    let node = NodeId(n);
    assert!(rt; tree.kind(node) == kind, "{n}");
    assert!(rt; tree.rate(node) == rate, "{n}");
    assert!(rt; tree.members(node) == members, "{n}");
    assert!(rt; tree.dual(node) == dual, "{n}");
}

/// The pack of a task stands just before its only member, the task, and has a dual. Each member has its kind and its rate; a pack its
/// members and its dual.
fn assert_pack(rt: &impl Abort, tree: &Tree, j: u32) {
    assert!(rt; j < 3);
    let pack = NodeId(2 * j);
    let leaf = NodeId(2 * j + 1);
    let dual = NodeId(7 + j);
    let task = Kind::Leaf(Leaf::Task(TaskId(j)));
    assert_node(rt, tree, 2 * j, Kind::Pack(0), 2, &[leaf], Some(dual));
    assert_node(rt, tree, 2 * j + 1, task, 2, &[], None);
    assert_node(rt, tree, 7 + j, Kind::Dual(pack), 1, &[], None);
}

/// Makes sure of the tree of three tasks: each in a pack of its own, and the three duals in one pack.
fn assert_tree(rt: &impl Abort, tree: &Tree) {
    assert!(rt; tree.processors() == 2 && tree.scale() == 3);
    assert!(rt; tree.levels() == 2 && tree.nodes() == 10);
    let duals = [NodeId(7), NodeId(8), NodeId(9)];
    assert_node(rt, tree, 6, Kind::Pack(1), 3, &duals, None);
    for j in 0..3 {
        assert_pack(rt, tree, j);
    }
}

/// The tree of three tasks of rate 2/3 on two processors, made leaf by leaf.
fn made(rt: &impl Abort, alloc: Global) -> Tree {
    let mut maker = TreeMaker::start(alloc, 2, 3);
    maker
        .leaf(Leaf::Task(TaskId(0)), 2, 0)
        .expect(rt, "there is memory");
    maker
        .leaf(Leaf::Task(TaskId(1)), 2, 1)
        .expect(rt, "there is memory");
    maker
        .leaf(Leaf::Task(TaskId(2)), 2, 2)
        .expect(rt, "there is memory");
    maker.lift(&[0, 0, 0]).expect(rt, "there is memory");
    assert!(rt; maker.packs() == 1);
    assert!(rt; maker.pack_rate(0) == 3);
    maker.finish()
}

/// Lifts the packs of three tasks of rates 2, 1 and 1 in the order of their last to their first, the first into a pack of its own.
fn lift_backwards(rt: &impl Abort, alloc: Global) {
    let mut maker = TreeMaker::start(alloc, 2, 3);
    maker
        .leaf(Leaf::Task(TaskId(0)), 2, 0)
        .expect(rt, "there is memory");
    maker
        .leaf(Leaf::Task(TaskId(1)), 1, 1)
        .expect(rt, "there is memory");
    maker
        .leaf(Leaf::Task(TaskId(2)), 1, 2)
        .expect(rt, "there is memory");
    maker
        .lift_order(&[2, 1, 0], &[0, 1, 1])
        .expect(rt, "there is memory");
    assert!(rt; maker.packs() == 2);
    assert!(rt; (maker.pack_rate(0), maker.pack_rate(1)) == (2, 3));
}

#[test]
fn lifts_packs_in_any_order(rt: HostRuntime) {
    lift_backwards(&rt, rt.alloc());
}

#[test]
fn makes_the_tree_of_three_tasks(rt: HostRuntime) {
    let plan = plan_with(&rt, rt.alloc(), 2, 3, THREE_TASKS);
    assert_tree(&rt, plan.tree());
    assert_tree(&rt, &made(&rt, rt.alloc()));
}
