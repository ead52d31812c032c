//! The idle leaves.
ghost use Rattle.std.specs.Prelude.{◌≡◌, ◌&&◌};
ghost use Rattle.std.specs.List.{flat_map, range_with_len};
ghost use Rattle.sched_edges.specs.Causes.{HasCause};
ghost use Rattle.sched_edges.specs.Streams.{Wrote};
ghost use Rattle.run_tree.specs.Tree.{is_leaf, leaf_of, rate};
ghost use Rattle.run_tree.specs.TreeOfSet.{is_idle as is_idle_of, idle_count};
ghost use Rattle.tree_text.specs.Text.{is_idle_leaf as is_idle_leaf_of, idle_node, idle_line, idles_text};

use run_tree::{Kind, Tree};
use sched_base::{Leaf, NodeId};
use sched_edges::{Failed, Sink, number_line, numbers_line, write_all};

/// Writes the number of idle leaves, and the rate of each in the order of their numbers.
pub(crate) fn write_idles<W: Sink>(tree: &Tree, sink: &mut W) -> Result<(), Failed>
    ensures wrote { Wrote (W.taken sink.old) (W.taken sink.new) (idles_text tree.now) result }
    ensures cause { HasCause (W.faults sink.old) (W.faults sink.new) result }
{
    let count = count_idles(tree);
    write_all(sink, number_line(b"idles", u128::from(count)).as_slice())?;
    write_rates(tree, count, sink)
}

// The number of idle leaves.
fn count_idles(tree: &Tree) -> u32
    ensures { result ≡ idle_count tree.now }
{
    let mut count = 0;
    for n in 0..tree.nodes() {
        if is_idle(tree.kind(NodeId(n))) {
            count += 1;
        }
    }
    count
}

fn is_idle(kind: Kind) -> bool
    ensures { result ≡ (is_leaf kind && is_idle_of (leaf_of kind)) }
{
    matches!(kind, Kind::Leaf(Leaf::Idle(_)))
}

fn write_rates<W: Sink>(tree: &Tree, count: u32, sink: &mut W) -> Result<(), Failed>
    ensures wrote { Wrote (W.taken sink.old) (W.taken sink.new) (flat_map (idle_line tree.now) (range_with_len 0 count)) result }
    ensures cause { HasCause (W.faults sink.old) (W.faults sink.new) result }
{
    for k in 0..count {
        let line = numbers_line(b"idle", u128::from(k), idle_rate(tree, k));
        write_all(sink, line.as_slice())?;
    }
    Ok(())
}

// The rate of idle leaf k. A plan's tree has one of each number below their count; else it would be 0.
fn idle_rate(tree: &Tree, k: u32) -> u128
    ensures { result ≡ rate tree.now (idle_node tree.now k) }
{
    for n in 0..tree.nodes() {
        if is_idle_leaf(tree.kind(NodeId(n)), k) {
            return tree.rate(NodeId(n));
        }
    }
    0
}

fn is_idle_leaf(kind: Kind, k: u32) -> bool
    ensures { result ≡ is_idle_leaf_of k (leaf_of kind) }
{
    matches!(kind, Kind::Leaf(Leaf::Idle(number)) if number == k)
}
