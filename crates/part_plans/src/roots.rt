//! The parts of a tree: what hangs together by members and duals, below one root.
ghost use Rattle.std.specs.Prelude.{◌≡◌, ◌<◌, length, IfOk, IfSome};

use crate::first_level::{first_pack, first_packs};
use run_tree::Tree;
use sched_base::{NoMemory, NodeId};
use std::alloc::Global;

/// Of each node of a tree by its number the number of its part, and how many parts there are.
#[derive(Drop)]
pub(crate) struct Roots {
    pub(crate) part: Vec<u32>,
    pub(crate) count: u32,
}

/// Stands where a root has no number yet.
const NO_PART: u32 = u32::MAX;

// What node n is tied to above it: the home of a member, the dual of a pack; `None` for a root.
fn above(tree: &Tree, n: NodeId) -> Option<NodeId>
    requires { n.0 < length tree.now.nodes }
    ensures { IfSome result (λ m. m.0 < length tree.now.nodes) }
{
    tree.know_lawful();
    if tree.is_member(n) {
        Some(tree.home(n))
    } else {
        tree.dual(n)
    }
}

// The root above node n, which is at most two steps a level away.
fn root_of(tree: &Tree, n: NodeId) -> NodeId
    requires { n.0 < length tree.now.nodes }
    ensures { result.0 < length tree.now.nodes }
{
    let mut node = n;
    for _ in 0..2 * u64::from(tree.levels()) {
        match above(tree, node) {
            Some(next) => node = next,
            None => return node,
        }
    }
    node
}

// Numbers the roots in the order of the first packs of level 0 below them, and says how many there are.
fn number_roots(tree: &Tree, numbers: &mut [u32]) -> u32
    requires { length numbers.old ≡ length tree.now.nodes }
    ensures { length numbers.new ≡ length tree.now.nodes }
{
    let mut count = 0;
    for i in 0..first_packs(tree) {
        let root = root_of(tree, first_pack(tree, i)).0 as usize;
        if numbers[root] == NO_PART {
            numbers[root] = count;
            count += 1;
        }
    }
    count
}

/// The parts of a tree, in the order of their first packs of level 0.
pub(crate) fn roots_of(alloc: Global, tree: &Tree) -> Result<Roots, NoMemory>
    ensures { IfOk result (λ roots. length roots.part.items ≡ length tree.now.nodes) }
{
    let mut numbers = vec![in alloc; NO_PART; tree.nodes() as usize]?;
    let count = number_roots(tree, &mut numbers);
    let mut part = Vec::new(alloc);
    for n in 0..tree.nodes() {
        part.push(numbers[root_of(tree, NodeId(n)).0 as usize])?;
    }
    Ok(Roots { part, count })
}
