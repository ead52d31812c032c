//! What is left of each due: of the ticks that a leaf or a dual is given in its window, those that it hasn't run yet.
#![tactic(auto)]

mod dues;
mod laws;

ghost use Rattle.std.specs.Prelude.{◌≡◌, ℕ, ◌<◌, ◌≤◌, ◌^◌, ◌*◌, ◌-◌, true, length, replicate, slice_index, slice_set, IfOk};
ghost use Rattle.sched_base.specs.Counting.{bit};
ghost use Rattle.run_tree.specs.Tree.{rate, IsMember};
ghost use Rattle.server_budget.specs.Spent.{spends, IsSpent};

pub use dues::Dues;
pub use laws::spend_law;
use run_tree::{Kind, Tree};
use sched_base::{NoMemory, NodeId};
use std::alloc::Global;
use std::marker::Model;

/// What is left of the due of each node, in ticks; 0 at packs. It is seen as the list of these numbers.
#[derive(Drop)]
pub struct Budgets {
    remains: Vec<u128>,
}

impl Model for Budgets {
    ghost use Rattle.std.specs.Prelude.{List, ℕ, ◌≤◌, ◌^◌, slice_index};

    ghost Value = { List ℕ };

    ghost view = { λ b. b.remains.items };

    ghost invariant = { λ b. (x : ℕ) → slice_index b.remains.items x ≤ 2 ^ 127 };
}

impl Budgets {
    /// Nothing is left at any node.
    pub fn new(alloc: Global, tree: &Tree) -> Result<Budgets, NoMemory>
        ensures { IfOk result (λ b. b ≡ replicate (length tree.now.nodes) 0) }
    {
        Ok(Budgets {
            remains: vec![in alloc; 0u128; tree.nodes() as usize]?,
        })
    }

    /// The due of node n in a window of that many units, at most 2^33: its rate for each of them, in ticks.
    pub fn budget_of(tree: &Tree, n: NodeId, units: u64) -> u128
        requires node { n.0 < length tree.now.nodes }
        requires units { units ≤ 2 ^ 33 }
        ensures value { result ≡ rate tree.now n.0 * units }
        ensures fits { result ≤ 2 ^ 127 }
    {
        tree.know_lawful();
        tree.rate(n) * u128::from(units)
    }

    /// Gives leaf or dual n the due of a window of that many units, at most 2^33. What was left there before is lost.
    pub fn refill(&mut self, tree: &Tree, n: NodeId, units: u64)
        requires nodes { length self.old ≡ length tree.now.nodes }
        requires member { IsMember tree.now n.0 }
        requires units { units ≤ 2 ^ 33 }
        ensures { self.new ≡ slice_set self.old n.0 (rate tree.now n.0 * units) }
    {
        let due = Budgets::budget_of(tree, n, units);
        self.remains[n.0 as usize] = due;
    }

    /// Takes the ticks off each leaf and each dual that runs. Each of them has as many left.
    pub fn spend(&mut self, tree: &Tree, runs: &[bool], ticks: u128)
        requires nodes { length self.old ≡ length tree.now.nodes }
        requires runs { length runs.now ≡ length tree.now.nodes }
        requires enough { (x : ℕ) → x < length self.old → spends tree.now runs.now x ≡ true → ticks ≤ slice_index self.old x }
        ensures nodes { length self.new ≡ length self.old }
        ensures spent { (x : ℕ) → x < length self.old → slice_index self.new x ≡ slice_index self.old x - bit (spends tree.now runs.now x) * ticks }
    {
        spend_all(&mut self.remains, tree, runs, ticks);
    }

    /// What is left at node n, in ticks.
    pub fn remain(&self, n: NodeId) -> u128
        requires { n.0 < length self.now }
        ensures value { result ≡ slice_index self.now n.0 }
        ensures fits { result ≤ 2 ^ 127 }
    {
        self.remains[n.0 as usize]
    }

    /// What is left at each node, in ticks.
    pub fn remains(&self) -> &[u128]
        ensures values { result.now ≡ self.now }
        ensures fit { (x : ℕ) → slice_index self.now x ≤ 2 ^ 127 }
    {
        self.remains.as_slice()
    }
}

// Whether node n is a leaf or a dual that runs.
fn spends(tree: &Tree, n: NodeId, runs: &[bool]) -> bool
    requires node { n.0 < length tree.now.nodes }
    requires runs { length runs.now ≡ length tree.now.nodes }
    ensures { result ≡ spends tree.now runs.now n.0 }
{
    match tree.kind(n) {
        Kind::Pack(_) => false,
        Kind::Leaf(_) | Kind::Dual(_) => runs[n.0 as usize],
    }
}

// What is left at one node.
fn left_at(remain: u128, spends: bool, ticks: u128) -> u128
    requires { spends ≡ true → ticks ≤ remain }
    ensures { result ≡ remain - bit spends * ticks }
{
    if spends { remain - ticks } else { remain }
}

fn spend_all(remains: &mut [u128], tree: &Tree, runs: &[bool], ticks: u128)
    requires nodes { length remains.old ≡ length tree.now.nodes }
    requires runs { length runs.now ≡ length tree.now.nodes }
    requires enough { (x : ℕ) → x < length remains.old → spends tree.now runs.now x ≡ true → ticks ≤ slice_index remains.old x }
    ensures { IsSpent tree.now runs.now ticks remains.old remains.new (length tree.now.nodes) }
{
    for x in 0..tree.nodes() {
        let spent = spends(tree, NodeId(x), runs);
        remains[x as usize] = left_at(remains[x as usize], spent, ticks);
    }
}
