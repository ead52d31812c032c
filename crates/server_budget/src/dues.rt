//! What is left of each due, while nodes run and rest. Time passes at no cost.
ghost use Rattle.std.specs.Prelude.{◌≡◌, ℕ, ◌<◌, ◌≤◌, ◌+◌, ◌-◌, ◌*◌, ◌^◌, true, false, length, replicate};
ghost use Rattle.std.specs.Prelude.{slice_index, slice_index_or, slice_set, IfOk};
ghost use Rattle.sched_base.specs.Counting.{bit};
ghost use Rattle.server_budget.specs.Dues.{left_by, remains_by, AreAhead};

use run_tree::Tree;
use sched_base::{NoMemory, NodeId};
use std::alloc::Global;
use std::marker::Model;

/// What is left of the due of each node at the present tick, and which nodes run from then on.
#[derive(Drop)]
pub struct Dues {
    tick: u128,
    runs: Vec<bool>,
    // Where a node runs, the tick at which nothing will be left; else what is left.
    marks: Vec<u128>,
}

impl Model for Dues {
    ghost use Rattle.server_budget.specs.Dues.{DueContents, remains_by, AreAhead};

    ghost Value = { DueContents };

    ghost view = { λ d. record { tick = d.tick; remains = remains_by d.tick d.runs.items d.marks.items; runs = d.runs.items } };

    ghost invariant = { λ d. AreAhead d.tick d.runs.items d.marks.items };
}

impl Dues {
    /// At tick 0 nothing is left at any node, and none runs.
    pub fn new(alloc: Global, tree: &Tree) -> Result<Dues, NoMemory>
        ensures tick { IfOk result (λ d. d.tick ≡ 0) }
        ensures remains { IfOk result (λ d. d.remains ≡ replicate (length tree.now.nodes) 0) }
        ensures runs { IfOk result (λ d. d.runs ≡ replicate (length tree.now.nodes) false) }
    {
        let count = tree.nodes() as usize;
        let runs = resting(alloc, count)?;
        let marks = spent(alloc, count)?;
        Ok(Dues {
            tick: 0,
            runs,
            marks,
        })
    }

    /// The present tick.
    pub fn now(&self) -> u128
        ensures value { result ≡ self.now.tick }
        ensures fits { result < 2 ^ 128 }
    {
        self.tick
    }

    /// Node n runs from now on.
    pub fn start(&mut self, n: NodeId)
        requires node { n.0 < length self.old.runs }
        requires rests { slice_index_or self.old.runs n.0 false ≡ false }
        requires fits { self.old.tick + slice_index self.old.remains n.0 < 2 ^ 128 }
        ensures tick { self.new.tick ≡ self.old.tick }
        ensures remains { self.new.remains ≡ self.old.remains }
        ensures runs { self.new.runs ≡ slice_set self.old.runs n.0 true }
    {
        start_at(&mut self.marks, &mut self.runs, self.tick, n.0 as usize);
    }

    /// Node n rests from now on.
    pub fn stop(&mut self, n: NodeId)
        requires node { n.0 < length self.old.runs }
        requires runs { slice_index_or self.old.runs n.0 false ≡ true }
        ensures tick { self.new.tick ≡ self.old.tick }
        ensures remains { self.new.remains ≡ self.old.remains }
        ensures runs { self.new.runs ≡ slice_set self.old.runs n.0 false }
    {
        stop_at(&mut self.marks, &mut self.runs, self.tick, n.0 as usize);
    }

    /// Node `before` rests from now on, and node `after` runs. It returns the tick at which the latter has nothing left.
    pub fn hand_over(&mut self, before: NodeId, after: NodeId) -> u128
        requires before { before.0 < length self.old.runs }
        requires after { after.0 < length self.old.runs }
        requires runs { slice_index_or self.old.runs before.0 false ≡ true }
        requires rests { slice_index_or self.old.runs after.0 false ≡ false }
        requires fits { self.old.tick + slice_index self.old.remains after.0 < 2 ^ 128 }
        ensures tick { self.new.tick ≡ self.old.tick }
        ensures remains { self.new.remains ≡ self.old.remains }
        ensures runs { self.new.runs ≡ slice_set (slice_set self.old.runs before.0 false) after.0 true }
        ensures dry { result ≡ self.old.tick + slice_index self.old.remains after.0 }
    {
        hand_over_at(
            &mut self.marks,
            &mut self.runs,
            self.tick,
            before.0 as usize,
            after.0 as usize,
        )
    }

    /// Gives node n this due. What was left there before is lost.
    pub fn give(&mut self, n: NodeId, due: u128)
        requires node { n.0 < length self.old.runs }
        requires fits { self.old.tick + due < 2 ^ 128 }
        ensures tick { self.new.tick ≡ self.old.tick }
        ensures remains { self.new.remains ≡ slice_set self.old.remains n.0 due }
        ensures runs { self.new.runs ≡ self.old.runs }
    {
        give_at(&mut self.marks, &self.runs, self.tick, n.0 as usize, due);
    }

    /// This many ticks pass. Each node that runs must have them left.
    pub fn pass(&mut self, ticks: u128)
        requires fits { self.old.tick + ticks < 2 ^ 128 }
        requires enough { (x : ℕ) → slice_index_or self.old.runs x false ≡ true → ticks ≤ slice_index self.old.remains x }
        ensures tick { self.new.tick ≡ self.old.tick + ticks }
        ensures runs { self.new.runs ≡ self.old.runs }
        ensures nodes { length self.new.remains ≡ length self.old.remains }
        ensures spent { (x : ℕ) → x < length self.old.remains → slice_index self.new.remains x
            ≡ slice_index self.old.remains x - bit (slice_index_or self.old.runs x false) * ticks }
    {
        self.tick += ticks;
    }

    /// What is left of the due of node n.
    pub fn left_of(&self, n: NodeId) -> u128
        requires { n.0 < length self.now.runs }
        ensures { result ≡ slice_index self.now.remains n.0 }
    {
        remain_at(&self.marks, &self.runs, self.tick, n.0 as usize)
    }

    /// The tick at which node n, which runs, has nothing left.
    pub fn dry(&self, n: NodeId) -> u128
        requires node { n.0 < length self.now.runs }
        requires runs { slice_index_or self.now.runs n.0 false ≡ true }
        ensures value { result ≡ self.now.tick + slice_index self.now.remains n.0 }
        ensures fits { result < 2 ^ 128 }
    {
        dry_at(&self.marks, &self.runs, self.tick, n.0 as usize)
    }
}

fn resting(alloc: Global, count: usize) -> Result<Vec<bool>, NoMemory>
    ensures { IfOk result (λ v. v.items ≡ replicate count false) }
{
    Ok(vec![in alloc; false; count]?)
}

fn spent(alloc: Global, count: usize) -> Result<Vec<u128>, NoMemory>
    ensures { IfOk result (λ v. v.items ≡ replicate count 0) }
{
    Ok(vec![in alloc; 0u128; count]?)
}

// The tick at which nothing is left.
fn raised(left: u128, tick: u128) -> u128
    requires { tick + left < 2 ^ 128 }
    ensures { result ≡ left + tick }
{
    left + tick
}

fn dry_at(marks: &[u128], runs: &[bool], tick: u128, n: usize) -> u128
    requires ahead { AreAhead tick runs.now marks.now }
    requires node { n < length runs.now }
    requires runs { slice_index_or runs.now n false ≡ true }
    ensures { result ≡ tick + slice_index (remains_by tick runs.now marks.now) n }
{
    let _tick = tick;
    let _runs = runs.len();
    marks[n]
}

fn remain_at(marks: &[u128], runs: &[bool], tick: u128, n: usize) -> u128
    requires ahead { AreAhead tick runs.now marks.now }
    requires node { n < length runs.now }
    ensures { result ≡ slice_index (remains_by tick runs.now marks.now) n }
{
    if runs[n] { marks[n] - tick } else { marks[n] }
}

// Node n starts; the tick at which it has nothing left.
fn start_at(marks: &mut [u128], runs: &mut [bool], tick: u128, n: usize) -> u128
    requires ahead { AreAhead tick runs.old marks.old }
    requires node { n < length runs.old }
    requires rests { slice_index_or runs.old n false ≡ false }
    requires fits { tick + slice_index (remains_by tick runs.old marks.old) n < 2 ^ 128 }
    ensures ahead { AreAhead tick runs.new marks.new }
    ensures remains { remains_by tick runs.new marks.new ≡ remains_by tick runs.old marks.old }
    ensures runs { runs.new ≡ slice_set runs.old n true }
    ensures dry { result ≡ tick + slice_index (remains_by tick runs.old marks.old) n }
{
    let dry = raised(marks[n], tick);
    marks[n] = dry;
    runs[n] = true;
    dry
}

fn stop_at(marks: &mut [u128], runs: &mut [bool], tick: u128, n: usize)
    requires ahead { AreAhead tick runs.old marks.old }
    requires node { n < length runs.old }
    requires runs { slice_index_or runs.old n false ≡ true }
    ensures ahead { AreAhead tick runs.new marks.new }
    ensures remains { remains_by tick runs.new marks.new ≡ remains_by tick runs.old marks.old }
    ensures runs { runs.new ≡ slice_set runs.old n false }
{
    marks[n] -= tick;
    runs[n] = false;
}

// One node stops and another one starts; the tick at which the latter has nothing left.
fn hand_over_at(
    marks: &mut [u128],
    runs: &mut [bool],
    tick: u128,
    before: usize,
    after: usize,
) -> u128
    requires ahead { AreAhead tick runs.old marks.old }
    requires before { before < length runs.old }
    requires after { after < length runs.old }
    requires runs { slice_index_or runs.old before false ≡ true }
    requires rests { slice_index_or runs.old after false ≡ false }
    requires fits { tick + slice_index (remains_by tick runs.old marks.old) after < 2 ^ 128 }
    ensures ahead { AreAhead tick runs.new marks.new }
    ensures remains { remains_by tick runs.new marks.new ≡ remains_by tick runs.old marks.old }
    ensures runs { runs.new ≡ slice_set (slice_set runs.old before false) after true }
    ensures dry { result ≡ tick + slice_index (remains_by tick runs.old marks.old) after }
{
    stop_at(marks, runs, tick, before);
    start_at(marks, runs, tick, after)
}

// The mark of a due that is given at a tick to what runs or rests.
fn mark_of(due: u128, run: bool, tick: u128) -> u128
    requires { tick + due < 2 ^ 128 }
    ensures due { left_by tick run result ≡ due }
    ensures ahead { run ≡ true → tick ≤ result }
{
    if run { due + tick } else { due }
}

fn give_at(marks: &mut [u128], runs: &[bool], tick: u128, n: usize, due: u128)
    requires ahead { AreAhead tick runs.now marks.old }
    requires node { n < length runs.now }
    requires fits { tick + due < 2 ^ 128 }
    ensures ahead { AreAhead tick runs.now marks.new }
    ensures remains { remains_by tick runs.now marks.new ≡ slice_set (remains_by tick runs.now marks.old) n due }
{
    marks[n] = mark_of(due, runs[n], tick);
}
