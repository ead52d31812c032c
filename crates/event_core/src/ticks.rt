//! Ticks of nodes, of which the first is found without looking at all of them.
ghost use Rattle.std.specs.Prelude.{◌≡◌, ◌≢◌, ◌⊎◌, ℕ, List, ◌+◌, ◌*◌, ◌/◌, ◌<◌, ◌≤◌, length, min, replicate, slice_index, slice_set, IfOk};
ghost use Rattle.event_core.specs.Serving.{lists, no_tick, IsDrying, IsServing};
ghost use Rattle.event_core.specs.Ticks.{no_narrow, ticks_by, AreInBlocks, AreNarrowed, ArePlaces, IsFirstTick};

use crate::dried::run_dry;
use knockout::Knockout;
use run_tree::Tree;
use sched_base::{NoMemory, NodeId};
use server_budget::Dues;
use std::alloc::Global;
use std::marker::Model;
use tree_select::Marks;

/// How many places are a block.
const BLOCK: usize = 8;

/// The tick of each node, or the greatest number. It is seen as the list of these. Packs have the first places, since they alone get
/// ticks; so only as many blocks as they fill are looked at.
pub(crate) struct Ticks {
    // The place of each node, and the node at each place.
    number: Vec<u32>,
    nodes: Vec<u32>,
    by_place: Vec<u128>,
    // The ticks at the places, or the greatest number of 64 bits where they are later.
    narrow: Vec<u64>,
    // Of each block such a tick before which none of its own comes. Of one block alone it is 0, and isn't looked at.
    least: Vec<u64>,
    // From this place on no node has a tick.
    used: usize,
}

impl Drop for Ticks {
    fn drop(self) {
        let Self {
            number: _number,
            nodes: _nodes,
            by_place: _by_place,
            narrow: _narrow,
            least: _least,
            used: _used,
        } = self;
    }
}

impl Model for Ticks {
    ghost use Rattle.std.specs.Prelude.{List, ℕ, length};
    ghost use Rattle.event_core.specs.Ticks.{ticks_by, AreInBlocks, AreNarrowed, ArePlaces};

    ghost Value = { List ℕ };

    ghost view = { λ t. ticks_by t.number.items t.by_place.items };

    ghost invariant = { λ t. ArePlaces t.number.items t.nodes.items (length t.by_place.items)
        × AreNarrowed t.narrow.items t.by_place.items t.used × AreInBlocks t.least.items t.narrow.items t.used };
}

// The tick, or the greatest number of 64 bits where it is later.
fn narrowed(tick: u128) -> u64
    ensures { result ≡ min tick no_narrow }
{
    tick.min(u128::from(u64::MAX)) as u64
}

// The node at this place gets a tick of 64 bits.
fn set_narrow(least: &mut [u64], narrow: &mut [u64], used: usize, place: usize, tick: u64) -> usize
    requires blocks { AreInBlocks least.old narrow.old used }
    requires place { place < length narrow.old }
    ensures blocks { AreInBlocks least.new narrow.new result }
    ensures ticks { narrow.new ≡ slice_set narrow.old place tick }
    ensures used { (used ≤ result) × (place < result) }
{
    narrow[place] = tick;
    let next = used.max(place + 1);
    if next > BLOCK {
        least[place / BLOCK] = least[place / BLOCK].min(tick);
    }
    next
}

// The node at this place gets a tick.
fn set_at(
    least: &mut [u64],
    narrow: &mut [u64],
    ticks: &mut [u128],
    used: usize,
    place: usize,
    tick: u128,
) -> usize
    requires narrowed { AreNarrowed narrow.old ticks.old used }
    requires blocks { AreInBlocks least.old narrow.old used }
    requires place { place < length ticks.old }
    ensures narrowed { AreNarrowed narrow.new ticks.new result }
    ensures blocks { AreInBlocks least.new narrow.new result }
    ensures ticks { ticks.new ≡ slice_set ticks.old place tick }
{
    ticks[place] = tick;
    set_narrow(least, narrow, used, place, narrowed(tick))
}

// The place of node p.
fn place_of(number: &[u32], p: NodeId) -> usize
    requires { p.0 < length number.now }
    ensures { result ≡ slice_index number.now p.0 }
{
    number[p.0 as usize] as usize
}

// Node p gets a tick.
#[inline(always)]
fn set_node(
    number: &[u32],
    nodes: &[u32],
    least: &mut [u64],
    narrow: &mut [u64],
    ticks: &mut [u128],
    used: usize,
    p: NodeId,
    tick: u128,
) -> usize
    requires places { ArePlaces number.now nodes.now (length ticks.old) }
    requires narrowed { AreNarrowed narrow.old ticks.old used }
    requires blocks { AreInBlocks least.old narrow.old used }
    requires node { p.0 < length (ticks_by number.now ticks.old) }
    ensures places { ArePlaces number.now nodes.now (length ticks.new) }
    ensures narrowed { AreNarrowed narrow.new ticks.new result }
    ensures blocks { AreInBlocks least.new narrow.new result }
    ensures ticks { ticks_by number.now ticks.new ≡ slice_set (ticks_by number.now ticks.old) p.0 tick }
{
    let _nodes = nodes.len();
    let place = place_of(number, p);
    set_at(least, narrow, ticks, used, place, tick)
}

// The least tick of the places from one to another.
fn least_of(ticks: &[u64], from: usize, to: usize) -> u64
    requires some { from < to }
    requires within { to ≤ length ticks.now }
    ensures all { (k : ℕ) → from ≤ k → k < to → result ≤ slice_index ticks.now k }
    ensures one { (k : ℕ) × (k < length ticks.now) × (result ≡ slice_index ticks.now k) }
    ensures fits { result ≤ no_narrow }
{
    let mut first = ticks[from];
    for k in from..to {
        first = first.min(ticks[k]);
    }
    first
}

// The least tick of a block. Where all its places are used, their number is known.
fn least_in(ticks: &[u64], used: usize, block: usize) -> u64
    requires used { used ≤ length ticks.now }
    requires block { block * 8 < used }
    ensures all { (k : ℕ) → k < used → k / 8 ≡ block → result ≤ slice_index ticks.now k }
    ensures one { (k : ℕ) × (k < length ticks.now) × (result ≡ slice_index ticks.now k) }
    ensures fits { result ≤ no_narrow }
{
    let from = block * BLOCK;
    if used - from < BLOCK {
        return least_of(ticks, from, used);
    }
    least_of(ticks, from, from + BLOCK)
}

// The first of a tick and of a block's, which isn't looked at where it has none before. Where it is, what is kept of it is then its least.
fn first_in(least: &mut [u64], ticks: &[u64], used: usize, block: usize, first: u64) -> u64
    requires blocks { AreInBlocks least.old ticks.now used }
    requires block { block * 8 < used }
    requires many { 8 < used }
    ensures blocks { AreInBlocks least.new ticks.now used }
    ensures below { result ≤ first }
    ensures all { (k : ℕ) → k < length ticks.now → k / 8 ≡ block → result ≤ slice_index ticks.now k }
    ensures one { (result ≡ first) ⊎ ((k : ℕ) × (k < length ticks.now) × (result ≡ slice_index ticks.now k)) }
{
    if least[block] >= first {
        return first;
    }
    let own = least_in(ticks, used, block);
    least[block] = own;
    first.min(own)
}

// The first of a tick and of all others, where these are one block. What is kept of blocks is only spoken of.
fn first_of_one(least: &[u64], ticks: &[u64], used: usize, most: u64) -> u64
    requires blocks { AreInBlocks least.now ticks.now used }
    requires some { 0 < used }
    requires one { used ≤ 8 }
    requires most { most < no_narrow }
    ensures first { IsFirstTick ticks.now most result }
{
    let _least = least.len();
    most.min(least_of(ticks, 0, used))
}

// The first block from number `from` on that may have a tick before this one, or the number of blocks where there is none.
fn next_before(least: &[u64], tick: u64, from: usize, blocks: usize) -> usize
    requires from { from ≤ blocks }
    requires within { blocks ≤ length least.now }
    ensures after { from ≤ result }
    ensures within { result ≤ blocks }
    ensures skipped { (b : ℕ) → from ≤ b → b < result → tick ≤ slice_index least.now b }
{
    for block in from..blocks {
        if least[block] < tick {
            return block;
        }
    }
    blocks
}

// The first of a tick and of all others, where it has 64 bits.
fn first_narrow(least: &mut [u64], ticks: &[u64], used: usize, most: u64) -> u64
    requires blocks { AreInBlocks least.old ticks.now used }
    requires most { most < no_narrow }
    ensures blocks { AreInBlocks least.new ticks.now used }
    ensures first { IsFirstTick ticks.now most result }
{
    if used == 0 {
        return most;
    }
    if used <= BLOCK {
        return first_of_one(least, ticks, used, most);
    }
    let blocks = used.div_ceil(BLOCK);
    let mut first = most;
    let mut block = next_before(least, first, 0, blocks);
    'early: while block < blocks {
        first = first_in(least, ticks, used, block, first);
        block = next_before(least, first, block + 1, blocks);
    }
    first
}

// The first place from one to another that has this tick, or the latter where there is none.
fn next_in(ticks: &[u64], now: u64, from: usize, to: usize) -> usize
    requires from { from ≤ to }
    requires within { to ≤ length ticks.now }
    ensures after { from ≤ result }
    ensures within { result ≤ to }
    ensures here { result < to → slice_index ticks.now result ≡ now }
    ensures skipped { (k : ℕ) → k < length ticks.now → from ≤ k → k < result → slice_index ticks.now k ≢ now }
{
    for k in from..to {
        if ticks[k] == now {
            return k;
        }
    }
    to
}

// The first place of a block from number `from` on that has this tick, or the number of places that are used where there is none.
fn next_in_block(ticks: &[u64], used: usize, now: u64, block: usize, from: usize) -> usize
    requires used { used ≤ length ticks.now }
    requires block { block * 8 < used }
    requires from { from ≤ used }
    requires before { from < block * 8 + 8 }
    ensures after { from ≤ result }
    ensures within { result ≤ used }
    ensures here { result < used → slice_index ticks.now result ≡ now }
    ensures near { result < used → result < block * 8 + 8 }
    ensures skipped { (k : ℕ) → k < length ticks.now → from ≤ k → block * 8 ≤ k → k < block * 8 + 8 → k < result → slice_index ticks.now k ≢ now }
{
    let start = from.max(block * BLOCK);
    let end = used.min(block * BLOCK + BLOCK);
    let at = next_in(ticks, now, start, end);
    if at < end { at } else { used }
}

// The first place from number `from` on that has this tick of 64 bits, or the number of places that are used where there is none.
fn next_narrow(least: &[u64], ticks: &[u64], used: usize, now: u64, from: usize) -> usize
    requires blocks { AreInBlocks least.now ticks.now used }
    requires from { from ≤ used }
    requires early { now < no_narrow }
    ensures after { from ≤ result }
    ensures within { result ≤ used }
    ensures here { result < used → slice_index ticks.now result ≡ now }
    ensures skipped { (k : ℕ) → k < length ticks.now → from ≤ k → k < result → slice_index ticks.now k ≢ now }
{
    if used <= BLOCK {
        return next_in(ticks, now, from, used);
    }
    let blocks = used.div_ceil(BLOCK);
    let mut block = next_before(least, now + 1, from / BLOCK, blocks);
    'early: while block < blocks {
        let at = next_in_block(ticks, used, now, block, from);
        if at < used {
            return at;
        }
        block = next_before(least, now + 1, block + 1, blocks);
    }
    used
}

// The first of a tick and of all others, whatever these are.
fn first_wide(ticks: &[u128], used: usize, most: u128) -> u128
    requires used { used ≤ length ticks.now }
    ensures below { result ≤ most }
    ensures all { (k : ℕ) → k < used → result ≤ slice_index ticks.now k }
    ensures one { (result ≡ most) ⊎ ((k : ℕ) × (k < length ticks.now) × (result ≡ slice_index ticks.now k)) }
{
    let mut first = most;
    for k in 0..used {
        first = first.min(ticks[k]);
    }
    first
}

// The first of a tick and of all others.
fn first_of(least: &mut [u64], narrow: &[u64], ticks: &[u128], used: usize, most: u128) -> u128
    requires narrowed { AreNarrowed narrow.now ticks.now used }
    requires blocks { AreInBlocks least.old narrow.now used }
    requires most { most < no_tick }
    ensures blocks { AreInBlocks least.new narrow.now used }
    ensures first { IsFirstTick ticks.now most result }
{
    if most < u128::from(u64::MAX) {
        u128::from(first_narrow(least, narrow, used, most as u64))
    } else {
        first_wide(ticks, used, most)
    }
}

// The first place from one to another that has this tick, whatever it is, or the latter where there is none.
fn next_wide(ticks: &[u128], now: u128, from: usize, to: usize) -> usize
    requires from { from ≤ to }
    requires within { to ≤ length ticks.now }
    ensures after { from ≤ result }
    ensures within { result ≤ to }
    ensures here { result < to → slice_index ticks.now result ≡ now }
    ensures skipped { (k : ℕ) → k < length ticks.now → from ≤ k → k < result → slice_index ticks.now k ≢ now }
{
    for k in from..to {
        if ticks[k] == now {
            return k;
        }
    }
    to
}

/// The first place from number `from` on that has this tick, or the number of places that are used where there is none.
pub(crate) fn next_of(
    least: &[u64],
    narrow: &[u64],
    ticks: &[u128],
    used: usize,
    now: u128,
    from: usize,
) -> usize
    requires narrowed { AreNarrowed narrow.now ticks.now used }
    requires blocks { AreInBlocks least.now narrow.now used }
    requires from { from ≤ used }
    ensures after { from ≤ result }
    ensures within { result ≤ used }
    ensures here { result < used → slice_index ticks.now result ≡ now }
    ensures skipped { (k : ℕ) → k < length ticks.now → from ≤ k → k < result → slice_index ticks.now k ≢ now }
{
    if now < u128::from(u64::MAX) {
        next_narrow(least, narrow, used, now as u64, from)
    } else {
        next_wide(ticks, now, from, used)
    }
}

// Node x has this place.
fn stand(number: &mut [u32], nodes: &mut [u32], x: u32, place: u32)
    requires node { x < length number.old }
    requires place { place < length nodes.old }
    ensures number { number.new ≡ slice_set number.old x place }
    ensures nodes { nodes.new ≡ slice_set nodes.old place x }
{
    number[x as usize] = place;
    nodes[place as usize] = x;
}

// Packs get the first places, and members the others.
fn number_all(tree: &Tree, number: &mut [u32], nodes: &mut [u32])
    requires number { number.old ≡ replicate (length tree.now.nodes) 0 }
    requires nodes { nodes.old ≡ replicate (length tree.now.nodes) 0 }
    ensures places { ArePlaces number.new nodes.new (length tree.now.nodes) }
    ensures none { (ticks : List ℕ) → ticks ≡ replicate (length tree.now.nodes) no_tick →
        ticks_by number.new ticks ≡ replicate (length tree.now.nodes) no_tick }
{
    let mut front = 0;
    let mut back = tree.nodes();
    for x in 0..tree.nodes() {
        if tree.is_member(NodeId(x)) {
            back -= 1;
            stand(number, nodes, x, back);
        } else {
            stand(number, nodes, x, front);
            front += 1;
        }
    }
}

fn all_free(alloc: Global, count: usize) -> Result<Vec<u32>, NoMemory>
    ensures { IfOk result (λ v. v.items ≡ replicate count 0) }
{
    Ok(vec![in alloc; 0u32; count]?)
}

fn no_ticks(alloc: Global, count: usize) -> Result<Vec<u128>, NoMemory>
    ensures { IfOk result (λ v. v.items ≡ replicate count no_tick) }
{
    Ok(vec![in alloc; u128::MAX; count]?)
}

// Of each block the first tick that there is.
fn no_bounds(alloc: Global, count: usize) -> Result<Vec<u64>, NoMemory>
    ensures { IfOk result (λ v. v.items ≡ replicate count 0) }
{
    Ok(vec![in alloc; 0u64; count]?)
}

// Places without a tick.
fn no_narrow(alloc: Global, count: usize) -> Result<Vec<u64>, NoMemory>
    ensures { IfOk result (λ v. v.items ≡ replicate count no_narrow) }
{
    Ok(vec![in alloc; u64::MAX; count]?)
}

impl Ticks {
    /// No node of the tree has a tick.
    pub(crate) fn new(alloc: Global, tree: &Tree) -> Result<Ticks, NoMemory>
        ensures { IfOk result (λ t. t ≡ replicate (length tree.now.nodes) no_tick) }
    {
        let count = tree.nodes() as usize;
        let mut number = all_free(alloc, count)?;
        let mut nodes = all_free(alloc, count)?;
        number_all(tree, &mut number, &mut nodes);
        Ok(Ticks {
            by_place: no_ticks(alloc, count)?,
            narrow: no_narrow(alloc, count)?,
            number,
            nodes,
            least: no_bounds(alloc, count / BLOCK + 1)?,
            used: 0,
        })
    }

    /// Node p gets a tick.
    pub(crate) fn set(&mut self, p: NodeId, tick: u128)
        requires { p.0 < length self.old }
        ensures { self.new ≡ slice_set self.old p.0 tick }
    {
        self.used = set_node(
            &self.number,
            &self.nodes,
            &mut self.least,
            &mut self.narrow,
            &mut self.by_place,
            self.used,
            p,
            tick,
        );
    }

    /// The first of a tick and of all these.
    pub(crate) fn first(&mut self, most: u128) -> u128
        requires { most < no_tick }
        ensures same { self.new ≡ self.old }
        ensures first { IsFirstTick self.old most result }
    {
        first_of(
            &mut self.least,
            &self.narrow,
            &self.by_place,
            self.used,
            most,
        )
    }

    /// Members that ran dry at the present tick are ready no more, and their packs are marked. The ends and who runs are only
    /// spoken of.
    pub(crate) fn run_dry(
        &self,
        tree: &Tree,
        ends: &[u128],
        dues: &Dues,
        serves: &[Option<u32>],
        runs: &[bool],
        ready: &mut [Knockout],
        stale: &mut Marks,
    )
        requires ready { length ready.old ≡ length tree.now.nodes }
        requires serves { length serves.now ≡ length tree.now.nodes }
        requires stale { length stale.old ≡ length tree.now.nodes }
        requires drying { IsDrying tree.now dues.now ends.now (lists ready.old serves.now self.now stale.old runs.now) (λ q. ⊥) }
        ensures serving { IsServing tree.now dues.now ends.now (lists ready.new serves.now self.now stale.new runs.now) }
        ensures long { length stale.new ≡ length stale.old }
    {
        run_dry(
            tree,
            &self.number,
            &self.nodes,
            &self.least,
            &self.narrow,
            &self.by_place,
            self.used,
            ends,
            dues,
            serves,
            runs,
            ready,
            stale,
        );
    }
}
