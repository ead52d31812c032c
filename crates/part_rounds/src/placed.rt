//! Packs of level 0, placed by what each shows.
ghost use Rattle.std.specs.Prelude.{ℕ, ◌≡◌, ◌<◌, ◌≤◌, ◌+◌, ◌^◌, length, IfOk, None, Some, slice_index, slice_index_or, slice_set};
ghost use Rattle.std.specs.List.{AllByRecursion};
ghost use Rattle.sched_base.specs.declared.rows.Leaf.{Leaf as DeclaredLeaf};
ghost use Rattle.sched_base.specs.declared.rows.Leaf.TheVariants.{Empty as empty_leaf};
ghost use Rattle.sched_base.specs.declared.rows.Row.{Row as DeclaredRow};
ghost use Rattle.run_tree.specs.Plans.{stop_of};
ghost use Rattle.event_core.specs.Rounds.{IsRoundUpTo};
ghost use Rattle.event_core.specs.Told.{AreTold, IsTold};
ghost use Rattle.merged_rounds.specs.Replays.{AreNotedTo, IsEntryTaken, packs_of};
ghost use Rattle.merged_rounds.specs.Shown.{is_some};
ghost use Rattle.round_looks.specs.Looks.{leaf_at};
ghost use Rattle.part_rounds.specs.Placed.{AreShown, IsPlacedUpTo};

use cpu_assign::{Changes, Places};
use event_core::Core;
use run_tree::Plan;
use sched_base::{Leaf, NoMemory};
use std::alloc::Global;

/// The places of packs of level 0, and what each showed in the round just gone.
pub(crate) struct Placed {
    places: Places,
    changes: Changes,
    before: Vec<Option<Leaf>>,
}

impl Drop for Placed {
    fn drop(self) {
        let Self {
            places: _places,
            changes: _changes,
            before: _before,
        } = self;
    }
}

/// No pack is placed, before the round that starts at tick 0.
pub(crate) fn none_placed(alloc: Global, plan: &Plan) -> Result<Placed, NoMemory>
    requires on_time { AllByRecursion (λ t. t.offset ≡ 0) plan.now.set.tasks }
    ensures { IfOk result (λ placed. IsPlacedUpTo plan.now 0 placed) }
{
    plan.know_lawful();
    let core = Core::new(alloc, plan)?;
    let packs = plan.tree().packs(0);
    Ok(Placed {
        places: core.places().copy(alloc)?,
        changes: Changes::new(alloc, packs)?,
        before: vec![in alloc; None; packs as usize]?,
    })
}

// Whether something is told.
#[inline(always)]
fn is_told(shows: Option<Leaf>) -> bool
    ensures { result ≡ is_some shows }
{
    match shows {
        None => false,
        Some(_leaf) => true,
    }
}

// Pack k shows this now, and is listed where that is something else than before.
#[inline(always)]
fn note(k: u32, leaf: Option<Leaf>, before: &mut [Option<Leaf>], changes: &mut Changes)
    requires pack { k < length before.old }
    requires seen { length changes.old.seen < changes.old.room }
    requires stopped { length changes.old.stopped < changes.old.room }
    requires begun { length changes.old.begun < changes.old.room }
    ensures shows { before.new ≡ slice_set before.old k leaf }
    ensures noted { IsEntryTaken before.old k leaf changes.old changes.new }
    ensures room { changes.new.room ≡ changes.old.room }
{
    let was = before[k as usize];
    before[k as usize] = leaf;
    if leaf != was {
        changes.see(k, is_told(leaf), is_told(was));
    }
}

// Each pack shows this now, and those are listed that show something else than before.
#[inline(always)]
fn note_all(shows: &[Option<Leaf>], before: &mut [Option<Leaf>], changes: &mut Changes)
    requires many { length shows.now ≡ length before.old }
    requires few { length shows.now < 2 ^ 32 }
    requires room { changes.old.room ≡ length before.old }
    ensures noted { AreNotedTo before.old before.new (length before.old) changes.new }
    ensures shown { (k : ℕ) → k < length shows.now → slice_index_or before.new k None ≡ slice_index_or shows.now k None }
    ensures room { changes.new.room ≡ changes.old.room }
{
    changes.clear();
    for k in 0..shows.len() {
        note(k as u32, shows[k], before, changes);
    }
}

// A processor, where there is one, is told behind the first `count`. How many are told then.
#[inline(always)]
fn tell(processor: Option<u32>, told: &mut [u32], count: usize) -> usize
    requires { count < length told.old }
    ensures some { (q : ℕ) → processor ≡ Some q → (result ≡ count + 1) × (told.new ≡ slice_set told.old count q) }
    ensures none { processor ≡ None → (result ≡ count) × (told.new ≡ told.old) }
{
    match processor {
        None => count,
        Some(q) => {
            told[count] = q;
            count + 1
        },
    }
}

// Tells the processor that each of these packs holds, or held last, where there is one. How many are told; a processor may be told twice.
#[inline(always)]
fn tell_places(places: &Places, packs: &[u32], told: &mut [u32]) -> usize
    requires packs { (k : ℕ) → k < length packs.now → slice_index packs.now k < length places.now.last }
    requires room { length packs.now ≤ length told.old }
    ensures within { result ≤ length told.new }
    ensures told { AreTold places.now packs.now told.new (length packs.now) result }
{
    places.know_noted();
    let mut count = 0;
    for k in 0..packs.len() {
        count = tell(places.last_of(packs[k]), told, count);
    }
    count
}

impl Placed {
    /// Places the packs in the round that starts at this tick, given what each shows in it, and tells the processors, numbered from 0, on which it
    /// may show something else than the one before. How many are told; one may be told twice. It takes no memory.
    #[inline(always)]
    pub(crate) fn place_telling(
        &mut self,
        plan: &Plan,
        start: u128,
        shows: &[Option<Leaf>],
        told: &mut [u32],
    ) -> usize
        requires belongs { IsPlacedUpTo plan.now start self.old }
        requires shows { AreShown plan.now start shows.now }
        requires early { start < stop_of plan.now }
        requires room { length told.old ≡ packs_of plan.now }
        ensures belongs { (end : ℕ) → IsRoundUpTo plan.now start end → IsPlacedUpTo plan.now end self.new }
        ensures long { length told.new ≡ length told.old }
        ensures within { result ≤ length told.new }
        ensures processors { (j : ℕ) → j < result → slice_index told.new j < plan.now.tree.processors }
        ensures others { (q before end : ℕ) (none : DeclaredRow) → q < plan.now.tree.processors → (IsTold told.new result q → ⊥) →
            IsRoundUpTo plan.now before start → IsRoundUpTo plan.now start end →
            leaf_at plan.now start end q none ≡ leaf_at plan.now before start q none }
        ensures first { start ≡ 0 → (q : ℕ) → q < plan.now.tree.processors → IsTold told.new result q }
    {
        plan.know_lawful();
        let _start = start;
        self.places.know_noted();
        note_all(shows, &mut self.before, &mut self.changes);
        self.places.place_again(&self.changes);
        self.places.know_noted();
        tell_places(&self.places, self.changes.seen(), told)
    }

    /// What processor q shows in the round just gone, from `start` up to `end`. The ticks are only spoken of.
    #[inline(always)]
    pub(crate) fn leaf_on(&self, plan: &Plan, start: u128, end: u128, q: u32) -> Leaf
        requires belongs { IsPlacedUpTo plan.now end self.now }
        requires round { IsRoundUpTo plan.now start end }
        requires processor { q < plan.now.tree.processors }
        ensures { (none : DeclaredRow) → leaf_at plan.now start end q none ≡ result }
    {
        plan.know_lawful();
        let _start = start;
        let _end = end;
        shown_in(&self.before, self.places.pack_on(q))
    }
}

// What this pack shows, or nothing.
#[inline(always)]
fn shown_in(shows: &[Option<Leaf>], pack: Option<u32>) -> Leaf
    requires { (k : ℕ) → pack ≡ Some k → k < length shows.now }
    ensures none { pack ≡ None → result ≡ empty_leaf }
    ensures some { (k : ℕ) (l : DeclaredLeaf) → pack ≡ Some k → slice_index_or shows.now k None ≡ Some l → result ≡ l }
{
    let Some(k) = pack else {
        return Leaf::Empty;
    };
    match shows[k as usize] {
        None => Leaf::Empty,
        Some(leaf) => leaf,
    }
}
