//! The rounds of the first hyperperiod as they come again: who runs is known, and packs are placed anew.
ghost use Rattle.std.specs.Prelude.{ℕ, ◌≡◌, ◌<◌, ◌≤◌, ◌^◌, ◌+◌, ◌⊎◌, length, IfOk, None, Some, slice_index, slice_index_or, slice_set, replicate};
ghost use Rattle.sched_base.specs.declared.rows.Leaf.{Leaf as DeclaredLeaf};
ghost use Rattle.sched_base.specs.declared.rows.Leaf.TheVariants.{Empty as empty_leaf};
ghost use Rattle.sched_base.specs.declared.rows.Row.{Row as DeclaredRow};
ghost use Rattle.run_tree.specs.Plans.{stop_of};
ghost use Rattle.event_core.specs.Cores.{IsCoreOf};
ghost use Rattle.event_core.specs.Rounds.{IsRoundUpTo};
ghost use Rattle.event_core.specs.Told.{AreTold, IsTold};
ghost use Rattle.merged_rounds.specs.Laps.{round_start};
ghost use Rattle.round_looks.specs.Looks.{leaf_at};
ghost use Rattle.merged_rounds.specs.Replays.{AreNotedTo, AreOrdered, BeginsAgain, HasPlaced, IsEntryTaken, IsReplayOf, IsTaken, packs_of, turn_end};
ghost use Rattle.merged_rounds.specs.Shown.{packs_in, shown_in};

use crate::shown::{Entry, Shown};
use crate::turns::Turn;
use cpu_assign::{Changes, Places};
use event_core::Core;
use run_tree::Plan;
use sched_base::{Leaf, NoMemory};
use std::alloc::Global;

/// The rounds of the first hyperperiod as they come again: the next one by its number, how many ticks later it begins, the places, and
/// what each pack shows in the round just gone.
pub(crate) struct Replay {
    lap: Turn,
    next: usize,
    shift: u128,
    places: Places,
    changes: Changes,
    shows: Vec<Shown>,
}

impl Drop for Replay {
    fn drop(self) {
        let Self {
            lap: _lap,
            next: _next,
            shift: _shift,
            places: _places,
            changes: _changes,
            shows: _shows,
        } = self;
    }
}

// Pack k shows this now, and is listed where that is something else than before.
#[inline(always)]
fn take_entry(k: u32, leaf: Shown, shows: &mut [Shown], changes: &mut Changes)
    requires pack { k < length shows.old }
    requires seen { length changes.old.seen < changes.old.room }
    requires stopped { length changes.old.stopped < changes.old.room }
    requires begun { length changes.old.begun < changes.old.room }
    ensures shows { shows.new ≡ slice_set shows.old k leaf }
    ensures taken { IsEntryTaken shows.old k leaf changes.old changes.new }
    ensures room { changes.new.room ≡ changes.old.room }
{
    let before = shows[k as usize];
    shows[k as usize] = leaf;
    if !leaf.is_same(before) {
        changes.see(k, leaf.is_some(), before.is_some());
    }
}

// Packs show what the entries from place `low` up to `high` tell, and those are listed that show something else than before.
fn take_entries(
    entries: &[Entry],
    low: usize,
    high: usize,
    shows: &mut [Shown],
    changes: &mut Changes,
)
    requires ordered { AreOrdered (packs_in entries.now) low high (length shows.old) }
    requires room { changes.old.room ≡ length shows.old }
    ensures noted { AreNotedTo shows.old shows.new (length shows.old) changes.new }
    ensures taken { (k : ℕ) → IsTaken (packs_in entries.now) (shown_in entries.now) low high shows.old shows.new k }
    ensures room { changes.new.room ≡ changes.old.room }
{
    changes.clear();
    for j in low..high {
        let entry = &entries[j];
        take_entry(entry.pack(), entry.shown(), shows, changes);
    }
}

// A processor, where there is one, is told behind the first `count`. How many are told then.
#[inline(always)]
fn tell(processor: Option<u32>, told: &mut [u32], count: usize) -> usize
    requires { count < length told.old }
    ensures some { (q : ℕ) → processor ≡ Some q → (result ≡ count + 1) × (told.new ≡ slice_set told.old count q) }
    ensures none { processor ≡ None → (result ≡ count) × (told.new ≡ told.old) }
{
    match processor {
        None => count,
        Some(q) => {
            told[count] = q;
            count + 1
        },
    }
}

/// Tells the processor that each of these packs holds, or held last, where there is one. How many are told; a processor may be told
/// twice.
#[inline(always)]
pub(crate) fn tell_places(places: &Places, packs: &[u32], told: &mut [u32]) -> usize
    requires packs { (k : ℕ) → k < length packs.now → slice_index packs.now k < length places.now.last }
    requires room { length packs.now ≤ length told.old }
    ensures within { result ≤ length told.new }
    ensures told { AreTold places.now packs.now told.new (length packs.now) result }
{
    places.know_noted();
    let mut count = 0;
    for k in 0..packs.len() {
        count = tell(places.last_of(packs[k]), told, count);
    }
    count
}

// Room for the packs that change.
fn room_for_changes(alloc: Global, plan: &Plan) -> Result<Changes, NoMemory>
    ensures { IfOk result (λ c. c.room ≡ packs_of plan.now) }
{
    plan.know_lawful();
    Ok(Changes::new(alloc, plan.tree().packs(0))?)
}

// The round behind round i of a hyperperiod, which begins anew behind its last one, and how many ticks later it begins.
fn behind(lap: &Turn, i: usize, shift: u128) -> (usize, u128)
    requires round { i < length lap.now.ends }
    requires fits { shift + turn_end lap.now < 2 ^ 128 }
    ensures within { result.0 < length lap.now.ends }
    ensures at { round_start 0 lap.now.ends result.0 + result.1 ≡ slice_index lap.now.ends i + shift }
    ensures shift { (result.1 ≡ shift) ⊎ (result.1 ≡ shift + turn_end lap.now) }
    ensures next { (result.0 ≡ 0) ⊎ (result.0 ≡ i + 1) }
{
    if i < lap.rounds() - 1 {
        (i + 1, shift)
    } else {
        (0, shift + lap.end())
    }
}

/// The rounds of a hyperperiod that begin again at the core's tick.
pub(crate) fn replay_of(
    alloc: Global,
    plan: &Plan,
    core: &Core,
    lap: Turn,
) -> Result<Replay, NoMemory>
    requires belongs { IsCoreOf plan.now core.now }
    ensures { IfOk result (λ replay. BeginsAgain plan.now core.now.tick lap → IsReplayOf plan.now core.now.tick replay) }
{
    plan.know_lawful();
    let shows = Vec::from_slice(alloc, &lap.last)?;
    let places = core.places().copy(alloc)?;
    let changes = room_for_changes(alloc, plan)?;
    Ok(Replay {
        lap,
        next: 0,
        shift: core.now(),
        places,
        changes,
        shows,
    })
}

impl Replay {
    /// The kept rounds.
    #[inline(always)]
    pub(crate) fn kept(&self) -> &Turn
        ensures { result.now ≡ self.now.lap }
    {
        &self.lap
    }

    /// The places before the next round.
    pub(crate) fn places(&self) -> &Places
        ensures { result.now ≡ self.now.places }
    {
        &self.places
    }

    /// Moves to the end of the next round, which begins at tick `start`: that end.
    pub(crate) fn go(&mut self, plan: &Plan, start: u128) -> u128
        requires belongs { IsReplayOf plan.now start self.old }
        requires early { start < stop_of plan.now }
        ensures belongs { IsReplayOf plan.now result self.new }
        ensures round { IsRoundUpTo plan.now start result }
        ensures placed { HasPlaced plan.now start self.old self.new }
    {
        plan.know_lawful();
        let _start = start;
        let low = self.lap.part(self.next);
        let high = self.lap.part(self.next + 1);
        take_entries(
            &self.lap.entries,
            low,
            high,
            &mut self.shows,
            &mut self.changes,
        );
        self.places.place_again(&self.changes);
        let end = self.lap.end_of(self.next, self.shift, plan.rounds_end());
        let (next, shift) = behind(&self.lap, self.next, self.shift);
        self.next = next;
        self.shift = shift;
        end
    }

    /// Moves to the end of the next round as `go` does, and tells the processors on which it may show something else than the one before.
    /// That end, and how many are told.
    #[inline(always)]
    pub(crate) fn go_telling(&mut self, plan: &Plan, start: u128, told: &mut [u32]) -> (u128, usize)
        requires belongs { IsReplayOf plan.now start self.old }
        requires early { start < stop_of plan.now }
        requires room { length told.old ≡ packs_of plan.now }
        ensures belongs { IsReplayOf plan.now result.0 self.new }
        ensures round { IsRoundUpTo plan.now start result.0 }
        ensures within { result.1 ≤ length told.new }
        ensures processors { (j : ℕ) → j < result.1 → slice_index told.new j < plan.now.tree.processors }
        ensures others { (q before : ℕ) (none : DeclaredRow) → q < plan.now.tree.processors → (IsTold told.new result.1 q → ⊥) →
            IsRoundUpTo plan.now before start → leaf_at plan.now start result.0 q none ≡ leaf_at plan.now before start q none }
        ensures placed { (q : ℕ) → q < plan.now.tree.processors → (IsTold told.new result.1 q → ⊥) →
            slice_index_or self.new.places.onto q None ≡ slice_index_or self.old.places.onto q None }
    {
        plan.know_lawful();
        self.places.know_noted();
        let end = self.go(plan, start);
        self.places.know_noted();
        let count = tell_places(&self.places, self.changes.seen(), told);
        (end, count)
    }

    /// What processor q shows in the round just gone, from `start` up to `end`.
    #[inline(always)]
    pub(crate) fn leaf_on(&self, plan: &Plan, start: u128, end: u128, q: u32) -> Leaf
        requires belongs { IsReplayOf plan.now end self.now }
        requires round { IsRoundUpTo plan.now start end }
        requires processor { q < plan.now.tree.processors }
        ensures { (none : DeclaredRow) → leaf_at plan.now start end q none ≡ result }
    {
        plan.know_lawful();
        let _start = start;
        let _end = end;
        leaf_of(&self.shows, self.places.pack_on(q))
    }
}

// What this pack shows, or nothing.
#[inline(always)]
fn leaf_of(shows: &[Shown], pack: Option<u32>) -> Leaf
    requires { (k : ℕ) → pack ≡ Some k → k < length shows.now }
    ensures none { pack ≡ None → result ≡ empty_leaf }
    ensures some { (k : ℕ) (l : DeclaredLeaf) → pack ≡ Some k → slice_index_or shows.now k None ≡ Some l → result ≡ l }
{
    let Some(k) = pack else {
        return Leaf::Empty;
    };
    match shows[k as usize].leaf() {
        None => Leaf::Empty,
        Some(leaf) => leaf,
    }
}
