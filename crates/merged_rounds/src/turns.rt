//! The rounds of the first hyperperiod, kept by the packs that show something else than in the round before.
ghost use Rattle.std.specs.Prelude.{◌≡◌, ◌<◌, ◌≤◌, ◌+◌, ◌^◌, ◌++◌, ◌∷◌, min};
ghost use Rattle.std.specs.Prelude.{ℕ, [], true, false, length, IfErr, IfOk, None, Some, slice_index, slice_index_or, replicate, vec_len};
ghost use Rattle.sched_base.specs.Places.{is_held};
ghost use Rattle.run_tree.specs.Plans.{PlanContents, stop_of};
ghost use Rattle.event_core.specs.Cores.{places_of};
ghost use Rattle.event_core.specs.Counts.{IsCountFault};
ghost use Rattle.event_core.specs.Rounds.{IsRoundUpTo};
ghost use Rattle.merged_rounds.specs.declared.turns.Turn.{Turn as DeclaredTurn};
ghost use Rattle.merged_rounds.specs.Changes.{AreLeavesOf, IsNone, IsTurning};
ghost use Rattle.merged_rounds.specs.Laps.{CanComeRound, IsAllTold, IsSumUpTo, round_start};
ghost use Rattle.merged_rounds.specs.Replays.{AreHolding, AreKept, AreStill, IsPackOn, IsSourceOf, IsTurnOf};
ghost use Rattle.merged_rounds.specs.Replays.{packs_kept, packs_of, part_start, shown_kept, turn_end};

use crate::changed::{first_of, merge_telling, merge_whole, room_for_told, shown_leaves};
use crate::looks::no_leaves;
use crate::marks::Marks;
use crate::shown::{Entry, Shown};
use crate::sources::Source;
use crate::sums::RoundSum;
use crate::tick_column::TickColumn;
use cpu_assign::Places;
use event_core::CountFault;
use run_tree::Plan;
use sched_base::{Leaf, NoMemory};
use std::alloc::Global;

// So many entries are kept at most, with 8 bytes each.
const MOST_KEPT: usize = 1179648;

// Room is taken at once for so many rounds and entries: lists of that size have pages of their own, which aren't copied where a list grows,
// and of which those that aren't written cost nothing.
const ROOM: usize = 32768;

/// So many packs of level 0 a plan has at most whose rounds are kept.
pub(crate) const MOST_PACKS: u32 = 65536;

/// The rounds of the first hyperperiod: where each ends, and an entry of each pack that may show something else in it than in the round
/// before. In the first round these are all packs. The entries of a round go up to its number in `parts`. And what each pack shows in the
/// last round.
pub(crate) struct Turn {
    pub(crate) ends: TickColumn,
    pub(crate) parts: Vec<u32>,
    pub(crate) entries: Vec<Entry>,
    pub(crate) last: Vec<Shown>,
}

impl Drop for Turn {
    fn drop(self) {
        let Self {
            ends: _ends,
            parts: _parts,
            entries: _entries,
            last: _last,
        } = self;
    }
}

impl Turn {
    /// How many rounds there are.
    pub(crate) fn rounds(&self) -> usize
        ensures { result ≡ length self.now.ends }
    {
        self.ends.len()
    }

    // Whether there is none.
    #[inline(always)]
    fn is_none(&self) -> bool
        ensures { result ≡ false → 0 < length self.now.ends }
    {
        self.ends.len() == 0
    }

    /// Where the last one ends.
    pub(crate) fn end(&self) -> u128
        ensures { result ≡ turn_end self.now }
    {
        self.start(self.ends.len())
    }

    /// The tick at which round i begins; or where there are i rounds, the one at which the last ends.
    pub(crate) fn start(&self, i: usize) -> u128
        requires { i ≤ length self.now.ends }
        ensures { result ≡ round_start 0 self.now.ends i }
    {
        if i == 0 { 0 } else { self.ends.at(i - 1) }
    }

    /// The tick at which round i ends, so many ticks later; or the end of all rounds where that is sooner.
    #[inline(always)]
    pub(crate) fn end_of(&self, i: usize, shift: u128, stop: u128) -> u128
        requires round { i < length self.now.ends }
        requires fits { slice_index self.now.ends i + shift < 2 ^ 128 }
        ensures { result ≡ min (slice_index self.now.ends i + shift) stop }
    {
        (self.ends.at(i) + shift).min(stop)
    }

    /// The place of the first entry of round i, or behind the last one of the round before.
    #[inline(always)]
    pub(crate) fn part(&self, i: usize) -> usize
        requires { i ≤ length self.now.parts.items }
        ensures { result ≡ part_start self.now.parts.items i }
    {
        if i == 0 {
            0
        } else {
            self.parts[i - 1] as usize
        }
    }

    // One entry more.
    #[inline(always)]
    fn keep(&mut self, pack: u32, shows: Shown) -> Result<(), NoMemory>
        requires { pack < 2 ^ 16 }
        ensures packs { IfOk result (λ _. packs_kept self.new ≡ packs_kept self.old ++ pack ∷ []) }
        ensures shown { IfOk result (λ _. shown_kept self.new ≡ shown_kept self.old ++ shows ∷ []) }
        ensures ends { IfOk result (λ _. self.new.ends ≡ self.old.ends) }
        ensures parts { IfOk result (λ _. self.new.parts ≡ self.old.parts) }
        ensures last { IfOk result (λ _. self.new.last ≡ self.old.last) }
    {
        self.entries.push(Entry::new(pack, shows))?;
        Ok(())
    }

    // One round more, up to tick `end`, with the entries behind those of the others.
    fn close(&mut self, end: u128) -> Result<(), NoMemory>
        requires { length self.old.entries.items < 2 ^ 32 }
        ensures ends { IfOk result (λ _. self.new.ends ≡ self.old.ends ++ end ∷ []) }
        ensures parts { IfOk result (λ _. self.new.parts.items ≡ self.old.parts.items ++ length self.old.entries.items ∷ []) }
        ensures entries { IfOk result (λ _. self.new.entries ≡ self.old.entries) }
        ensures last { IfOk result (λ _. self.new.last ≡ self.old.last) }
    {
        let count = self.entries.len() as u32;
        self.ends.push(end)?;
        self.parts.push(count)?;
        Ok(())
    }

    // Pack k shows this, and an entry of it is kept.
    #[inline(always)]
    fn keep_pack(&mut self, k: u32, leaf: Shown) -> Result<(), NoMemory>
        requires pack { k < length self.old.last.items }
        requires few { k < 2 ^ 16 }
        ensures kept { IfOk result (λ _. (p : PlanContents) (start : ℕ) (before : DeclaredTurn) → AreKept p start before self.old k → k < packs_of p →
            IsPackOn p start k leaf → AreKept p start before self.new (k + 1)) }
        ensures long { IfOk result (λ _. length self.new.last.items ≡ length self.old.last.items) }
    {
        self.keep(k, leaf)?;
        self.last[k as usize] = leaf;
        Ok(())
    }

    // One round more, from `start` up to `end`, of which it is known what each processor shows. Entries are kept of the packs with marks, which
    // are all that may show something else than before; or of each pack, where it is the first round.
    fn keep_round(
        &mut self,
        plan: &Plan,
        places: &Places,
        start: u128,
        end: u128,
        leaves: &[Option<Leaf>],
        marks: &Marks,
    ) -> Result<(), NoMemory>
        requires can { CanComeRound plan.now }
        requires places { places.now ≡ places_of plan.now end }
        requires round { IsRoundUpTo plan.now start end }
        requires leaves { IsAllTold plan.now start end leaves.now }
        requires turn { IsTurnOf plan.now self.old }
        requires marks { length marks.now ≡ packs_of plan.now }
        requires few { packs_of plan.now ≤ 2 ^ 16 }
        requires room { length self.old.entries.items + packs_of plan.now < 2 ^ 32 }
        requires still { 0 < length self.old.ends → AreStill places.now.onto leaves.now self.old.last.items marks.now 0 }
        requires here { turn_end self.old ≡ start }
        ensures turn { IfOk result (λ _. IsTurnOf plan.now self.new) }
        ensures end { IfOk result (λ _. turn_end self.new ≡ end) }
    {
        plan.know_lawful();
        let _start = start;
        let count = pack_count(plan);
        let whole = self.is_none();
        let mut k = next_kept(marks, whole, 0);
        'packs: while k < count {
            let leaf = Shown::of(shown_by(places, leaves, k));
            self.keep_pack(k, leaf)?;
            k = next_kept(marks, whole, k + 1);
        }
        self.close(end)?;
        Ok(())
    }
}

/// No round yet, with room for so many rounds and entries.
pub(crate) fn no_turn(alloc: Global, plan: &Plan, room: usize) -> Result<Turn, NoMemory>
    ensures turn { IfOk result (λ turn. IsTurnOf plan.now turn) }
    ensures ends { IfOk result (λ turn. turn.ends ≡ []) }
    ensures entries { IfOk result (λ turn. turn.entries.items ≡ []) }
{
    Ok(Turn {
        parts: Vec::with_capacity(alloc, room)?,
        entries: Vec::with_capacity(alloc, room)?,
        last: no_packs(alloc, plan)?,
        ends: TickColumn::with_room(alloc, room)?,
    })
}

/// The number of packs of level 0.
pub(crate) fn pack_count(plan: &Plan) -> u32
    ensures { result ≡ packs_of plan.now }
{
    plan.know_lawful();
    plan.tree().packs(0)
}

// Of no pack of level 0 anything.
fn no_packs(alloc: Global, plan: &Plan) -> Result<Vec<Shown>, NoMemory>
    ensures { IfOk result (λ v. v.items ≡ replicate (packs_of plan.now) None) }
{
    plan.know_lawful();
    Ok(vec![in alloc; Shown::nothing(); plan.tree().packs(0) as usize]?)
}

// Room for marks of the packs of level 0.
fn no_marks(alloc: Global, plan: &Plan) -> Result<Marks, NoMemory>
    ensures { IfOk result (λ m. length m ≡ packs_of plan.now) }
{
    Marks::new(alloc, pack_count(plan))
}

// The first pack from number `from` on that may show something else: each, or one with a mark. The number of packs, where there is none.
#[inline(always)]
fn next_kept(marks: &Marks, whole: bool, from: u32) -> u32
    requires { from ≤ length marks.now }
    ensures after { from ≤ result }
    ensures within { result ≤ length marks.now }
    ensures later { from < result → whole ≡ false }
    ensures skipped { (k : ℕ) → from ≤ k → k < result → slice_index_or marks.now k false ≡ false }
{
    if whole { from } else { marks.next(from) }
}

// The pack that each processor holds.
fn holds_of(alloc: Global, places: &Places) -> Result<Vec<Option<u32>>, NoMemory>
    ensures { IfOk result (λ v. v.items ≡ places.now.onto) }
{
    Ok(Vec::from_slice(alloc, places.onto())?)
}

// What pack k shows by what each processor shows: that of the one that it is on.
#[inline(always)]
fn shown_by(places: &Places, leaves: &[Option<Leaf>], k: u32) -> Option<Leaf>
    requires pack { k < length places.now.last }
    requires long { length leaves.now ≡ length places.now.onto }
    ensures none { is_held places.now.onto k ≡ false → result ≡ None }
    ensures some { (q : ℕ) → slice_index_or places.now.onto q None ≡ Some k → result ≡ slice_index_or leaves.now q None }
{
    places.know_noted();
    if !places.holds(k) {
        return None;
    }
    match places.last_of(k) {
        None => None,
        Some(q) => leaves[q as usize],
    }
}

// This pack, where there is one, is marked.
#[inline(always)]
fn mark(pack: Option<u32>, marks: &mut Marks)
    requires { (k : ℕ) → pack ≡ Some k → k < length marks.old }
    ensures long { length marks.new ≡ length marks.old }
    ensures own { (k : ℕ) → pack ≡ Some k → slice_index_or marks.new k false ≡ true }
    ensures rest { (k : ℕ) → slice_index_or marks.old k false ≡ true → slice_index_or marks.new k false ≡ true }
{
    if let Some(k) = pack {
        marks.mark(k);
    }
}

// The pack that processor q holds.
#[inline(always)]
fn held_by(holds: &[Option<u32>], q: u32) -> Option<u32>
    requires { q < length holds.now }
    ensures { result ≡ slice_index_or holds.now q None }
{
    holds[q as usize]
}

// Marks the packs that these processors held, and those that they hold now.
#[inline(always)]
fn mark_changed(changed: &[u32], places: &Places, holds: &mut [Option<u32>], marks: &mut Marks)
    requires within { (j : ℕ) → j < length changed.now → slice_index changed.now j < length holds.old }
    requires long { length holds.old ≡ length places.now.onto }
    requires before { (q k : ℕ) → slice_index_or holds.old q None ≡ Some k → k < length marks.old }
    requires now { (q k : ℕ) → slice_index_or places.now.onto q None ≡ Some k → k < length marks.old }
    ensures each { (j : ℕ) → j < length changed.now →
        slice_index_or holds.new (slice_index changed.now j) None ≡ slice_index_or places.now.onto (slice_index changed.now j) None }
    ensures rest { (q : ℕ) → IsNone changed.now (length changed.now) q → slice_index_or holds.new q None ≡ slice_index_or holds.old q None }
    ensures held { (q k : ℕ) → slice_index_or holds.old q None ≡ Some k → slice_index_or marks.new k false ≡ false →
        slice_index_or holds.new q None ≡ Some k }
    ensures marked { (j k : ℕ) → j < length changed.now → slice_index_or places.now.onto (slice_index changed.now j) None ≡ Some k →
        slice_index_or marks.new k false ≡ true }
    ensures long { length marks.new ≡ length marks.old }
{
    for j in 0..changed.len() {
        let q = changed[j];
        let before = held_by(holds, q);
        let pack = places.pack_on(q);
        mark(before, marks);
        mark(pack, marks);
        holds[q as usize] = pack;
    }
}

// The first round of a turn, of which each processor is looked at, and it is told what it shows.
fn begin_turn(
    alloc: Global,
    plan: &Plan,
    source: &mut Source,
    told: &mut [Option<Leaf>],
    marks: &Marks,
    sum: &mut RoundSum,
) -> Result<Turn, CountFault>
    requires can { CanComeRound plan.now }
    requires belongs { IsSourceOf plan.now source.old }
    requires first { source.old.tick ≡ 0 }
    requires early { source.old.tick < stop_of plan.now }
    requires sum { IsSumUpTo plan.now source.old.tick sum.old }
    requires told { length told.old ≡ plan.now.tree.processors }
    requires marks { length marks.now ≡ packs_of plan.now }
    requires few { packs_of plan.now ≤ 2 ^ 16 }
    ensures going { IfOk result (λ turn. IsTurning plan.now source.new sum.new turn told.new) }
    ensures fault { IfErr result (λ fault. IsCountFault plan.now fault) }
{
    let start = source.now();
    merge_whole(plan, source, told, sum)?;
    let end = source.now();
    let mut turn = no_turn(alloc, plan, ROOM)?;
    turn.keep_round(plan, source.places(plan), start, end, told, marks)?;
    Ok(turn)
}

// One round more of a turn, given what each node shows.
fn turn_next(
    plan: &Plan,
    source: &mut Source,
    leaves: &[Leaf],
    told: &mut [Option<Leaf>],
    changed: &mut [u32],
    holds: &mut [Option<u32>],
    marks: &mut Marks,
    turn: &mut Turn,
    sum: &mut RoundSum,
) -> Result<(), CountFault>
    requires can { CanComeRound plan.now }
    requires going { IsTurning plan.now source.old sum.old turn.old told.old }
    requires leaves { AreLeavesOf plan.now source.old.tick leaves.now }
    requires holds { AreHolding plan.now source.old.tick holds.old }
    requires early { source.old.tick < stop_of plan.now }
    requires told { length changed.old ≡ packs_of plan.now }
    requires marks { length marks.old ≡ packs_of plan.now }
    requires few { packs_of plan.now ≤ 2 ^ 16 }
    requires room { length turn.old.entries.items < MOST_KEPT }
    ensures going { IfOk result (λ _. IsTurning plan.now source.new sum.new turn.new told.new) }
    ensures long { IfOk result (λ _. length marks.new ≡ packs_of plan.now) }
    ensures holds { IfOk result (λ _. AreHolding plan.now source.new.tick holds.new) }
    ensures later { IfOk result (λ _. IsRoundUpTo plan.now source.old.tick source.new.tick) }
    ensures fault { IfErr result (λ fault. IsCountFault plan.now fault) }
{
    plan.know_lawful();
    let start = source.now();
    let count = merge_telling(plan, source, leaves, told, changed, sum)?;
    let seen = first_of(changed, count);
    let end = source.now();
    marks.forget();
    mark_changed(seen, source.places(plan), holds, marks);
    turn.keep_round(plan, source.places(plan), start, end, told, marks)?;
    Ok(())
}

// The rounds of a turn from one on, up to the first that begins at tick `until` or later, or until so much is kept as there is room for.
fn turn_on(
    plan: &Plan,
    source: &mut Source,
    leaves: &[Leaf],
    told: &mut [Option<Leaf>],
    changed: &mut [u32],
    holds: &mut [Option<u32>],
    marks: &mut Marks,
    turn: &mut Turn,
    sum: &mut RoundSum,
    until: u128,
) -> Result<(), CountFault>
    requires can { CanComeRound plan.now }
    requires going { IsTurning plan.now source.old sum.old turn.old told.old }
    requires leaves { AreLeavesOf plan.now source.old.tick leaves.now }
    requires holds { AreHolding plan.now source.old.tick holds.old }
    requires until { until ≤ stop_of plan.now }
    requires told { length changed.old ≡ packs_of plan.now }
    requires marks { length marks.old ≡ packs_of plan.now }
    requires few { packs_of plan.now ≤ 2 ^ 16 }
    ensures going { IfOk result (λ _. IsTurning plan.now source.new sum.new turn.new told.new) }
    ensures fault { IfErr result (λ fault. IsCountFault plan.now fault) }
{
    'rounds: while source.now() < until && turn.entries.len() < MOST_KEPT {
        turn_next(plan, source, leaves, told, changed, holds, marks, turn, sum)?;
    }
    Ok(())
}

// The rounds of a turn from tick 0 on, with room for what is told, changed and marked.
fn turn_from(
    alloc: Global,
    plan: &Plan,
    source: &mut Source,
    leaves: &[Leaf],
    told: &mut [Option<Leaf>],
    changed: &mut [u32],
    marks: &mut Marks,
    sum: &mut RoundSum,
    until: u128,
) -> Result<Turn, CountFault>
    requires can { CanComeRound plan.now }
    requires belongs { IsSourceOf plan.now source.old }
    requires first { source.old.tick ≡ 0 }
    requires early { source.old.tick < stop_of plan.now }
    requires sum { IsSumUpTo plan.now source.old.tick sum.old }
    requires leaves { AreLeavesOf plan.now 0 leaves.now }
    requires until { until ≤ stop_of plan.now }
    requires told { length told.old ≡ plan.now.tree.processors }
    requires changed { length changed.old ≡ packs_of plan.now }
    requires marks { length marks.old ≡ packs_of plan.now }
    requires few { packs_of plan.now ≤ 2 ^ 16 }
    ensures going { IfOk result (λ turn. IsTurning plan.now source.new sum.new turn told.new) }
    ensures fault { IfErr result (λ fault. IsCountFault plan.now fault) }
{
    let mut turn = begin_turn(alloc, plan, source, told, marks, sum)?;
    let mut holds = holds_of(alloc, source.places(plan))?;
    turn_on(
        plan, source, leaves, told, changed, &mut holds, marks, &mut turn, sum, until,
    )?;
    Ok(turn)
}

/// Goes on with rounds from tick 0 up to the first that begins at tick `until` or later, or until so much is kept of them as there is room
/// for, and keeps them by the packs that show something else than before.
pub(crate) fn merge_turn(
    alloc: Global,
    plan: &Plan,
    source: &mut Source,
    sum: &mut RoundSum,
    until: u128,
) -> Result<Turn, CountFault>
    requires can { CanComeRound plan.now }
    requires belongs { IsSourceOf plan.now source.old }
    requires first { source.old.tick ≡ 0 }
    requires early { source.old.tick < stop_of plan.now }
    requires sum { IsSumUpTo plan.now source.old.tick sum.old }
    requires until { until ≤ stop_of plan.now }
    requires few { packs_of plan.now ≤ 2 ^ 16 }
    ensures belongs { IfOk result (λ _. IsSourceOf plan.now source.new) }
    ensures sum { IfOk result (λ _. IsSumUpTo plan.now source.new.tick sum.new) }
    ensures turn { IfOk result (λ turn. IsTurnOf plan.now turn) }
    ensures end { IfOk result (λ turn. turn_end turn ≡ source.new.tick) }
    ensures fault { IfErr result (λ fault. IsCountFault plan.now fault) }
{
    let mut changed = room_for_told(alloc, plan)?;
    let mut told = no_leaves(alloc, plan)?;
    let leaves = shown_leaves(alloc, plan, 0)?;
    let mut marks = no_marks(alloc, plan)?;
    turn_from(
        alloc,
        plan,
        source,
        &leaves,
        &mut told,
        &mut changed,
        &mut marks,
        sum,
        until,
    )
}
