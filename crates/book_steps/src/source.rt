//! What gives the next round of a plan: the core, or on one processor the rounds of a hyperperiod, which are kept until they come again.
ghost use Rattle.std.specs.Prelude.{ℕ, ◌≡◌, ◌≢◌, ◌<◌, ◌+◌, ◌^◌, ◌++◌, ◌∷◌, [], None, Some, true, length, slice_index_or, IfNone, IfOk, IfSome};
ghost use Rattle.sched_base.specs.declared.rows.Leaf.{Leaf as DeclaredLeaf};
ghost use Rattle.sched_base.specs.declared.rows.Row.{Row as DeclaredRow};
ghost use Rattle.run_tree.specs.Plans.{stop_of};
ghost use Rattle.event_core.specs.Cores.{IsCoreOf, places_of};
ghost use Rattle.event_core.specs.Rounds.{IsRoundUpTo, rows_of_round};
ghost use Rattle.book_steps.specs.declared.source.Repeating.{Repeating as DeclaredRepeating};
ghost use Rattle.book_steps.specs.declared.source.Stage.TheVariants.{Repeats};
ghost use Rattle.book_steps.specs.Sources.{ArePlaced, IsKeeping, IsRepeating, GoesOnWithPlan, IsStage, ComesRoundAfter};

use event_core::Core;
use merged_rounds::hyperperiod_of;
use run_tree::Plan;
use sched_base::{Leaf, NoMemory, Row};
use std::alloc::Global;
use std::marker::Model;

/// The most rounds that are kept.
const MOST_KEPT: usize = 16_384;

/// Rounds from tick `from` on are kept, and the place of the pack there. They may come again so many ticks later.
#[derive(Clone, Copy)]
pub(crate) struct Keeping {
    from: u128,
    ticks: u128,
    pack: Option<u32>,
    last: Option<u32>,
}

/// The rounds from tick `from` on come again so many ticks later, and again. The round of this number comes next, `passed` ticks later than it was.
#[derive(Clone, Copy)]
pub(crate) struct Repeating {
    from: u128,
    ticks: u128,
    passed: u128,
    next: usize,
}

/// Whether rounds are kept, and whether they come again.
#[derive(Clone, Copy)]
pub(crate) enum Stage {
    /// The core computes each round, and none is kept.
    Computes,
    /// The core computes the first round. Those behind it may come again so many ticks later.
    Begins(u128),
    /// The core computes each round, and it is kept.
    Keeps(Keeping),
    /// Rounds come again.
    Repeats(Repeating),
}

/// What gives the next round.
#[derive(Drop)]
pub(crate) struct Source {
    core: Core,
    tick: u128,
    stage: Stage,
    ends: Vec<u128>,
    shown: Vec<Option<Leaf>>,
}

impl Model for Source {
    ghost use Rattle.book_steps.specs.Sources.{SourceContents};

    ghost Value = { SourceContents };

    ghost view = { λ s. record { core = s.core; tick = s.tick; stage = s.stage; ends = s.ends.items; shown = s.shown.items } };
}

impl Source {
    /// The source of a plan's rounds from tick 0 on. All memory is taken here.
    pub(crate) fn new(alloc: Global, plan: &Plan) -> Result<Source, NoMemory>
        ensures source { IfOk result (GoesOnWithPlan plan.now) }
        ensures start { IfOk result (λ s. s.tick ≡ 0) }
    {
        let stage = first_stage(plan);
        let room = room_for(stage);
        let ends = Vec::with_capacity(alloc, room)?;
        let shown = Vec::with_capacity(alloc, room)?;
        let core = Core::new(alloc, plan)?;
        Ok(Source {
            core,
            tick: 0,
            stage,
            ends,
            shown,
        })
    }

    /// The tick at which the next round begins.
    pub(crate) fn now(&self) -> u128
        ensures { result ≡ self.now.tick }
    {
        self.tick
    }

    /// Moves to the end of the next round where that comes again, and gives its row, the only one.
    pub(crate) fn again(&mut self, plan: &Plan) -> Option<Row>
        requires source { GoesOnWithPlan plan.now self.old }
        requires early { self.old.tick < stop_of plan.now }
        ensures source { IfSome result (λ _. GoesOnWithPlan plan.now self.new) }
        ensures round { IfSome result (λ _. IsRoundUpTo plan.now self.old.tick self.new.tick) }
        ensures row { IfSome result (λ row. rows_of_round plan.now self.old.tick self.new.tick ≡ row ∷ []) }
        ensures none { IfNone result (self.new ≡ self.old) }
        ensures computes { IfNone result ((again : DeclaredRepeating) → self.old.stage ≢ Repeats again) }
    {
        match repeats_at(self.stage) {
            Some(again) => {
                let next = wrapped(plan, again, self.tick, &self.ends, &self.shown);
                let row = repeat(plan, next, self.tick, &self.ends, &self.shown);
                self.tick = row.end;
                self.stage = Stage::Repeats(next.behind());
                Some(row)
            }
            None => None,
        }
    }

    /// Computes the next round, which doesn't come again: it writes its rows, one for each processor, and moves to its end. It takes no memory.
    pub(crate) fn compute(&mut self, plan: &Plan, rows: &mut [Row])
        requires source { GoesOnWithPlan plan.now self.old }
        requires computes { (again : DeclaredRepeating) → self.old.stage ≢ Repeats again }
        requires early { self.old.tick < stop_of plan.now }
        requires rows { length rows.old ≡ plan.now.tree.processors }
        ensures source { GoesOnWithPlan plan.now self.new }
        ensures round { IsRoundUpTo plan.now self.old.tick self.new.tick }
        ensures rows { rows.new ≡ rows_of_round plan.now self.old.tick self.new.tick }
    {
        let start = self.tick;
        self.core.advance(plan, rows);
        self.tick = self.core.now();
        self.stage = keep(
            plan,
            &self.core,
            self.stage,
            start,
            rows,
            &mut self.ends,
            &mut self.shown,
        );
    }
}

// The stage before the first round.
fn first_stage(plan: &Plan) -> Stage
    ensures { IsStage plan.now 0 0 [] [] result }
{
    plan.know_lawful();
    if plan.tree().processors() != 1 || plan.tree().packs(0) != 1 {
        return Stage::Computes;
    }
    match hyperperiod_of(plan) {
        Some(ticks) => Stage::Begins(ticks),
        None => Stage::Computes,
    }
}

// How many rounds there is to be room for.
fn room_for(stage: Stage) -> usize {
    match stage {
        Stage::Begins(_) => MOST_KEPT,
        Stage::Computes | Stage::Keeps(_) | Stage::Repeats(_) => 0,
    }
}

// How rounds come again at this stage.
fn repeats_at(stage: Stage) -> Option<Repeating>
    ensures some { IfSome result (λ again. stage ≡ Repeats again) }
    ensures none { IfNone result ((again : DeclaredRepeating) → stage ≢ Repeats again) }
{
    match stage {
        Stage::Repeats(again) => Some(again),
        Stage::Computes | Stage::Begins(_) | Stage::Keeps(_) => None,
    }
}

// The stage behind the round that the core computed from tick `start` on, which is kept.
fn keep(
    plan: &Plan,
    core: &Core,
    stage: Stage,
    start: u128,
    rows: &[Row],
    ends: &mut Vec<u128>,
    shown: &mut Vec<Option<Leaf>>,
) -> Stage
    requires belongs { IsCoreOf plan.now core.now }
    requires round { IsRoundUpTo plan.now start core.now.tick }
    requires rows { rows.now ≡ rows_of_round plan.now start core.now.tick }
    requires stage { (tick : ℕ) × IsStage plan.now tick start ends.old.items shown.old.items stage }
    ensures { IsStage plan.now core.now.tick core.now.tick ends.new.items shown.new.items result }
{
    match stage {
        Stage::Begins(ticks) => Stage::Keeps(first_kept(plan, core, ticks)),
        Stage::Keeps(keeping) => keep_round(plan, core, keeping, start, rows, ends, shown),
        Stage::Computes | Stage::Repeats(_) => Stage::Computes,
    }
}

// No round is kept yet, and the core stands behind the first one.
fn first_kept(plan: &Plan, core: &Core, ticks: u128) -> Keeping
    requires belongs { IsCoreOf plan.now core.now }
    requires later { 0 < core.now.tick }
    requires turn { ComesRoundAfter plan.now ticks }
    ensures { IsKeeping plan.now core.now.tick [] [] result }
{
    plan.know_lawful();
    let places = core.places();
    Keeping {
        from: core.now(),
        ticks,
        pack: places.pack_on(0),
        last: places.last_of(0),
    }
}

// The stage behind one round more that is kept, where there is room for it.
fn keep_round(
    plan: &Plan,
    core: &Core,
    keeping: Keeping,
    start: u128,
    rows: &[Row],
    ends: &mut Vec<u128>,
    shown: &mut Vec<Option<Leaf>>,
) -> Stage
    requires belongs { IsCoreOf plan.now core.now }
    requires round { IsRoundUpTo plan.now start core.now.tick }
    requires rows { rows.now ≡ rows_of_round plan.now start core.now.tick }
    requires keeping { IsKeeping plan.now start ends.old.items shown.old.items keeping }
    ensures { IsStage plan.now core.now.tick core.now.tick ends.new.items shown.new.items result }
{
    plan.know_lawful();
    if ends.len() >= MOST_KEPT {
        return Stage::Computes;
    }
    match push_round(ends, shown, core.now(), first_leaf(rows)) {
        Ok(()) => stage_behind(plan, core, keeping, ends, shown),
        Err(_) => Stage::Computes,
    }
}

// What the first processor shows.
fn first_leaf(rows: &[Row]) -> Leaf
    requires { 0 < length rows.now }
    ensures { (none : DeclaredRow) → result ≡ (slice_index_or rows.now 0 none).leaf }
{
    rows[0].leaf
}

// One round more.
fn push_round(
    ends: &mut Vec<u128>,
    shown: &mut Vec<Option<Leaf>>,
    end: u128,
    leaf: Leaf,
) -> Result<(), NoMemory>
    ensures ends { IfOk result (λ _. ends.new.items ≡ ends.old.items ++ end ∷ []) }
    ensures shown { IfOk result (λ _. shown.new.items ≡ shown.old.items ++ Some leaf ∷ []) }
{
    ends.push(end)?;
    shown.push(Some(leaf))?;
    Ok(())
}

// The stage where rounds are kept up to the core's tick: behind a hyperperiod they come again, where the place is the same.
fn stage_behind(
    plan: &Plan,
    core: &Core,
    keeping: Keeping,
    ends: &[u128],
    shown: &[Option<Leaf>],
) -> Stage
    requires belongs { IsCoreOf plan.now core.now }
    requires keeping { IsKeeping plan.now core.now.tick ends.now shown.now keeping }
    ensures { IsStage plan.now core.now.tick core.now.tick ends.now shown.now result }
{
    let _ends = ends.len();
    let _shown = shown.len();
    if core.now() < keeping.from || core.now() - keeping.from != keeping.ticks {
        return Stage::Keeps(keeping);
    }
    if !is_same_place(plan, core, keeping) {
        return Stage::Computes;
    }
    Stage::Repeats(Repeating {
        from: keeping.from,
        ticks: keeping.ticks,
        passed: keeping.ticks,
        next: 0,
    })
}

// Whether the pack is at the core's tick where it was when rounds began to be kept.
fn is_same_place(plan: &Plan, core: &Core, keeping: Keeping) -> bool
    requires belongs { IsCoreOf plan.now core.now }
    requires turn { ComesRoundAfter plan.now keeping.ticks }
    requires placed { ArePlaced (places_of plan.now keeping.from) keeping.pack keeping.last }
    ensures { result ≡ true → places_of plan.now core.now.tick ≡ places_of plan.now keeping.from }
{
    plan.know_lawful();
    let places = core.places();
    if !are_same(places.pack_on(0), keeping.pack) {
        return false;
    }
    are_same(places.last_of(0), keeping.last)
}

// Whether these are the same.
fn are_same(a: Option<u32>, b: Option<u32>) -> bool
    ensures { result ≡ true → a ≡ b }
{
    a == b
}

impl Repeating {
    // The round behind the next one.
    fn behind(self) -> Repeating
        requires { self.next < 2 ^ 63 }
        ensures { result ≡ record self { next = self.next + 1 } }
    {
        Repeating {
            from: self.from,
            ticks: self.ticks,
            passed: self.passed,
            next: self.next + 1,
        }
    }
}

// Behind the last round that is kept the first one comes again.
fn wrapped(
    plan: &Plan,
    again: Repeating,
    tick: u128,
    ends: &[u128],
    shown: &[Option<Leaf>],
) -> Repeating
    requires again { IsRepeating plan.now tick ends.now shown.now again }
    requires early { tick < stop_of plan.now }
    ensures again { IsRepeating plan.now tick ends.now shown.now result }
    ensures within { result.next < length ends.now }
{
    plan.know_lawful();
    let _shown = shown.len();
    let _tick = tick;
    if again.next < ends.len() {
        return again;
    }
    Repeating {
        from: again.from,
        ticks: again.ticks,
        passed: again.passed + again.ticks,
        next: 0,
    }
}

// What is shown in round i.
fn leaf_in(shown: &[Option<Leaf>], i: usize) -> Leaf
    requires { i < length shown.now }
    ensures { (leaf : DeclaredLeaf) → slice_index_or shown.now i None ≡ Some leaf → result ≡ leaf }
{
    match shown[i] {
        Some(leaf) => leaf,
        None => Leaf::Empty,
    }
}

// The row of the round that comes again from this tick on.
fn repeat(plan: &Plan, again: Repeating, tick: u128, ends: &[u128], shown: &[Option<Leaf>]) -> Row
    requires again { IsRepeating plan.now tick ends.now shown.now again }
    requires within { again.next < length ends.now }
    requires early { tick < stop_of plan.now }
    ensures round { IsRoundUpTo plan.now tick result.end }
    ensures row { rows_of_round plan.now tick result.end ≡ result ∷ [] }
    ensures again { IsRepeating plan.now result.end ends.now shown.now (record again { next = again.next + 1 }) }
{
    plan.know_lawful();
    let end = (ends[again.next] + again.passed).min(plan.rounds_end());
    Row {
        processor: 0,
        leaf: leaf_in(shown, again.next),
        start: tick,
        end,
    }
}
