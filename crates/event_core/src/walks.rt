//! The walk over the packs that are to be looked at again.
ghost use Rattle.std.specs.Prelude.{ℕ, List, Option, [], ◌∷◌, ◌++◌, ◌≡◌, ◌≢◌, ◌⊎◌, ◌+◌, ◌&&◌, ◌<◌, ◌≤◌, not, length, true, false, None};
ghost use Rattle.std.specs.Prelude.{slice_index, slice_index_or};
ghost use Rattle.sched_base.specs.Places.{is_held};
ghost use Rattle.run_tree.specs.Tree.{IsTree, IsPack, member, members, level};
ghost use Rattle.run_tree.specs.Schedule.{packs_at};
ghost use Rattle.run_tree.specs.Runs.{runs_now};
ghost use Rattle.cpu_assign.specs.Changed.{with_pack, AreChanged};
ghost use Rattle.tree_select.specs.Marked.{AreFreshFrom};
ghost use Rattle.tree_select.specs.Masks.{AreMasksOf};
ghost use Rattle.event_core.specs.Serving.{first_served, lists, AreFitting, AreLong, AreSeen, AreSettledFrom, AreUnchanged, IsServing};
ghost use Rattle.event_core.specs.Steps.{packs_by};

use crate::serving::serve;
use crate::ticks::Ticks;
use cpu_assign::{Changes, Places};
use knockout::Knockout;
use run_tree::Tree;
use sched_base::NodeId;
use server_budget::Dues;
use tree_select::{LevelMasks, Marks};

// The knockout of pack p.
fn ready_at(ready: &[Knockout], p: NodeId) -> &Knockout
    requires { p.0 < length ready.now }
    ensures { result.now ≡ slice_index_or ready.now p.0 [] }
{
    &ready[p.0 as usize]
}

// Pack p serves the member that it picks now; whether that is another one than before. The ends are only spoken of. `leaves` may be said
// of a pack of level 0.
#[inline(always)]
fn serve_pack(
    tree: &Tree,
    p: NodeId,
    leaves: bool,
    ends: &[u128],
    ready: &[Knockout],
    serves: &mut [Option<u32>],
    dry: &mut Ticks,
    dues: &mut Dues,
    stale: &mut Marks,
    runs: &mut [bool],
) -> bool
    requires tree { IsTree tree.now }
    requires pack { IsPack tree.now p.0 }
    requires long { AreLong tree.now dues.old (lists ready.now serves.old dry.old stale.old runs.old) }
    requires fits { AreFitting tree.now dues.old }
    requires serving { IsServing tree.now dues.old ends.now (lists ready.now serves.old dry.old stale.old runs.old) }
    requires leaves { leaves ≡ true → level tree.now p.0 ≡ 0 }
    ensures tick { dues.new.tick ≡ dues.old.tick }
    ensures remains { dues.new.remains ≡ dues.old.remains }
    ensures nodes { length dues.new.runs ≡ length dues.old.runs }
    ensures serving { IsServing tree.now dues.new ends.now (lists ready.now serves.new dry.new stale.new runs.new) }
    ensures others { (q : ℕ) → q ≢ p.0 → slice_index_or serves.new q None ≡ slice_index_or serves.old q None }
    ensures own { slice_index_or stale.new p.0 false ≡ false }
    ensures unchanged { AreUnchanged tree.now p.0 stale.old runs.old stale.new runs.new }
    ensures marks { (q : ℕ) → IsPack tree.now q → q ≢ p.0 → level tree.now p.0 ≤ level tree.now q →
        slice_index_or stale.new q false ≡ slice_index_or stale.old q false }
    ensures same { result ≡ false → slice_index_or serves.new p.0 None ≡ slice_index_or serves.old p.0 None }
{
    let _ends = ends.len();
    let was = serves[p.0 as usize];
    let next = serve(tree, p, ready_at(ready, p), was, leaves, dues, stale, runs);
    serves[p.0 as usize] = next.place;
    dry.set(p, next.dry);
    next.is_other
}

// The marked packs of one level above the first, once none above it is marked.
fn serve_level(
    tree: &Tree,
    masks: &LevelMasks,
    level: u32,
    ends: &[u128],
    ready: &[Knockout],
    serves: &mut [Option<u32>],
    dry: &mut Ticks,
    dues: &mut Dues,
    stale: &mut Marks,
    runs: &mut [bool],
)
    requires masks { AreMasksOf tree.now masks.now }
    requires tree { IsTree tree.now }
    requires level { level < tree.now.levels }
    requires above_first { 1 ≤ level }
    requires long { AreLong tree.now dues.old (lists ready.now serves.old dry.old stale.old runs.old) }
    requires fits { AreFitting tree.now dues.old }
    requires serving { IsServing tree.now dues.old ends.now (lists ready.now serves.old dry.old stale.old runs.old) }
    requires above { AreFreshFrom tree.now stale.old (level + 1) }
    ensures tick { dues.new.tick ≡ dues.old.tick }
    ensures remains { dues.new.remains ≡ dues.old.remains }
    ensures nodes { length dues.new.runs ≡ length dues.old.runs }
    ensures long { length stale.new ≡ length stale.old }
    ensures serving { IsServing tree.now dues.new ends.now (lists ready.now serves.new dry.new stale.new runs.new) }
    ensures fresh { AreFreshFrom tree.now stale.new level }
    ensures settled { (onto : List (Option ℕ)) → AreSettledFrom tree.now onto stale.old runs.old 0 → AreSettledFrom tree.now onto stale.new runs.new 0 }
    ensures first { (i : ℕ) → i < length (packs_at tree.now 0) → first_served tree.now serves.new i ≡ first_served tree.now serves.old i }
{
    let _count = tree.packs(level);
    let span = masks.span(tree, level);
    let mut group = span.from;
    let mut from = 0;
    'marked: while let Some(next) = masks.next(tree, level, stale, span, group, from) {
        serve_pack(
            tree, next.pack, false, ends, ready, serves, dry, dues, stale, runs,
        );
        group = next.group;
        from = next.place + 1;
    }
}

// Lists pack i of level 0, given whether it serves another member than before, whether it runs, and whether it is on a processor.
// Where it serves the same one and stays, that changes nothing, so it isn't listed.
fn list_if(changes: &mut Changes, is_other: bool, i: u32, runs: bool, held: bool)
    requires seen { length changes.old.seen < changes.old.room }
    requires stopped { length changes.old.stopped < changes.old.room }
    requires begun { length changes.old.begun < changes.old.room }
    ensures seen { (changes.new.seen ≡ changes.old.seen ++ i ∷ [])
        ⊎ ((changes.new.seen ≡ changes.old.seen) × (is_other ≡ false) × (runs ≡ held)) }
    ensures stopped { changes.new.stopped ≡ with_pack changes.old.stopped i (not runs && held) }
    ensures begun { changes.new.begun ≡ with_pack changes.old.begun i (runs && not held) }
    ensures room { changes.new.room ≡ changes.old.room }
{
    if is_other || runs != held {
        changes.see(i, runs, held);
    }
}

// Pack p, which is number i of level 0, serves the member that it picks now, and is listed where anything changes.
#[inline(always)]
fn serve_listed(
    tree: &Tree,
    p: NodeId,
    i: u32,
    ends: &[u128],
    ready: &[Knockout],
    serves: &mut [Option<u32>],
    dry: &mut Ticks,
    dues: &mut Dues,
    stale: &mut Marks,
    runs: &mut [bool],
    places: &Places,
    changes: &mut Changes,
)
    requires tree { IsTree tree.now }
    requires pack { IsPack tree.now p.0 }
    requires first { level tree.now p.0 ≡ 0 }
    requires held { i < length places.now.last }
    requires long { AreLong tree.now dues.old (lists ready.now serves.old dry.old stale.old runs.old) }
    requires fits { AreFitting tree.now dues.old }
    requires serving { IsServing tree.now dues.old ends.now (lists ready.now serves.old dry.old stale.old runs.old) }
    requires seen { length changes.old.seen < changes.old.room }
    requires stopped { length changes.old.stopped < changes.old.room }
    requires begun { length changes.old.begun < changes.old.room }
    ensures tick { dues.new.tick ≡ dues.old.tick }
    ensures remains { dues.new.remains ≡ dues.old.remains }
    ensures nodes { length dues.new.runs ≡ length dues.old.runs }
    ensures serving { IsServing tree.now dues.new ends.now (lists ready.now serves.new dry.new stale.new runs.new) }
    ensures others { (q : ℕ) → q ≢ p.0 → slice_index_or serves.new q None ≡ slice_index_or serves.old q None }
    ensures own { slice_index_or stale.new p.0 false ≡ false }
    ensures unchanged { AreUnchanged tree.now p.0 stale.old runs.old stale.new runs.new }
    ensures marks { (q : ℕ) → IsPack tree.now q → q ≢ p.0 → level tree.now p.0 ≤ level tree.now q →
        slice_index_or stale.new q false ≡ slice_index_or stale.old q false }
    ensures seen { (changes.new.seen ≡ changes.old.seen ++ i ∷ []) ⊎ ((changes.new.seen ≡ changes.old.seen)
        × (slice_index_or serves.new p.0 None ≡ slice_index_or serves.old p.0 None)
        × (slice_index_or runs.new p.0 false ≡ is_held places.now.onto i)) }
    ensures stopped { changes.new.stopped ≡ with_pack changes.old.stopped i (not (slice_index_or runs.new p.0 false) && is_held places.now.onto i) }
    ensures begun { changes.new.begun ≡ with_pack changes.old.begun i (slice_index_or runs.new p.0 false && not (is_held places.now.onto i)) }
    ensures room { changes.new.room ≡ changes.old.room }
{
    let is_other = serve_pack(tree, p, true, ends, ready, serves, dry, dues, stale, runs);
    list_if(changes, is_other, i, runs[p.0 as usize], places.holds(i));
}

// The marked packs of level 0, once none above it is marked. Those in which anything changes are
// listed, and among them those that stop and begin.
fn serve_first_level(
    tree: &Tree,
    masks: &LevelMasks,
    ends: &[u128],
    ready: &[Knockout],
    serves: &mut [Option<u32>],
    dry: &mut Ticks,
    dues: &mut Dues,
    stale: &mut Marks,
    runs: &mut [bool],
    places: &Places,
    changes: &mut Changes,
)
    requires masks { AreMasksOf tree.now masks.now }
    requires tree { IsTree tree.now }
    requires levels { 0 < tree.now.levels }
    requires long { AreLong tree.now dues.old (lists ready.now serves.old dry.old stale.old runs.old) }
    requires fits { AreFitting tree.now dues.old }
    requires serving { IsServing tree.now dues.old ends.now (lists ready.now serves.old dry.old stale.old runs.old) }
    requires above { AreFreshFrom tree.now stale.old 1 }
    requires last { length places.now.last ≡ length (packs_at tree.now 0) }
    requires settled { AreSettledFrom tree.now places.now.onto stale.old runs.old 0 }
    requires room { changes.old.room ≡ length (packs_at tree.now 0) }
    ensures tick { dues.new.tick ≡ dues.old.tick }
    ensures remains { dues.new.remains ≡ dues.old.remains }
    ensures nodes { length dues.new.runs ≡ length dues.old.runs }
    ensures long { length stale.new ≡ length stale.old }
    ensures serving { IsServing tree.now dues.new ends.now (lists ready.now serves.new dry.new stale.new runs.new) }
    ensures fresh { AreFreshFrom tree.now stale.new 0 }
    ensures changed { AreChanged (packs_by tree.now runs.new) places.now.onto changes.new }
    ensures seen { AreSeen tree.now serves.old serves.new changes.new }
    ensures room { changes.new.room ≡ changes.old.room }
{
    changes.clear();
    let _count = tree.packs(0);
    let span = masks.span(tree, 0);
    let mut group = span.from;
    let mut from = 0;
    'marked: while let Some(next) = masks.next(tree, 0, stale, span, group, from) {
        serve_listed(
            tree, next.pack, next.place, ends, ready, serves, dry, dues, stale, runs, places,
            changes,
        );
        group = next.group;
        from = next.place + 1;
    }
}

/// Says again of each node whether it runs, where the lists are right but for the marked packs, and lets members stop and start.
/// No mark is left at a pack. The packs of level 0 in which anything changes are listed, and among them those that stop and begin.
pub(crate) fn serve_all(
    tree: &Tree,
    masks: &LevelMasks,
    ends: &[u128],
    ready: &[Knockout],
    serves: &mut [Option<u32>],
    dry: &mut Ticks,
    dues: &mut Dues,
    stale: &mut Marks,
    runs: &mut [bool],
    places: &Places,
    changes: &mut Changes,
)
    requires masks { AreMasksOf tree.now masks.now }
    requires long { AreLong tree.now dues.old (lists ready.now serves.old dry.old stale.old runs.old) }
    requires fits { AreFitting tree.now dues.old }
    requires serving { IsServing tree.now dues.old ends.now (lists ready.now serves.old dry.old stale.old runs.old) }
    requires last { length places.now.last ≡ length (packs_at tree.now 0) }
    requires settled { AreSettledFrom tree.now places.now.onto stale.old runs.old 0 }
    requires room { changes.old.room ≡ length (packs_at tree.now 0) }
    ensures tick { dues.new.tick ≡ dues.old.tick }
    ensures remains { dues.new.remains ≡ dues.old.remains }
    ensures nodes { length dues.new.runs ≡ length dues.old.runs }
    ensures long { length stale.new ≡ length stale.old }
    ensures serving { IsServing tree.now dues.new ends.now (lists ready.now serves.new dry.new stale.new runs.new) }
    ensures fresh { AreFreshFrom tree.now stale.new 0 }
    ensures selected { (n : ℕ) → n < length tree.now.nodes → slice_index_or runs.new n false
        ≡ runs_now tree.now (λ x. slice_index dues.old.remains x) (λ x. slice_index ends.now x) n }
    ensures changed { AreChanged (packs_by tree.now runs.new) places.now.onto changes.new }
    ensures seen { AreSeen tree.now serves.old serves.new changes.new }
    ensures room { changes.new.room ≡ changes.old.room }
{
    let mut level = tree.levels();
    while level > 1 {
        level -= 1;
        serve_level(
            tree, masks, level, ends, ready, serves, dry, dues, stale, runs,
        );
    }
    serve_first_level(
        tree, masks, ends, ready, serves, dry, dues, stale, runs, places, changes,
    );
}
