//! What a core keeps of packs and nodes from round to round.
ghost use Rattle.std.specs.Prelude.{ℕ, [], ◌≡◌, ◌<◌, ◌≤◌, ◌^◌, length, replicate, false, None, slice_index, slice_index_or};
ghost use Rattle.run_tree.specs.Tree.{IsMember, IsPack, home, place};
ghost use Rattle.run_tree.specs.Plans.{IsPlan};
ghost use Rattle.run_tree.specs.Runs.{runs_now};
ghost use Rattle.run_tree.specs.Schedule.{packs_at};
ghost use Rattle.cpu_assign.specs.Changed.{AreChanged};
ghost use Rattle.release_calendar.specs.Calendars.{BelongsTo};
ghost use Rattle.tree_select.specs.Marked.{AreFreshFrom};
ghost use Rattle.tree_select.specs.Masks.{AreMasksOf};
ghost use Rattle.event_core.specs.Serving.{due_of, no_tick, AreBegun, AreFitting, AreLong, AreOfPacks, AreSeen, AreSettledFrom};
ghost use Rattle.event_core.specs.Serving.{IsBlank, IsDrying, IsServing, IsSoonest};
ghost use Rattle.event_core.specs.Steps.{packs_by};

use crate::begun::begin_all;
use crate::firsts::begin_first;
use crate::ticks::Ticks;
use crate::walks::serve_all;
use cpu_assign::{Changes, Places};
use knockout::Knockout;
use release_calendar::Calendar;
use run_tree::Plan;
use sched_base::NodeId;
use server_budget::Dues;
use std::marker::Model;
use tree_select::{LevelMasks, Marks};

/// Lists by the numbers of nodes.
pub(crate) struct Serving {
    // Of each pack, the ends of the members that have something left.
    pub(crate) ready: Vec<Knockout>,
    // The place of the member that runs.
    pub(crate) serves: Vec<Option<u32>>,
    // The tick at which that one has nothing left.
    pub(crate) dry: Ticks,
    // Whether the pack is to be looked at.
    pub(crate) stale: Marks,
    // Whether the node runs.
    pub(crate) runs: Vec<bool>,
}

impl Drop for Serving {
    fn drop(self) {
        let Self {
            ready: _ready,
            serves: _serves,
            dry: _dry,
            stale: _stale,
            runs: _runs,
        } = self;
    }
}

impl Model for Serving {
    ghost use Rattle.event_core.specs.Serving.{ServingContents, lists};

    ghost Value = { ServingContents };

    ghost view = { λ s. lists s.ready.items s.serves.items s.dry s.stale s.runs.items };
}

impl Serving {
    /// Says again of each node whether it runs, and lets members stop and start. The packs of level 0 in which anything changes are
    /// listed, and among them those that stop and begin.
    pub(crate) fn select(
        &mut self,
        plan: &Plan,
        masks: &LevelMasks,
        ends: &[u128],
        dues: &mut Dues,
        places: &Places,
        changes: &mut Changes,
    )
        requires long { AreLong plan.now.tree dues.old self.old }
        requires fits { AreFitting plan.now.tree dues.old }
        requires serving { IsServing plan.now.tree dues.old ends.now self.old }
        requires last { length places.now.last ≡ length (packs_at plan.now.tree 0) }
        requires masks { AreMasksOf plan.now.tree masks.now }
        requires settled { AreSettledFrom plan.now.tree places.now.onto self.old.stale self.old.runs 0 }
        requires room { changes.old.room ≡ length (packs_at plan.now.tree 0) }
        ensures long { AreLong plan.now.tree dues.new self.new }
        ensures tick { dues.new.tick ≡ dues.old.tick }
        ensures remains { dues.new.remains ≡ dues.old.remains }
        ensures serving { IsServing plan.now.tree dues.new ends.now self.new }
        ensures fresh { AreFreshFrom plan.now.tree self.new.stale 0 }
        ensures selected { (n : ℕ) → n < length plan.now.tree.nodes → slice_index_or self.new.runs n false
            ≡ runs_now plan.now.tree (λ x. slice_index dues.old.remains x) (λ x. slice_index ends.now x) n }
        ensures changed { AreChanged (packs_by plan.now.tree self.new.runs) places.now.onto changes.new }
        ensures seen { AreSeen plan.now.tree self.old.serves self.new.serves changes.new }
        ensures room { changes.new.room ≡ changes.old.room }
    {
        serve_all(
            plan.tree(),
            masks,
            ends,
            &self.ready,
            &mut self.serves,
            &mut self.dry,
            dues,
            &mut self.stale,
            &mut self.runs,
            places,
            changes,
        );
    }

    /// The first of a tick and of those at which members that run have nothing left.
    pub(crate) fn first_dry(&mut self, plan: &Plan, most: u128) -> u128
        requires dry { AreOfPacks plan.now.tree self.old.dry }
        requires most { most < no_tick }
        ensures same { self.new ≡ self.old }
        ensures first { IsSoonest plan.now.tree self.old.dry most result }
    {
        let _plan = plan;
        self.dry.first(most)
    }

    /// Members that ran dry at the present tick are ready no more, and their packs are marked.
    pub(crate) fn run_dry(&mut self, plan: &Plan, ends: &[u128], dues: &Dues)
        requires long { AreLong plan.now.tree dues.now self.old }
        requires drying { IsDrying plan.now.tree dues.now ends.now self.old (λ q. ⊥) }
        ensures long { AreLong plan.now.tree dues.now self.new }
        ensures serving { IsServing plan.now.tree dues.now ends.now self.new }
        ensures serves { self.new.serves ≡ self.old.serves }
        ensures runs { self.new.runs ≡ self.old.runs }
    {
        self.dry.run_dry(
            plan.tree(),
            ends,
            dues,
            &self.serves,
            &self.runs,
            &mut self.ready,
            &mut self.stale,
        );
    }

    /// Windows that begin at the calendar's unit.
    pub(crate) fn begin(&mut self, plan: &Plan, calendar: &Calendar, dues: &mut Dues)
        requires plan { IsPlan plan.now }
        requires calendar { BelongsTo plan.now calendar.now }
        requires members { (k : ℕ) → k < length calendar.now.begun → IsMember plan.now.tree (slice_index calendar.now.begun k) }
        requires early { dues.old.tick ≤ 2 ^ 126 }
        requires remains { length dues.old.remains ≡ length plan.now.tree.nodes }
        requires long { AreLong plan.now.tree dues.old self.old }
        requires places { (x : ℕ) → IsMember plan.now.tree x → place plan.now.tree x < length (slice_index_or self.old.ready (home plan.now.tree x) []) }
        ensures long { AreLong plan.now.tree dues.new self.new }
        ensures tick { dues.new.tick ≡ dues.old.tick }
        ensures dues { dues.new.runs ≡ dues.old.runs }
        ensures serves { self.new.serves ≡ self.old.serves }
        ensures dry { self.new.dry ≡ self.old.dry }
        ensures runs { self.new.runs ≡ self.old.runs }
        ensures begun { AreBegun plan.now.tree calendar.now.begins calendar.now.ends calendar.now.begun dues.old.remains self.old.ready
            self.old.stale dues.new.remains self.new.ready self.new.stale (length calendar.now.begun) }
    {
        begin_all(plan, calendar, dues, &mut self.ready, &mut self.stale);
    }

    /// The first windows of all leaves and duals begin.
    pub(crate) fn begin_first(&mut self, plan: &Plan, calendar: &Calendar, dues: &mut Dues)
        requires plan { IsPlan plan.now }
        requires calendar { BelongsTo plan.now calendar.now }
        requires first { dues.old.tick ≡ 0 }
        requires remains { dues.old.remains ≡ replicate (length plan.now.tree.nodes) 0 }
        requires dues { dues.old.runs ≡ replicate (length plan.now.tree.nodes) false }
        requires blank { IsBlank plan.now.tree self.old }
        ensures tick { dues.new.tick ≡ 0 }
        ensures filled { (x : ℕ) → IsMember plan.now.tree x →
            slice_index dues.new.remains x ≡ due_of plan.now.tree calendar.now.begins calendar.now.ends x }
        ensures nodes { length dues.new.remains ≡ length plan.now.tree.nodes }
        ensures long { AreLong plan.now.tree dues.new self.new }
        ensures serving { IsServing plan.now.tree dues.new calendar.now.ends self.new }
        ensures marked { (q : ℕ) → IsPack plan.now.tree q → slice_index_or self.new.stale q false ≡ false → ⊥ }
    {
        begin_first(plan, calendar, dues, &mut self.ready, &mut self.stale);
    }

    /// The place of the member of pack p that runs.
    pub(crate) fn served(&self, p: NodeId) -> Option<u32>
        requires { p.0 < length self.now.serves }
        ensures { result ≡ slice_index_or self.now.serves p.0 None }
    {
        self.serves[p.0 as usize]
    }
}
