//! The state of the machine, and its steps.
ghost use Rattle.std.specs.Prelude.{◌≡◌, ◌≤◌, ◌<◌, ◌+◌, ◌^◌, ◌↔◌, ℕ, length, true, IsTrue, IfOk, IfSome, IfNone};
ghost use Rattle.book_machine.specs.Machine.{IsLegal, MayTake, HasTakeable, WaitsFor, IsLowest, IsOut, IsStuck};
ghost use Rattle.book_machine.specs.declared.events.Event.TheVariants.{Take, Post, Halt};
ghost use Rattle.book_machine.specs.Machine.{after, start, posted_at, least_posted as least_count, horizon_of};
ghost use Rattle.book_machine.specs.Links.{ArePostedInOrder, AreEarlierPosted, posted_by};
ghost use Rattle.sched_base.specs.Limits.{processor_limit, window_limit};
ghost use Rattle.sched_base.specs.declared.rows.Row.{Row};
ghost use Rattle.sched_base.specs.Tables.{rounds_in};

use crate::events::Event;
use crate::links::{Link, LinkedTable};
use crate::search::{any_left, any_out, least_posted, lowest, waits_for};
use sched_base::{NoMemory, ProcId, RowTable};
use std::alloc::Global;
use std::marker::Model;

/// A lane: how many of its rows are posted, and whether its next row is out.
#[derive(Clone, Copy)]
pub struct LaneState {
    pub posted: u64,
    pub out: bool,
}

/// The state of the machine: its lanes, and whether it is halted.
#[derive(Drop)]
pub struct MachineState {
    lanes: Vec<LaneState>,
    halted: bool,
    // The least posted count.
    least: u64,
}

impl Model for MachineState {
    ghost use Rattle.book_machine.specs.Machine.{State, IsKept};

    ghost Value = { State };

    ghost view = { λ s. record { lanes = s.lanes.items; halted = s.halted } };

    ghost invariant = { λ s. IsKept s.lanes.items s.least };
}

impl MachineState {
    /// The state before the first event.
    pub fn new(alloc: Global, processors: u32) -> Result<MachineState, NoMemory>
        requires some { 1 ≤ processors }
        requires few { processors ≤ processor_limit }
        ensures { IfOk result (λ s. s ≡ start processors) }
    {
        let mut lanes = Vec::new(alloc);
        for _p in 0..processors {
            lanes.push(LaneState {
                posted: 0,
                out: false,
            })?;
        }
        Ok(MachineState {
            lanes,
            halted: false,
            least: 0,
        })
    }

    /// Whether the event may come now. A round that the table doesn't hold is no round.
    pub fn is_legal(&self, table: &RowTable, window: u32, event: Event) -> bool
        requires lanes { length self.now.lanes ≡ length table.now.lanes }
        requires some_window { 1 ≤ window }
        requires small_window { window ≤ window_limit }
        ensures { IsTrue result ↔ IsLegal table.now.lanes window self.now event }
    {
        match event {
            Event::Take(p) => self.may_take(table, window, p.0),
            Event::Post(p) => self.has_out(p.0),
            Event::Halt(p) => self.has_out(p.0),
        }
    }

    /// Makes a legal event.
    pub fn step(&mut self, table: &RowTable, window: u32, event: Event)
        requires lanes { length self.old.lanes ≡ length table.now.lanes }
        requires some_window { 1 ≤ window }
        requires small_window { window ≤ window_limit }
        requires legal { IsLegal table.now.lanes window self.old event }
        ensures { self.new ≡ after self.old event }
    {
        let _rounds = table.rounds();
        match event {
            Event::Take(p) => self.hand_out(p.0),
            Event::Post(p) => self.post(p.0),
            Event::Halt(p) => self.put_back(p.0),
        }
    }

    /// Hands the next row of lane p out, whatever the rows are.
    pub fn hand_out(&mut self, p: u32)
        requires lane { p < length self.old.lanes }
        requires counted { posted_at self.old p + 1 < 2 ^ 64 }
        ensures { self.new ≡ after self.old (Take (record { 0 = p })) }
    {
        let lane = &mut self.lanes[p as usize];
        lane.out = true;
    }

    /// Posts the row that is out on lane p.
    pub fn post(&mut self, p: u32)
        requires { IsOut self.old p }
        ensures { self.new ≡ after self.old (Post (record { 0 = p })) }
    {
        let lane = &mut self.lanes[p as usize];
        let is_least = lane.posted == self.least;
        lane.posted += 1;
        lane.out = false;
        if is_least {
            self.least = least_posted(self.lanes.as_slice());
        }
    }

    /// Puts the row that is out on lane p back unposted, and halts.
    pub fn put_back(&mut self, p: u32)
        requires { IsOut self.old p }
        ensures { self.new ≡ after self.old (Halt (record { 0 = p })) }
    {
        let lane = &mut self.lanes[p as usize];
        lane.out = false;
        self.halted = true;
    }

    /// The lowest lane with the least posted count.
    pub fn lowest(&self) -> u32
        requires some { 1 ≤ length self.now.lanes }
        requires few { length self.now.lanes ≤ processor_limit }
        ensures { IsLowest self.now.lanes result }
    {
        lowest(self.lanes.as_slice(), self.lanes.len() as u32, self.least)
    }

    /// How many rows lane p has posted.
    pub fn posted(&self, p: u32) -> u64
        requires { p < length self.now.lanes }
        ensures { result ≡ posted_at self.now p }
    {
        self.lanes[p as usize].posted
    }

    /// Whether lane p has its next row out.
    pub fn is_out(&self, p: u32) -> bool
        requires { p < length self.now.lanes }
        ensures { IsTrue result ↔ IsOut self.now p }
    {
        self.lanes[p as usize].out
    }

    /// The least posted count.
    pub fn least(&self) -> u64
        ensures { result ≡ least_count self.now }
    {
        self.least
    }

    /// Whether a row has failed.
    pub fn is_halted(&self) -> bool
        ensures { IsTrue result ↔ (self.now.halted ≡ true) }
    {
        self.halted
    }

    /// The tick up to which all rows are posted, where the table holds all rounds: the start of the round with the least
    /// posted count, or `end` where all rounds are posted.
    pub fn horizon(&self, table: &RowTable, end: u128) -> u128
        requires { length self.now.lanes ≡ length table.now.lanes }
        ensures { result ≡ horizon_of table.now.lanes end self.now }
    {
        let round = least_posted(self.lanes.as_slice());
        if round < table.rounds() {
            table.row(0, round).start
        } else {
            end
        }
    }

    /// Whether nothing is halted, nothing is out, some round isn't posted, and yet no lane may take. No list of legal
    /// events leads there.
    pub fn stuck(&self, table: &RowTable, window: u32) -> bool
        requires lanes { length self.now.lanes ≡ length table.now.lanes }
        requires some_window { 1 ≤ window }
        requires small_window { window ≤ window_limit }
        ensures { IsTrue result ↔ IsStuck table.now.lanes window self.now }
    {
        if self.halted || any_out(self.lanes.as_slice()) {
            return false;
        }
        any_left(self.lanes.as_slice(), table.rounds()) && !self.any_may_take(table, window)
    }

    /// The lane for which lane p waits before it may take its next row, whatever is out and halted: where the window is the
    /// reason, the lowest lane with the least posted count; else the lowest lane with an unposted earlier row of that row's
    /// leaf. The table needs to hold the lane's next round only where the window isn't the reason.
    #[inline(never)]
    pub fn waits_for(&self, table: &RowTable, window: u32, p: u32) -> Option<u32>
        requires lanes { length self.now.lanes ≡ length table.now.lanes }
        requires round { posted_at self.now p < least_count self.now + window → posted_at self.now p < rounds_in table.now.lanes }
        requires lane { p < length self.now.lanes }
        ensures some { IfSome result (λ q. WaitsFor table.now.lanes window self.now p q) }
        ensures none { IfNone result (HasTakeable table.now.lanes window self.now p) }
    {
        let lanes = self.lanes.as_slice();
        let round = lanes[p as usize].posted;
        let least = self.least;
        if round - least < window as u64 {
            waits_for(table, lanes, p, round, table.row(p, round).leaf)
        } else {
            Some(lowest(lanes, table.processors(), least))
        }
    }

    /// The lane that `waits_for` names, where each posted row has its leaf's earlier rows posted: it searches only where the lane waits,
    /// or where no link is kept.
    pub fn waits_by_link(&self, linked: &LinkedTable, window: u32, p: u32) -> Option<u32>
        requires lanes { length self.now.lanes ≡ length linked.now.lanes }
        requires round { posted_at self.now p < least_count self.now + window → posted_at self.now p < rounds_in linked.now.lanes }
        requires lane { p < length self.now.lanes }
        requires in_order { ArePostedInOrder linked.now.lanes self.now }
        ensures some { IfSome result (λ q. WaitsFor linked.now.lanes window self.now p q) }
        ensures none { IfNone result (HasTakeable linked.now.lanes window self.now p) }
    {
        if self.is_due(linked, window, p) {
            None
        } else {
            self.waits_for(linked.table(), window, p)
        }
    }

    /// Whether lane p may take its next row, whatever is out and halted, where each posted row has its leaf's earlier rows posted: the
    /// row's link tells. It searches only for a row without a link that is ahead of other lanes.
    #[inline(always)]
    pub fn is_due(&self, linked: &LinkedTable, window: u32, p: u32) -> bool
        requires lanes { length self.now.lanes ≡ length linked.now.lanes }
        requires round { posted_at self.now p < least_count self.now + window → posted_at self.now p < rounds_in linked.now.lanes }
        requires lane { p < length self.now.lanes }
        requires in_order { ArePostedInOrder linked.now.lanes self.now }
        ensures { IsTrue result ↔ HasTakeable linked.now.lanes window self.now p }
    {
        let round = self.posted(p);
        if round - self.least >= window as u64 {
            return false;
        }
        match self.told_by_link(linked, p, round) {
            Some(told) => told,
            None => self.waits_for(linked.table(), window, p).is_none(),
        }
    }

    // Whether the earlier rows of the leaf that stands on lane p in the round are posted, as far as one look tells.
    fn told_by_link(&self, linked: &LinkedTable, p: u32, round: u64) -> Option<bool>
        requires lanes { length self.now.lanes ≡ length linked.now.lanes }
        requires lane { p < length self.now.lanes }
        requires round { round < rounds_in linked.now.lanes }
        requires in_order { ArePostedInOrder linked.now.lanes self.now }
        ensures { IfSome result (λ told. AreEarlierPosted linked.now.lanes self.now p round told) }
    {
        let _row = linked.table().row(p, round);
        if round == self.least {
            return Some(true);
        }
        self.has_posted(linked.link(p, round))
    }

    // Whether the row to which a link leads is posted, where it is known.
    fn has_posted(&self, link: Link) -> Option<bool>
        ensures { result ≡ posted_by self.now link }
    {
        match link {
            Link::First => Some(true),
            Link::After(place) => match self.lanes.get(place.lane as usize) {
                Some(lane) => Some(u64::from(place.round) < lane.posted),
                None => Some(false),
            },
            Link::Unknown => None,
        }
    }

    fn any_may_take(&self, table: &RowTable, window: u32) -> bool
        requires { length self.now.lanes ≡ length table.now.lanes }
        ensures { IsTrue result ↔ ((p : ℕ) × (p < length self.now.lanes) × ((r : Row) × MayTake table.now.lanes window self.now p r)) }
    {
        for p in 0..table.processors() {
            if self.may_take(table, window, p) {
                return true;
            }
        }
        false
    }

    fn may_take(&self, table: &RowTable, window: u32, p: u32) -> bool
        requires { length self.now.lanes ≡ length table.now.lanes }
        ensures { IsTrue result ↔ ((r : Row) × MayTake table.now.lanes window self.now p r) }
    {
        match self.lanes.get(p as usize) {
            Some(lane) => {
                !self.halted
                    && !lane.out
                    && lane.posted < table.rounds()
                    && self.waits_for(table, window, p).is_none()
            }
            None => false,
        }
    }

    fn has_out(&self, p: u32) -> bool
        ensures { IsTrue result ↔ IsOut self.now p }
    {
        match self.lanes.get(p as usize) {
            Some(lane) => lane.out,
            None => false,
        }
    }
}
