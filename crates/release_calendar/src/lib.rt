//! The present window of each leaf and dual of a plan, and the next unit at which a task has a boundary.
#![tactic(auto)]

mod next_ends;
mod steps;
mod turns;

ghost use Rattle.std.specs.Prelude.{◌≡◌, ℕ, ◌<◌, ◌≤◌, ◌^◌, ◌&&◌, not, false, length, slice_index, slice_index_or, IfOk};
ghost use Rattle.run_tree.specs.Tree.{kind_at, is_pack};
ghost use Rattle.run_tree.specs.Plans.{boundary_of};
ghost use Rattle.release_calendar.specs.Calendars.{AreDue, AreListed, BelongsTo, EndsFit};

use knockout::Knockout;
use run_tree::Plan;
use sched_base::{NoMemory, NodeId};
use std::alloc::Global;
use std::marker::Model;

/// A calendar that stands at a unit: the window of each leaf and dual there, and the next unit with a boundary of a task.
#[derive(Drop)]
pub struct Calendar {
    unit: u64,
    next: u64,
    begins: Vec<u64>,
    ends: Vec<u128>,
    // Of each node, how long its windows are, where all are as long, or 0.
    steps: Vec<u64>,
    // The windows' ends, of which the first is known, where they are many.
    order: Option<Knockout>,
    // Of these, the first `turned` have windows that began at the present unit.
    begun: Vec<NodeId>,
    turned: usize,
}

impl Model for Calendar {
    ghost use Rattle.std.specs.Prelude.{◌≡◌, ◌≤◌, ◌^◌, length, take, IfSome};
    ghost use Rattle.run_tree.specs.Tree.{numbers};
    ghost use Rattle.release_calendar.specs.Calendars.{CalendarContents, EndsFit};

    ghost Value = { CalendarContents };

    ghost view = { λ c. record {
      unit = c.unit;
      next = c.next;
      begins = c.begins.items;
      ends = c.ends.items;
      begun = numbers (take c.turned c.begun.items);
      steps = c.steps.items;
    } };

    ghost invariant = { λ c. (length c.ends.items ≡ length c.begins.items) × EndsFit c.ends.items × IfSome c.order (λ o. o ≡ c.ends.items)
        × (length c.begun.items ≡ length c.begins.items) × (c.turned ≤ length c.begun.items) × (c.next ≤ 2 ^ 33) };
}

impl Calendar {
    /// The calendar of a plan at unit 0.
    pub fn new(alloc: Global, plan: &Plan) -> Result<Calendar, NoMemory>
        ensures { IfOk result (λ c. (c.unit ≡ 0) × BelongsTo plan.now c) }
    {
        let count = plan.tree().nodes() as usize;
        let mut begins = turns::first_begins(alloc, count)?;
        let mut ends = turns::first_ends(alloc, count)?;
        let begun = turns::no_nodes(alloc, count)?;
        plan.know_lawful();
        let steps = steps::steps_of(alloc, plan)?;
        let (next, order) = turns::turn_first(alloc, plan, &mut begins, &mut ends)?;
        Ok(Calendar {
            unit: 0,
            next,
            begins,
            ends,
            steps,
            order,
            begun,
            turned: 0,
        })
    }

    /// The least unit above the present one at which some task has a boundary, or 2^33 where there are no tasks.
    pub fn next(&self) -> u64
        ensures value { result ≡ self.now.next }
        ensures within { result ≤ 2 ^ 33 }
    {
        self.next
    }

    /// Moves to the next unit, marks exactly the leaves and duals that have a boundary there, and gives each of them its next
    /// window. It takes no memory.
    pub fn pop_due(&mut self, plan: &Plan, due: &mut [bool])
        requires belongs { BelongsTo plan.now self.old }
        requires early { self.old.next ≤ plan.now.set.horizon }
        requires due { length due.old ≡ length plan.now.tree.nodes }
        ensures unit { self.new.unit ≡ self.old.next }
        ensures belongs { BelongsTo plan.now self.new }
        ensures due { (x : ℕ) → x < length plan.now.tree.nodes → slice_index_or due.new x false
            ≡ (not (is_pack (kind_at plan.now.tree x)) && boundary_of plan.now x self.old.next) }
        ensures begun { AreListed due.new self.new.begun }
    {
        self.move_on(plan);
        turns::mark_listed(&self.begun, self.turned, due);
    }

    /// Moves to the next unit as `pop_due` does, and marks nothing: the leaves and duals that have a boundary there are listed alone. It
    /// takes no memory.
    pub fn move_on(&mut self, plan: &Plan)
        requires belongs { BelongsTo plan.now self.old }
        requires early { self.old.next ≤ plan.now.set.horizon }
        ensures unit { self.new.unit ≡ self.old.next }
        ensures belongs { BelongsTo plan.now self.new }
        ensures begun { AreDue plan.now self.old.next self.new.begun }
    {
        plan.know_lawful();
        let at = self.next;
        let (next, turned) = turns::turn_listed(
            plan,
            at,
            &self.steps,
            &mut self.begins,
            &mut self.ends,
            &mut self.order,
            &mut self.begun,
        );
        self.unit = at;
        self.next = next;
        self.turned = turned;
    }

    /// How many leaves and duals have windows that began at the present unit, once it was moved to.
    pub fn begun_count(&self) -> usize
        ensures { result ≡ length self.now.begun }
    {
        self.turned
    }

    /// Leaf or dual k of these, in the order in which the earlier windows ended.
    pub fn begun(&self, k: usize) -> NodeId
        requires { k < length self.now.begun }
        ensures { result.0 ≡ slice_index self.now.begun k }
    {
        turns::node_at(&self.begun, self.turned, k)
    }

    /// The window of leaf or dual n, in units: its begin, and its end, which is excluded.
    pub fn window(&self, n: NodeId) -> (u64, u64)
        requires { n.0 < length self.now.begins }
        ensures begin { result.0 ≡ slice_index self.now.begins n.0 }
        ensures end { result.1 ≡ slice_index self.now.ends n.0 }
        ensures fits { (result.0 < 2 ^ 64) × (result.1 < 2 ^ 64) }
    {
        (self.begins[n.0 as usize], self.ends[n.0 as usize] as u64)
    }

    /// The end of the window of each leaf and dual, in units.
    pub fn ends(&self) -> &[u128]
        ensures values { result.now ≡ self.now.ends }
        ensures fit { EndsFit self.now.ends }
    {
        self.ends.as_slice()
    }
}
