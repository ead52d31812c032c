//! The rows that are computed and not yet let go, and what computes the next ones.
ghost use Rattle.std.specs.Prelude.{◌≡◌, ◌≢◌, ◌≤◌, ◌<◌, ◌+◌, ◌-◌, ◌*◌, ◌^◌, ◌++◌, ◌∷◌, ℕ, [], Some, drop, length, map};
ghost use Rattle.std.specs.Prelude.{replicate, slice_get, slice_index, true, false, IfOk};
ghost use Rattle.sched_base.specs.Limits.{window_limit};
ghost use Rattle.sched_base.specs.declared.rows.Leaf.TheVariants.{Task};
ghost use Rattle.sched_base.specs.declared.rows.TaskId.{TaskId as DeclaredTaskId};
ghost use Rattle.run_tree.specs.Plans.{stop_of};
ghost use Rattle.event_core.specs.Rounds.{IsRoundUpTo, rows_of_round};
ghost use Rattle.circular_buffer.specs.Buffer.{buffer};
ghost use Rattle.book_steps.specs.declared.ring.PendingRow.{PendingRow as DeclaredRow};
ghost use Rattle.book_steps.specs.declared.source.Repeating.{Repeating as DeclaredRepeating};
ghost use Rattle.book_steps.specs.declared.source.Stage.TheVariants.{Repeats};
ghost use Rattle.book_steps.specs.Pending.{AreCounted, AreNoted, CanCount, CanNote, given_to as ticks_given, last_of, pending, with_last};
ghost use Rattle.book_steps.specs.Sources.{GoesOnWithPlan};
ghost use Rattle.book_steps.specs.Turns.{with_ticks};

use crate::ring::{PendingRow, Ring};
use crate::source::Source;
use run_tree::Plan;
use sched_base::{Leaf, NoMemory, Row, blank_rows};
use std::alloc::Global;
use std::marker::Model;

/// The rows of a plan's schedule that are computed and not yet let go: round by round, and those of a round processor by processor.
#[derive(Drop)]
pub(crate) struct Pending {
    source: Source,
    // Room for the rows of one round.
    rows: Vec<Row>,
    held: Ring,
    // The number of rounds computed so far, and of each task the ticks of its rows in them.
    computed: u64,
    given: Vec<u128>,
    // Of each processor, and in it of each task, the number of rounds up to the last computed one in which the task has a row there.
    last: Vec<u64>,
}

impl Model for Pending {
    ghost use Rattle.std.specs.Prelude.{vec_len};
    ghost use Rattle.book_steps.specs.Pending.{PendingContents};

    ghost Value = { PendingContents };

    ghost view = { λ r. record {
      source = r.source;
      width = vec_len r.rows;
      held = r.held;
      computed = r.computed;
      given = r.given.items;
      last = r.last.items;
    } };
}

impl Pending {
    /// No row yet, with a place for each row of a window. All memory is taken here.
    pub(crate) fn new(alloc: Global, plan: &Plan, window: u32) -> Result<Pending, NoMemory>
        requires { window ≤ window_limit }
        ensures source { IfOk result (λ r. GoesOnWithPlan plan.now r.source) }
        ensures start { IfOk result (λ r. r.source.tick ≡ 0) }
        ensures width { IfOk result (λ r. r.width ≡ plan.now.tree.processors) }
        ensures held { IfOk result (λ r. r.held ≡ buffer [] (window * plan.now.tree.processors)) }
        ensures computed { IfOk result (λ r. r.computed ≡ 0) }
        ensures given { IfOk result (λ r. r.given ≡ replicate (length plan.now.set.tasks) 0) }
        ensures last { IfOk result (λ r. r.last ≡ replicate (plan.now.tree.processors * length plan.now.set.tasks) 0) }
    {
        let processors = plan.tree().processors();
        let tasks = plan.set().count();
        let given = vec![in alloc; 0u128; tasks as usize]?;
        let last = vec![in alloc; 0u64; processors as usize * tasks as usize]?;
        let rows = blank_rows(alloc, processors)?;
        let held = Ring::new(alloc, window as usize * processors as usize)?;
        let source = Source::new(alloc, plan)?;
        Ok(Pending {
            source,
            rows,
            held,
            computed: 0,
            given,
            last,
        })
    }

    /// Computes one round more.
    pub(crate) fn compute_next(&mut self, plan: &Plan)
        requires belongs { GoesOnWithPlan plan.now self.old.source }
        requires early { self.old.source.tick < stop_of plan.now }
        requires width { self.old.width ≡ plan.now.tree.processors }
        requires places { length self.old.held.items + self.old.width ≤ self.old.held.capacity }
        requires counted { self.old.computed + 1 < 2 ^ 64 }
        requires each { length self.old.last ≡ self.old.width * length self.old.given }
        requires fits { (end : ℕ) → IsRoundUpTo plan.now self.old.source.tick end → CanCount self.old.given (rows_of_round plan.now self.old.source.tick end) }
        ensures belongs { GoesOnWithPlan plan.now self.new.source }
        ensures round { IsRoundUpTo plan.now self.old.source.tick self.new.source.tick }
        ensures width { self.new.width ≡ self.old.width }
        ensures held { self.new.held ≡ buffer (self.old.held.items
            ++ map (pending self.old.given) (rows_of_round plan.now self.old.source.tick self.new.source.tick)) self.old.held.capacity }
        ensures computed { self.new.computed ≡ self.old.computed + 1 }
        ensures given { AreCounted self.old.given (rows_of_round plan.now self.old.source.tick self.new.source.tick) self.new.given }
        ensures last { AreNoted (length self.old.given) (self.old.computed + 1) self.old.last
            (rows_of_round plan.now self.old.source.tick self.new.source.tick) self.new.last }
    {
        match self.source.again(plan) {
            Some(row) => self.keep_one(row),
            None => self.compute_each(plan),
        }
    }

    // Keeps the row of a round that has no other.
    fn keep_one(&mut self, row: Row)
        requires place { length self.old.held.items < self.old.held.capacity }
        requires counted { self.old.computed + 1 < 2 ^ 64 }
        requires noted { CanNote (length self.old.given) (row ∷ []) (length self.old.last) }
        requires fits { CanCount self.old.given (row ∷ []) }
        ensures source { self.new.source ≡ self.old.source }
        ensures width { self.new.width ≡ self.old.width }
        ensures held { self.new.held ≡ buffer (self.old.held.items ++ pending self.old.given row ∷ []) self.old.held.capacity }
        ensures computed { self.new.computed ≡ self.old.computed + 1 }
        ensures given { AreCounted self.old.given (row ∷ []) self.new.given }
        ensures last { AreNoted (length self.old.given) (self.old.computed + 1) self.old.last (row ∷ []) self.new.last }
    {
        self.held.push(PendingRow {
            row,
            before: given_to(self.given.as_slice(), row.leaf),
        });
        self.computed += 1;
        note(&mut self.last, self.given.len(), self.computed, 0, row.leaf);
        add_ticks(&mut self.given, row);
    }

    // Computes one round more that doesn't come again. It stands apart, since it is long, and what comes again is short.
    #[inline(never)]
    fn compute_each(&mut self, plan: &Plan)
        requires belongs { GoesOnWithPlan plan.now self.old.source }
        requires computes { (again : DeclaredRepeating) → self.old.source.stage ≢ Repeats again }
        requires early { self.old.source.tick < stop_of plan.now }
        requires width { self.old.width ≡ plan.now.tree.processors }
        requires places { length self.old.held.items + self.old.width ≤ self.old.held.capacity }
        requires counted { self.old.computed + 1 < 2 ^ 64 }
        requires each { length self.old.last ≡ self.old.width * length self.old.given }
        requires fits { (end : ℕ) → IsRoundUpTo plan.now self.old.source.tick end → CanCount self.old.given (rows_of_round plan.now self.old.source.tick end) }
        ensures belongs { GoesOnWithPlan plan.now self.new.source }
        ensures round { IsRoundUpTo plan.now self.old.source.tick self.new.source.tick }
        ensures width { self.new.width ≡ self.old.width }
        ensures held { self.new.held ≡ buffer (self.old.held.items
            ++ map (pending self.old.given) (rows_of_round plan.now self.old.source.tick self.new.source.tick)) self.old.held.capacity }
        ensures computed { self.new.computed ≡ self.old.computed + 1 }
        ensures given { AreCounted self.old.given (rows_of_round plan.now self.old.source.tick self.new.source.tick) self.new.given }
        ensures last { AreNoted (length self.old.given) (self.old.computed + 1) self.old.last
            (rows_of_round plan.now self.old.source.tick self.new.source.tick) self.new.last }
    {
        self.source.compute(plan, &mut self.rows);
        push_each(&mut self.held, self.given.as_slice(), self.rows.as_slice());
        self.computed += 1;
        note_each(
            &mut self.last,
            self.given.len(),
            self.computed,
            self.rows.as_slice(),
        );
        count_each(&mut self.given, self.rows.as_slice());
    }

    /// The number of rounds computed so far.
    pub(crate) fn computed(&self) -> u64
        ensures { result ≡ self.now.computed }
    {
        self.computed
    }

    /// The tick up to which the rounds are computed.
    pub(crate) fn tick(&self) -> u128
        ensures { result ≡ self.now.source.tick }
    {
        self.source.now()
    }

    // The place of the row of processor q in the held round with this number, counted from the first one that is held.
    fn place_of(&self, round: u64, q: u32) -> usize
        requires { round * self.now.width + q < length self.now.held.items }
        ensures { result ≡ round * self.now.width + q }
    {
        let _held = self.held.len();
        round as usize * self.rows.len() + q as usize
    }

    /// The row of processor q in the held round with this number, counted from the first one that is held.
    pub(crate) fn row(&self, round: u64, q: u32) -> &PendingRow
        requires { round * self.now.width + q < length self.now.held.items }
        ensures { slice_get self.now.held.items (round * self.now.width + q) ≡ Some result.now }
    {
        self.held.row(self.place_of(round, q))
    }

    /// The number of rounds up to the last computed one in which processor q can have a row of the leaf. For a leaf that is no task these are all
    /// computed ones.
    pub(crate) fn last(&self, q: u32, leaf: Leaf) -> u64
        requires { (task : DeclaredTaskId) → leaf ≡ Task task → q * length self.now.given + task.0 < length self.now.last }
        ensures { result ≡ last_of self.now.last (length self.now.given) self.now.computed q leaf }
    {
        match leaf {
            Leaf::Task(task) => self.last[q as usize * self.given.len() + task.0 as usize],
            Leaf::Wait(_) => self.computed,
            Leaf::Idle(_) => self.computed,
            Leaf::Empty => self.computed,
        }
    }

    /// Whether a row of processor q in the held rounds `from` to `to`, that without, is of the leaf. It looks at the last of them first: up to
    /// the last round of the leaf it is found at one look.
    pub(crate) fn has(&self, q: u32, from: u64, to: u64, leaf: Leaf) -> bool
        requires { (i : ℕ) → i < to → i * self.now.width + q < length self.now.held.items }
        ensures some { result ≡ true → (i : ℕ) × (next : DeclaredRow) × (from ≤ i) × (i < to)
            × (slice_get self.now.held.items (i * self.now.width + q) ≡ Some next) × (next.row.leaf ≡ leaf) }
        ensures none { result ≡ false → (i : ℕ) (next : DeclaredRow) → from ≤ i → i < to
            → slice_get self.now.held.items (i * self.now.width + q) ≡ Some next → next.row.leaf ≢ leaf }
    {
        for n in from..to {
            let i = from + (to - 1 - n);
            if self.held.is_of(self.place_of(i, q), leaf) {
                return true;
            }
        }
        false
    }

    /// Lets the first held round go.
    pub(crate) fn let_go(&mut self)
        ensures { self.new ≡ record self.old { held = buffer (drop self.old.width self.old.held.items) self.old.held.capacity } }
    {
        self.held.let_go(self.rows.len());
    }
}

// Appends the rows of a round.
fn push_each(held: &mut Ring, given: &[u128], rows: &[Row])
    requires { length held.old.items + length rows.now ≤ held.old.capacity }
    ensures { held.new ≡ buffer (held.old.items ++ map (pending given.now) rows.now) held.old.capacity }
{
    for q in 0..rows.len() {
        held.push(PendingRow {
            row: rows[q],
            before: given_to(given, rows[q].leaf),
        });
    }
}

// The ticks that a leaf's task was given.
fn given_to(given: &[u128], leaf: Leaf) -> u128
    ensures { result ≡ ticks_given given.now leaf }
{
    match leaf {
        Leaf::Task(task) => match given.get(task.0 as usize) {
            Some(ticks) => *ticks,
            None => 0,
        },
        Leaf::Wait(_) => 0,
        Leaf::Idle(_) => 0,
        Leaf::Empty => 0,
    }
}

// Counts the ticks of these rows.
fn count_each(given: &mut Vec<u128>, rows: &[Row])
    requires { CanCount given.old.items rows.now }
    ensures { AreCounted given.old.items rows.now given.new.items }
{
    for q in 0..rows.len() {
        add_ticks(given, rows[q]);
    }
}

// Notes the round with this number as the last one of each of its rows.
fn note_each(last: &mut Vec<u64>, tasks: usize, round: u64, rows: &[Row])
    requires { CanNote tasks rows.now (length last.old.items) }
    ensures { AreNoted tasks round last.old.items rows.now last.new.items }
{
    for q in 0..rows.len() {
        note(last, tasks, round, q, rows[q].leaf);
    }
}

// Notes the round with this number as the last one in which processor q has the leaf.
fn note(last: &mut Vec<u64>, tasks: usize, round: u64, q: usize, leaf: Leaf)
    requires { (task : DeclaredTaskId) → leaf ≡ Task task → q * tasks + task.0 < length last.old.items }
    ensures { last.new.items ≡ with_last last.old.items tasks round q leaf }
{
    if let Leaf::Task(task) = leaf {
        last[q * tasks + task.0 as usize] = round;
    }
}

/// Adds the ticks of a row to its task's.
pub(crate) fn add_ticks(totals: &mut Vec<u128>, row: Row)
    requires forward { row.start ≤ row.end }
    requires task { (task : DeclaredTaskId) → row.leaf ≡ Task task → task.0 < length totals.old.items }
    requires fits { (task : DeclaredTaskId) → row.leaf ≡ Task task → slice_index totals.old.items task.0 + (row.end - row.start) < 2 ^ 127 }
    ensures { totals.new.items ≡ with_ticks totals.old.items row.leaf (row.end - row.start) }
{
    if let Leaf::Task(task) = row.leaf {
        totals[task.0 as usize] += row.end - row.start;
    }
}
