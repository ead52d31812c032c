//! Links: for each row its leaf's last row before it on another processor.
ghost use Rattle.std.specs.Prelude.{◌≡◌, ◌≤◌, ◌<◌, ◌+◌, ◌^◌, ◌⊎◌, ℕ, [], replicate, length};
ghost use Rattle.std.specs.Prelude.{slice_index_or, IfOk};
ghost use Rattle.sched_base.specs.declared.rows.Row.{Row};
ghost use Rattle.sched_base.specs.Tables.{rounds_in, end_of, RowAt, IsRound, with_round};
ghost use Rattle.book_machine.specs.declared.links.Link.TheVariants.{Unknown};
ghost use Rattle.book_machine.specs.declared.links.Latest.{Latest};
ghost use Rattle.book_machine.specs.declared.links.Latest.TheVariants.{NoRow};
ghost use Rattle.book_machine.specs.Links.{LinkMeans, AreLinked, KeepsLink, link_of, slot_of, followed, last_link, latest_at, with_latest};

use sched_base::{Leaf, NoMemory, Row, RowTable};
use std::alloc::Global;
use std::marker::Model;

/// The place of a row: its processor and its round.
#[derive(Clone, Copy)]
pub struct Place {
    pub lane: u32,
    pub round: u32,
}

/// What is kept of the rows of a row's leaf that stand in earlier rounds on other processors.
#[derive(Clone, Copy)]
pub enum Link {
    /// There is none.
    First,
    /// The last one stands there.
    After(Place),
    /// Nothing.
    Unknown,
}

/// Where a leaf's last row stands so far.
#[derive(Clone, Copy)]
pub(crate) enum Latest {
    /// There is none.
    NoRow,
    /// There, with its link.
    Last(Place, Link),
    /// Nothing is kept of the leaf: it stood twice in a round, or has no slot.
    Lost,
}

impl Latest {
    // What is kept once the leaf's next row stands there.
    fn followed(self, place: Place) -> Latest
        ensures { result ≡ followed self place }
    {
        match self {
            Latest::NoRow => Latest::Last(place, Link::First),
            Latest::Last(last, link) => {
                if last.round == place.round {
                    Latest::Lost
                } else if last.lane == place.lane {
                    Latest::Last(place, link)
                } else {
                    Latest::Last(place, Link::After(last))
                }
            }
            Latest::Lost => Latest::Lost,
        }
    }

    // The link of the last row.
    fn link(&self) -> Link
        ensures { result ≡ last_link self.now }
    {
        match *self {
            Latest::Last(_, link) => link,
            Latest::NoRow | Latest::Lost => Link::Unknown,
        }
    }
}

// The slot of a leaf among the last rows, where it has one: tasks and idle leaves by turns.
fn slot_of(leaf: Leaf) -> Option<usize>
    ensures { result ≡ slot_of leaf }
{
    match leaf {
        Leaf::Task(task) => Some(2 * task.0 as usize),
        Leaf::Idle(number) => Some(2 * number as usize + 1),
        Leaf::Wait(_) | Leaf::Empty => None,
    }
}

/// A table of whole rounds, as `RowTable`, that finds the last row of a row's leaf on another processor by one look.
#[derive(Drop)]
pub struct LinkedTable {
    table: RowTable,
    links: Vec<LaneLinks>,
    // of each leaf that has a slot where its last row stands
    latest_rows: Vec<Latest>,
}

impl Model for LinkedTable {
    ghost use Rattle.sched_base.specs.Tables.{Table};
    ghost use Rattle.book_machine.specs.Links.{IsLinkedTable};

    ghost Value = { Table };

    ghost view = { λ t. t.table };

    ghost invariant = { λ t. IsLinkedTable t.table t.links.items t.latest_rows.items };
}

impl LinkedTable {
    /// No round yet, with room for that many, whose rows name that many tasks. All memory is taken here.
    pub fn new(
        alloc: Global,
        processors: u32,
        rounds: u64,
        tasks: u32,
    ) -> Result<LinkedTable, NoMemory>
        requires some { 1 ≤ processors }
        requires few { rounds < 2 ^ 32 }
        ensures none { IfOk result (λ t. t.lanes ≡ replicate processors []) }
        ensures room { IfOk result (λ t. t.room ≡ rounds) }
    {
        let table = RowTable::new(alloc, processors, rounds)?;
        let links = no_links(alloc, processors, rounds)?;
        let latest_rows = no_rows_yet(alloc, processors, tasks)?;
        Ok(LinkedTable {
            table,
            links,
            latest_rows,
        })
    }

    /// Appends the next round, one row for each processor in order.
    pub fn push_round(&mut self, rows: &[Row])
        requires whole { length rows.now ≡ length self.old.lanes }
        requires round { IsRound (end_of self.old.lanes) rows.now }
        requires room { 1 ≤ self.old.room }
        ensures lanes { self.new.lanes ≡ with_round self.old.lanes rows.now }
        ensures room { self.new.room + 1 ≡ self.old.room }
    {
        let round = self.table.rounds() as u32;
        self.table.push_round(rows);
        link_round(&self.table, round, &mut self.links, &mut self.latest_rows);
    }

    /// The table alone.
    pub fn table(&self) -> &RowTable
        ensures { result.now ≡ self.now }
    {
        &self.table
    }

    /// The table, with its links let go.
    pub fn into_table(self) -> RowTable
        ensures { result ≡ self }
    {
        self.table
    }

    /// The link of the row of processor p in round k.
    pub(crate) fn link(&self, p: u32, k: u64) -> Link
        requires processor { p < length self.now.lanes }
        requires round { k < rounds_in self.now.lanes }
        ensures { (r : Row) → RowAt self.now.lanes p k r → LinkMeans self.now.lanes r.leaf p k 0 result }
    {
        self.links[p as usize].get(k)
    }
}

/// The links of one processor's rows, in four bytes each: the lane above the round.
#[derive(Drop)]
pub(crate) struct LaneLinks {
    links: Vec<u32>,
}

impl Model for LaneLinks {
    ghost use Rattle.std.specs.Prelude.{List, map};
    ghost use Rattle.book_machine.specs.declared.links.Link.{Link};
    ghost use Rattle.book_machine.specs.Links.{link_of};

    ghost Value = { List Link };

    ghost view = { λ l. map link_of l.links.items };
}

impl LaneLinks {
    fn with_room(alloc: Global, rounds: u64) -> Result<LaneLinks, NoMemory> {
        Ok(LaneLinks {
            links: Vec::with_capacity(alloc, rounds as usize)?,
        })
    }

    fn get(&self, round: u64) -> Link
        ensures { result ≡ slice_index_or self.now round Unknown }
    {
        match self.links.get(round as usize) {
            Some(code) => link_of(*code),
            None => Link::Unknown,
        }
    }

    // Keeps the link of the row of this round, which is the next one: there is room for it.
    fn put(&mut self, round: u32, link: Link)
        ensures { KeepsLink self.old self.new round link }
    {
        self.links.truncate(round as usize);
        if self.links.len() == round as usize {
            let _ = self.links.push(code_of(link));
        }
    }
}

/// What is above every round that a link can name.
const ROUNDS: u32 = 16_777_216;

/// What is above every lane that a link can name.
const LANES: u32 = 255;

const FIRST: u32 = LANES * ROUNDS;

const UNKNOWN: u32 = FIRST + 1;

// A link in four bytes. One that doesn't fit says nothing.
fn code_of(link: Link) -> u32
    ensures { (link_of result ≡ link) ⊎ (link_of result ≡ Unknown) }
{
    match link {
        Link::First => FIRST,
        Link::After(place) => {
            if place.lane < LANES && place.round < ROUNDS {
                place.lane * ROUNDS + place.round
            } else {
                UNKNOWN
            }
        }
        Link::Unknown => UNKNOWN,
    }
}

// The link of four bytes.
fn link_of(code: u32) -> Link
    ensures { result ≡ link_of code }
{
    let place = Place {
        lane: code / ROUNDS,
        round: code % ROUNDS,
    };
    if place.lane < LANES {
        Link::After(place)
    } else if code == FIRST {
        Link::First
    } else {
        Link::Unknown
    }
}

fn no_links(alloc: Global, processors: u32, rounds: u64) -> Result<Vec<LaneLinks>, NoMemory>
    ensures { IfOk result (λ v. length v.items ≡ processors) }
{
    let mut links = Vec::new(alloc);
    for _p in 0..processors {
        links.push(LaneLinks::with_room(alloc, rounds)?)?;
    }
    Ok(links)
}

// Nothing yet in a slot for each task and each idle leaf: a plan has at most an idle leaf for each task and each processor.
fn no_rows_yet(alloc: Global, processors: u32, tasks: u32) -> Result<Vec<Latest>, NoMemory>
    ensures { IfOk result (λ v. (n : ℕ) × (v.items ≡ replicate n NoRow)) }
{
    let leaves = tasks as usize + processors as usize;
    Ok(vec![in alloc; Latest::NoRow; 2 * leaves]?)
}

// Links the rows of the last round.
fn link_round(
    table: &RowTable,
    round: u32,
    links: &mut Vec<LaneLinks>,
    latest_rows: &mut Vec<Latest>,
)
    requires last { round + 1 ≡ rounds_in table.now.lanes }
    requires before { AreLinked table.now.lanes round 0 links.old.items latest_rows.old.items }
    ensures { AreLinked table.now.lanes (round + 1) 0 links.new.items latest_rows.new.items }
{
    for p in 0..table.processors() {
        link_row(table, round, p, links, latest_rows);
    }
}

// Links the row of processor p in the round.
fn link_row(
    table: &RowTable,
    round: u32,
    p: u32,
    links: &mut Vec<LaneLinks>,
    latest_rows: &mut Vec<Latest>,
)
    requires lane { p < length table.now.lanes }
    requires round { round < rounds_in table.now.lanes }
    requires before { AreLinked table.now.lanes round p links.old.items latest_rows.old.items }
    ensures { AreLinked table.now.lanes round (p + 1) links.new.items latest_rows.new.items }
{
    let leaf = table.row(p, u64::from(round)).leaf;
    let link = follow(latest_rows, leaf, Place { lane: p, round });
    links[p as usize].put(round, link);
}

// Moves what is kept of a leaf on to its next row, which stands there, and gives the row's link.
fn follow(latest_rows: &mut Vec<Latest>, leaf: Leaf, place: Place) -> Link
    ensures link { result ≡ last_link (followed (latest_at latest_rows.old.items leaf) place) }
    ensures latest_rows { latest_rows.new.items ≡ with_latest latest_rows.old.items leaf (followed (latest_at latest_rows.old.items leaf) place) }
{
    let Some(slot) = slot_of(leaf) else {
        return Link::Unknown;
    };
    match latest_rows.get_mut(slot) {
        Some(latest) => {
            *latest = latest.followed(place);
            latest.link()
        }
        None => Link::Unknown,
    }
}
