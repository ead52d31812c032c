//! Scripts over books, and what the tests of books share.
ghost use Rattle.std.specs.Prelude.{◌≡◌, ◌≤◌, ◌<◌, ℕ, [], length, false};
ghost use Rattle.book_machine.specs.Machine.{lane_at};
ghost use Rattle.unit_ledger.specs.Seats.{seats_at_start};
ghost use Rattle.exec_book.specs.Books.{IsDismissed};
ghost use Rattle.sched_edges.specs.Jobs.{JobAt, CountHeld};
ghost use Rattle.plan_rounds.specs.PlanRows.{IsCompiled};

mod halts;
mod ledgers;
mod machines;
mod steps;
mod worker_calls;

use self::Step::{Dismiss, Done, Fail, Halted, Turn, Wait};
use event_core::count_rounds;
use exec_book::{Book, Closing, Look};
use halts::{assert_halted, dismiss, fail};
use run_compile::compile;
use run_tree::Plan;
use sample_sets::{NamedTask, set_of};
use sched_base::{Leaf, Row, TaskId};
use sched_edges::{CountJob, Job, JobList};
use std::alloc::Global;
use std::marker::Brand;
use std::process::Abort;
use std::sync::ledger::Blank;
use unit_ledger::{BookSide, LaneSeat, PostLedger, Seats, open};

/// A set: its processors, its horizon and its tasks.
type Set = (u32, u64, &'static [NamedTask<'static>]);

/// Three tasks of rate 2/3, over one period.
const THREE_TASKS: Set = (2, 3, &[("a", 2, 3, 0), ("b", 2, 3, 0), ("c", 2, 3, 0)]);

/// Five tasks of rate 3/5, over one period.
const FIVE_TASKS: Set = (
    3,
    5,
    &[
        ("a", 3, 5, 0),
        ("b", 3, 5, 0),
        ("c", 3, 5, 0),
        ("d", 3, 5, 0),
        ("e", 3, 5, 0),
    ],
);

/// Two tasks that take turns on one processor, twice, so that their rounds come again.
const TURNS: Set = (1, 4, &[("a", 1, 2, 0), ("b", 1, 2, 0)]);

/// Tasks by their places.
const A: u32 = 0;

const B: u32 = 1;

const C: u32 = 2;

const D: u32 = 3;

/// The plan of a set.
fn plan_of(rt: &impl Abort, alloc: Global, set: Set) -> Plan
    ensures { IsCompiled result }
{
    let (processors, horizon, tasks) = set;
    let set = set_of(alloc, processors, horizon, tasks).expect(rt, "a set");
    compile(alloc, set).expect(rt, "a plan")
}

/// A job for each task, which has worked no tick.
fn jobs_of(rt: &impl Abort, alloc: Global, count: u32) -> JobList<CountJob>
    ensures { (t : ℕ) → t < count → JobAt result.places t (record { id = t; used = 0 }) }
{
    let mut jobs = JobList::with_room(alloc, count).expect(rt, "there is memory");
    for t in 0..count {
        jobs.add(CountJob::new(t));
    }
    jobs
}

/// A book of a plan before its first event.
fn book_of<Q: PostLedger>(
    rt: &impl Abort,
    alloc: Global,
    plan: &Plan,
    window: u32,
    side: BookSide<Q>,
) -> Book<Q, CountJob>
    requires made { Q.made ≡ [] }
    requires set { plan.now.set ≡ Q.set }
    requires compiled { IsCompiled plan.now }
    requires some_window { 1 ≤ window }
    requires small_window { window ≤ 1024 }
    requires side { side ≡ 0 }
{
    let rounds = count_rounds(alloc, plan).expect(rt, "few rounds");
    let jobs = jobs_of(rt, alloc, plan.set().count());
    let plan = plan.copy().expect(rt, "there is memory");
    let Ok(book) = Book::new(alloc, plan, rounds, window, side, jobs) else {
        panic!(rt; "no memory");
    };
    book
}

/// The seats of that many lanes, one after the other.
fn all_seats<Q: PostLedger>(
    rt: &impl Abort,
    alloc: Global,
    seats: &mut Seats<Q>,
    processors: u32,
) -> Vec<LaneSeat<Q>>
    requires { seats.old ≡ seats_at_start processors }
{
    let mut lanes = Vec::new(alloc);
    for p in 0..processors {
        lanes.push(seats.lift(p)).expect(rt, "there is memory");
    }
    lanes
}

/// A step of a script.
#[derive(Clone, Copy)]
enum Step {
    /// The row of this processor from a start up to an end, for this task, is taken, worked and posted.
    Turn(u32, u128, u128, u32),
    /// A take on the first lane is told that the second one has posted only so many rows.
    Wait(u32, u32, u64),
    /// A take on the lane is told that all its rows are posted.
    Done(u32),
    /// Lane 0 fails at its third row.
    Fail,
    /// The book is halted.
    Halted,
    /// The book is dismissed.
    Dismiss,
}

/// A set, a window and a script.
type Script = (Set, u32, &'static [Step]);

const SCRIPTS: &[Script] = &[
    (
        THREE_TASKS,
        32,
        &[
            Turn(0, 0, 3, B),
            Turn(0, 3, 6, A),
            Turn(0, 6, 9, A),
            Turn(1, 0, 3, C),
            Turn(1, 3, 6, C),
            Turn(1, 6, 9, B),
        ],
    ),
    (
        THREE_TASKS,
        32,
        &[
            Turn(0, 0, 3, B),
            Turn(0, 3, 6, A),
            Turn(0, 6, 9, A),
            Done(0),
        ],
    ),
    (THREE_TASKS, 1, &[Turn(0, 0, 3, B), Wait(0, 1, 0)]),
    (
        FIVE_TASKS,
        32,
        &[
            Turn(1, 0, 5, B),
            Turn(1, 5, 10, B),
            Turn(1, 10, 15, B),
            Turn(2, 0, 5, D),
            Turn(2, 5, 10, D),
            Turn(2, 10, 15, D),
            Wait(1, 0, 0),
        ],
    ),
    (
        TURNS,
        1,
        &[
            Turn(0, 0, 2, A),
            Turn(0, 2, 4, B),
            Turn(0, 4, 6, A),
            Turn(0, 6, 8, B),
            Done(0),
        ],
    ),
    // Lane 0 posts its first two rows and fails at its third. Then no lane gets a row.
    (
        THREE_TASKS,
        32,
        &[Turn(0, 0, 3, B), Turn(0, 3, 6, A), Fail, Halted, Dismiss],
    ),
];

/// A row for a task.
fn row(processor: u32, start: u128, end: u128, task: u32) -> Row {
    Row {
        processor,
        start,
        end,
        leaf: Leaf::Task(TaskId(task)),
    }
}

/// Makes sure that lane p may ask for a row.
fn assert_free<Q: PostLedger>(rt: &impl Abort, book: &Book<Q, CountJob>, p: u32)
    ensures lane { p < length book.now.state.lanes }
    ensures free { (lane_at book.now.state.lanes p).out ≡ false }
    ensures open { ¬ (IsDismissed book.now) }
{
    assert!(rt; p < book.plan().tree().processors());
    assert!(rt; !book.lane(p).out);
    assert!(rt; !book.dismissed());
}

/// Takes a seat's next row, which must be this one, has its job work, and posts it.
fn turn<Q: PostLedger>(
    rt: &impl Abort,
    book: &mut Book<Q, CountJob>,
    seat: &mut LaneSeat<Q>,
    row: Row,
) {
    let p = seat.lane();
    assert_free(rt, book, p);
    assert!(rt; seat.posted() == book.lane(p).posted);
    let Look::Ready {
        row: taken,
        job: given,
    } = book.take(p)
    else {
        panic!(rt; "no row");
    };
    let Some(mut job) = given else {
        panic!(rt; "no job");
    };
    assert!(rt; taken == row);
    let _follows = book.log();
    let _lawful = book.plan();
    assert!(rt; taken.start <= taken.end && job.used() < 1 << 64 && taken.end < 1 << 64);
    let _ = job.work(taken.end - taken.start);
    book.post(p, seat, Some(job));
}

/// Makes sure that lane p waits for another one, which has posted only so many rows.
fn assert_waits<Q: PostLedger>(
    rt: &impl Abort,
    book: &mut Book<Q, CountJob>,
    p: u32,
    for_lane: u32,
    count: u64,
) {
    assert_free(rt, book, p);
    let Look::NotYet { lane, posted } = book.take(p) else {
        panic!(rt; "a lane that needn't wait");
    };
    assert!(rt; (lane, posted) == (for_lane, count));
}

/// Makes sure that all rows of lane p are posted.
fn assert_done<Q: PostLedger>(rt: &impl Abort, book: &mut Book<Q, CountJob>, p: u32) {
    assert_free(rt, book, p);
    let Look::Done = book.take(p) else {
        panic!(rt; "a lane with rows left");
    };
}

/// Makes sure of the ticks that the jobs of three tasks have used, of the two rows that were posted, and of the rounds.
fn assert_closing<Q: PostLedger>(
    rt: &impl Abort,
    closing: &Closing<Q, CountJob>,
    used: (u128, u128, u128),
    rounds: u64,
)
    requires { (t : ℕ) → t < 3 → (job : CountHeld) × JobAt closing.now.jobs.places t job }
{
    let jobs = &closing.jobs;
    assert!(rt; (jobs.used(A), jobs.used(B), jobs.used(C)) == used);
    assert!(rt; (closing.side.posted(), closing.table.rounds()) == (2, rounds));
}

/// Plays a step.
fn play_step<Q: PostLedger>(
    rt: &impl Abort,
    book: &mut Book<Q, CountJob>,
    seats: &mut [LaneSeat<Q>],
    step: Step,
) {
    match step {
        Turn(p, start, end, task) => {
            assert!(rt; (p as usize) < seats.len());
            turn(rt, book, &mut seats[p as usize], row(p, start, end, task));
        }
        Wait(p, lane, posted) => assert_waits(rt, book, p, lane, posted),
        Done(p) => assert_done(rt, book, p),
        Fail => fail(rt, book),
        Halted => assert_halted(rt, book),
        Dismiss => dismiss(rt, book),
    }
}

/// Plays a script.
fn play<Q: PostLedger>(
    rt: &impl Abort,
    book: &mut Book<Q, CountJob>,
    seats: &mut [LaneSeat<Q>],
    steps: &[Step],
) {
    for step in steps {
        play_step(rt, book, seats, *step);
    }
}

/// Plays a script over a new book of a plan.
fn run<Q: PostLedger>(
    rt: &impl Abort,
    alloc: Global,
    blank: Blank,
    plan: &Plan,
    window: u32,
    steps: &[Step],
)
    requires name { blank.name ≡ Q.name }
    requires parts { blank.parts ≡ Q.parts }
    requires made { Q.made ≡ [] }
    requires set { plan.now.set ≡ Q.set }
    requires compiled { IsCompiled plan.now }
    requires some_window { 1 ≤ window }
    requires small_window { window ≤ 1024 }
    requires lanes { blank.parts ≡ plan.now.tree.processors }
{
    let processors = plan.tree().processors();
    let (side, mut seats) = open::<Q>(blank, alloc, processors).expect(rt, "there is memory");
    let mut lanes = all_seats(rt, alloc, &mut seats, processors);
    let mut book = book_of(rt, alloc, plan, window, side);
    play(rt, &mut book, &mut lanes, steps);
}

/// Plays a script over a new book of its set.
fn run_script(rt: &impl Abort, alloc: Global, script: Script) {
    let (set, window, steps) = script;
    let plan = plan_of(rt, alloc, set);
    let processors = plan.tree().processors();
    assert!(rt; processors == set.0);
    assert!(rt; 1 <= window && window <= 1024);
    let blank = Blank::new(u64::from(processors));
    run::<Brand>(rt, alloc, blank, &plan, window, steps);
}

#[test]
fn plays_scripts(rt: HostRuntime) {
    for script in SCRIPTS {
        run_script(&rt, rt.alloc(), *script);
    }
}
