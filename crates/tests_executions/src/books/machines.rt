//! Scripts of events over two small schedules.
ghost use Rattle.std.specs.Prelude.{◌≡◌, ◌≤◌, length};

use self::Step::{Halted, Horizon, Lane, Make, May, NotStuck};
use book_machine::Event::{self, Halt, Post, Take};
use book_machine::MachineState;
use sched_base::{Leaf, ProcId, Row, RowTable, TaskId};
use std::alloc::Global;
use std::process::Abort;

const A: Leaf = Leaf::Task(TaskId(0));

const B: Leaf = Leaf::Task(TaskId(1));

const C: Leaf = Leaf::Task(TaskId(2));

const D: Leaf = Leaf::Task(TaskId(3));

const E: Leaf = Leaf::Task(TaskId(4));

const P0: ProcId = ProcId(0);

const P1: ProcId = ProcId(1);

const P2: ProcId = ProcId(2);

fn row(processor: u32, start: u128, end: u128, leaf: Leaf) -> Row
    ensures { result ≡ record { processor = processor; start = start; end = end; leaf = leaf } }
{
    Row {
        processor,
        start,
        end,
        leaf,
    }
}

/// Three tasks of rate 2/3 on two processors, over one period.
fn three_tasks(rt: &impl Abort, alloc: Global) -> RowTable {
    let mut table = RowTable::new(alloc, 2, 3).expect(rt, "there is memory");
    table.push_round(&[row(0, 0, 3, B), row(1, 0, 3, C)]);
    table.push_round(&[row(0, 3, 6, A), row(1, 3, 6, C)]);
    table.push_round(&[row(0, 6, 9, A), row(1, 6, 9, B)]);
    table
}

/// Five tasks of rate 3/5 on three processors, over one period.
fn two_reductions(rt: &impl Abort, alloc: Global) -> RowTable {
    let mut table = RowTable::new(alloc, 3, 4).expect(rt, "there is memory");
    table.push_round(&[row(0, 0, 5, A), row(1, 0, 5, B), row(2, 0, 5, D)]);
    table.push_round(&[row(0, 5, 10, C), row(1, 5, 10, B), row(2, 5, 10, D)]);
    table.push_round(&[row(0, 10, 15, E), row(1, 10, 15, B), row(2, 10, 15, D)]);
    table.push_round(&[row(0, 15, 25, E), row(1, 15, 25, A), row(2, 15, 25, C)]);
    table
}

/// A step of a script.
#[derive(Clone, Copy)]
enum Step {
    /// With this window these events are made, each of which is legal where it comes.
    Make(u32, &'static [Event]),
    /// With this window the event may come, or may not.
    May(u32, Event, bool),
    /// Up to the first of these ticks all rows are posted, where the schedule ends at the second.
    Horizon(u128, u128),
    /// The lane has posted that many rows, and has its next one out or not.
    Lane(u32, u64, bool),
    /// The machine is halted.
    Halted,
    /// With this window the machine isn't stuck.
    NotStuck(u32),
}

const OF_THREE_TASKS: &[&[Step]] = &[
    // A lane takes before it posts.
    &[
        May(1, Take(P0), true),
        May(1, Post(P0), false),
        May(1, Take(P2), false),
    ],
    // A lane waits for the window.
    &[
        Make(1, &[Take(P0), Post(P0)]),
        May(1, Take(P0), false),
        May(2, Take(P0), true),
        Horizon(0, 9),
        Make(1, &[Take(P1), Post(P1), Take(P0)]),
        Horizon(3, 9),
        Lane(0, 1, true),
        Lane(1, 1, false),
    ],
    // A lane runs ahead, but not past the next row of a task whose row on the other lane isn't posted.
    &[
        Make(32, &[Take(P1), Post(P1), Take(P1), Post(P1)]),
        May(32, Take(P1), false),
        Make(32, &[Take(P0)]),
        May(32, Take(P1), false),
        Make(32, &[Post(P0), Take(P1), Post(P1)]),
        Horizon(3, 9),
        Make(32, &[Take(P0), Post(P0), Take(P0), Post(P0)]),
        Lane(0, 3, false),
        Lane(1, 3, false),
        Horizon(9, 9),
        May(32, Take(P0), false),
        NotStuck(32),
    ],
    // Nothing is handed out once a row has failed.
    &[
        Make(1, &[Take(P0), Take(P1), Halt(P0)]),
        Halted,
        May(1, Take(P0), false),
        Make(1, &[Post(P1)]),
        Lane(0, 0, false),
        Lane(1, 1, false),
        Horizon(0, 9),
        NotStuck(1),
    ],
];

const TURN: &[Event] = &[Take(P1), Take(P2), Post(P1), Post(P2)];

const OF_TWO_REDUCTIONS: &[&[Step]] = &[
    // The lanes wait for the earlier rows of a task.
    &[
        Make(32, TURN),
        Make(32, TURN),
        Make(32, TURN),
        Horizon(0, 25),
        May(32, Take(P1), false),
        May(32, Take(P2), false),
        Make(32, &[Take(P0), Post(P0)]),
        Horizon(5, 25),
        May(32, Take(P1), true),
        May(32, Take(P2), false),
    ],
];

/// Makes sure of a window's bounds.
fn assert_window(rt: &impl Abort, window: u32)
    ensures some { 1 ≤ window }
    ensures small { window ≤ 1024 }
{
    assert!(rt; 1 <= window && window <= 1024);
}

/// Makes an event, which must be legal.
fn make(rt: &impl Abort, table: &RowTable, state: &mut MachineState, window: u32, event: Event)
    requires { length state.old.lanes ≡ length table.now.lanes }
    ensures { length state.new.lanes ≡ length state.old.lanes }
{
    assert_window(rt, window);
    assert!(rt; state.is_legal(table, window, event));
    assert!(rt; !state.stuck(table, window));
    state.step(table, window, event);
}

/// Makes these events.
fn make_all(
    rt: &impl Abort,
    table: &RowTable,
    state: &mut MachineState,
    window: u32,
    events: &[Event],
)
    requires { length state.old.lanes ≡ length table.now.lanes }
    ensures { length state.new.lanes ≡ length state.old.lanes }
{
    for event in events {
        make(rt, table, state, window, *event);
    }
}

/// Makes sure of how many rows a lane has posted, and of whether its next one is out.
fn assert_lane(
    rt: &impl Abort,
    table: &RowTable,
    state: &MachineState,
    p: u32,
    posted: u64,
    out: bool,
)
    requires { length state.now.lanes ≡ length table.now.lanes }
{
    assert!(rt; p < table.processors());
    assert!(rt; (state.posted(p), state.is_out(p)) == (posted, out));
}

/// Makes sure of a step that changes nothing.
fn look(rt: &impl Abort, table: &RowTable, state: &MachineState, step: Step)
    requires { length state.now.lanes ≡ length table.now.lanes }
{
    match step {
        Make(_, _) => (),
        May(window, event, may) => {
            assert_window(rt, window);
            assert!(rt; state.is_legal(table, window, event) == may);
        }
        Horizon(tick, end) => assert!(rt; state.horizon(table, end) == tick),
        Lane(p, posted, out) => assert_lane(rt, table, state, p, posted, out),
        Halted => assert!(rt; state.is_halted()),
        NotStuck(window) => {
            assert_window(rt, window);
            assert!(rt; !state.stuck(table, window));
        }
    }
}

/// Plays a step.
fn play_step(rt: &impl Abort, table: &RowTable, state: &mut MachineState, step: Step)
    requires { length state.old.lanes ≡ length table.now.lanes }
    ensures { length state.new.lanes ≡ length state.old.lanes }
{
    if let Make(window, events) = step {
        make_all(rt, table, state, window, events);
    } else {
        look(rt, table, state, step);
    }
}

/// Plays the steps of a script.
fn play_steps(rt: &impl Abort, table: &RowTable, state: &mut MachineState, steps: &[Step])
    requires { length state.old.lanes ≡ length table.now.lanes }
{
    for step in steps {
        play_step(rt, table, state, *step);
    }
}

/// Plays a script from the start.
fn play(rt: &impl Abort, alloc: Global, table: &RowTable, steps: &[Step]) {
    let lanes = table.processors();
    assert!(rt; 1 <= lanes && lanes <= 32);
    let mut state = MachineState::new(alloc, lanes).expect(rt, "there is memory");
    play_steps(rt, table, &mut state, steps);
}

#[test]
fn plays_over_three_tasks(rt: HostRuntime) {
    let table = three_tasks(&rt, rt.alloc());
    for steps in OF_THREE_TASKS {
        play(&rt, rt.alloc(), &table, steps);
    }
}

#[test]
fn plays_over_two_reductions(rt: HostRuntime) {
    let table = two_reductions(&rt, rt.alloc());
    for steps in OF_TWO_REDUCTIONS {
        play(&rt, rt.alloc(), &table, steps);
    }
}
