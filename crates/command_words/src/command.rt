//! What a command line asks for.

use crate::asking::Asked;

/// What a command line asks for.
#[derive(Clone, Copy)]
pub enum Command {
    /// A command that reads, and tells of what it read: it has no threads, calls no gate and no job, and returns.
    Read(Reading),
    /// `batch`: read many task sets, and tell of each whether it fits. It has threads, calls no gate and no job, and returns.
    Batch,
    /// A command that has gates and jobs run a schedule.
    Execute(Execution),
}

/// A command that reads.
#[derive(Clone, Copy, PartialEq, Eq)]
pub enum Reading {
    /// `rate`: read a task set, and tell its scale, its rates, their total and the room.
    Rate,
    /// `tree`: read a task set, and tell its tree of servers and duals.
    Tree,
    /// `trace`: read a task set, and tell its schedule.
    Trace,
    /// `trace --met`: the same, and when each period was done.
    TraceMet,
    /// `trace --by wrap`: read a task set, and tell its wrapped schedule.
    TraceWrap,
    /// `trace --repeat`: read a task set, and tell its schedule up to the least horizon at which it repeats.
    TraceRepeat,
    /// `table`: read a task set, and tell its schedule as C99 source.
    Table,
    /// `table --repeat`: read a task set, and tell its schedule up to the least horizon at which it repeats as C99 source.
    TableRepeat,
    /// `check`: read a trace text, and tell whether its rows are a valid schedule of its set.
    Check,
    /// `follow`: read a tree text, and tell the schedule of its tree.
    Follow,
    /// `draw`: read a trace text, and draw the units that are asked for.
    Draw(Asked),
}

/// A command that executes.
#[derive(Clone, Copy)]
pub enum Execution {
    /// `exec`: read a task set, run its schedule, and tell it. A lane may run up to `window` rounds ahead of the others.
    Exec { window: u32 },
    /// `exec --met`: the same with the usual window, and when each period was done.
    ExecMet,
    /// `drill N`: draw a task set from the number, run its schedule, and tell what is counted of it.
    Drill { number: u64 },
    /// `jobs`: read programs and a task set, load each task's job with its program, run the schedule, and tell the jobs' states.
    Jobs,
    /// `modes`: read task sets that follow each other on the same processors, run their schedules one after the other, and tell
    /// them.
    Modes,
}
