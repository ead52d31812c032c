//! Rows summed, merged, wrapped and told in C, and traces written, read, judged, told and drawn. What the tests share: a trace and
//! rows of three tasks.
ghost use Rattle.std.specs.Prelude.{◌≡◌};

mod merging;
mod pictures;
mod reading;
mod reports;
mod sources;
mod tables;
mod totals;
mod words;
mod wrapping;
mod writing;

use sched_base::{Leaf, Row, TaskId};

// The trace of three tasks of rate 2/3 on two processors.
const THREE_TASKS: &str =
    "run-trace 1\nprocessors 2\nhorizon 3\nscale 3\ntasks 3\ntask a 2 3\ntask b 2 3\ntask c 2 3\nrow 0 0 3 b\nrow 0 3 9 a\n\
        row 1 0 6 c\nrow 1 6 9 b\ntotal a 6\ntotal b 6\ntotal c 6\nrows 4\n";

const A: Leaf = Leaf::Task(TaskId(0));

const B: Leaf = Leaf::Task(TaskId(1));

const C: Leaf = Leaf::Task(TaskId(2));

fn row(processor: u32, start: u128, end: u128, leaf: Leaf) -> Row
    ensures { result ≡ record { processor = processor; start = start; end = end; leaf = leaf } }
{
    Row {
        processor,
        start,
        end,
        leaf,
    }
}
