//! The lines of tasks and rows.
ghost use Rattle.std.specs.Prelude.{◌≡◌, ◌≤◌, ◌++◌, ◌∷◌, codes, decimal, length};
ghost use Rattle.sched_base.specs.Bytes.{space};
ghost use Rattle.row_totals.specs.Sums.{IsAmong};
ghost use Rattle.trace_format.specs.Lines.{leaf_name, task_line, row_line, met_line};

use crate::pages::Page;
use crate::pens::{Count, Pen};
use sched_base::{Leaf, Row, Task, TaskSet};
use sched_edges::Line;
use trace_format::Version;

/// The line of a task.
#[tactic(auto, unfolding(trace_format::specs::Lines::task_line, sched_edges::specs::Lines::line_of))]
pub(crate) fn line_of_task(version: Version, task: &Task) -> Line
    ensures { result ≡ task_line version task.now }
{
    let mut line = start_of_task(task);
    match version {
        Version::One => {
            line.end();
            line
        }
        Version::Two => {
            line.space();
            line.number(u128::from(task.offset));
            line.end();
            line
        }
    }
}

// The line of a task up to its period.
fn start_of_task(task: &Task) -> Line
    ensures text { result ≡ codes "task " ++ (task.now.name ++ (space ∷ (decimal task.now.work ++ (space ∷ decimal task.now.period)))) }
    ensures short { length result ≤ 128 }
{
    let mut line = Line::new();
    line.text(b"task ");
    line.text(task.name.as_slice());
    line.space();
    line.number(u128::from(task.work));
    line.space();
    line.number(u128::from(task.period));
    line
}

/// Adds the line of a row to a page that has room for any.
#[tactic(auto, unfolding(trace_format::specs::Lines::row_line, sched_edges::specs::Lines::line_of))]
#[inline(always)]
pub(crate) fn add_row(page: &mut Page, pen: &mut Pen, set: &TaskSet, row: &Row)
    requires among { IsAmong (length set.now.tasks) row.now.leaf }
    requires room { length page.old ≤ 3840 }
    ensures { page.new ≡ page.old ++ row_line set.now.tasks row.now }
{
    pen.lead.set(row.processor);
    pen.tick.keep(row.start);
    page.begin_row(&pen.lead, &pen.tick);
    pen.tick.set(row.end);
    page.end_row(&pen.tick, name_of(set, row.leaf));
}

/// Adds the line of a period to a page that has room for any.
#[tactic(auto, unfolding(trace_format::specs::Lines::met_line, sched_edges::specs::Lines::line_of))]
pub(crate) fn add_met(
    page: &mut Page,
    period: &mut Count,
    tick: &mut Count,
    name: &[u8],
    k: u64,
    finish: u128,
)
    requires name { length name.now ≤ 32 }
    requires room { length page.old ≤ 3840 }
    ensures { page.new ≡ page.old ++ met_line name.now k finish }
{
    page.text(b"met ");
    page.put_name(name);
    page.space();
    period.set(u128::from(k));
    page.word(period);
    tick.set(finish);
    page.count(tick);
    page.end();
}

// The name that a row's line gives its leaf.
#[inline(always)]
fn name_of(set: &TaskSet, leaf: Leaf) -> &[u8]
    requires { IsAmong (length set.now.tasks) leaf }
    ensures name { result.now ≡ leaf_name set.now.tasks leaf }
    ensures short { length result.now ≤ 32 }
{
    match leaf {
        Leaf::Task(id) => set.tasks()[id.0 as usize].name.as_slice(),
        Leaf::Idle(_) | Leaf::Wait(_) | Leaf::Empty => b"-".as_slice(),
    }
}
