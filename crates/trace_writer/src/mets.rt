//! The lines of the periods that end by the horizon.
ghost use Rattle.std.specs.Prelude.{◌≡◌, ◌≤◌, ◌<◌, ◌++◌, ℕ, List, length, take};
ghost use Rattle.std.specs.List.{enumerate_from, flat_map};
ghost use Rattle.sched_base.specs.declared.rows.Row.{Row as declared_row};
ghost use Rattle.sched_edges.specs.Causes.{HasCause};
ghost use Rattle.sched_edges.specs.Streams.{Wrote};
ghost use Rattle.trace_format.specs.declared.versions.Version.TheVariants.{Two};
ghost use Rattle.trace_format.specs.Text.{met_lines};
ghost use Rattle.trace_writer.specs.Finishes.{HaveRoom, AreDoneBy};
ghost use Rattle.trace_writer.specs.Parts.{text_of, line_of_met};

use crate::finishes::Finishes;
use crate::lines::add_met;
use crate::pages::{FULL, Page};
use crate::pens::Count;
use sched_base::TaskSet;
use sched_edges::{Failed, Sink, write_all};

/// Writes for each task in order, and for each of its periods that ends by the horizon, when it was done.
pub(crate) fn write_mets<W: Sink>(
    sink: &mut W,
    set: &TaskSet,
    finishes: &Finishes,
) -> Result<(), Failed>
    requires room { HaveRoom set.now finishes.now }
    ensures wrote { (scale : ℕ) (rows : List declared_row) → AreDoneBy scale set.now.tasks rows finishes.now →
        Wrote (W.taken sink.old) (W.taken sink.new) (text_of (met_lines Two scale set.now rows)) result }
    ensures cause { HasCause (W.faults sink.old) (W.faults sink.new) result }
{
    for (j, task) in set.tasks().iter().enumerate() {
        write_mets_of_task(sink, task.name.as_slice(), finishes.of_task(j))?;
    }
    Ok(())
}

// Writes the lines of the task of this name.
fn write_mets_of_task<W: Sink>(sink: &mut W, name: &[u8], ends: &[u128]) -> Result<(), Failed>
    requires { length name.now ≤ 32 }
    ensures wrote { Wrote (W.taken sink.old) (W.taken sink.new) (flat_map (line_of_met name.now) (enumerate_from 0 ends.now)) result }
    ensures cause { HasCause (W.faults sink.old) (W.faults sink.new) result }
{
    let mut page = Page::new();
    let mut period = Count::zero();
    let mut tick = Count::zero();
    let mut next = 0;
    while next < ends.len() {
        next = fill(&mut page, &mut period, &mut tick, name, ends, next);
        write_all(sink, page.as_slice())?;
    }
    Ok(())
}

// The page holds lines of periods from `first` on alone, as many as it has room for. Says which period comes after them.
fn fill(
    page: &mut Page,
    period: &mut Count,
    tick: &mut Count,
    name: &[u8],
    ends: &[u128],
    first: usize,
) -> usize
    requires name { length name.now ≤ 32 }
    requires some { first < length ends.now }
    ensures later { first < result }
    ensures within { result ≤ length ends.now }
    ensures text { flat_map (line_of_met name.now) (take result (enumerate_from 0 ends.now))
        ≡ flat_map (line_of_met name.now) (take first (enumerate_from 0 ends.now)) ++ page.new }
{
    page.clear();
    for k in first..ends.len() {
        if page.len() > FULL {
            return k;
        }
        add_met(page, period, tick, name, k as u64, ends[k]);
    }
    ends.len()
}
