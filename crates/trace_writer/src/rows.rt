//! The lines of the rows.
ghost use Rattle.std.specs.Prelude.{◌≡◌, ◌≤◌, ◌<◌, [], length, IfOk};
ghost use Rattle.std.specs.List.{AllByRecursion, flat_map};
ghost use Rattle.sched_base.specs.Tables.{all_rows, lane_of, row_limit};
ghost use Rattle.sched_edges.specs.Causes.{HasCause};
ghost use Rattle.sched_edges.specs.Streams.{Wrote};
ghost use Rattle.row_totals.specs.Sums.{NamesAmong};
ghost use Rattle.trace_format.specs.Lines.{row_line};
ghost use Rattle.trace_writer.specs.Parts.{IsPage};

use crate::lines::add_row;
use crate::pages::{FULL, Page};
use crate::pens::Pen;
use crate::shown::ShownRows;
use sched_base::TaskSet;
use sched_edges::{Failed, Sink, write_all};

/// Writes the rows of all processors, and says how many lines these are.
pub(crate) fn write_rows<W: Sink, R: ShownRows>(
    sink: &mut W,
    set: &TaskSet,
    rows: &R,
) -> Result<u64, Failed>
    requires names { AllByRecursion (NamesAmong (length set.now.tasks)) (R.lanes rows.now) }
    requires few { length (all_rows (R.lanes rows.now)) ≤ row_limit }
    ensures wrote { Wrote (W.taken sink.old) (W.taken sink.new) (flat_map (row_line set.now.tasks) (all_rows (R.lanes rows.now))) result }
    ensures count { IfOk result (λ n. n ≡ length (all_rows (R.lanes rows.now))) }
    ensures cause { HasCause (W.faults sink.old) (W.faults sink.new) result }
{
    let mut count = 0;
    for p in 0..rows.processors() {
        count += write_lane(sink, set, rows, p)?;
    }
    Ok(count)
}

// Writes the rows of processor p, and says how many lines these are.
fn write_lane<W: Sink, R: ShownRows>(
    sink: &mut W,
    set: &TaskSet,
    rows: &R,
    p: u32,
) -> Result<u64, Failed>
    requires processor { p < length (R.lanes rows.now) }
    requires whole { R.left rows.now p 0 ≡ lane_of (R.lanes rows.now) p }
    requires names { NamesAmong (length set.now.tasks) (lane_of (R.lanes rows.now) p) }
    requires few { length (lane_of (R.lanes rows.now) p) ≤ row_limit }
    ensures wrote { Wrote (W.taken sink.old) (W.taken sink.new) (flat_map (row_line set.now.tasks) (lane_of (R.lanes rows.now) p)) result }
    ensures count { IfOk result (λ n. n ≡ length (lane_of (R.lanes rows.now) p)) }
    ensures cause { HasCause (W.faults sink.old) (W.faults sink.new) result }
{
    let mut page = Page::new();
    let mut pen = Pen::new();
    let mut count = 0;
    let mut place = 0;
    'pages: loop {
        let (lines, later) = fill(&mut page, &mut pen, set, rows, p, place);
        if lines == 0 {
            return Ok(count);
        }
        write_all(sink, page.as_slice())?;
        count += lines;
        place = later;
    }
}

// The page holds lines of processor p's rows from a place on alone, as many as it has room for. Says how many these are, and the place behind
// them.
fn fill<R: ShownRows>(
    page: &mut Page,
    pen: &mut Pen,
    set: &TaskSet,
    rows: &R,
    p: u32,
    first: usize,
) -> (u64, usize)
    requires processor { p < length (R.lanes rows.now) }
    requires names { NamesAmong (length set.now.tasks) (R.left rows.now p first) }
    requires few { length (R.left rows.now p first) ≤ row_limit }
    ensures page { IsPage set.now.tasks (R.left rows.now p first) (R.left rows.now p result.1) result.0 page.new }
    ensures names { NamesAmong (length set.now.tasks) (R.left rows.now p result.1) }
    ensures end { result.0 ≡ 0 → R.left rows.now p first ≡ [] }
{
    page.clear();
    let mut lines = 0;
    let mut place = first;
    'lines: while let Some((row, later)) = rows.next_row(p, place) {
        add_row(page, pen, set, &row);
        lines += 1;
        place = later;
        if page.len() > FULL {
            return (lines, place);
        }
    }
    (lines, place)
}
