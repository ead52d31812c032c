//! Reading the trace text of a source, which isn't held as a whole.
ghost use Rattle.std.specs.Prelude.{ℕ, ◌≡◌, ◌≤◌, ◌<◌, ◌^◌, true, false, List, ◌++◌, length, Ok, IfOk, IfErr, OnOk};
ghost use Rattle.std.specs.Io.KnownBytes.{IsAtEnd};
ghost use Rattle.sched_base.specs.Tables.{row_limit};
ghost use Rattle.text_words.specs.Words.{lines_of};
ghost use Rattle.text_window.specs.Windows.{GaveRest, StopsFilling};
ghost use Rattle.trace_verdict.specs.Faults.{IsTrace};
ghost use Rattle.trace_check.specs.TaskLines.{is_scale};
ghost use Rattle.trace_check.specs.RowLines.{AreTotals};
ghost use Rattle.trace_check.specs.TailLines.{first_other, tail_lines};
ghost use Rattle.trace_check.specs.WholeRows.{AreRowsOf};
ghost use Rattle.trace_check.specs.Reading.{set_of, body};
ghost use Rattle.trace_check.specs.Sources.{trace_of, GaveTraceText, GaveNoTraceText, StopsInRest, GaveSome, GaveLast, RowsStopAt, StopsInTail};

use crate::checked::CheckedTrace;
use crate::faults::SourceFault;
use crate::front::{Front, read_front};
use crate::head_lines::Head;
use crate::reading::{Parts, read_parts};
use crate::row_reader::{RowReader, Stop};
use crate::tail_lines::{Tail, most_mets, reaches_for};
use crate::tail_reading::read_tail_on;
use crate::traces::ReadTrace;
use sched_base::TaskSet;
use sched_edges::{Source, TakeFault};
use std::alloc::Global;
use text_window::Window;
use trace_verdict::{FIRST_TASK_LINE, RowList};

/// How many bytes are ahead before the lines before the row lines are read. Right ones have fewer.
const FRONT_ROOM: usize = 32_768;

/// How many bytes behind the row lines are ahead before they are read, so that it is known whether they are few.
const TAIL_ROOM: usize = 32_768;

/// Why no more row lines are taken of a source, and whether it is known to be at its end.
#[derive(Clone, Copy)]
struct RowsStop {
    stop: Stop,
    ended: bool,
}

// Reads the row lines, and some of what follows them.
fn read_rows<R: Source>(
    source: &mut R,
    window: &mut Window,
    set: &TaskSet,
    rows: &mut RowReader,
) -> Result<RowsStop, TakeFault>
    requires within { window.old.count ≤ window.old.limit }
    requires small { window.old.limit < 2 ^ 63 }
    requires none { AreRowsOf set.now.tasks window.old.ahead rows.old.rows rows.old.totals.items window.old.ahead }
    ensures read { IfOk result (λ r. (more : List ℕ) × GaveSome (R.left source.old) (R.left source.new) window.old window.new r.ended more
        × RowsStopAt set.now.tasks (window.old.ahead ++ more) rows.new.rows rows.new.totals.items window.new.ahead r) }
    ensures stops { IfErr result (StopsFilling (R.left source.old) (R.left source.new) (R.faults source.old) (R.faults source.new) window.old) }
    ensures later { R.faults source.old ≤ R.faults source.new }
{
    loop {
        let stop = rows.take_from(set, window)?;
        if !stop.is_cut() {
            let ended = !window.fill(source, TAIL_ROOM)?;
            return Ok(RowsStop { stop, ended });
        }
        let least = 2 * window.ahead().len() + 1;
        if !window.fill(source, least)? {
            let stop = rows.take_last(set, window)?;
            return Ok(RowsStop { stop, ended: true });
        }
    }
}

// Reads the source to its end, if it isn't there.
fn skip_rest<R: Source>(source: &mut R, window: &mut Window, ended: bool) -> Result<(), TakeFault>
    requires within { ended ≡ false → window.old.count ≤ window.old.limit }
    requires small { ended ≡ false → window.old.limit < 2 ^ 63 }
    requires end { ended ≡ true → IsAtEnd (R.left source.old) }
    ensures rest { OnOk result ((more : List ℕ) × GaveLast (R.left source.old) (R.left source.new) ended window.old more) }
    ensures stops { IfErr result (λ fault. (ended ≡ false)
        × StopsFilling (R.left source.old) (R.left source.new) (R.faults source.old) (R.faults source.new) window.old fault) }
{
    if ended {
        return Ok(());
    }
    window.skip_all(source)
}

// The place of the first line after the row lines that isn't the expected one.
fn read_tail_of<R: Source>(
    alloc: Global,
    source: &mut R,
    window: &mut Window,
    head: &Head,
    set: &TaskSet,
    rows: &RowList,
    totals: &[u128],
    ended: bool,
) -> Result<Option<u64>, SourceFault>
    requires within { ended ≡ false → window.old.count ≤ window.old.limit }
    requires small { ended ≡ false → window.old.limit < 2 ^ 63 }
    requires end { ended ≡ true → IsAtEnd (R.left source.old) }
    requires scale { head.now.scale ≤ 2 ^ 94 }
    requires few { length rows.now ≤ row_limit }
    requires totals { AreTotals rows.now totals.now }
    requires count { length totals.now ≡ length set.now.tasks }
    ensures read { IfOk result (λ other. (more : List ℕ) × GaveLast (R.left source.old) (R.left source.new) ended window.old more
        × (first_other (tail_lines head.now.version set.now head.now.scale rows.now) (lines_of (window.old.ahead ++ more)) ≡ other)) }
    ensures stops { IfErr result (λ fault. StopsInTail (R.left source.old) (R.left source.new) (R.faults source.old) (R.faults source.new) window.old
        ended fault) }
    ensures later { R.faults source.old ≤ R.faults source.new }
{
    let most = most_mets(window.ahead(), ended);
    let reaches = reaches_for(alloc, head.version, set, head.scale, rows, most)?;
    let tail = Tail {
        version: head.version,
        set,
        scale: head.scale,
        rows,
        totals,
        reaches: reaches.as_slice(),
    };
    Ok(read_tail_on(source, window, &tail, ended)?)
}

// What the text of a source says whose front is gone past.
fn read_rest<R: Source>(
    alloc: Global,
    source: &mut R,
    window: &mut Window,
    head: &Head,
    set: TaskSet,
) -> Result<Parts, SourceFault>
    requires within { window.old.count ≤ window.old.limit }
    requires small { window.old.limit < 2 ^ 63 }
    requires set { set ≡ set_of head.now set.tasks }
    requires scale { is_scale set.tasks head.now.scale ≡ true }
    ensures read { IfOk result (λ p. (more : List ℕ) × GaveRest (R.left source.old) (R.left source.new) window.old more
        × (body head.now set.tasks (lines_of (window.old.ahead ++ more)) ≡ Ok (trace_of p))) }
    ensures lawful { IfOk result (λ p. IsTrace p.set p.scale p.rows) }
    ensures stops { IfErr result (StopsInRest (R.left source.old) (R.left source.new) (R.faults source.old) (R.faults source.new) window.old
        head.now set.tasks) }
{
    let mut reader = RowReader::new(alloc, &set)?;
    let at = read_rows(source, window, &set, &mut reader)?;
    let RowReader {
        table: _table,
        rows,
        totals,
    } = reader;
    let first = FIRST_TASK_LINE + u64::from(set.count()) + rows.len() as u64;
    if at.stop.is_fault() {
        skip_rest(source, window, at.ended)?;
        return Err(SourceFault::BadLine { line: first });
    }
    match read_tail_of(alloc, source, window, head, &set, &rows, &totals, at.ended)? {
        Some(place) => Err(SourceFault::BadLine {
            line: first + place,
        }),
        None => Ok(Parts {
            set,
            scale: head.scale,
            rows,
        }),
    }
}

fn read_source<R: Source>(alloc: Global, source: &mut R, limit: usize) -> Result<Parts, SourceFault>
    requires { limit < 2 ^ 63 }
    ensures read { IfOk result (λ p. GaveTraceText (R.left source.old) (R.left source.new) limit (trace_of p)) }
    ensures lawful { IfOk result (λ p. IsTrace p.set p.scale p.rows) }
    ensures stops { IfErr result (GaveNoTraceText (R.left source.old) (R.left source.new) (R.faults source.old) (R.faults source.new) limit) }
{
    let mut window = Window::new(alloc, limit);
    window.fill(source, FRONT_ROOM)?;
    match read_front(alloc, window.ahead()) {
        Some(Front { head, set, count }) => {
            window.pass(count);
            read_rest(alloc, source, &mut window, &head, set)
        }
        None => {
            window.fill_all(source)?;
            Ok(read_parts(alloc, window.ahead())?)
        }
    }
}

/// Reads a source to its end, as a trace text of at most so many bytes, as `read_trace` reads its bytes.
pub fn read_trace_source<R: Source>(
    alloc: Global,
    source: &mut R,
    limit: usize,
) -> Result<ReadTrace, SourceFault>
    requires { limit < 2 ^ 63 }
    ensures trace { IfOk result (GaveTraceText (R.left source.old) (R.left source.new) limit) }
    ensures fault { IfErr result (GaveNoTraceText (R.left source.old) (R.left source.new) (R.faults source.old) (R.faults source.new) limit) }
{
    let Parts { set, scale, rows } = read_source(alloc, source, limit)?;
    Ok(ReadTrace::new(alloc, set, scale, rows)?)
}

/// Reads a trace of a source for whoever asks for no order of the rows.
pub fn read_checked_source<R: Source>(
    alloc: Global,
    source: &mut R,
    limit: usize,
) -> Result<CheckedTrace, SourceFault>
    requires { limit < 2 ^ 63 }
    ensures trace { IfOk result (GaveTraceText (R.left source.old) (R.left source.new) limit) }
    ensures fault { IfErr result (GaveNoTraceText (R.left source.old) (R.left source.new) (R.faults source.old) (R.faults source.new) limit) }
{
    let Parts { set, scale, rows } = read_source(alloc, source, limit)?;
    Ok(CheckedTrace::new(alloc, set, scale, rows)?)
}
