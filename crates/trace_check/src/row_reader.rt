//! Row lines of a text that comes piece by piece.
ghost use Rattle.std.specs.Prelude.{ℕ, ◌≡◌, ◌≤◌, true, false, List, ◌++◌, length, drop, IfOk, IfSome};
ghost use Rattle.trace_check.specs.RowLines.{AreTotals};
ghost use Rattle.trace_check.specs.RowWords.{SaysWholeRow};
ghost use Rattle.trace_check.specs.WholeRows.{AreRowsOf, NextWhole, RowsEnd, StopIs};

use crate::known_words::LastWords;
use crate::name_table::NameTable;
use crate::row_lines::{add_ticks, begins_row, row_from, row_of};
use crate::row_runs::{run_row, run_words, short_words};
use crate::row_words::{RowWords, next_row_words, whole_row_words};
use sched_base::{NoMemory, Row, TaskSet};
use std::alloc::{AllocError, Global};
use text_window::{Window, whole_line};
use trace_verdict::RowList;

/// What the first line of a text is of which more may follow.
#[derive(Clone, Copy)]
pub(crate) enum NextLine<'a> {
    /// A row line, with the lines that follow.
    Row(Row, &'a [u8]),
    /// No row line.
    Ends,
    /// A row line at fault.
    Fault,
    /// A line whose line feed isn't there.
    Cut,
}

/// Why no more row lines are taken.
#[derive(Clone, Copy)]
pub(crate) enum Stop {
    /// A line follows that is no row line.
    Ends,
    /// The next row line is at fault.
    Fault,
    /// The next line has no line feed in the text.
    Cut,
}

impl Stop {
    /// Whether the next line has no line feed in the text.
    pub fn is_cut(self) -> bool
        ensures cut { result ≡ true → self ≡ Stop.Cut }
        ensures other { result ≡ false → self ≡ Stop.Cut → ⊥ }
    {
        matches!(self, Stop::Cut)
    }

    /// Whether the next row line is at fault.
    pub fn is_fault(self) -> bool
        ensures fault { result ≡ true → self ≡ Stop.Fault }
        ensures other { result ≡ false → self ≡ Stop.Fault → ⊥ }
    {
        matches!(self, Stop::Fault)
    }
}

// The next line, word by word.
#[inline(never)]
fn next_by_words<'a>(
    set: &TaskSet,
    table: &NameTable,
    rows: &RowList,
    totals: &[u128],
    text: &'a [u8],
) -> NextLine<'a>
    requires totals { AreTotals rows.now totals.now }
    requires count { length totals.now ≡ length set.now.tasks }
    ensures { NextWhole set.now.tasks rows.now text.now result }
{
    let (line, later) = match whole_line(text) {
        Some(cut) => cut,
        None => return NextLine::Cut,
    };
    if !begins_row(line) {
        return NextLine::Ends;
    }
    match row_of(set, table, rows, totals, line) {
        Some(row) => NextLine::Row(row, later),
        None => NextLine::Fault,
    }
}

// What the first line is, of which these are the words.
#[inline(always)]
fn line_of<'a>(
    set: &TaskSet,
    table: &NameTable,
    rows: &RowList,
    totals: &[u128],
    _text: &[u8],
    words: &RowWords<'a>,
) -> NextLine<'a>
    requires totals { AreTotals rows.now totals.now }
    requires count { length totals.now ≡ length set.now.tasks }
    requires words { SaysWholeRow _text.now words.now }
    ensures { NextWhole set.now.tasks rows.now _text.now result }
{
    let row = row_from(
        set,
        table,
        rows,
        totals,
        words.processor,
        words.start,
        words.end,
        words.name,
    );
    match row {
        Some(row) => NextLine::Row(row, words.later),
        None => NextLine::Fault,
    }
}

// The next line where it doesn't go on where the last one ends.
#[inline(never)]
fn other_line<'a>(
    set: &TaskSet,
    table: &NameTable,
    rows: &RowList,
    totals: &[u128],
    last: &mut LastWords<'a>,
    text: &'a [u8],
) -> NextLine<'a>
    requires totals { AreTotals rows.now totals.now }
    requires count { length totals.now ≡ length set.now.tasks }
    ensures { NextWhole set.now.tasks rows.now text.now result }
{
    match whole_row_words(text, last) {
        Some(words) => line_of(set, table, rows, totals, text, &words),
        None => next_by_words(set, table, rows, totals, text),
    }
}

// The next line. The words of the line before become its words, where it is a row line as they mostly are.
#[inline(never)]
fn next_line<'a>(
    set: &TaskSet,
    table: &NameTable,
    rows: &RowList,
    totals: &[u128],
    last: &mut LastWords<'a>,
    text: &'a [u8],
) -> NextLine<'a>
    requires totals { AreTotals rows.now totals.now }
    requires count { length totals.now ≡ length set.now.tasks }
    ensures { NextWhole set.now.tasks rows.now text.now result }
{
    match next_row_words(text, last) {
        Some(words) => line_of(set, table, rows, totals, text, &words),
        None => other_line(set, table, rows, totals, last, text),
    }
}

/// The rows that were read so far, and for each task the sum of the ticks of its rows.
#[derive(Drop)]
pub(crate) struct RowReader {
    pub table: NameTable,
    pub rows: RowList,
    pub totals: Vec<u128>,
}

impl RowReader {
    /// No rows of this set.
    pub fn new(alloc: Global, set: &TaskSet) -> Result<RowReader, NoMemory>
        ensures { IfOk result (λ r. (text : List ℕ) → AreRowsOf set.now.tasks text r.rows r.totals.items text) }
    {
        let table = NameTable::new(alloc, set)?;
        let totals = vec![in alloc; 0u128; set.tasks().len()]?;
        Ok(RowReader {
            table,
            rows: RowList::new(alloc),
            totals,
        })
    }

    // Reads the row lines at the front that go on where the last line ends, as they mostly do: what follows them, and the words
    // of the last of them.
    #[inline(never)]
    fn take_run<'a>(
        &mut self,
        set: &TaskSet,
        last: LastWords<'a>,
        text: &'a [u8],
    ) -> Result<(&'a [u8], LastWords<'a>), AllocError>
        requires { (whole : List ℕ) × AreRowsOf set.now.tasks whole self.old.rows self.old.totals.items text.now }
        ensures split { IfOk result (λ p. (gone : List ℕ) × (text.now ≡ gone ++ p.0.now)) }
        ensures less { IfOk result (λ p. length p.0.now ≤ length text.now) }
        ensures read { IfOk result (λ p. (whole : List ℕ) → AreRowsOf set.now.tasks whole self.old.rows self.old.totals.items text.now
            → AreRowsOf set.now.tasks whole self.new.rows self.new.totals.items p.0.now) }
    {
        let mut rest = text;
        let Some(front) = last.front.short() else {
            return Ok((rest, last));
        };
        let Some(mut end) = last.end.short() else {
            return Ok((rest, last));
        };
        while let Some(words) = run_words(set, &self.table, &front, &end, rest)
            && let Some(row) = run_row(set, &self.rows, &self.totals, &words)
        {
            add_ticks(set, &self.rows, &mut self.totals, &row);
            self.rows.push(&row)?;
            end = words.end;
            rest = words.words.later;
        }
        let front = front.front;
        let end = end.wide();
        Ok((rest, LastWords { front, end }))
    }

    // Reads the row lines at the front whose numbers have few bits, where the last end has: what follows them, and the words of the
    // last of them.
    #[inline(never)]
    fn take_short<'a>(
        &mut self,
        set: &TaskSet,
        last: LastWords<'a>,
        text: &'a [u8],
    ) -> Result<(&'a [u8], LastWords<'a>), AllocError>
        requires { (whole : List ℕ) × AreRowsOf set.now.tasks whole self.old.rows self.old.totals.items text.now }
        ensures split { IfOk result (λ p. (gone : List ℕ) × (text.now ≡ gone ++ p.0.now)) }
        ensures less { IfOk result (λ p. length p.0.now ≤ length text.now) }
        ensures read { IfOk result (λ p. (whole : List ℕ) → AreRowsOf set.now.tasks whole self.old.rows self.old.totals.items text.now
            → AreRowsOf set.now.tasks whole self.new.rows self.new.totals.items p.0.now) }
    {
        if last.end.short().is_none() {
            return Ok((text, last));
        }
        let (mut rest, mut last) = self.take_run(set, last, text)?;
        while let Some((words, known)) = short_words(set, &self.table, rest)
            && let Some(row) = run_row(set, &self.rows, &self.totals, &words)
        {
            add_ticks(set, &self.rows, &mut self.totals, &row);
            self.rows.push(&row)?;
            let (behind, then) = self.take_run(set, known, words.words.later)?;
            rest = behind;
            last = then;
        }
        Ok((rest, last))
    }

    /// Reads the row lines at the front that have their line feeds: how many bytes they are, and why no more.
    pub fn take(&mut self, set: &TaskSet, text: &[u8]) -> Result<(usize, Stop), AllocError>
        requires { (whole : List ℕ) × AreRowsOf set.now.tasks whole self.old.rows self.old.totals.items text.now }
        ensures within { IfOk result (λ p. p.0 ≤ length text.now) }
        ensures read { IfOk result (λ p. (whole : List ℕ) → AreRowsOf set.now.tasks whole self.old.rows self.old.totals.items text.now
            → AreRowsOf set.now.tasks whole self.new.rows self.new.totals.items (drop p.0 text.now)) }
        ensures stop { IfOk result (λ p. StopIs set.now.tasks self.new.rows (drop p.0 text.now) p.1) }
    {
        let mut rest = text;
        let mut last = LastWords::none();
        loop {
            let gone = text.len() - rest.len();
            match next_line(set, &self.table, &self.rows, &self.totals, &mut last, rest) {
                NextLine::Row(row, later) => {
                    add_ticks(set, &self.rows, &mut self.totals, &row);
                    self.rows.push(&row)?;
                    let (behind, words) = self.take_short(set, last, later)?;
                    rest = behind;
                    last = words;
                }
                NextLine::Ends => return Ok((gone, Stop::Ends)),
                NextLine::Fault => return Ok((gone, Stop::Fault)),
                NextLine::Cut => return Ok((gone, Stop::Cut)),
            }
        }
    }

    /// Goes past the row lines at the front of the window that have their line feeds, and tells why no more.
    pub fn take_from(&mut self, set: &TaskSet, window: &mut Window) -> Result<Stop, AllocError>
        requires { (whole : List ℕ) × AreRowsOf set.now.tasks whole self.old.rows self.old.totals.items window.old.ahead }
        ensures read { IfOk result (λ _. (whole : List ℕ) → AreRowsOf set.now.tasks whole self.old.rows self.old.totals.items window.old.ahead
            → AreRowsOf set.now.tasks whole self.new.rows self.new.totals.items window.new.ahead) }
        ensures stop { IfOk result (StopIs set.now.tasks self.new.rows window.new.ahead) }
        ensures split { IfOk result (λ _. (gone : List ℕ) × (window.old.ahead ≡ gone ++ window.new.ahead)) }
        ensures count { window.new.count ≡ window.old.count }
        ensures limit { window.new.limit ≡ window.old.limit }
    {
        let (count, stop) = self.take(set, window.ahead())?;
        window.pass(count);
        Ok(stop)
    }

    /// Takes row lines where the source is at its end, so that the last line may lack its line feed.
    pub fn take_last(&mut self, set: &TaskSet, window: &mut Window) -> Result<Stop, AllocError>
        requires { (whole : List ℕ) × AreRowsOf set.now.tasks whole self.old.rows self.old.totals.items window.old.ahead }
        ensures { IfOk result (λ stop. (whole : List ℕ) → AreRowsOf set.now.tasks whole self.old.rows self.old.totals.items window.old.ahead
            → RowsEnd set.now.tasks whole self.new.rows self.new.totals.items window.new.ahead stop) }
    {
        window.end_line()?;
        let stop = self.take_from(set, window)?;
        Ok(stop)
    }
}
