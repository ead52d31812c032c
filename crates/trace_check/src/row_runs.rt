//! Row lines that go on where the line before ends, as most do, with a tick of 64 bits and a name that the table guesses.
ghost use Rattle.std.specs.Prelude.{ℕ, ◌≡◌, ◌<◌, length, Some, IfSome};
ghost use Rattle.text_window.specs.Lines.{IsWholeLine, LacksFeed};
ghost use Rattle.trace_verdict.specs.Orders.{leaf_key};
ghost use Rattle.trace_check.specs.RowLines.{leaf_named, row_from, IsRead, AreTotals};
ghost use Rattle.trace_check.specs.RowWords.{SaysWholeRow};

use crate::known_words::{LastWords, ShortFront, ShortWord, cut_front, cut_short};
use crate::name_table::NameTable;
use crate::row_lines::{guessed_task, is_idle_name, total_fits};
use crate::row_words::RowWords;
use sched_base::{Leaf, ROW_LIMIT, Row, TaskId, TaskSet};
use trace_verdict::RowList;

/// How many bytes are looked at together.
const EIGHT: usize = 8;

/// A line feed in each of eight bytes.
const FEEDS: u64 = 0x0A0A_0A0A_0A0A_0A0A;

/// A one in each of eight bytes.
const ONES: u64 = 0x0101_0101_0101_0101;

/// A name up to its line feed, the leaf that it names, and the lines that follow.
#[derive(Clone, Copy)]
struct NamedLine<'a> {
    name: &'a [u8],
    leaf: Leaf,
    later: &'a [u8],
}

/// The words of a row line, with its numbers in few bits, and the leaf that its name names.
#[derive(Clone, Copy)]
pub(crate) struct RunWords<'a> {
    pub words: RowWords<'a>,
    pub processor: u32,
    pub start: u64,
    pub end: ShortWord<'a>,
    pub leaf: Leaf,
    ghost processor_is: { words.processor ≡ processor },
    ghost start_is: { words.start ≡ start },
    ghost end_is: { words.end ≡ end.number },
}

// Where the first line feed may stand; whoever takes it looks. Of eight bytes the first one is found at once: of those that differ from
// no line feed, the lowest loses its ones to the bit above.
#[inline(always)]
fn place_guessed(text: &[u8]) -> usize {
    if text.len() < EIGHT {
        return place_by_bytes(text);
    }
    let word = u64::from_le_bytes([
        text[0], text[1], text[2], text[3], text[4], text[5], text[6], text[7],
    ]);
    let others = word ^ FEEDS;
    let marks = others.wrapping_sub(ONES) & !others & (ONES << 7);
    if marks == 0 {
        return place_by_bytes(text);
    }
    (marks.trailing_zeros() / 8) as usize
}

// The place of the first line feed, found byte by byte.
#[cold]
#[inline(never)]
fn place_by_bytes(text: &[u8]) -> usize {
    for (i, b) in text.iter().enumerate() {
        if *b == b'\n' {
            return i;
        }
    }
    text.len()
}

// The leaf that this name names, where it is that of an idle leaf or the table guesses its task.
#[inline(always)]
fn guessed_leaf(set: &TaskSet, table: &NameTable, name: &[u8]) -> Option<Leaf>
    ensures leaf { IfSome result (λ leaf. leaf_named set.now.tasks name.now ≡ Some leaf) }
    ensures known { IfSome result (λ leaf. (j : ℕ) → leaf_key leaf ≡ Some j → j < length set.now.tasks) }
    ensures line { IfSome result (λ _. LacksFeed name.now) }
{
    if is_idle_name(name) {
        return Some(Leaf::Idle(0));
    }
    match guessed_task(set, table, name) {
        Some(task) => Some(Leaf::Task(TaskId(task))),
        None => None,
    }
}

// The name at the front, where a line feed follows it and it is that of an idle leaf or of a task that the table guesses.
#[inline(always)]
fn named_line<'a>(set: &TaskSet, table: &NameTable, text: &'a [u8]) -> Option<NamedLine<'a>>
    ensures line { IfSome result (λ l. IsWholeLine text.now l.name.now l.later.now) }
    ensures leaf { IfSome result (λ l. leaf_named set.now.tasks l.name.now ≡ Some l.leaf) }
    ensures known { IfSome result (λ l. (j : ℕ) → leaf_key l.leaf ≡ Some j → j < length set.now.tasks) }
{
    let count = place_guessed(text);
    if count < text.len()
        && text[count] == b'\n'
        && let Some(leaf) = guessed_leaf(set, table, &text[..count])
    {
        return Some(NamedLine {
            name: &text[..count],
            leaf,
            later: &text[count + 1..],
        });
    }
    None
}

/// The words of the first line, where it has this front, goes on where the last one ends, and has its line feed.
#[inline(always)]
pub(crate) fn run_words<'a>(
    set: &TaskSet,
    table: &NameTable,
    front: &ShortFront<'a>,
    last: &ShortWord<'a>,
    text: &'a [u8],
) -> Option<RunWords<'a>>
    ensures says { IfSome result (λ r. SaysWholeRow text.now r.words) }
    ensures leaf { IfSome result (λ r. leaf_named set.now.tasks r.words.name.now ≡ Some r.leaf) }
    ensures known { IfSome result (λ r. (j : ℕ) → leaf_key r.leaf ≡ Some j → j < length set.now.tasks) }
{
    if let Some(rest) = front.front.cut(text)
        && let Some(rest) = last.cut(rest)
        && let Some((end, rest)) = cut_short(rest)
        && let Some(NamedLine { name, leaf, later }) = named_line(set, table, rest)
    {
        let words = RowWords {
            processor: front.front.processor,
            start: u128::from(last.number),
            end: u128::from(end.number),
            name,
            later,
        };
        return Some(RunWords {
            words,
            processor: front.processor,
            start: last.number,
            end,
            leaf,
        });
    }
    None
}

/// The words of the first line, whatever stands before it, where its numbers have few bits and it has its line feed; and those of them
/// that may stand in the next one.
#[inline(never)]
pub(crate) fn short_words<'a>(
    set: &TaskSet,
    table: &NameTable,
    text: &'a [u8],
) -> Option<(RunWords<'a>, LastWords<'a>)>
    ensures says { IfSome result (λ p. SaysWholeRow text.now p.0.words) }
    ensures leaf { IfSome result (λ p. leaf_named set.now.tasks p.0.words.name.now ≡ Some p.0.leaf) }
    ensures known { IfSome result (λ p. (j : ℕ) → leaf_key p.0.leaf ≡ Some j → j < length set.now.tasks) }
{
    if let Some((front, rest)) = cut_front(text)
        && let Some(ShortFront { processor, .. }) = front.short()
        && let Some((start, rest)) = cut_short(rest)
        && let Some((end, rest)) = cut_short(rest)
        && let Some(NamedLine { name, leaf, later }) = named_line(set, table, rest)
    {
        let words = RowWords {
            processor: front.processor,
            start: u128::from(start.number),
            end: u128::from(end.number),
            name,
            later,
        };
        let last = LastWords {
            front,
            end: end.wide(),
        };
        let run = RunWords {
            words,
            processor,
            start: start.number,
            end,
            leaf,
        };
        return Some((run, last));
    }
    None
}

/// The row of these words. Its end is told as its start and its ticks, so that no sum of it needs more than 64 bits.
#[inline(always)]
pub(crate) fn run_row(
    _set: &TaskSet,
    rows: &RowList,
    totals: &[u128],
    words: &RunWords<'_>,
) -> Option<Row>
    requires totals { AreTotals rows.now totals.now }
    requires count { length totals.now ≡ length _set.now.tasks }
    requires leaf { leaf_named _set.now.tasks words.now.words.name.now ≡ Some words.now.leaf }
    requires known { (j : ℕ) → leaf_key words.now.leaf ≡ Some j → j < length _set.now.tasks }
    ensures row { IfSome result (λ r. Some r
        ≡ row_from _set.now.tasks rows.now words.now.words.processor words.now.words.start words.now.words.end words.now.words.name.now) }
    ensures read { IfSome result (IsRead _set.now.tasks rows.now) }
{
    let (start, end) = (words.start, words.end.number);
    if start >= end || rows.len() as u64 >= ROW_LIMIT {
        return None;
    }
    let ticks = u128::from(end - start);
    if !total_fits(rows, totals, ticks, words.leaf) {
        return None;
    }
    Some(Row {
        processor: words.processor,
        leaf: words.leaf,
        start: u128::from(start),
        end: u128::from(start) + ticks,
    })
}
