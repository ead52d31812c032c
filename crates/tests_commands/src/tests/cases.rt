//! Tables of calls, each with what it leaves.

use super::calls::{Outside, SURE, Told, call};
use super::lanes::{Did, assert_did};
use run_tool::Status;
use std::alloc::Global;
use std::process::Abort;
use std::sync::Wait;
use std::thread::Threads;

/// Parts of a text, one behind the other.
pub(super) type Parts = &'static [&'static str];

/// A text that a command does all for: its parts, those of what `out` takes, and what the gates and the jobs did.
pub(super) type DoneCase = (Parts, Parts, Did);

/// A text that is refused: its parts, the status, and what `err` takes.
pub(super) type RefusedCase = (Parts, Status, &'static str);

/// What is outside, the status, what `out` and `err` take, and what the gates and the jobs did.
pub(super) type FaultCase = (Outside, Status, &'static str, &'static str, Did);

/// A stream that fails at these calls, counted from 1. The command tells so, and no gate and no job is called.
#[derive(Clone, Copy)]
pub(super) enum Failing {
    /// The source.
    Source(&'static [u64]),
    /// `out`, which took this before.
    Out(&'static [u64], &'static str),
}

/// Parts of a text, each with what stands in its place, the status, and what `out` and `err` take.
pub(super) type ReplacedCase = (
    &'static [(&'static str, &'static str)],
    Status,
    &'static str,
    &'static str,
);

/// A text that a command does all for: its parts, how what `out` takes begins, what stands in it, and how it ends.
pub(super) type ShownCase = (Parts, &'static str, Parts, &'static str);

/// A text that a command makes a trace of: its parts, and how the report of `check` on the trace begins.
pub(super) type ReportCase = (Parts, &'static str);

/// What a line leaves of some texts.
pub(super) enum Cases {
    /// It does all for each of them.
    Done(&'static [DoneCase]),
    /// It refuses each of them: nothing is written to `out`, and no gate and no job is called.
    Refused(&'static [RefusedCase]),
    /// Of one text, which is told in parts, each of these faults leaves something.
    Faults(Parts, &'static [FaultCase]),
    /// Of one text, which is told in parts, each of these streams that fail.
    Failing(Parts, &'static [Failing]),
    /// Of a text with other parts in place of some, each of these faults leaves something. No gate and no job is called.
    Replaced(&'static str, &'static [ReplacedCase]),
    /// It does all for each of them, and calls no gate and no job.
    Shown(&'static [ShownCase]),
    /// It makes a trace of each of them, which `check` reads.
    Reports(&'static [ReportCase]),
}

/// The words of a line, and what it leaves of some texts.
pub(super) type Table = (&'static [&'static str], Cases);

/// A call of a table: its words, the same as one line, and the number of its row, from 0.
#[derive(Clone, Copy)]
pub(super) struct Case<'a> {
    pub words: &'a [&'a str],
    pub line: &'a str,
    pub number: usize,
}

/// Makes sure of what is left by each line of these tables.
pub(super) fn assert_tables<X: Abort + Threads + Wait + Sync>(
    rt: &X,
    alloc: Global,
    tables: &[Table],
) {
    for (words, cases) in tables {
        assert_cases(rt, alloc, words, cases);
    }
}

fn assert_cases<X: Abort + Threads + Wait + Sync>(
    rt: &X,
    alloc: Global,
    words: &[&str],
    cases: &Cases,
) {
    let line = words.join(alloc, " ").expect(rt, "there is memory");
    let first = Case {
        words,
        line: line.as_str(),
        number: 0,
    };
    match cases {
        Cases::Done(rows) => assert_done(rt, alloc, first, rows),
        Cases::Refused(rows) => assert_refused(rt, alloc, first, rows),
        Cases::Faults(input, rows) => assert_faults(rt, alloc, first, input, rows),
        Cases::Failing(input, rows) => assert_failing(rt, alloc, first, input, rows),
        Cases::Replaced(text, rows) => assert_replaced(rt, alloc, first, text, rows),
        Cases::Shown(rows) => assert_shown(rt, alloc, first, rows),
        Cases::Reports(rows) => assert_reports(rt, alloc, first, rows),
    }
}

fn assert_done<X: Abort + Threads + Wait + Sync>(
    rt: &X,
    alloc: Global,
    first: Case,
    rows: &[DoneCase],
) {
    for (number, (input, out, did)) in rows.iter().enumerate() {
        let at = Case { number, ..first };
        assert_row(rt, alloc, at, input, &SURE, (Status::Done, out, ""), *did);
    }
}

fn assert_refused<X: Abort + Threads + Wait + Sync>(
    rt: &X,
    alloc: Global,
    first: Case,
    rows: &[RefusedCase],
) {
    for (number, (input, status, err)) in rows.iter().enumerate() {
        let at = Case { number, ..first };
        let end = (*status, [].as_slice(), *err);
        assert_row(rt, alloc, at, input, &SURE, end, Did::Nothing);
    }
}

fn assert_faults<X: Abort + Threads + Wait + Sync>(
    rt: &X,
    alloc: Global,
    first: Case,
    input: &[&str],
    rows: &[FaultCase],
) {
    for (number, (outside, status, out, err, did)) in rows.iter().enumerate() {
        let at = Case { number, ..first };
        let out = [*out];
        assert_row(rt, alloc, at, input, outside, (*status, &out, *err), *did);
    }
}

fn assert_failing<X: Abort + Threads + Wait + Sync>(
    rt: &X,
    alloc: Global,
    first: Case,
    input: &[&str],
    rows: &[Failing],
) {
    for (number, failing) in rows.iter().enumerate() {
        let at = Case { number, ..first };
        let (outside, status, out, err) = left_by(*failing);
        let out = [out];
        let end = (status, out.as_slice(), err);
        assert_row(rt, alloc, at, input, &outside, end, Did::Nothing);
    }
}

// What is outside a call of which this fails, the status, and what `out` and `err` take.
fn left_by(failing: Failing) -> (Outside, Status, &'static str, &'static str) {
    match failing {
        Failing::Source(source) => (
            Outside { source, ..SURE },
            Status::ReadFault,
            "",
            "refused 3 ReadFault\n",
        ),
        Failing::Out(out, taken) => (
            Outside { out, ..SURE },
            Status::WriteFault,
            taken,
            "refused 4 WriteFault\n",
        ),
    }
}

fn assert_replaced<X: Abort + Threads + Wait + Sync>(
    rt: &X,
    alloc: Global,
    first: Case,
    text: &str,
    rows: &[ReplacedCase],
) {
    for (number, case) in rows.iter().enumerate() {
        assert_replacement(rt, alloc, Case { number, ..first }, text, case);
    }
}

fn assert_replacement<X: Abort + Threads + Wait + Sync>(
    rt: &X,
    alloc: Global,
    at: Case,
    text: &str,
    (others, status, out, err): &ReplacedCase,
) {
    let text = replaced(rt, alloc, text, others);
    let out = [*out];
    let end = (*status, out.as_slice(), *err);
    assert_row(rt, alloc, at, &[text.as_str()], &SURE, end, Did::Nothing);
}

// The text with other parts in place of these.
fn replaced(rt: &impl Abort, alloc: Global, text: &str, others: &[(&str, &str)]) -> String {
    let mut text = String::from_str(alloc, text).expect(rt, "there is memory");
    for (part, other) in others {
        text = text
            .replace(alloc, part, other)
            .expect(rt, "there is memory");
    }
    text
}

fn assert_shown<X: Abort + Threads + Wait + Sync>(
    rt: &X,
    alloc: Global,
    first: Case,
    rows: &[ShownCase],
) {
    for (number, case) in rows.iter().enumerate() {
        assert_text(rt, alloc, Case { number, ..first }, case);
    }
}

fn assert_text<X: Abort + Threads + Wait + Sync>(
    rt: &X,
    alloc: Global,
    at: Case,
    (input, first, parts, last): &ShownCase,
) {
    let text = text_of_row(rt, alloc, at, input);
    assert_ends(rt, at, &text, (*first, *last));
    assert_holds(rt, at, &text, parts);
}

fn assert_ends(rt: &impl Abort, at: Case, text: &str, (first, last): (&str, &str)) {
    let bytes = text.as_bytes();
    let Case { line, number, .. } = at;
    assert!(rt;
        bytes.starts_with(first.as_bytes()) && bytes.ends_with(last.as_bytes()),
        "row {number} of `{line}`: {text}"
    );
}

fn assert_holds(rt: &impl Abort, at: Case, text: &str, parts: &[&str]) {
    let Case { line, number, .. } = at;
    for part in parts {
        assert!(rt;
            text.contains(*part),
            "row {number} of `{line}`: no {part} in {text}"
        );
    }
}

fn assert_reports<X: Abort + Threads + Wait + Sync>(
    rt: &X,
    alloc: Global,
    first: Case,
    rows: &[ReportCase],
) {
    for (number, case) in rows.iter().enumerate() {
        assert_report(rt, alloc, Case { number, ..first }, case);
    }
}

fn assert_report<X: Abort + Threads + Wait + Sync>(
    rt: &X,
    alloc: Global,
    at: Case,
    (input, first): &ReportCase,
) {
    let trace = text_of_row(rt, alloc, at, input);
    let report = text_of(rt, alloc, &["check"], &[trace.as_str()]);
    assert_ends(rt, at, &report, (*first, ""));
}

/// Makes sure of what a row leaves of a text, which is told in parts.
pub(super) fn assert_row<X: Abort + Threads + Wait + Sync>(
    rt: &X,
    alloc: Global,
    at: Case,
    input: &[&str],
    outside: &Outside,
    end: (Status, &[&str], &str),
    did: Did,
) {
    let text = joined(rt, alloc, input);
    let left = call(rt, alloc, at.words, text.as_bytes(), outside);
    assert_told(rt, alloc, at, &left.told, end);
    assert_did(rt, at, &left, did);
}

/// Makes sure of what a line leaves of a text, which is told in parts.
pub(super) fn assert_call<X: Abort + Threads + Wait + Sync>(
    rt: &X,
    alloc: Global,
    words: &[&str],
    input: &[&str],
    outside: &Outside,
    end: (Status, &[&str], &str),
    did: Did,
) {
    let line = words.join(alloc, " ").expect(rt, "there is memory");
    let at = Case {
        words,
        line: line.as_str(),
        number: 0,
    };
    assert_row(rt, alloc, at, input, outside, end, did);
}

/// Makes sure that the call of a row ended with this status, and what `out` and `err` took.
pub(super) fn assert_told(
    rt: &impl Abort,
    alloc: Global,
    at: Case,
    told: &Told,
    (status, out, err): (Status, &[&str], &str),
) {
    let out = joined(rt, alloc, out);
    if told.status != status
        || told.out.taken() != out.as_bytes()
        || told.err.taken() != err.as_bytes()
    {
        name_row(rt, at, told);
    }
}

// Ends the test: names the row, and what its call got.
fn name_row(rt: &impl Abort, at: Case, told: &Told) {
    let Case { line, number, .. } = at;
    let status = told.status.code();
    let out = shown(told.out.taken());
    let err = shown(told.err.taken());
    panic!(rt; "row {number} of `{line}`: status {status}, out `{out}`, err `{err}`");
}

/// Bytes as they are shown where a test fails.
pub(super) fn shown(bytes: &[u8]) -> &str {
    match std::str::from_utf8(bytes) {
        Ok(text) => text,
        Err(_) => "bytes that are no text",
    }
}

/// The parts as one text.
pub(super) fn joined(rt: &impl Abort, alloc: Global, parts: &[&str]) -> String {
    parts.join(alloc, "").expect(rt, "there is memory")
}

/// What a line that calls no gate writes of a text, which is told in parts, and for which it does all.
pub(super) fn text_of<X: Abort + Threads + Wait + Sync>(
    rt: &X,
    alloc: Global,
    words: &[&str],
    input: &[&str],
) -> String {
    let line = words.join(alloc, " ").expect(rt, "there is memory");
    let at = Case {
        words,
        line: line.as_str(),
        number: 0,
    };
    text_of_row(rt, alloc, at, input)
}

// The text that the line of a row writes.
fn text_of_row<X: Abort + Threads + Wait + Sync>(
    rt: &X,
    alloc: Global,
    at: Case,
    input: &[&str],
) -> String {
    let text = joined(rt, alloc, input);
    let left = call(rt, alloc, at.words, text.as_bytes(), &SURE);
    assert_did(rt, at, &left, Did::Nothing);
    text_in(rt, alloc, at, &left.told)
}

// The text that `out` took, where all was done.
fn text_in(rt: &impl Abort, alloc: Global, at: Case, told: &Told) -> String {
    if told.status != Status::Done || !told.err.taken().is_empty() {
        name_row(rt, at, told);
    }
    let text = std::str::from_utf8(told.out.taken()).expect(rt, "a text");
    String::from_str(alloc, text).expect(rt, "there is memory")
}
