//! Worked rows on trace texts and tables, and texts at the edges of the format.
ghost use Rattle.std.specs.Prelude.{◌≡◌, length};

use super::{A, B, C, row};
use Verdict::{Fault, Valid};
use rate_scale::scale_of;
use sched_base::{Leaf, Row, RowTable, TaskId, TaskSet};
use std::alloc::Global;
use std::process::Abort;
use trace_check::FaultKind::{Early, End, Processor, ProcessorOverlap, Supply, TaskOverlap};
use trace_check::{ReadTrace, TraceFault, Verdict, check_trace, read_checked, read_trace};

/// The verdict on a text, or the line that isn't of the form, which is 0 where memory was refused.
fn outcome_of(alloc: Global, text: &[u8]) -> Result<Verdict, u64> {
    match read_trace(alloc, text) {
        Ok(trace) => Ok(check_trace(&trace)),
        Err(TraceFault::BadLine { line }) => Err(line),
        Err(TraceFault::NoMemory) => Err(0),
    }
}

/// The verdict of a text or the line at fault, where nobody asks for orders.
fn checked_outcome_of(alloc: Global, text: &[u8]) -> Result<Verdict, u64> {
    match read_checked(alloc, text) {
        Ok(trace) => Ok(trace.verdict()),
        Err(TraceFault::BadLine { line }) => Err(line),
        Err(TraceFault::NoMemory) => Err(0),
    }
}

const FIRST_LINES: &[u8] =
    b"run-trace 1\nprocessors 2\nhorizon 3\nscale 3\ntasks 3\ntask a 2 3\ntask b 2 3\ntask c 2 3\n\
        row 0 0 3 b\nrow 0 3 9 a\nrow 1 0 6 c\n";

/// The text of three tasks of rate 2/3 on two processors, with lines 12 to 14 as given.
fn three_tasks(rt: &impl Abort, alloc: Global, lines: &[u8]) -> Vec<u8> {
    let parts: [&[u8]; 3] = [FIRST_LINES, lines, b"total c 6\nrows 4\n"];
    parts.concat(alloc).expect(rt, "there is memory")
}

/// Lines of the text of three tasks, and the verdict or the line at fault.
const LINES: &[(&[u8], Result<Verdict, u64>)] = &[
    (b"row 1 6 9 b\ntotal a 6\ntotal b 6\n", Ok(Valid)),
    (
        b"row 1 5 8 b\ntotal a 6\ntotal b 6\n",
        Ok(Fault {
            line: 12,
            kind: ProcessorOverlap,
        }),
    ),
    (
        b"row 1 6 8 b\ntotal a 6\ntotal b 5\n",
        Ok(Fault {
            line: 14,
            kind: Supply,
        }),
    ),
    (b"row 1 6 8 b\ntotal a 6\ntotal b 6\n", Err(14)),
    (
        b"row 1 6 9 a\ntotal a 9\ntotal b 3\n",
        Ok(Fault {
            line: 12,
            kind: TaskOverlap,
        }),
    ),
    (
        b"row 1 6 10 b\ntotal a 6\ntotal b 7\n",
        Ok(Fault {
            line: 12,
            kind: End,
        }),
    ),
    (
        b"row 2 6 9 b\ntotal a 6\ntotal b 6\n",
        Ok(Fault {
            line: 12,
            kind: Processor,
        }),
    ),
    (b"row 1 6 9 b\ntotal a 6\ntotal b 06\n", Err(14)),
];

/// Texts, and the verdict or the line at fault.
const TEXTS: &[(&[u8], Result<Verdict, u64>)] = &[
    // The longest horizon: one row over 4,294,967,295 periods.
    (
        b"run-trace 1\nprocessors 1\nhorizon 4294967295\nscale 1\ntasks 1\ntask a 1 1\nrow 0 0 4294967295 a\ntotal a 4294967295\nrows 1\n",
        Ok(Valid),
    ),
    // Offsets, with the line feed after the last line missing.
    (
        b"run-trace 2\nprocessors 1\nhorizon 5\nscale 2\ntasks 2\ntask a 1 2 1\ntask b 1 2 0\nrow 0 0 1 -\nrow 0 1 3 b\n\
            row 0 3 5 a\nrow 0 5 7 b\nrow 0 7 9 a\nrow 0 9 10 b\ntotal a 4\ntotal b 5\nmet a 0 5\nmet a 1 9\nmet b 0 3\n\
            met b 1 7\nrows 6",
        Ok(Valid),
    ),
    (
        b"run-trace 2\nprocessors 1\nhorizon 5\nscale 2\ntasks 2\ntask a 1 2 1\ntask b 1 2 0\nrow 0 0 1 -\nrow 0 1 3 b\n\
            row 0 3 5 a\nrow 0 5 7 b\nrow 0 7 9 a\nrow 0 9 10 b\ntotal a 4\ntotal b 5\nmet a 0 4\nmet a 1 9\nmet b 0 3\n\
            met b 1 7\nrows 6\n",
        Err(16),
    ),
    // Before its offset.
    (
        b"run-trace 2\nprocessors 1\nhorizon 2\nscale 1\ntasks 1\ntask a 1 1 1\nrow 0 0 2 a\ntotal a 2\nmet a 0 2\nrows 1\n",
        Ok(Fault {
            line: 7,
            kind: Early,
        }),
    ),
    (b"", Err(1)),
    (b"\n", Err(1)),
    // A carriage return is no part of a line's end.
    (
        b"run-trace 1\nprocessors 1\nhorizon 1\nscale 1\ntasks 0\nrows 0\r\n",
        Err(6),
    ),
    // A scale of forty digits is judged once the task lines are right.
    (
        b"run-trace 1\nprocessors 1\nhorizon 1\nscale 9999999999999999999999999999999999999999\ntasks 1\ntask a 2 1\n",
        Err(6),
    ),
    (
        b"run-trace 1\nprocessors 1\nhorizon 1\nscale 9999999999999999999999999999999999999999\ntasks 1\ntask a 1 1\n",
        Err(4),
    ),
];

/// Makes sure of a text's verdict or line at fault, where somebody asks for orders and where nobody does.
fn assert_outcome(
    rt: &impl Abort,
    alloc: Global,
    text: &[u8],
    want: &Result<Verdict, u64>,
    number: usize,
) {
    let found = outcome_of(alloc, text);
    let checked = checked_outcome_of(alloc, text);
    assert!(rt; found == *want && checked == *want, "text {number}");
}

#[test]
fn texts_have_their_verdicts(rt: HostRuntime) {
    for (number, (lines, want)) in LINES.iter().enumerate() {
        let text = three_tasks(&rt, rt.alloc(), lines);
        assert_outcome(&rt, rt.alloc(), &text, want, number);
    }
    for (number, (text, want)) in TEXTS.iter().enumerate() {
        assert_outcome(&rt, rt.alloc(), text, want, number);
    }
}

/// The trace of the text of three tasks.
fn trace_read(rt: &impl Abort, alloc: Global) -> ReadTrace {
    let text = three_tasks(rt, alloc, b"row 1 6 9 b\ntotal a 6\ntotal b 6\n");
    read_trace(alloc, &text).expect(rt, "the text is right")
}

fn compare_order(rt: &impl Abort, trace: &ReadTrace) {
    assert!(rt; (trace.scale(), trace.set().count(), trace.rows().len()) == (3, 3, 4));
    assert!(rt;
        (trace.by_processor(), trace.by_task(1), trace.line(3))
            == ([0, 1, 2, 3].as_slice(), [0, 3].as_slice(), 12)
    );
}

#[test]
fn a_trace_tells_its_rows_in_order(rt: HostRuntime) {
    let trace = trace_read(&rt, rt.alloc());
    compare_order(&rt, &trace);
}

/// Three tasks of rate 2/3 on two processors, for one period.
fn three_task_set(rt: &impl Abort, alloc: Global) -> TaskSet
    ensures processors { result.processors ≡ 2 }
    ensures tasks { length result.tasks ≡ 3 }
{
    let mut set = TaskSet::start(alloc, 2, 3);
    set.add(b"a", 2, 3).expect(rt, "there is memory");
    set.add(b"b", 2, 3).expect(rt, "there is memory");
    set.add(b"c", 2, 3).expect(rt, "there is memory");
    set
}

/// The trace of a table of theirs.
fn trace_of_table(rt: &impl Abort, alloc: Global) -> ReadTrace {
    let mut table = RowTable::new(alloc, 2, 3).expect(rt, "there is memory");
    table.push_round(&[row(0, 0, 3, B), row(1, 0, 3, C)]);
    table.push_round(&[row(0, 3, 6, A), row(1, 3, 6, C)]);
    table.push_round(&[row(0, 6, 9, A), row(1, 6, 9, B)]);
    let set = three_task_set(rt, alloc);
    let scale = scale_of(&set).expect(rt, "the scale is 3");
    ReadTrace::of_table(alloc, &set, scale, &table).expect(rt, "there is memory")
}

/// Compares the rows of a trace, which is valid.
fn compare_rows(rt: &impl Abort, trace: &ReadTrace, rows: &[Row]) {
    assert!(rt; trace.rows() == rows);
    assert!(rt; check_trace(trace) == Valid);
}

/// The trace of a table of one task, which is late, on one processor.
fn trace_of_late_task(rt: &impl Abort, alloc: Global) -> ReadTrace {
    let mut table = RowTable::new(alloc, 1, 4).expect(rt, "there is memory");
    table.push_round(&[row(0, 0, 1, Leaf::Wait(TaskId(0)))]);
    table.push_round(&[row(0, 1, 2, Leaf::Idle(7))]);
    table.push_round(&[row(0, 2, 3, Leaf::Empty)]);
    table.push_round(&[row(0, 3, 4, A)]);
    let mut set = TaskSet::start(alloc, 1, 4);
    set.add_late(b"a", 1, 1, 3).expect(rt, "there is memory");
    let scale = scale_of(&set).expect(rt, "the scale is 1");
    ReadTrace::of_table(alloc, &set, scale, &table).expect(rt, "there is memory")
}

/// The trace of a table of two tasks of rate 1/2 on one processor, of which the first is late.
fn trace_of_two(rt: &impl Abort, alloc: Global) -> ReadTrace {
    let mut table = RowTable::new(alloc, 1, 10).expect(rt, "there is memory");
    table.push_round(&[row(0, 0, 1, Leaf::Wait(TaskId(0)))]);
    table.push_round(&[row(0, 1, 2, B)]);
    table.push_round(&[row(0, 2, 3, B)]);
    table.push_round(&[row(0, 3, 4, A)]);
    table.push_round(&[row(0, 4, 5, A)]);
    table.push_round(&[row(0, 5, 6, B)]);
    table.push_round(&[row(0, 6, 7, B)]);
    table.push_round(&[row(0, 7, 8, A)]);
    table.push_round(&[row(0, 8, 9, A)]);
    table.push_round(&[row(0, 9, 10, B)]);
    let mut set = TaskSet::start(alloc, 1, 5);
    set.add_late(b"a", 1, 2, 1).expect(rt, "there is memory");
    set.add(b"b", 1, 2).expect(rt, "there is memory");
    let scale = scale_of(&set).expect(rt, "the scale is 2");
    ReadTrace::of_table(alloc, &set, scale, &table).expect(rt, "there is memory")
}

#[test]
fn a_table_has_the_trace_of_its_text(rt: HostRuntime) {
    let rows = [
        row(0, 0, 3, B),
        row(0, 3, 9, A),
        row(1, 0, 6, C),
        row(1, 6, 9, B),
    ];
    compare_rows(&rt, &trace_read(&rt, rt.alloc()), &rows);
    compare_rows(&rt, &trace_of_table(&rt, rt.alloc()), &rows);
    // Rows of no task are one idle row.
    let late = [row(0, 0, 3, Leaf::Idle(0)), row(0, 3, 4, A)];
    compare_rows(&rt, &trace_of_late_task(&rt, rt.alloc()), &late);
    let two = [
        row(0, 0, 1, Leaf::Idle(0)),
        row(0, 1, 3, B),
        row(0, 3, 5, A),
        row(0, 5, 7, B),
        row(0, 7, 9, A),
        row(0, 9, 10, B),
    ];
    compare_rows(&rt, &trace_of_two(&rt, rt.alloc()), &two);
}
