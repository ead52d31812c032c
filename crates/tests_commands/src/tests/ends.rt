//! Faults of the streams in mid-stream, and the end of a run.

use super::calls::{Outside, SURE};
use super::cases::{Cases, Failing, FaultCase, Table, assert_tables, shown};
use super::lanes::Did;
use super::texts::{THREE_RATES, THREE_TASKS};
use run_tool::{Status, close_flushed, close_run};
use sched_edges::{Failed, MemSink, StdSink, write_all};
use std::alloc::Global;
use std::cell::Cell;
use std::io;
use std::io::{BufWriter, Write};
use std::process::Abort;

/// Faults leave a first part.
const FAILING: &[Failing] = &[
    // The first read gives all, and the second one is to find the end.
    Failing::Source(&[2]),
    // Each line is one piece.
    Failing::Out(&[3], "processors 2\nhorizon 3\n"),
];

const FAULTS: &[FaultCase] = &[
    // A fault of `err` changes nothing.
    (
        Outside {
            source: &[1],
            err: &[1],
            ..SURE
        },
        Status::ReadFault,
        "",
        "",
        Did::Nothing,
    ),
    (
        Outside { err: &[1], ..SURE },
        Status::Done,
        THREE_RATES,
        "",
        Did::Nothing,
    ),
];

const TABLES: &[Table] = &[
    (&["rate"], Cases::Failing(&[THREE_TASKS], FAILING)),
    (&["rate"], Cases::Faults(&[THREE_TASKS], FAULTS)),
];

#[test]
fn faults_leave_a_first_part(rt: HostRuntime) {
    assert_tables(&rt, rt.alloc(), TABLES);
}

/// How a call ended, what became of the bytes kept back, how the run ends, and what `err` takes.
const CLOSED: &[(Status, bool, Status, &str)] = &[
    (Status::Done, true, Status::Done, ""),
    (
        Status::Done,
        false,
        Status::WriteFault,
        "refused 4 WriteFault\n",
    ),
    (Status::Invalid, true, Status::Invalid, ""),
    (
        Status::Invalid,
        false,
        Status::WriteFault,
        "refused 4 WriteFault\n",
    ),
    // Why it ended was told already.
    (Status::WriteFault, false, Status::WriteFault, ""),
    (Status::Overload, false, Status::Overload, ""),
];

// Makes sure of how a run ends whose bytes that were kept back were handed on, or were not.
fn assert_closed(
    rt: &impl Abort,
    alloc: Global,
    (status, is_flushed): (Status, bool),
    (at_the_end, line): (Status, &str),
) {
    let flushed = if is_flushed { Ok(()) } else { Err(Failed) };
    let mut err = MemSink::new(alloc, 64, &[]).expect(rt, "there is memory");
    let closed = close_flushed(status, flushed, &mut err);
    let (began, got, told) = (status.code(), closed.code(), shown(err.taken()));
    assert!(rt;
        closed == at_the_end && err.taken() == line.as_bytes(),
        "a run of status {began}, handed on: {is_flushed}: status {got}, err `{told}`"
    );
}

#[test]
fn a_text_kept_back_is_not_lost_silently(rt: HostRuntime) {
    for (status, is_flushed, at_the_end, line) in CLOSED {
        let end = (*at_the_end, *line);
        assert_closed(&rt, rt.alloc(), (*status, *is_flushed), end);
    }
}

/// A writer that counts the bytes which it takes, and fails where it is broken.
#[derive(Drop)]
struct Counting<'a> {
    bytes: &'a Cell<usize>,
    is_broken: bool,
}

impl Write for Counting<'_> {
    fn write(&mut self, piece: &[u8]) -> io::Result<usize> {
        if self.is_broken {
            return Err(io::Error::other("broken"));
        }
        self.bytes.set(self.bytes.get().saturating_add(piece.len()));
        Ok(piece.len())
    }

    fn flush(&mut self) -> io::Result<()> {
        Ok(())
    }
}

// Makes sure that a text that was kept back is handed on at the end, before the sink is let go, or that its loss is told.
fn assert_handed_on(
    rt: &impl Abort,
    alloc: Global,
    is_broken: bool,
    (at_the_end, count, line): (Status, usize, &str),
) {
    let bytes = Cell::new(0);
    let writer = Counting {
        bytes: &bytes,
        is_broken,
    };
    let mut out = StdSink::new(BufWriter::with_capacity(alloc, 64, writer).expect(
        rt,
        "there is memory",
    ));
    assert!(rt; write_all(&mut out, b"rate 2\n") == Ok(()) && bytes.get() == 0);
    let mut err = MemSink::new(alloc, 64, &[]).expect(rt, "there is memory");
    let closed = close_run(Status::Done, &mut out, &mut err);
    let (got, took, told) = (closed.code(), bytes.get(), shown(err.taken()));
    assert!(rt;
        closed == at_the_end && took == count && err.taken() == line.as_bytes(),
        "broken: {is_broken}: status {got}, {took} bytes handed on, err `{told}`"
    );
}

#[test]
fn a_text_kept_back_is_handed_on_or_its_loss_told(rt: HostRuntime) {
    assert_handed_on(&rt, rt.alloc(), false, (Status::Done, 7, ""));
    assert_handed_on(
        &rt,
        rt.alloc(),
        true,
        (Status::WriteFault, 0, "refused 4 WriteFault\n"),
    );
}

#[test]
fn statuses_have_their_codes(rt: HostRuntime) {
    assert!(rt; Status::Usage.code() == 2 && Status::ModeFault.code() == 15);
}
