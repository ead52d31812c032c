//! The trace of three tasks from a source of which so many bytes are taken: read, or told why not.
ghost use Rattle.std.specs.Prelude.{◌≤◌};

use super::THREE_TASKS;
use sched_edges::{MemSource, TakeFault};
use std::alloc::Global;
use std::process::Abort;
use trace_check::{SourceFault, Verdict, check_trace, read_checked_source, read_trace_source};

/// The bytes that are taken, the calls of the source that fail, and why the text of 169 bytes isn't read, where it isn't.
const LIMITS: &[(usize, &[u64], Option<TakeFault>)] = &[
    (169, &[], None),
    (168, &[], Some(TakeFault::TooLong { count: 169 })),
    (0, &[], Some(TakeFault::TooLong { count: 1 })),
    (169, &[1], Some(TakeFault::Read)),
    (169, &[2], Some(TakeFault::Read)),
];

fn source_of(rt: &impl Abort, alloc: Global, fails: &[u64]) -> MemSource {
    MemSource::new(alloc, THREE_TASKS.as_bytes(), fails).expect(rt, "there is memory")
}

/// Makes sure that the rows are valid, or why the source wasn't read. No line is at fault.
fn assert_told(
    rt: &impl Abort,
    read: Result<Verdict, SourceFault>,
    unread: Option<TakeFault>,
    number: usize,
) {
    match read {
        Ok(verdict) => assert!(rt; verdict == Verdict::Valid && unread == None, "row {number}"),
        Err(SourceFault::Unread(fault)) => assert!(rt; Some(fault) == unread, "row {number}"),
        Err(SourceFault::BadLine { line }) => assert!(rt; false, "line {line} is right"),
    }
}

/// The verdict on the trace of a source.
fn verdict_of(alloc: Global, source: &mut MemSource, limit: usize) -> Result<Verdict, SourceFault>
    requires { limit ≤ 1024 }
{
    Ok(check_trace(&read_trace_source(alloc, source, limit)?))
}

/// The verdict where nobody asks for orders.
fn checked_verdict_of(
    alloc: Global,
    source: &mut MemSource,
    limit: usize,
) -> Result<Verdict, SourceFault>
    requires { limit ≤ 1024 }
{
    Ok(read_checked_source(alloc, source, limit)?.verdict())
}

#[test]
fn a_source_is_read_or_told_why_not(rt: HostRuntime) {
    let alloc = rt.alloc();
    for (number, (limit, fails, unread)) in LIMITS.iter().enumerate() {
        assert!(rt; *limit <= 1024);
        let read = verdict_of(alloc, &mut source_of(&rt, alloc, fails), *limit);
        assert_told(&rt, read, *unread, number);
        let read = checked_verdict_of(alloc, &mut source_of(&rt, alloc, fails), *limit);
        assert_told(&rt, read, *unread, number);
    }
}
