//! Reports of worked traces, and a sink that fails.
ghost use Rattle.stat_report.specs.Report.{IsValidTrace};

use super::THREE_TASKS;
use sched_edges::MemSink;
use stat_report::write_report;
use std::alloc::Global;
use std::process::Abort;
use trace_check::{CheckedTrace, Verdict, read_checked};

/// The trace of a text, which is valid.
fn trace_of(rt: &impl Abort, alloc: Global, text: &str) -> CheckedTrace
    ensures { IsValidTrace result }
{
    let trace = read_checked(alloc, text.as_bytes()).expect(rt, "the text is a trace");
    match trace.verdict() {
        Verdict::Valid => trace,
        Verdict::Fault { line, kind: _ } => panic!(rt; "line {line} is at fault"),
    }
}

/// Compares what a sink takes of the report of a valid trace with these bytes. Where calls of the sink fail, they are a first part.
fn compare_report(rt: &impl Abort, alloc: Global, trace: &CheckedTrace, fails: &[u64], taken: &str)
    requires { IsValidTrace trace.now }
{
    let mut sink = MemSink::new(alloc, 4096, fails).expect(rt, "there is memory");
    assert!(rt; write_report(&mut sink, trace).is_ok() == fails.is_empty());
    assert!(rt; sink.taken() == taken.as_bytes());
}

/// Compares the report of a trace text.
fn compare(rt: &impl Abort, alloc: Global, text: &str, fails: &[u64], taken: &str) {
    let trace = trace_of(rt, alloc, text);
    compare_report(rt, alloc, &trace, fails, taken);
}

/// A trace text, the calls of the sink that fail, and what it takes of the report.
const REPORTS: &[(&str, &[u64], &str)] = &[
    // Three tasks of rate 2/3 on two processors.
    (
        THREE_TASKS,
        &[],
        "valid\nrows 4\npreemptions 1\nmigrations 1\nresponse a 9\nresponse b 9\nresponse c 6\nchart 0 baa\nchart 1 ccb\n",
    ),
    // Three tasks, where a call of the sink fails.
    (
        THREE_TASKS,
        &[6],
        "valid\nrows 4\npreemptions 1\nmigrations 1\nresponse a 9\n",
    ),
    // Three tasks with rows in two parts, which are joined, and in no order.
    (
        "run-trace 1\nprocessors 2\nhorizon 3\nscale 3\ntasks 3\ntask a 2 3\ntask b 2 3\ntask c 2 3\nrow 1 6 9 b\n\
            row 0 5 9 a\nrow 0 2 3 b\nrow 1 0 6 c\nrow 0 3 5 a\nrow 0 0 2 b\ntotal a 6\ntotal b 6\ntotal c 6\nrows 6\n",
        &[],
        "valid\nrows 6\npreemptions 1\nmigrations 1\nresponse a 9\nresponse b 9\nresponse c 6\nchart 0 baa\nchart 1 ccb\n",
    ),
    // One row over 4,294,967,295 periods.
    (
        "run-trace 1\nprocessors 1\nhorizon 4294967295\nscale 1\ntasks 1\ntask a 1 1\nrow 0 0 4294967295 a\ntotal a 4294967295\nrows 1\n",
        &[],
        "valid\nrows 1\npreemptions 0\nmigrations 0\nresponse a 1\nchart 0 aaaaaaaaaaaaaaaaaaaaaaaaaaaaaaaaaaaaaaaaaaaaaaaaaaaaaaaaaaaaaaaa\n",
    ),
    // An offset of one, and an idle row.
    (
        "run-trace 2\nprocessors 1\nhorizon 5\nscale 2\ntasks 2\ntask a 1 2 1\ntask b 1 2 0\nrow 0 0 1 -\nrow 0 1 3 b\n\
            row 0 3 5 a\nrow 0 5 7 b\nrow 0 7 9 a\nrow 0 9 10 b\ntotal a 4\ntotal b 5\nmet a 0 5\nmet a 1 9\nmet b 0 3\n\
            met b 1 7\nrows 6\n",
        &[],
        "valid\nrows 6\npreemptions 0\nmigrations 0\nresponse a 3\nresponse b 3\nchart 0 -baba\n",
    ),
    // The job that is open at the horizon moves: that counts, and when it was done does not. Between two jobs nothing counts.
    (
        "run-trace 1\nprocessors 2\nhorizon 3\nscale 2\ntasks 1\ntask a 1 2\nrow 0 0 2 a\nrow 0 4 5 a\nrow 1 5 6 a\ntotal a 4\nrows 3\n",
        &[],
        "valid\nrows 3\npreemptions 0\nmigrations 1\nresponse a 2\nchart 0 a.a\nchart 1 ...\n",
    ),
    // No row in the first unit of processor 0, and an idle one on processor 1.
    (
        "run-trace 1\nprocessors 2\nhorizon 2\nscale 2\ntasks 1\ntask a 1 2\nrow 0 2 4 a\nrow 1 0 4 -\ntotal a 2\nrows 2\n",
        &[],
        "valid\nrows 2\npreemptions 0\nmigrations 0\nresponse a 4\nchart 0 .a\nchart 1 --\n",
    ),
    // No task and no row.
    (
        "run-trace 1\nprocessors 1\nhorizon 1\nscale 1\ntasks 0\nrows 0\n",
        &[],
        "valid\nrows 0\npreemptions 0\nmigrations 0\nchart 0 .\n",
    ),
];

#[test]
fn traces_have_their_reports(rt: HostRuntime) {
    for (text, fails, taken) in REPORTS {
        compare(&rt, rt.alloc(), text, fails, taken);
    }
}

/// A task, its preemptions, which are as many as its migrations, and its response.
const FINDINGS: &[(u32, u64, u128)] = &[(0, 0, 9), (1, 1, 9), (2, 0, 6)];

/// Compares what is found of each task.
fn compare_findings(rt: &impl Abort, trace: &CheckedTrace)
    requires { IsValidTrace trace.now }
{
    for (task, count, response) in FINDINGS {
        assert!(rt; *task < trace.set().count());
        let found = trace.findings(*task);
        assert!(rt;
            (found.preemptions, found.migrations, found.response) == (*count, *count, *response),
            "task {task}"
        );
    }
}

/// What no clause says: rows of tasks that have what they are to have are told of as they are judged, and no entries are made. Those of
/// task b don't stand in the order of time.
#[test]
fn a_valid_trace_has_findings(rt: HostRuntime) {
    let text =
        "run-trace 1\nprocessors 2\nhorizon 3\nscale 3\ntasks 3\ntask a 2 3\ntask b 2 3\ntask c 2 3\nrow 0 0 6 c\nrow 0 6 9 b\n\
            row 1 0 3 b\nrow 1 3 9 a\ntotal a 6\ntotal b 6\ntotal c 6\nrows 4\n";
    let trace = trace_of(&rt, rt.alloc(), text);
    compare_findings(&rt, &trace);
}
