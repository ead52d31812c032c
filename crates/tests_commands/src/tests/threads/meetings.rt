//! Executions whose gates wait for one another.
ghost use Rattle.std.specs.Prelude.{None};
ghost use Rattle.run_tool.specs.Executions.{gates_of};
ghost use Rattle.run_tool.specs.Ready.{AreFirstGates};

use super::patient_gate::PatientGate;
use crate::tests::calls::{SURE, call_with};
use crate::tests::cases::{Case, assert_told};
use crate::tests::texts::{THREE_ROWS, THREE_TASKS, TWO_REDUCTIONS, TWO_ROWS};
use exec_workers::Kit;
use run_tool::Status;
use std::alloc::Global;
use std::process::Abort;
use std::sync::atomic::AtomicU64;
use std::sync::{Arc, Wait};
use std::thread::Threads;
use std::time::Clock;

/// A count of calls.
fn count(rt: &impl Abort, alloc: Global) -> Arc<AtomicU64> {
    Arc::new(alloc, AtomicU64::new(0)).expect(rt, "there is memory")
}

/// Kits with gates of which the first waits, in its first call, for so many calls of the second, and the second for so many of
/// the first. The other gates wait for none.
fn kits_of<X: Abort + Clock + Copy>(
    rt: X,
    alloc: Global,
    waits: &[u64; 2],
) -> Vec<Kit<PatientGate<X>>>
    ensures { AreFirstGates 32 (gates_of (λ _. None) (λ g. g) result.items) }
{
    let first = count(&rt, alloc);
    let second = count(&rt, alloc);
    let other = count(&rt, alloc);
    let mut kits = Vec::new(alloc);
    for p in 0..32_u32 {
        let gate = match p {
            0 => PatientGate::new(rt, &first, &second, waits[0]),
            1 => PatientGate::new(rt, &second, &first, waits[1]),
            _ => PatientGate::new(rt, &other, &other, 0),
        };
        kits.push(Kit::new(gate)).expect(&rt, "there is memory");
    }
    kits
}

/// The words, the text, the calls that the first two gates wait for, the status, and what `out` and `err` take.
type Meeting = (
    &'static [&'static str],
    &'static str,
    [u64; 2],
    Status,
    &'static str,
    &'static str,
);

const MEETINGS: &[Meeting] = &[
    // Each of two gates waits for the first call of the other. Workers that serve one lane after the other can't end this.
    (&["exec"], THREE_TASKS, [1, 1], Status::Done, THREE_ROWS, ""),
    // Gate 1 waits in its first call for the third call of gate 0, which comes only where lane 0 may run two rounds ahead.
    (&["exec"], THREE_TASKS, [0, 3], Status::Done, THREE_ROWS, ""),
    (
        &["exec", "--window", "1"],
        THREE_TASKS,
        [0, 3],
        Status::GateFault,
        "",
        "refused 10 GateFault processor 1 row 0 3 c\n",
    ),
    // Gate 0 waits in its first call for the third call of gate 1.
    (
        &["exec"],
        TWO_REDUCTIONS,
        [3, 0],
        Status::Done,
        TWO_ROWS,
        "",
    ),
    (
        &["exec", "--window=3"],
        TWO_REDUCTIONS,
        [3, 0],
        Status::Done,
        TWO_ROWS,
        "",
    ),
    (
        &["exec", "--window=2"],
        TWO_REDUCTIONS,
        [3, 0],
        Status::GateFault,
        "",
        "refused 10 GateFault processor 0 row 0 5 a\n",
    ),
    (
        &["exec", "--window", "1"],
        TWO_REDUCTIONS,
        [3, 0],
        Status::GateFault,
        "",
        "refused 10 GateFault processor 0 row 0 5 a\n",
    ),
];

/// Makes sure of how an execution ends on gates of which two wait for each other's calls.
fn assert_meeting<X: Abort + Threads + Wait + Clock + Copy + Send + Sync>(
    rt: X,
    alloc: Global,
    (number, (words, input, waits, status, out, err)): (usize, &Meeting),
) {
    let mut kits = kits_of(rt, alloc, waits);
    let (told, _jobs) = call_with(&rt, alloc, words, input.as_bytes(), &SURE, &mut kits);
    let line = words.join(alloc, " ").expect(&rt, "there is memory");
    let at = Case {
        words,
        line: line.as_str(),
        number,
    };
    assert_told(&rt, alloc, at, &told, (*status, &[*out], *err));
}

#[test]
fn two_gates_meet_where_the_window_lets_them(rt: HostRuntime) {
    for meeting in MEETINGS.iter().enumerate() {
        assert_meeting(rt, rt.alloc(), meeting);
    }
}
