//! The book for C over the scripts of the executive's book.
use super::Step::{self, Dismiss, Done, Fail, Halted, Turn, Wait};
use super::{A, B, C, SCRIPTS, Script, plan_of, row};
use book_steps::{StepBook, Turn as Told};
use sched_base::Row;
use std::alloc::Global;
use std::process::Abort;

/// What lane p gets at a take: a row, or the lane that it waits for, or neither.
fn take(rt: &impl Abort, book: &mut StepBook, p: u32) -> (Option<Row>, Option<u32>) {
    assert!(rt; p < book.processors() && !book.is_out(p));
    match book.take(p) {
        Told::Ready(row) => (Some(row), None),
        Told::Wait(lane) => (None, Some(lane)),
        Told::Over | Told::Halted => (None, None),
        Told::Full => panic!(rt; "a book that is full"),
    }
}

/// Takes a row, which must be this one, and posts it.
fn turn(rt: &impl Abort, book: &mut StepBook, row: Row) {
    let p = row.processor;
    assert!(rt; take(rt, book, p) == (Some(row), None));
    assert!(rt; p < book.processors() && book.is_out(p));
    let before = book.posted(p);
    book.post(p);
    assert!(rt; book.posted(p) == before.saturating_add(1));
}

/// Takes lane 0's third row, for which task a goes, and has it fail.
fn fail(rt: &impl Abort, book: &mut StepBook) {
    let third = row(0, 6, 9, A);
    assert!(rt; take(rt, book, 0) == (Some(third), None));
    assert!(rt; 0 < book.processors() && book.is_out(0));
    book.halt(0, 7);
    let fault = book.first_fault().expect(rt, "a fault");
    assert!(rt; (fault.processor, fault.why, fault.row) == (0, 7, third));
}

/// Makes sure of the ticks of the two rows that were posted.
fn assert_totals(rt: &impl Abort, book: &StepBook) {
    assert!(rt; book.tasks() == 3);
    assert!(rt; (book.total(A), book.total(B), book.total(C)) == (3, 3, 0));
}

/// Plays a step.
fn play_step(rt: &impl Abort, book: &mut StepBook, step: Step) {
    match step {
        Turn(p, start, end, task) => turn(rt, book, row(p, start, end, task)),
        Wait(p, lane, _) => assert!(rt; take(rt, book, p) == (None, Some(lane))),
        Done(p) => assert!(rt; take(rt, book, p) == (None, None) && !book.halted()),
        Fail => fail(rt, book),
        Halted => assert!(rt; take(rt, book, 1) == (None, None) && book.halted()),
        Dismiss => assert_totals(rt, book),
    }
}

/// Plays a script.
fn play(rt: &impl Abort, alloc: Global, (set, window, steps): Script) {
    assert!(rt; 1 <= window && window <= 1024);
    let plan = plan_of(rt, alloc, set);
    let mut book = StepBook::begin(alloc, plan, window).expect(rt, "there is memory");
    for step in steps {
        play_step(rt, &mut book, *step);
    }
}

#[test]
fn plays_the_scripts_for_c(rt: HostRuntime) {
    for script in SCRIPTS {
        play(&rt, rt.alloc(), *script);
    }
}
