//! The commands that read, as they are called from C: from bytes to bytes, with ample memory.
use super::cases::shown;
use super::texts::{OVERLOAD, THREE_RATES, THREE_ROWS, THREE_TASKS};
use byte_calls::{Answer, call};
use run_tool::{Reading, Status};
use std::process::Abort;

/// The schedule of the three tasks with a row that ends after the horizon.
const PAST_THE_END: &str =
    "run-trace 1\nprocessors 2\nhorizon 3\nscale 3\ntasks 3\ntask a 2 3\ntask b 2 3\ntask c 2 3\nrow 0 0 3 b\nrow 0 3 10 a\n\
        row 1 0 6 c\nrow 1 6 9 b\ntotal a 7\ntotal b 6\ntotal c 6\nrows 4\n";

// Makes sure of the answer of a command.
fn assert_answer(rt: &impl Abort, word: &str, answer: &Answer, (status, text): (Status, &str)) {
    let got = answer.status().code();
    let told = shown(answer.text());
    assert!(rt;
        answer.status() == status && answer.text() == text.as_bytes(),
        "{word}: status {got}, `{told}`"
    );
}

#[test]
fn answers_for_c_are_those_worked_by_hand(rt: HostRuntime) {
    let alloc = rt.alloc();
    let rates = call(alloc, Reading::Rate, THREE_TASKS.as_bytes());
    assert_answer(&rt, "rate", &rates, (Status::Done, THREE_RATES));
    drop(rates);
    let rows = call(alloc, Reading::Trace, THREE_TASKS.as_bytes());
    assert_answer(&rt, "trace", &rows, (Status::Done, THREE_ROWS));
    drop(rows);
    let tree = call(alloc, Reading::Tree, OVERLOAD.as_bytes());
    let line = "refused 7 Overload total 7 room 6\n";
    assert_answer(&rt, "tree", &tree, (Status::Overload, line));
    drop(tree);
    let verdict = call(alloc, Reading::Check, PAST_THE_END.as_bytes());
    let line = "invalid line 10 end\n";
    assert_answer(&rt, "check", &verdict, (Status::Invalid, line));
    drop(verdict);
    let followed = call(alloc, Reading::Follow, "".as_bytes());
    let line = "refused 6 BadLine 1\n";
    assert_answer(&rt, "follow", &followed, (Status::BadInput, line));
}
