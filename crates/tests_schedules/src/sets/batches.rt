//! Texts of several sets, and their answers: values from outside.
use batch_compile::{answer_of, answers_of};
use std::alloc::Global;
use std::process::Abort;
use std::thread::Threads;
use task_reader::cut;

/// Makes sure of the answers in words, a line for each piece.
fn compare(rt: &(impl Abort + Threads + Sync), alloc: Global, text: &str, want: &str) {
    let bytes = text.as_bytes();
    assert!(rt; bytes.len() <= 1_048_576);
    let pieces = cut(alloc, bytes).expect(rt, "there is memory");
    let answers = answers_of(rt, alloc, bytes, &pieces).expect(rt, "there is memory");
    let mut lines = String::new(alloc);
    for j in 0..answers.count() {
        let line = format!(in alloc; "{j} {:?}\n", answers.item(j)).expect(rt, "there is memory");
        lines.push_str(&line).expect(rt, "there is memory");
    }
    assert!(rt; lines.as_str() == want);
}

/// Sets, and their answers.
const ROWS: &[(&str, &str)] = &[
    (
        "processors = 2\nhorizon = 3\ntask = [{name = 'a', work = 2, period = 3}, \
            {name = 'b', work = 2, period = 3}, {name = 'c', work = 2, period = 3}]\n",
        "Fits { scale: 3, levels: 2 }",
    ),
    (
        "processors = 1\nhorizon = 6\ntask = [{name = 'a', work = 2, period = 3}, {name = 'b', work = 1, period = 2}]\n",
        "Overload { total: 7, room: 6 }",
    ),
    (
        "processors = 1\nhorizon = 3\ntask = [{name = 'a', work = 4, period = 3}]\n",
        "Refused(BadWork { index: 0 })",
    ),
    (
        "processors = 2\nhorizon = 1\n",
        "Fits { scale: 1, levels: 1 }",
    ),
    ("processors = \n", "Refused(NotToml)"),
    (
        "processors = 1\nhorizon = 1\ntask = [{name = 'a', work = 1, period = 4294967295}, \
            {name = 'b', work = 1, period = 4294967294}, {name = 'c', work = 1, period = 4294967293}]\n",
        "ScaleTooLarge { at: 2 }",
    ),
    ("", "Refused(Missing { place: Top, key: Processors })"),
    (
        "processors = 3\nhorizon = 5\ntask = [{name = 'a', work = 3, period = 5}, \
            {name = 'b', work = 3, period = 5}, {name = 'c', work = 3, period = 5}, \
            {name = 'd', work = 3, period = 5}, {name = 'e', work = 3, period = 5}]\n",
        "Fits { scale: 5, levels: 3 }",
    ),
    (
        "processors = 1\nhorizon = 0\n",
        "Refused(BadHorizon { value: 0 })",
    ),
];

/// Each set by itself.
fn compare_alone(rt: &impl Abort, alloc: Global) {
    for (set, want) in ROWS {
        assert!(rt; set.len() <= 1_048_576);
        let answer = answer_of(alloc, set.as_bytes()).expect(rt, "there is memory");
        let said = format!(in alloc; "{answer:?}").expect(rt, "there is memory");
        assert!(rt; said.as_str() == *want, "{said}, and not {want}");
    }
}

/// Fitting sets and refused ones in one text.
fn compare_rows(rt: &(impl Abort + Threads + Sync), alloc: Global) {
    let mut text = String::new(alloc);
    let mut want = String::new(alloc);
    for (j, (set, answer)) in ROWS.iter().enumerate() {
        if j > 0 {
            text.push_str("%%\n").expect(rt, "there is memory");
        }
        text.push_str(set).expect(rt, "there is memory");
        let line = format!(in alloc; "{j} {answer}\n").expect(rt, "there is memory");
        want.push_str(&line).expect(rt, "there is memory");
    }
    compare(rt, alloc, &text, &want);
}

/// Many small sets, and a huge one after them.
fn compare_many(rt: &(impl Abort + Threads + Sync), alloc: Global) {
    let mut text = String::new(alloc);
    let mut want = String::new(alloc);
    for j in 0..4096 {
        text.push_str("processors=1\nhorizon=1\n%%\n")
            .expect(rt, "there is memory");
        let line = format!(in alloc; "{j} Fits {{ scale: 1, levels: 1 }}\n").expect(
            rt,
            "there is memory",
        );
        want.push_str(&line).expect(rt, "there is memory");
    }
    text.push_str("processors=1\nhorizon=1\n")
        .expect(rt, "there is memory");
    for i in 0..256 {
        let task = format!(in alloc; "[[task]]\nname = 't{i}'\nwork = 1\nperiod = 400\n").expect(
            rt,
            "there is memory",
        );
        text.push_str(&task).expect(rt, "there is memory");
    }
    want.push_str("4096 Fits { scale: 400, levels: 1 }\n")
        .expect(rt, "there is memory");
    compare(rt, alloc, &text, &want);
}

#[test]
fn answers_of_many_sets(rt: HostRuntime) {
    compare_alone(&rt, rt.alloc());
    compare_rows(&rt, rt.alloc());
    compare_many(&rt, rt.alloc());
}
