//! Many sets at once, and the line `batch`.

use super::calls::{Outside, SURE};
use super::cases::{Cases, DoneCase, Failing, FaultCase, Table, assert_call, assert_tables};
use super::lanes::Did;
use super::texts::{OVERLOAD, THREE_TASKS};
use run_tool::Status;
use std::alloc::Global;
use std::process::Abort;
use std::sync::Wait;
use std::thread::Threads;

const BATCHES: &[DoneCase] = &[
    (
        &[
            THREE_TASKS,
            "%%\n",
            OVERLOAD,
            "%%\nprocessors = 1\nhorizon = 3\ntask = [{name = \"a\", work = 4, period = 3}]\n",
        ],
        &[
            "run-batch 1\nsets 3\nset 0 fits scale 3 levels 2\nset 1 refused 7 Overload total 7 room 6\nset 2 refused 6 BadWork 0\n",
        ],
        Did::NothingRead(0),
    ),
    // An empty text is one empty set.
    (
        &[""],
        &["run-batch 1\nsets 1\nset 0 refused 6 Missing top processors\n"],
        Did::NothingRead(0),
    ),
    // A refused set spoils no other; the last dividing line may lack its line feed.
    (
        &["x = 1\nprocessors = 1\nhorizon = 1\n%%\n=\n%%\nprocessors = 2\nhorizon = 1\n%%"],
        &[
            "run-batch 1\nsets 4\nset 0 refused 6 UnknownKey top x\nset 1 refused 6 NotToml\nset 2 fits scale 1 levels 1\n\
                set 3 refused 6 Missing top processors\n",
        ],
        Did::NothingRead(0),
    ),
    (
        &[
            "processors = 1\nhorizon = 1\ntask = [{name = \"a\", work = 1, period = 4294967295}, \
                {name = \"b\", work = 1, period = 4294967294}, {name = \"c\", work = 1, period = 4294967293}]\n",
        ],
        &["run-batch 1\nsets 1\nset 0 refused 8 ScaleTooLarge task 2\n"],
        Did::NothingRead(0),
    ),
];

const FAILING: &[Failing] = &[
    Failing::Source(&[1]),
    Failing::Out(&[1], ""),
    Failing::Out(&[2], "run-batch 1\n"),
    Failing::Out(&[3], "run-batch 1\nsets 1\n"),
];

const FAULTS: &[FaultCase] = &[(
    Outside {
        out_room: 25,
        ..SURE
    },
    Status::WriteFault,
    "run-batch 1\nsets 1\nset 0 ",
    "refused 4 WriteFault\n",
    Did::Nothing,
)];

const TABLES: &[Table] = &[
    (&["batch"], Cases::Done(BATCHES)),
    (&["batch"], Cases::Failing(&[THREE_TASKS], FAILING)),
    (&["batch"], Cases::Faults(&[THREE_TASKS], FAULTS)),
];

#[test]
fn each_set_of_a_text_has_its_answer(rt: HostRuntime) {
    assert_tables(&rt, rt.alloc(), TABLES);
}

// The text of so many small sets.
fn small_sets(rt: &impl Abort, alloc: Global, count: u32) -> String {
    let mut text = String::from_str(alloc, "processors=1\nhorizon=1\n").expect(
        rt,
        "there is memory",
    );
    for _ in 1..count {
        text.push_str("%%\nprocessors=1\nhorizon=1\n")
            .expect(rt, "there is memory");
    }
    text
}

// What is told of so many small sets.
fn small_lines(rt: &impl Abort, alloc: Global, count: u32) -> String {
    let mut text = String::new(alloc);
    for j in 0..count {
        let line = format!(in alloc; "set {j} fits scale 1 levels 1\n").expect(
            rt,
            "there is memory",
        );
        text.push_str(&line).expect(rt, "there is memory");
    }
    text
}

// Makes sure of what is told of many small sets.
fn assert_small_sets<X: Abort + Threads + Wait + Sync>(rt: &X, alloc: Global) {
    let text = small_sets(rt, alloc, 4096);
    let lines = small_lines(rt, alloc, 4096);
    let out = ["run-batch 1\nsets 4096\n", lines.as_str()];
    let end = (Status::Done, out.as_slice(), "");
    assert_call(
        rt,
        alloc,
        &["batch"],
        &[text.as_str()],
        &SURE,
        end,
        Did::Unseen,
    );
}

#[test]
fn many_small_sets_have_one_answer_each(rt: HostRuntime) {
    assert_small_sets(&rt, rt.alloc());
}
