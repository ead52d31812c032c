//! Sets and their answers: values from outside, for what no clause says.
use sched_base::TaskSet;
use std::alloc::Global;
use std::process::Abort;
use task_reader::{ReadSet, cut, read_set};

/// The answer in words: a set as `2 3 a:2/3+0 b:1/3+0`, a refusal as its variant with its fields.
fn answer(rt: &impl Abort, alloc: Global, bytes: &[u8]) -> String {
    assert!(rt; bytes.len() <= 1_048_576);
    match read_set(alloc, bytes) {
        Ok(set) => set_in_words(rt, alloc, &set),
        Err(ReadSet::UnknownKey { place, key }) => {
            let text = std::str::from_utf8(key.as_slice()).expect(rt, "a key is a text");
            format!(in alloc; "UnknownKey {place:?} {text}").expect(rt, "there is memory")
        }
        Err(refusal) => format!(in alloc; "{refusal:?}").expect(rt, "there is memory"),
    }
}

fn set_in_words(rt: &impl Abort, alloc: Global, set: &TaskSet) -> String {
    let mut words = format!(in alloc; "{} {}", set.processors(), set.horizon()).expect(
        rt,
        "there is memory",
    );
    for task in set.tasks() {
        let name = std::str::from_utf8(task.name.as_slice()).expect(rt, "a name is a text");
        let one = format!(in alloc; " {name}:{}/{}+{}", task.work, task.period, task.offset).expect(
            rt,
            "there is memory",
        );
        words.push_str(&one).expect(rt, "there is memory");
    }
    words
}

fn compare(rt: &impl Abort, alloc: Global, bytes: &[u8], want: &str) {
    let said = answer(rt, alloc, bytes);
    let length = bytes.len();
    assert!(rt;
        said.as_str() == want,
        "a text of {length} bytes: {said}, and not {want}"
    );
}

const THREE: &str =
    "processors = 2\nhorizon = 3\n\n[[task]]\nname = \"a\"\nwork = 2\nperiod = 3\n\n[[task]]\nname = \"b\"\nwork = 2\n\
        period = 3\n\n[[task]]\nname = \"c\"\nwork = 2\nperiod = 3\n";

/// Whole documents.
const DOCUMENTS: &[(&str, &str)] = &[
    (THREE, "2 3 a:2/3+0 b:2/3+0 c:2/3+0"),
    // The tree of `THREE` in another layout.
    (
        "task = [{name = 'a', work = 2, period = 3}, {name = 'b', work = 2, period = 3}, \
            {name = 'c', work = 2, period = 3}]\nhorizon = 0x3\nprocessors = +2",
        "2 3 a:2/3+0 b:2/3+0 c:2/3+0",
    ),
    ("processors = 2\nhorizon = 5\n", "2 5"),
    ("", "Missing { place: Top, key: Processors }"),
    ("processors = ", "NotToml"),
    ("processors = 9223372036854775808\nhorizon = 3", "NotToml"),
    ("processors = 0\nhorizon = 3", "BadProcessors { value: 0 }"),
    (
        "processors = 33\nhorizon = 0",
        "BadProcessors { value: 33 }",
    ),
    (
        "processors = 2\nhorizon = \"x\"",
        "WrongKind { place: Top, key: Horizon }",
    ),
    (
        "processors = 2\nhorizon = 3\ntask = 1",
        "WrongKind { place: Top, key: Task }",
    ),
    (
        "processors = 2\nhorizon = 3\ntask = [{work = 1}, 1]",
        "Missing { place: Task(0), key: Name }",
    ),
    (
        "processors = 2\nhorizon = 3\ntask = [{name = 1, work = 1, period = 1}, 1]",
        "WrongKind { place: Task(0), key: Name }",
    ),
    (
        "processors = 2\nhorizon = 3\ntask = [1]",
        "WrongKind { place: Task(0), key: Task }",
    ),
    // The lowest number over the whole document comes first.
    (
        "horizon = 'x'\ntask = [{name = 1}, {deadline = 3}]",
        "UnknownKey Task(1) deadline",
    ),
    (
        "processors = 'x'\nhorizon = 3\ntask = [{name = 'a', work = 1}]",
        "Missing { place: Task(0), key: Period }",
    ),
    // Unknown keys go by their bytes.
    ("z = 1\n'é' = 1\nA = 1\nprocessors = 2", "UnknownKey Top A"),
    ("'' = 1", "UnknownKey Top "),
    (
        "processors = 1\nhorizon = 3\ntask = [{name = 'a', work = 4, period = 3}]",
        "BadWork { index: 0 }",
    ),
    (
        "processors = 1\nhorizon = 3\ntask = [{name = 'a', work = 3, period = 3}]",
        "1 3 a:3/3+0",
    ),
    (
        "processors = 2\nhorizon = 3\ntask = [{name = 'a', work = 2, period = 3}, {name = 'a', work = 1, period = 3}]",
        "SameName { index: 1 }",
    ),
    (
        "processors = 2\nhorizon = 3\ntask = [{name = 'a', work = 2, period = 3}, {name = 'b', work = 2, period = 3, offset = -1}]",
        "BadOffset { index: 1 }",
    ),
];

/// The lines of a document.
const LINES: &[&str] = &[
    "processors = 2",
    "horizon = 3",
    "[[task]]",
    "name = 'a'",
    "work = 1",
    "period = 3",
    "offset = 2",
];

/// The place of a line, what stands there instead, and the answer.
const OTHER_LINES: &[(usize, &str, &str)] = &[
    (7, "", "2 3 a:1/3+2"),
    // Each key missing.
    (0, "", "Missing { place: Top, key: Processors }"),
    (1, "", "Missing { place: Top, key: Horizon }"),
    (2, "", "UnknownKey Top name"),
    (3, "", "Missing { place: Task(0), key: Name }"),
    (4, "", "Missing { place: Task(0), key: Work }"),
    (5, "", "Missing { place: Task(0), key: Period }"),
    (6, "", "2 3 a:1/3+0"),
    // Each key doubled.
    (0, "processors = 2\nprocessors = 2", "NotToml"),
    (1, "horizon = 3\nhorizon = 3", "NotToml"),
    (
        2,
        "[[task]]\n[[task]]",
        "Missing { place: Task(0), key: Name }",
    ),
    (3, "name = 'a'\nname = 'a'", "NotToml"),
    (4, "work = 1\nwork = 1", "NotToml"),
    (5, "period = 3\nperiod = 3", "NotToml"),
    (6, "offset = 2\noffset = 2", "NotToml"),
    // Each number at its limits and past them.
    (0, "processors = 1", "1 3 a:1/3+2"),
    (0, "processors = 32", "32 3 a:1/3+2"),
    (0, "processors = -1", "BadProcessors { value: -1 }"),
    (
        0,
        "processors = 9223372036854775807",
        "BadProcessors { value: 9223372036854775807 }",
    ),
    (1, "horizon = 1", "2 1 a:1/3+2"),
    (1, "horizon = 4294967295", "2 4294967295 a:1/3+2"),
    (1, "horizon = 0", "BadHorizon { value: 0 }"),
    (
        1,
        "horizon = 4294967296",
        "BadHorizon { value: 4294967296 }",
    ),
    (4, "work = 0", "BadWork { index: 0 }"),
    (4, "work = -1", "BadWork { index: 0 }"),
    (4, "work = 3", "2 3 a:3/3+2"),
    (5, "period = 1", "2 3 a:1/1+2"),
    (5, "period = 4294967295", "2 3 a:1/4294967295+2"),
    (5, "period = 0", "BadPeriod { index: 0 }"),
    (5, "period = 4294967296", "BadPeriod { index: 0 }"),
    (6, "offset = 0", "2 3 a:1/3+0"),
    (6, "offset = 4294967295", "2 3 a:1/3+4294967295"),
    (6, "offset = 4294967296", "BadOffset { index: 0 }"),
    // Names.
    (3, "name = ''", "BadName { index: 0 }"),
    (3, "name = '1a'", "BadName { index: 0 }"),
    (3, "name = 'é'", "BadName { index: 0 }"),
    (3, "name = '_.-9'", "2 3 _.-9:1/3+2"),
    (
        3,
        "name = 'abcdefghijklmnopqrstuvwxyzABCDEF'",
        "2 3 abcdefghijklmnopqrstuvwxyzABCDEF:1/3+2",
    ),
    (
        3,
        "name = 'abcdefghijklmnopqrstuvwxyzABCDEFG'",
        "BadName { index: 0 }",
    ),
];

/// The document with one of its lines written otherwise.
fn with_line(rt: &impl Abort, alloc: Global, other: usize, line: &str) -> String {
    let mut text = String::new(alloc);
    for (i, known) in LINES.iter().enumerate() {
        text.push_str(if i == other { line } else { known })
            .expect(rt, "there is memory");
        text.push_str("\n").expect(rt, "there is memory");
    }
    text
}

/// A set of that many tasks.
fn many(rt: &impl Abort, alloc: Global, count: u32) -> String {
    let mut text = String::from_str(alloc, "processors = 1\nhorizon = 1\n").expect(
        rt,
        "there is memory",
    );
    for i in 0..count {
        let task = format!(in alloc; "[[task]]\nname = 't{i}'\nwork = 1\nperiod = 400\n").expect(
            rt,
            "there is memory",
        );
        text.push_str(&task).expect(rt, "there is memory");
    }
    text
}

fn compare_many(rt: &impl Abort, alloc: Global) {
    let most = answer(rt, alloc, many(rt, alloc, 256).as_bytes());
    assert!(rt; most.as_str().ends_with(" t254:1/400+0 t255:1/400+0"));
    compare(
        rt,
        alloc,
        many(rt, alloc, 257).as_bytes(),
        "TooManyTasks { count: 257 }",
    );
}

/// How many bytes of the text of three tasks are read at least, up to the next number, and what they say.
const CUTS: &[(usize, &str)] = &[
    (0, "Missing { place: Top, key: Processors }"),
    (1, "NotToml"),
    (14, "Missing { place: Top, key: Horizon }"),
    (16, "NotToml"),
    (26, "2 3"),
    (29, "NotToml"),
    (36, "Missing { place: Task(0), key: Name }"),
    (38, "NotToml"),
    (47, "Missing { place: Task(0), key: Work }"),
    (49, "NotToml"),
    (56, "Missing { place: Task(0), key: Period }"),
    (58, "NotToml"),
    (67, "2 3 a:2/3+0"),
    (70, "NotToml"),
    (77, "Missing { place: Task(1), key: Name }"),
    (79, "NotToml"),
    (88, "Missing { place: Task(1), key: Work }"),
    (90, "NotToml"),
    (97, "Missing { place: Task(1), key: Period }"),
    (99, "NotToml"),
    (108, "2 3 a:2/3+0 b:2/3+0"),
    (111, "NotToml"),
    (118, "Missing { place: Task(2), key: Name }"),
    (120, "NotToml"),
    (129, "Missing { place: Task(2), key: Work }"),
    (131, "NotToml"),
    (138, "Missing { place: Task(2), key: Period }"),
    (140, "NotToml"),
    (149, "2 3 a:2/3+0 b:2/3+0 c:2/3+0"),
];

/// What so many bytes of the text of three tasks say.
fn said_by(bytes: usize) -> &'static str {
    let mut said = "";
    for (from, other) in CUTS {
        if *from <= bytes {
            said = *other;
        }
    }
    said
}

/// The text of three tasks cut after each byte.
fn compare_cuts(rt: &impl Abort, alloc: Global) {
    for end in 0..=THREE.len() {
        compare(rt, alloc, &THREE.as_bytes()[..end], said_by(end));
    }
}

/// A value of each kind.
const VALUES: [&str; 7] = [
    "7",
    "'x'",
    "1.5",
    "true",
    "1979-05-27T07:32:00Z",
    "[1]",
    "{x = 1}",
];

/// A key: what stands before its value and behind it, which of the values is of its kind, and the answer for each other one.
type Key = (&'static str, &'static str, usize, &'static str);

const KEYS: &[Key] = &[
    (
        "processors = ",
        "\nhorizon = 3",
        0,
        "WrongKind { place: Top, key: Processors }",
    ),
    (
        "processors = 2\nhorizon = ",
        "",
        0,
        "WrongKind { place: Top, key: Horizon }",
    ),
    (
        "processors = 2\nhorizon = 3\ntask = ",
        "",
        5,
        "WrongKind { place: Top, key: Task }",
    ),
    (
        "processors = 2\nhorizon = 3\ntask = [{work = 1, period = 3, name = ",
        "}]",
        1,
        "WrongKind { place: Task(0), key: Name }",
    ),
    (
        "processors = 2\nhorizon = 3\ntask = [{name = 'a', period = 3, work = ",
        "}]",
        0,
        "WrongKind { place: Task(0), key: Work }",
    ),
    (
        "processors = 2\nhorizon = 3\ntask = [{name = 'a', work = 1, period = ",
        "}]",
        0,
        "WrongKind { place: Task(0), key: Period }",
    ),
    (
        "processors = 2\nhorizon = 3\ntask = [{name = 'a', work = 1, period = 3, offset = ",
        "}]",
        0,
        "WrongKind { place: Task(0), key: Offset }",
    ),
];

/// Makes sure of the answer where a key has this value.
fn compare_value(rt: &impl Abort, alloc: Global, (before, behind, _, want): Key, value: &str) {
    let text = format!(in alloc; "{before}{value}{behind}").expect(rt, "there is memory");
    compare(rt, alloc, text.as_bytes(), want);
}

/// A key with a value of each kind but its own.
fn compare_kinds(rt: &impl Abort, alloc: Global, key: Key) {
    for (kind, value) in VALUES.iter().enumerate() {
        if kind != key.2 {
            compare_value(rt, alloc, key, value);
        }
    }
}

/// Texts, and the start and the end of each of their pieces.
const PIECES: &[(&str, &str)] = &[
    ("", "0-0 "),
    ("a", "0-1 "),
    ("a\nb\n", "0-4 "),
    ("%%", "0-0 2-2 "),
    ("%%\n", "0-0 3-3 "),
    ("%%\n%%", "0-0 3-3 5-5 "),
    ("%%\n%%\n", "0-0 3-3 6-6 "),
    ("a\n%%\nb", "0-2 5-6 "),
    ("a\n%%\nb\n%%\n", "0-2 5-7 10-10 "),
    ("a\n%%\n\n%%\nb\n%%", "0-2 5-6 9-11 13-13 "),
    // Lines that are not exactly `%%`.
    ("%%\r\n", "0-4 "),
    ("%% \n", "0-4 "),
    (" %%\n", "0-4 "),
    ("a%%\n%%b\n%%%\n%\n%\n", "0-16 "),
    // A dividing line cuts in the midst of a TOML string too.
    ("x = \"\"\"\n%%\n\"\"\"", "0-8 11-14 "),
];

/// The pieces in words: the start and the end of each.
fn pieces(rt: &impl Abort, alloc: Global, bytes: &[u8]) -> String {
    assert!(rt; bytes.len() <= 1_048_576);
    let pieces = cut(alloc, bytes).expect(rt, "there is memory");
    let mut words = String::new(alloc);
    for j in 0..pieces.count() {
        let (start, end) = pieces.piece(j);
        let one = format!(in alloc; "{start}-{end} ").expect(rt, "there is memory");
        words.push_str(&one).expect(rt, "there is memory");
    }
    words
}

#[test]
fn texts_and_their_answers(rt: HostRuntime) {
    let alloc = rt.alloc();
    for (text, want) in DOCUMENTS {
        compare(&rt, alloc, text.as_bytes(), want);
    }
    compare(&rt, alloc, b"name = '\xff'", "NotToml");
    for (other, line, want) in OTHER_LINES {
        let text = with_line(&rt, alloc, *other, line);
        compare(&rt, alloc, text.as_bytes(), want);
    }
    compare_many(&rt, alloc);
    compare_cuts(&rt, alloc);
    for key in KEYS {
        compare_kinds(&rt, alloc, *key);
    }
    for (text, want) in PIECES {
        let words = pieces(&rt, alloc, text.as_bytes());
        assert!(rt; words.as_str() == *want, "{text}");
    }
}
