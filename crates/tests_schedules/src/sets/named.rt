//! Names of tasks, and sets of named tasks.
use sched_base::{TaskSet, lawful_name};

/// Names, and whether they are lawful.
const NAMES: &[(&str, bool)] = &[
    ("", false),
    ("a", true),
    ("_", true),
    ("0a", false),
    ("-a", false),
    ("a0_.-Z", true),
    ("a b", false),
    ("a/", false),
    ("a:", false),
    ("\u{e9}", false),
    ("abcdefghijklmnopqrstuvwxyz_12345", true),
    ("abcdefghijklmnopqrstuvwxyz_123456", false),
];

#[test]
fn tasks_are_named_found_and_copied(rt: HostRuntime) {
    for (name, lawful) in NAMES {
        assert!(rt; lawful_name(name.as_bytes()) == *lawful, "{name}");
    }
    let mut set = TaskSet::start(rt.alloc(), 2, 5);
    set.add(b"a", 1, 2).expect(&rt, "there is memory");
    let before = set.copy().expect(&rt, "there is memory");
    set.add_late(b"b", 2, 3, 1).expect(&rt, "there is memory");
    assert!(rt; set.count() == 2);
    assert!(rt; set.name(1) == b"b".as_slice());
    assert!(rt; (set.work(1), set.period(1), set.offset(1)) == (2, 3, 1));
    assert!(rt; set.find(b"b") == Some(1));
    assert!(rt; set.find(b"c").is_none());
    assert!(rt; set.is_same(&set.copy().expect(&rt, "there is memory")));
    assert!(rt; !set.is_same(&before));
}
