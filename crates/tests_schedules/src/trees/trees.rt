//! Texts of trees, whatever rule packed them.
use super::answers::Answer::Tree;
use super::answers::{ONE_IDLE, Row, THREE_LEVELS, answer_for, compare, with_lines};

/// Three processors, on which a root stands beside packs that are none.
const ROOT_BESIDE_PACKS: &str =
    "run-tree 1\nprocessors 3\nhorizon 5\nscale 5\ntasks 4\ntask a 3 5\ntask b 5 5\ntask c 3 5\ntask d 4 5\nidles 0\nlevel 0 4\n\
    pack 3 a\npack 5 b\npack 3 c\npack 4 d\nlevel 1 1\npack 5 ~2 ~3 ~0\nlevels 2\n";

/// Two processors and no task.
const NO_TASK: &str =
    "run-tree 1\nprocessors 2\nhorizon 1\nscale 1\ntasks 0\nidles 2\nidle 0 1\nidle 1 1\nlevel 0 2\npack 1 -1\npack 1 -0\nlevels 1\n";

#[test]
fn trees_are_written_again(rt: HostRuntime) {
    for text in [THREE_LEVELS, ONE_IDLE, ROOT_BESIDE_PACKS, NO_TASK] {
        assert!(rt;
            answer_for(&rt, rt.alloc(), text.as_bytes(), text.as_bytes()) == Tree,
            "{text}"
        );
    }
    // The last line feed may be missing.
    let text = with_lines(&rt, rt.alloc(), THREE_LEVELS, &[(24, "levels 3")]);
    let found = answer_for(&rt, rt.alloc(), text.as_bytes(), THREE_LEVELS.as_bytes());
    assert!(rt; found == Tree);
}

const PACKED: &[Row] = &[
    // as first fit packs it
    (&[(19, "pack 4 ~0 ~1\n"), (20, "pack 4 ~2 ~3\n")], Tree),
    // packs and members in another order
    (&[(13, "pack 3 e\n"), (17, "pack 3 a\n")], Tree),
    (&[(19, "pack 4 ~3 ~1\n"), (20, "pack 4 ~2 ~0\n")], Tree),
    (
        &[
            (19, "pack 2 ~0\n"),
            (21, "pack 4 ~4 ~2\n"),
            (23, "pack 5 ~2 ~0 ~1\n"),
        ],
        Tree,
    ),
];

/// idle leaves anywhere
const IDLE_ANYWHERE: &[Row] = &[
    (&[(12, "pack 4 -0 a\n")], Tree),
    (&[(12, "pack 3 a\n"), (14, "pack 4 c -0\n")], Tree),
    // a processor that no task asks for
    (
        &[
            (2, "processors 3\n"),
            (9, "idles 2\n"),
            (10, "idle 0 1\nidle 1 5\n"),
            (11, "level 0 4\n"),
            (14, "pack 3 c\npack 5 -1\n"),
        ],
        Tree,
    ),
];

#[test]
fn trees_packed_by_any_rule_are_written_again(rt: HostRuntime) {
    compare(&rt, rt.alloc(), THREE_LEVELS, PACKED);
    compare(&rt, rt.alloc(), ONE_IDLE, IDLE_ANYWHERE);
}
