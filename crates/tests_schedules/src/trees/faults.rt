//! Texts of the form that are those of no reduction tree.
use super::answers::Answer::Fault;
use super::answers::{ONE_IDLE, Row, THREE_LEVELS, compare};
use tree_check::TreeKind::{Member, Pair, Rate, Total, Unfinished, Unplaced};

/// the lines that differ, and the line at fault with the reason
const FAULTS: &[Row] = &[
    (&[(19, "pack 5 ~0 ~2\n")], Fault(19, Rate)),
    (&[(19, "pack 4 ~0 ~0\n")], Fault(18, Unplaced)),
    // The leaves don't fill the processors.
    (&[(2, "processors 2\n")], Fault(12, Total)),
    (&[(2, "processors 4\n")], Fault(12, Total)),
    (
        &[(10, "task e 2 5\n"), (17, "pack 2 e\n")],
        Fault(12, Total),
    ),
    (&[(11, "idles 1\nidle 0 1\n")], Fault(13, Total)),
    // Both at one line.
    (
        &[(2, "processors 4\n"), (17, "pack 3 d\n")],
        Fault(12, Total),
    ),
    // A leaf or a dual in no pack.
    (&[(17, "pack 3 d\n")], Fault(12, Unplaced)),
    (&[(23, "pack 5 ~0 ~1\n")], Fault(22, Unplaced)),
    // A member that there isn't, or that there was already.
    (&[(17, "pack 3 e f\n")], Fault(17, Member)),
    (&[(17, "pack 3 e -0\n")], Fault(17, Member)),
    (&[(21, "pack 2 ~4 ~5\n")], Fault(21, Member)),
    (&[(21, "pack 2 ~4 ~4294967295\n")], Fault(21, Member)),
    (&[(14, "pack 3 b a\n")], Fault(14, Member)),
    (&[(14, "pack 3 b b\n")], Fault(14, Member)),
    (&[(21, "pack 2 ~4 ~0\n")], Fault(21, Member)),
    // The earlier line, where a later one names the same member.
    (&[(13, "pack 3 a b\n")], Fault(13, Rate)),
    (&[(13, "pack 4 a\n")], Fault(13, Rate)),
    (&[(13, "pack 0 a\n")], Fault(13, Rate)),
    (&[(23, "pack 4 ~0 ~1 ~2\n")], Fault(23, Rate)),
    // Rates of duals are those of the printed rates.
    (&[(21, "pack 1 ~4\n")], Fault(21, Rate)),
    // Room for both in one.
    (
        &[
            (18, "level 1 4\n"),
            (19, "pack 2 ~0\n"),
            (20, "pack 2 ~1\npack 4 ~2 ~3\n"),
        ],
        Fault(20, Pair),
    ),
    (
        &[
            (18, "level 1 4\n"),
            (19, "pack 2 ~0\n"),
            (20, "pack 4 ~2 ~3\npack 2 ~1\n"),
        ],
        Fault(21, Pair),
    ),
    // The rate comes before the pair.
    (
        &[
            (18, "level 1 4\n"),
            (19, "pack 2 ~0\n"),
            (20, "pack 1 ~1\npack 4 ~2 ~3\n"),
        ],
        Fault(20, Rate),
    ),
    // Levels are wanting.
    (
        &[(22, ""), (23, ""), (24, "levels 2\n")],
        Fault(22, Unfinished),
    ),
    // Of several the least line.
    (
        &[(13, "pack 4 a\n"), (19, "pack 4 ~0 ~0\n")],
        Fault(13, Rate),
    ),
    (
        &[(14, "pack 4 b\n"), (17, "pack 3 d\n")],
        Fault(12, Unplaced),
    ),
];

#[test]
fn the_first_fault_is_told(rt: HostRuntime) {
    compare(&rt, rt.alloc(), THREE_LEVELS, FAULTS);
}

const IDLE_FAULTS: &[Row] = &[
    (&[(12, "pack 3 a\n")], Fault(11, Unplaced)),
    (&[(13, "pack 4 b -0\n")], Fault(13, Member)),
    (&[(12, "pack 4 a -1\n")], Fault(11, Unplaced)),
    (&[(10, "idle 0 2\n")], Fault(11, Total)),
    (&[(13, "pack 3 b -1\n")], Fault(13, Member)),
];

#[test]
fn idle_leaves_are_placed_once(rt: HostRuntime) {
    compare(&rt, rt.alloc(), ONE_IDLE, IDLE_FAULTS);
}
