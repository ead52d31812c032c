//! Texts that aren't of the form.
use super::answers::Answer::BadLine;
use super::answers::{Row, THREE_LEVELS, compare};

/// the lines that differ, and the line at fault
const ROWS: &[Row] = &[
    // the head
    (&[(1, "run-tree 2\n")], BadLine(1)),
    (&[(1, "run-trace 1\n")], BadLine(1)),
    (&[(1, "run-tree 1 \n")], BadLine(1)),
    (&[(2, "processors 0\n")], BadLine(2)),
    (&[(2, "processors 33\n")], BadLine(2)),
    (&[(2, "processors 03\n")], BadLine(2)),
    (&[(3, "horizon 0\n")], BadLine(3)),
    (&[(3, "horizon 4294967296\n")], BadLine(3)),
    (&[(4, "scale\n")], BadLine(4)),
    (&[(5, "tasks 257\n")], BadLine(5)),
    (&[(2, "processors 3\n\n")], BadLine(3)),
    // tasks
    (&[(6, "task a 6 5\n")], BadLine(6)),
    (&[(6, "task a 0 5\n")], BadLine(6)),
    (&[(7, "task a 3 5\n")], BadLine(7)),
    (&[(7, "task 1b 3 5\n")], BadLine(7)),
    (&[(7, "task b 3 5 0\n")], BadLine(7)),
    (&[(7, "task b 3 4294967296\n")], BadLine(7)),
    (&[(5, "tasks 4\n")], BadLine(10)),
    (&[(5, "tasks 6\n")], BadLine(11)),
    // The scale is judged once the tasks are right, however long it is.
    (&[(4, "scale 10\n")], BadLine(4)),
    (&[(4, "scale 10\n"), (8, "task c 3\n")], BadLine(8)),
    (
        &[
            (4, "scale 340282366920938463463374607431768211461\n"),
            (10, "task e 3 x\n"),
        ],
        BadLine(10),
    ),
    (
        &[(4, "scale 340282366920938463463374607431768211461\n")],
        BadLine(4),
    ),
    (&[(4, "scale 10\n"), (11, "idles x\n")], BadLine(4)),
    // idle leaves
    (&[(11, "idles 1025\n")], BadLine(11)),
    (&[(11, "idles 1\n")], BadLine(12)),
    (&[(11, "idles 1\nidle 0 0\n")], BadLine(12)),
    (&[(11, "idles 1\nidle 0 6\n")], BadLine(12)),
    (&[(11, "idles 1\nidle 1 1\n")], BadLine(12)),
    (&[(11, "idles 2\nidle 0 1\nidle 0 1\n")], BadLine(13)),
    // levels
    (&[(12, "level 1 5\n")], BadLine(12)),
    (&[(12, "level 0 0\n")], BadLine(12)),
    (&[(12, "level 0 1281\n")], BadLine(12)),
    (&[(12, "level 0 4\n")], BadLine(17)),
    (&[(12, "level 0 6\n")], BadLine(18)),
    (&[(18, "level 2 3\n")], BadLine(18)),
    (&[(12, "levels 0\n")], BadLine(12)),
    // packs
    (&[(13, "pack 6 a\n")], BadLine(13)),
    (&[(13, "pack 3\n")], BadLine(13)),
    (&[(13, "pack 3 \n")], BadLine(13)),
    (&[(13, "pack 3 a \n")], BadLine(13)),
    (&[(13, "pack 3  a\n")], BadLine(13)),
    (&[(13, "pack 3 ~0\n")], BadLine(13)),
    (&[(13, "pack 3 a -00\n")], BadLine(13)),
    (&[(13, "pack 3 -\n")], BadLine(13)),
    (&[(19, "pack 4 ~0 c\n")], BadLine(19)),
    (&[(19, "pack 4 ~0 -2\n")], BadLine(19)),
    (&[(19, "pack 4 ~0 ~4294967296\n")], BadLine(19)),
    // the last line
    (&[(24, "levels 2\n")], BadLine(24)),
    (&[(24, "levels 03\n")], BadLine(24)),
    (&[(24, "levels 3\n\n")], BadLine(25)),
    (&[(24, "levels 3\nlevels 3\n")], BadLine(25)),
    // Of several the least.
    (&[(7, "task b 6 5\n"), (13, "pack 6 a\n")], BadLine(7)),
];

#[test]
fn the_first_line_at_fault_is_told(rt: HostRuntime) {
    compare(&rt, rt.alloc(), THREE_LEVELS, ROWS);
}
