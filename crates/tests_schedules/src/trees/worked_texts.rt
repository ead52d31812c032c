//! Tree texts that `tree` writes of worked sets, with what is answered for each text that differs from one in a line or a number.
use super::answers::Answer;
use super::answers::Answer::{BadLine, Fault, Tree};
use tree_check::TreeKind::{Rate, Total, Unplaced};

/// A tree text, and what is to be answered for others.
#[derive(Clone, Copy)]
pub(super) struct Worked {
    pub text: &'static str,
    /// In the place of each byte but the last what is answered where the text ends there: `.` says that the line itself is at fault,
    /// `+` that the next one is missing, and `=` that the text is that of the tree.
    pub cuts: &'static str,
    /// The line at fault where each line in turn stands twice.
    pub doubled: &'static [u64],
    /// The line at fault where each line in turn is left out.
    pub left_out: &'static [u64],
    /// What is answered where each number in turn, in the order of the text, is one more.
    pub raised: &'static [Answer],
}

/// Three tasks of rate 2/3 on two processors.
pub(super) const THREE_TASKS: Worked = Worked {
    text: "run-tree 1\nprocessors 2\nhorizon 3\nscale 3\ntasks 3\ntask a 2 3\ntask b 2 3\ntask c 2 3\nidles 0\nlevel 0 3\npack 2 a\n\
        pack 2 b\npack 2 c\nlevel 1 1\npack 3 ~0 ~1 ~2\nlevels 2\n",
    cuts: ".........+\n...........+\n........+\n......+\n......+\n.........+\n.........+\n.........+\n......+\n........+\n.......+\n\
        .......+\n.......+\n........+\n........+..+..+\n.......=",
    doubled: &[2, 3, 4, 5, 6, 7, 8, 9, 10, 11, 14, 14, 14, 15, 16, 17],
    left_out: &[1, 2, 3, 4, 5, 8, 8, 8, 9, 10, 13, 13, 13, 14, 15, 16],
    raised: &[
        BadLine(1),
        Fault(10, Total),
        Tree,
        BadLine(4),
        BadLine(9),
        Fault(10, Total),
        BadLine(4),
        Fault(10, Total),
        BadLine(4),
        Fault(10, Total),
        BadLine(4),
        BadLine(10),
        BadLine(10),
        BadLine(14),
        Fault(11, Rate),
        Fault(12, Rate),
        Fault(13, Rate),
        BadLine(14),
        BadLine(16),
        BadLine(15),
        Fault(14, Unplaced),
        Fault(14, Unplaced),
        Fault(14, Unplaced),
        BadLine(16),
    ],
};

/// Three tasks of rate 3/5 on two processors, with an idle leaf.
pub(super) const ONE_IDLE_LEAF: Worked = Worked {
    text: super::answers::ONE_IDLE,
    cuts: ".........+\n...........+\n........+\n......+\n......+\n.........+\n.........+\n.........+\n......+\n.......+\n........+\n\
        .......+..+\n.......+\n.......+\n........+\n........+..+..+\n.......=",
    doubled: &[2, 3, 4, 5, 6, 7, 8, 9, 10, 11, 12, 15, 15, 15, 16, 17, 18],
    left_out: &[1, 2, 3, 4, 5, 8, 8, 8, 9, 10, 11, 14, 14, 14, 15, 16, 17],
    raised: &[
        BadLine(1),
        Fault(11, Total),
        Tree,
        BadLine(4),
        BadLine(9),
        Fault(11, Total),
        BadLine(4),
        Fault(11, Total),
        BadLine(4),
        Fault(11, Total),
        BadLine(4),
        BadLine(11),
        BadLine(10),
        Fault(11, Total),
        BadLine(11),
        BadLine(15),
        Fault(12, Rate),
        Fault(11, Unplaced),
        Fault(13, Rate),
        Fault(14, Rate),
        BadLine(15),
        BadLine(17),
        BadLine(16),
        Fault(15, Unplaced),
        Fault(15, Unplaced),
        Fault(15, Unplaced),
        BadLine(17),
    ],
};

/// Five tasks of rate 3/5 on three processors.
pub(super) const TWO_REDUCTIONS: Worked = Worked {
    text: "run-tree 1\nprocessors 3\nhorizon 5\nscale 5\ntasks 5\ntask a 3 5\ntask b 3 5\ntask c 3 5\ntask d 3 5\ntask e 3 5\nidles 0\n\
        level 0 5\npack 3 a\npack 3 b\npack 3 c\npack 3 d\npack 3 e\nlevel 1 3\npack 4 ~0 ~1\npack 4 ~2 ~3\npack 2 ~4\nlevel 2 1\n\
        pack 5 ~0 ~1 ~2\nlevels 3\n",
    cuts: ".........+\n...........+\n........+\n......+\n......+\n.........+\n.........+\n.........+\n.........+\n.........+\n......+\n\
        ........+\n.......+\n.......+\n.......+\n.......+\n.......+\n........+\n........+..+\n........+..+\n........+\n........+\n\
        ........+..+..+\n.......=",
    doubled: &[
        2, 3, 4, 5, 6, 7, 8, 9, 10, 11, 12, 13, 18, 18, 18, 18, 18, 19, 22, 22, 22, 23, 24, 25,
    ],
    left_out: &[
        1, 2, 3, 4, 5, 10, 10, 10, 10, 10, 11, 12, 17, 17, 17, 17, 17, 18, 21, 21, 21, 22, 23, 24,
    ],
    raised: &[
        BadLine(1),
        Fault(12, Total),
        Tree,
        BadLine(4),
        BadLine(11),
        Fault(12, Total),
        BadLine(4),
        Fault(12, Total),
        BadLine(4),
        Fault(12, Total),
        BadLine(4),
        Fault(12, Total),
        BadLine(4),
        Fault(12, Total),
        BadLine(4),
        BadLine(12),
        BadLine(12),
        BadLine(18),
        Fault(13, Rate),
        Fault(14, Rate),
        Fault(15, Rate),
        Fault(16, Rate),
        Fault(17, Rate),
        BadLine(18),
        BadLine(22),
        Fault(19, Rate),
        Fault(18, Unplaced),
        Fault(18, Unplaced),
        Fault(20, Rate),
        Fault(18, Unplaced),
        Fault(18, Unplaced),
        Fault(21, Rate),
        Fault(18, Unplaced),
        BadLine(22),
        BadLine(24),
        BadLine(23),
        Fault(22, Unplaced),
        Fault(22, Unplaced),
        Fault(22, Unplaced),
        BadLine(24),
    ],
};

/// Nine tasks of a vehicle on four processors, in microseconds.
pub(super) const NINE_TASKS: Worked = Worked {
    text: "run-tree 1\nprocessors 4\nhorizon 1000000\nscale 1000000\ntasks 9\ntask control 600 1000\ntask sense 1200 2000\n\
        task fuse 3000 5000\ntask plan 6000 10000\ntask video 12000 20000\ntask log 10000 50000\ntask net 30000 100000\n\
        task store 60000 200000\ntask health 200000 1000000\nidles 0\nlevel 0 5\npack 1000000 control log health\npack 900000 sense net\n\
        pack 900000 fuse store\npack 600000 plan\npack 600000 video\nlevel 1 1\npack 1000000 ~1 ~2 ~3 ~4\nlevels 2\n",
    cuts: ".........+\n...........+\n........+++++++\n......+++++++\n......+\n....................+\n...................+\n\
        ..................+\n...................+\n.....................+\n...................+\n....................+\n\
        ......................+\n.........................+\n......+\n........+\n.............+++++++.+++.++++++\n............+++++.+++\n\
        ............++++.+++++\n............++++\n............+++++\n........+\n..............+..+..+..+\n.......=",
    doubled: &[
        2, 3, 4, 5, 6, 7, 8, 9, 10, 11, 12, 13, 14, 15, 16, 17, 22, 22, 22, 22, 22, 23, 24, 25,
    ],
    left_out: &[
        1, 2, 3, 4, 5, 14, 14, 14, 14, 14, 14, 14, 14, 14, 15, 16, 21, 21, 21, 21, 21, 22, 23, 24,
    ],
    raised: &[
        BadLine(1),
        Fault(16, Total),
        Tree,
        BadLine(4),
        BadLine(15),
        Fault(16, Total),
        BadLine(4),
        Fault(16, Total),
        BadLine(4),
        Fault(16, Total),
        BadLine(4),
        Fault(16, Total),
        BadLine(4),
        Fault(16, Total),
        BadLine(4),
        Fault(16, Total),
        BadLine(4),
        Fault(16, Total),
        BadLine(4),
        Fault(16, Total),
        BadLine(4),
        Fault(16, Total),
        BadLine(4),
        BadLine(16),
        BadLine(16),
        BadLine(22),
        BadLine(17),
        Fault(18, Rate),
        Fault(19, Rate),
        Fault(20, Rate),
        Fault(21, Rate),
        BadLine(22),
        BadLine(24),
        BadLine(23),
        Fault(22, Unplaced),
        Fault(22, Unplaced),
        Fault(22, Unplaced),
        Fault(22, Unplaced),
        BadLine(24),
    ],
};
