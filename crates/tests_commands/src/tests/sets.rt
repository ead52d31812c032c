//! The commands `rate` and `tree` on worked sets.

use super::calls::{Outside, SURE};
use super::cases::{Case, Cases, DoneCase, RefusedCase, Table, assert_row, assert_tables};
use super::lanes::Did;
use super::texts::{
    NINE_TASKS, NO_TASKS, ONE_IDLE, OVERLOAD, THREE_RATES, THREE_TASKS, TWO_REDUCTIONS,
};
use run_tool::Status;
use std::alloc::Global;
use std::process::Abort;
use std::sync::Wait;
use std::thread::Threads;

const RATES: &[DoneCase] = &[
    (&[THREE_TASKS], &[THREE_RATES], Did::Nothing),
    (
        &[NO_TASKS],
        &["processors 2\nhorizon 1\ntasks 0\nscale 1\ntotal 0\nroom 2\nverdict fits\n"],
        Did::Nothing,
    ),
    (
        &[
            "processors = 1\nhorizon = 1\ntask = [{name = \"a\", work = 1, period = 4294967295}, \
                {name = \"b\", work = 1, period = 4294967294}, {name = \"c\", work = 1, period = 1073741822}]\n",
        ],
        &[
            "processors 1\nhorizon 1\ntasks 3\nscale 9903520288918769111801004030\nrate a 2305843003844984834\nrate b 2305843004381855745\n\
                rate c 9223372030412324865\ntotal 13835058038639165444\nroom 9903520288918769111801004030\nverdict fits\n",
        ],
        Did::Nothing,
    ),
    (
        &[NINE_TASKS],
        &[
            "processors 4\nhorizon 1000000\ntasks 9\nscale 1000000\nrate control 600000\nrate sense 600000\nrate fuse 600000\nrate plan 600000\n\
                rate video 600000\nrate log 200000\nrate net 300000\nrate store 300000\nrate health 200000\ntotal 4000000\nroom 4000000\n\
                verdict fits\n",
        ],
        Did::Nothing,
    ),
];

const REFUSED: &[RefusedCase] = &[
    (
        &[OVERLOAD],
        Status::Overload,
        "refused 7 Overload total 7 room 6\n",
    ),
    (
        &[
            "processors = 1\nhorizon = 1\ntask = [{name = \"a\", work = 1, period = 4294967295}, \
                {name = \"b\", work = 1, period = 4294967294}, {name = \"c\", work = 1, period = 4294967293}]\n",
        ],
        Status::ScaleTooLarge,
        "refused 8 ScaleTooLarge task 2\n",
    ),
    // It asks for too much besides, which comes later in the order.
    (
        &[
            "processors = 1\nhorizon = 1\ntask = [{name = \"a\", work = 4294967295, period = 4294967295}, \
                {name = \"b\", work = 4294967294, period = 4294967294}, {name = \"c\", work = 4294967293, period = 4294967293}]\n",
        ],
        Status::ScaleTooLarge,
        "refused 8 ScaleTooLarge task 2\n",
    ),
    (
        &[""],
        Status::BadInput,
        "refused 6 Missing top processors\n",
    ),
    (
        &["processors = 2\nhorizon = 3\n[[task]]\nname = \"a"],
        Status::BadInput,
        "refused 6 NotToml\n",
    ),
    (
        &["processors = 0\nhorizon = 3\n"],
        Status::BadInput,
        "refused 6 BadProcessors 0\n",
    ),
    (
        &["processors = 33\nhorizon = 0\n"],
        Status::BadInput,
        "refused 6 BadProcessors 33\n",
    ),
    (
        &["processors = -9223372036854775808\nhorizon = 3\n"],
        Status::BadInput,
        "refused 6 BadProcessors -9223372036854775808\n",
    ),
    (
        &["processors = 1\nhorizon = 3\ntask = [{name = \"a\", work = 4, period = 3}]\n"],
        Status::BadInput,
        "refused 6 BadWork 0\n",
    ),
    (
        &[
            "processors = 2\nhorizon = 3\ntask = [{name = \"a\", work = 2, period = 3, deadline = 3}]\n",
        ],
        Status::BadInput,
        "refused 6 UnknownKey task 0 deadline\n",
    ),
    (
        &["processors = 2\nhorizon = 3\n\"a \\u00E9~\" = 1\n"],
        Status::BadInput,
        "refused 6 UnknownKey top a???~\n",
    ),
    (
        &["processors = 2\nhorizon = \"x\"\n"],
        Status::BadInput,
        "refused 6 WrongKind top horizon\n",
    ),
    (
        &[
            "processors = 2\nhorizon = 3\ntask = [{name = \"a\", work = 2, period = 3}, {name = \"a\", work = 1, period = 3}]\n",
        ],
        Status::BadInput,
        "refused 6 SameName 1\n",
    ),
    (
        &[
            "processors = 2\nhorizon = 3\ntask = [{name = \"a\", work = 2, period = 3}, {name = \"b\", work = 2, period = 3, offset = -1}, \
                {name = \"c\", work = 2, period = 3}]\n",
        ],
        Status::BadInput,
        "refused 6 BadOffset 1\n",
    ),
];

const TREES: &[DoneCase] = &[
    // One idle leaf takes the slack.
    (
        &[ONE_IDLE],
        &[
            "run-tree 1\nprocessors 2\nhorizon 5\nscale 5\ntasks 3\ntask a 3 5\ntask b 3 5\ntask c 3 5\nidles 1\nidle 0 1\nlevel 0 3\n\
                pack 4 a -0\npack 3 b\npack 3 c\nlevel 1 1\npack 5 ~0 ~1 ~2\nlevels 2\n",
        ],
        Did::Nothing,
    ),
    // Two reductions.
    (
        &[TWO_REDUCTIONS],
        &[
            "run-tree 1\nprocessors 3\nhorizon 5\nscale 5\ntasks 5\ntask a 3 5\ntask b 3 5\ntask c 3 5\ntask d 3 5\ntask e 3 5\nidles 0\n\
                level 0 5\npack 3 a\npack 3 b\npack 3 c\npack 3 d\npack 3 e\nlevel 1 3\npack 4 ~0 ~1\npack 4 ~2 ~3\npack 2 ~4\nlevel 2 1\n\
                pack 5 ~0 ~1 ~2\nlevels 3\n",
        ],
        Did::Nothing,
    ),
    // Nine tasks of a vehicle, in microseconds.
    (
        &[NINE_TASKS],
        &[
            "run-tree 1\nprocessors 4\nhorizon 1000000\nscale 1000000\ntasks 9\ntask control 600 1000\ntask sense 1200 2000\n\
                task fuse 3000 5000\ntask plan 6000 10000\ntask video 12000 20000\ntask log 10000 50000\ntask net 30000 100000\n\
                task store 60000 200000\ntask health 200000 1000000\nidles 0\nlevel 0 5\npack 1000000 control log health\n\
                pack 900000 sense net\npack 900000 fuse store\npack 600000 plan\npack 600000 video\nlevel 1 1\npack 1000000 ~1 ~2 ~3 ~4\n\
                levels 2\n",
        ],
        Did::Nothing,
    ),
];

const WITHOUT_A_TREE: &[RefusedCase] = &[(
    &[OVERLOAD],
    Status::Overload,
    "refused 7 Overload total 7 room 6\n",
)];

const TABLES: &[Table] = &[
    (&["rate"], Cases::Done(RATES)),
    (&["rate"], Cases::Refused(REFUSED)),
    (&["tree"], Cases::Done(TREES)),
    (&["tree"], Cases::Refused(WITHOUT_A_TREE)),
];

#[test]
fn worked_sets_have_their_rates_and_trees(rt: HostRuntime) {
    assert_tables(&rt, rt.alloc(), TABLES);
}

/// A word, a text, the bytes up to which line feeds stand behind it, what is outside, the status, and what `out` and `err` take.
type Padded = (
    &'static str,
    &'static str,
    usize,
    Outside,
    Status,
    &'static str,
    &'static str,
);

const PADDED: &[Padded] = &[
    (
        "rate",
        THREE_TASKS,
        1_048_576,
        SURE,
        Status::Done,
        THREE_RATES,
        "",
    ),
    (
        "rate",
        THREE_TASKS,
        1_048_577,
        SURE,
        Status::InputTooLong,
        "",
        "refused 12 InputTooLong 1048577\n",
    ),
    (
        "follow",
        "",
        1_048_577,
        SURE,
        Status::InputTooLong,
        "",
        "refused 12 InputTooLong 1048577\n",
    ),
    (
        "jobs",
        "",
        1_048_577,
        SURE,
        Status::InputTooLong,
        "",
        "refused 12 InputTooLong 1048577\n",
    ),
    (
        "modes",
        "",
        1_048_577,
        SURE,
        Status::InputTooLong,
        "",
        "refused 12 InputTooLong 1048577\n",
    ),
    // A source that gives one byte too many has done so, though it would fail at the next call.
    (
        "batch",
        "",
        1_048_577,
        Outside {
            source: &[18],
            ..SURE
        },
        Status::InputTooLong,
        "",
        "refused 12 InputTooLong 1048577\n",
    ),
    (
        "rate",
        "",
        1_048_577,
        Outside {
            source: &[18],
            ..SURE
        },
        Status::InputTooLong,
        "",
        "refused 12 InputTooLong 1048577\n",
    ),
];

// The text, and line feeds up to so many bytes.
fn padded(rt: &impl Abort, alloc: Global, text: &str, count: usize) -> String {
    let mut padded = String::from_str(alloc, text).expect(rt, "there is memory");
    for _ in text.len()..count {
        padded.push_str("\n").expect(rt, "there is memory");
    }
    padded
}

// Makes sure of what a command leaves of a text with so many bytes.
fn assert_padded<X: Abort + Threads + Wait + Sync>(
    rt: &X,
    alloc: Global,
    (number, row): (usize, &Padded),
) {
    let (word, text, count, outside, status, out, err) = row;
    let text = padded(rt, alloc, text, *count);
    let out = [*out];
    let end = (*status, out.as_slice(), *err);
    let at = Case {
        words: &[*word],
        line: word,
        number,
    };
    assert_row(rt, alloc, at, &[text.as_str()], outside, end, Did::Unseen);
}

#[test]
fn a_set_has_at_most_a_mebibyte(rt: HostRuntime) {
    for row in PADDED.iter().enumerate() {
        assert_padded(&rt, rt.alloc(), row);
    }
}
