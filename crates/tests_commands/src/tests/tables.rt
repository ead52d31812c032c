//! Worked schedules as C source, and the lines of `table`.

use super::cases::{Cases, DoneCase, RefusedCase, ShownCase, Table, assert_tables};
use super::lanes::Did;
use super::texts::{LATE_TASK, OVERLOAD, THREE_ROWS, THREE_TASKS};
use run_tool::Status;

/// The schedule of three tasks on two processors.
const THREE_TABLE: &str = "/* The schedule of a set of periodic tasks, written by furnacelime.
   A row {start, end, task}: the processor runs this task of the table, or
   none where it is -1, from tick start * step up to tick end * step. The
   first row begins at 0, each other where the one before ends, and the last
   ends at ticks. Each array of tasks or rows has one element more, which is
   not counted. */
#include <stdint.h>

struct furnacelime_task {
  const char *name;
  uint32_t work, period, offset; /* in units */
};

struct furnacelime_row {
  uint8_t start, end;
  int16_t task;
};

struct furnacelime_processor {
  uint32_t row_count;
  const struct furnacelime_row *rows;
};

struct furnacelime_table {
  uint64_t scale; /* the ticks of a unit */
  uint64_t step;  /* the ticks of a step, in which rows are told */
  uint64_t ticks; /* the ticks up to the horizon */
  uint64_t repeat_from; /* the tick from which the rows come again, for ever,
                           once ticks have passed; ticks where they don't */
  uint32_t horizon; /* in units */
  uint32_t processor_count, task_count;
  const struct furnacelime_processor *processors;
  const struct furnacelime_task *tasks;
};

static const struct furnacelime_task furnacelime_tasks[] = {
  {\"a\", 2u, 3u, 0u},
  {\"b\", 2u, 3u, 0u},
  {\"c\", 2u, 3u, 0u},
  {\"\", 0u, 0u, 0u}
};

static const struct furnacelime_row furnacelime_rows_0[] = {
  {0u, 1u, 1},
  {1u, 3u, 0},
  {0u, 0u, -1}
};

static const struct furnacelime_row furnacelime_rows_1[] = {
  {0u, 2u, 2},
  {2u, 3u, 1},
  {0u, 0u, -1}
};

static const struct furnacelime_processor furnacelime_processors[] = {
  {2u, furnacelime_rows_0},
  {2u, furnacelime_rows_1},
};

extern const struct furnacelime_table furnacelime_table;
const struct furnacelime_table furnacelime_table = {
  3u, /* scale */
  3u, /* step */
  9u, /* ticks */
  0u, /* repeat_from */
  3u, /* horizon */
  2u, /* processor_count */
  3u, /* task_count */
  furnacelime_processors,
  furnacelime_tasks
};
";

const WHOLE: &[DoneCase] = &[(&[THREE_TASKS], &[THREE_TABLE], Did::Nothing)];

/// One unit of each of two tasks: 641 units have 2^64 - 1 ticks.
const WIDEST: &str =
    "processors = 1\nhorizon = 641\ntask = [{name = \"a\", work = 1, period = 4294967295}, {name = \"b\", work = 1, period = 6700417}]\n";

/// At unit 1 the second task has been given two ticks of its period, at unit 4 three.
const RESTLESS: &str =
    "processors = 1\nhorizon = 4\ntask = [{name = \"a\", work = 1, period = 3, offset = 1}, {name = \"b\", work = 1, period = 3}]\n";

/// Sets, each with the line of its rows' width, its rows, and its numbers.
const PARTS: &[ShownCase] = &[
    // A late task waits in ticks that are no row's. From unit 3 on the rows come again: the first task's period begins there and at the
    // horizon, and the second has been given one of two ticks at both.
    (
        &[LATE_TASK],
        "",
        &[
            "  uint8_t start, end;\n",
            "  {\"a\", 1u, 2u, 1u},\n  {\"b\", 1u, 2u, 0u},\n  {\"\", 0u, 0u, 0u}\n};\n\n\
            static const struct furnacelime_row furnacelime_rows_0[] = {\n  {0u, 1u, -1},\n  {1u, 3u, 1},\n  {3u, 5u, 0},\n\
            \x20 {5u, 7u, 1},\n  {7u, 9u, 0},\n  {9u, 10u, 1},\n  {0u, 0u, -1}\n};\n",
            "  2u, /* scale */\n  1u, /* step */\n  10u, /* ticks */\n  6u, /* repeat_from */\n  5u, /* horizon */\n",
        ],
        "",
    ),
    (
        &[WIDEST],
        "",
        &[
            "  uint16_t start, end;\n",
            "furnacelime_rows_0[] = {\n  {0u, 1u, 1},\n  {1u, 2u, 0},\n  {2u, 641u, -1},\n  {0u, 0u, -1}\n};\n",
            "  28778071877862015u, /* scale */\n  28778071877862015u, /* step */\n  18446744073709551615u, /* ticks */\n\
            \x20 18446744073709551615u, /* repeat_from */\n  641u, /* horizon */\n",
        ],
        "",
    ),
    // A set whose rows don't come again.
    (
        &[RESTLESS],
        "",
        &[
            "furnacelime_rows_0[] = {\n  {0u, 1u, -1},\n  {1u, 4u, 1},\n  {4u, 7u, 0},\n  {7u, 9u, -1},\n  {9u, 12u, 1},\n",
            "  3u, /* scale */\n  1u, /* step */\n  12u, /* ticks */\n  12u, /* repeat_from */\n  4u, /* horizon */\n",
        ],
        "",
    ),
];

const WITHOUT: &[RefusedCase] = &[
    // The first number from 2^64 on that a horizon and a scale make.
    (
        &[
            "processors = 1\nhorizon = 20\ntask = [{name = \"a\", work = 1, period = 2147418113}, {name = \"b\", work = 1, period = 429509837}]\n",
        ],
        Status::TooWide,
        "refused 17 TooWide ticks 18446744073709551620\n",
    ),
    // Too many rows besides, which comes later in the order.
    (
        &[
            "processors = 1\nhorizon = 4294967295\ntask = [{name = \"a\", work = 1, period = 641}, {name = \"b\", work = 1, period = 6700417}, \
                {name = \"c\", work = 1, period = 3}]\n",
        ],
        Status::TooWide,
        "refused 17 TooWide ticks 55340232221128654845\n",
    ),
    // More than there is, which comes before.
    (
        &[
            "processors = 1\nhorizon = 4294967295\ntask = [{name = \"a\", work = 641, period = 641}, {name = \"b\", work = 1, period = 6700417}, \
                {name = \"c\", work = 3, period = 3}]\n",
        ],
        Status::Overload,
        "refused 7 Overload total 25769805705 room 12884901891\n",
    ),
    (
        &[OVERLOAD],
        Status::Overload,
        "refused 7 Overload total 7 room 6\n",
    ),
    (
        &["processors = 32\nhorizon = 65537\ntask = [{name = \"a\", work = 1, period = 1}]\n"],
        Status::TooLong,
        "refused 9 TooLong rows 2097184\n",
    ),
    (
        &[""],
        Status::BadInput,
        "refused 6 Missing top processors\n",
    ),
];

/// The three tasks up to a horizon at which a period is open, and up to one of many turns.
const OPEN: &str =
    "processors = 2\nhorizon = 7\ntask = [{name = \"a\", work = 2, period = 3}, {name = \"b\", work = 2, period = 3}, {name = \"c\", work = 2, period = 3}]\n";

const LONG: &str =
    "processors = 2\nhorizon = 4294967295\ntask = [{name = \"a\", work = 2, period = 3}, {name = \"b\", work = 2, period = 3}, \
        {name = \"c\", work = 2, period = 3}]\n";

/// The least horizon at which a schedule repeats, whatever the set's is.
const AGAIN: &[DoneCase] = &[
    (&[THREE_TASKS], &[THREE_TABLE], Did::Nothing),
    (&[OPEN], &[THREE_TABLE], Did::Nothing),
    (&[LONG], &[THREE_TABLE], Did::Nothing),
];

const ROWS_AGAIN: &[DoneCase] = &[
    (&[THREE_TASKS], &[THREE_ROWS], Did::Nothing),
    (&[OPEN], &[THREE_ROWS], Did::Nothing),
    (&[LONG], &[THREE_ROWS], Did::Nothing),
];

const NEVER_AGAIN: &[RefusedCase] = &[
    (
        &[LATE_TASK],
        Status::TooWide,
        "refused 17 NoRepeat offset 0\n",
    ),
    // 2 and 2^32 - 1 divide no number below 2^33 - 2.
    (
        &[
            "processors = 1\nhorizon = 1\ntask = [{name = \"a\", work = 1, period = 2}, {name = \"b\", work = 1, period = 4294967295}]\n",
        ],
        Status::TooWide,
        "refused 17 NoRepeat units 8589934590\n",
    ),
    // The third task is the first with an offset, which is told first.
    (
        &[
            "processors = 1\nhorizon = 1\ntask = [{name = \"a\", work = 1, period = 4}, {name = \"b\", work = 1, period = 4294967295}, \
                {name = \"c\", work = 1, period = 4, offset = 4}]\n",
        ],
        Status::TooWide,
        "refused 17 NoRepeat offset 2\n",
    ),
    (
        &[OVERLOAD],
        Status::Overload,
        "refused 7 Overload total 7 room 6\n",
    ),
    (
        &[
            "processors = 32\nhorizon = 1\ntask = [{name = \"a\", work = 1, period = 1}, {name = \"b\", work = 1, period = 65537}]\n",
        ],
        Status::TooLong,
        "refused 9 TooLong rows 2097184\n",
    ),
];

const TABLES: &[Table] = &[
    (&["table"], Cases::Done(WHOLE)),
    (&["table"], Cases::Shown(PARTS)),
    (&["table"], Cases::Refused(WITHOUT)),
    (&["table", "--repeat"], Cases::Done(AGAIN)),
    (&["table", "--repeat"], Cases::Refused(NEVER_AGAIN)),
    (&["trace", "--repeat"], Cases::Done(ROWS_AGAIN)),
    (&["trace", "--repeat"], Cases::Refused(NEVER_AGAIN)),
];

#[test]
fn worked_schedules_stand_in_c(rt: HostRuntime) {
    assert_tables(&rt, rt.alloc(), TABLES);
}
