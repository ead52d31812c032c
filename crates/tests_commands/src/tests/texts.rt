//! Worked sets, and the texts told of them.

/// Three tasks of rate 2/3.
pub(super) const THREE_TASKS: &str =
    "processors = 2\nhorizon = 3\ntask = [{name = \"a\", work = 2, period = 3}, {name = \"b\", work = 2, period = 3}, {name = \"c\", work = 2, period = 3}]\n";

/// What `rate` tells of them.
pub(super) const THREE_RATES: &str =
    "processors 2\nhorizon 3\ntasks 3\nscale 3\nrate a 2\nrate b 2\nrate c 2\ntotal 6\nroom 6\nverdict fits\n";

/// Their schedule.
pub(super) const THREE_ROWS: &str =
    "run-trace 1\nprocessors 2\nhorizon 3\nscale 3\ntasks 3\ntask a 2 3\ntask b 2 3\ntask c 2 3\nrow 0 0 3 b\nrow 0 3 9 a\nrow 1 0 6 c\n\
        row 1 6 9 b\ntotal a 6\ntotal b 6\ntotal c 6\nrows 4\n";

/// A task that works in each tick.
pub(super) const FULL_RATE: &str =
    "processors = 1\nhorizon = 3\ntask = [{name = \"a\", work = 1, period = 1}]\n";

/// The schedule of `FULL_RATE`: three rounds are one row.
pub(super) const FULL_ROWS: &str =
    "run-trace 1\nprocessors 1\nhorizon 3\nscale 1\ntasks 1\ntask a 1 1\nrow 0 0 3 a\ntotal a 3\nrows 1\n";

/// The schedule of `FULL_RATE`, with when each period was done.
pub(super) const FULL_MET: &str =
    "run-trace 2\nprocessors 1\nhorizon 3\nscale 1\ntasks 1\ntask a 1 1 0\nrow 0 0 3 a\ntotal a 3\nmet a 0 1\nmet a 1 2\nmet a 2 3\nrows 1\n";

/// A task that is released late, and another.
pub(super) const LATE_TASK: &str =
    "processors = 1\nhorizon = 5\ntask = [{name = \"a\", work = 1, period = 2, offset = 1}, {name = \"b\", work = 1, period = 2}]\n";

/// The schedule of `LATE_TASK`, with when each period was done.
pub(super) const LATE_ROWS: &str =
    "run-trace 2\nprocessors 1\nhorizon 5\nscale 2\ntasks 2\ntask a 1 2 1\ntask b 1 2 0\nrow 0 0 1 -\nrow 0 1 3 b\nrow 0 3 5 a\n\
        row 0 5 7 b\nrow 0 7 9 a\nrow 0 9 10 b\ntotal a 4\ntotal b 5\nmet a 0 5\nmet a 1 9\nmet b 0 3\nmet b 1 7\nrows 6\n";

/// Three tasks on two processors, of which one idle leaf takes the slack.
pub(super) const ONE_IDLE: &str =
    "processors = 2\nhorizon = 5\ntask = [{name = \"a\", work = 3, period = 5}, {name = \"b\", work = 3, period = 5}, {name = \"c\", work = 3, period = 5}]\n";

/// Their schedule.
pub(super) const ONE_IDLE_ROWS: &str =
    "run-trace 1\nprocessors 2\nhorizon 5\nscale 5\ntasks 3\ntask a 3 5\ntask b 3 5\ntask c 3 5\nrow 0 0 5 b\nrow 0 5 20 a\nrow 0 20 25 -\n\
        row 1 0 15 c\nrow 1 15 25 b\ntotal a 15\ntotal b 15\ntotal c 15\nrows 5\n";

/// Five tasks on three processors: two reductions.
pub(super) const TWO_REDUCTIONS: &str =
    "processors = 3\nhorizon = 5\ntask = [{name = \"a\", work = 3, period = 5}, {name = \"b\", work = 3, period = 5}, \
        {name = \"c\", work = 3, period = 5}, {name = \"d\", work = 3, period = 5}, {name = \"e\", work = 3, period = 5}]\n";

/// Their schedule.
pub(super) const TWO_ROWS: &str =
    "run-trace 1\nprocessors 3\nhorizon 5\nscale 5\ntasks 5\ntask a 3 5\ntask b 3 5\ntask c 3 5\ntask d 3 5\ntask e 3 5\nrow 0 0 5 a\n\
        row 0 5 10 c\nrow 0 10 25 e\nrow 1 0 15 b\nrow 1 15 25 a\nrow 2 0 15 d\nrow 2 15 25 c\ntotal a 15\ntotal b 15\ntotal c 15\n\
        total d 15\ntotal e 15\nrows 7\n";

/// No tasks.
pub(super) const NO_TASKS: &str = "processors = 2\nhorizon = 1\n";

/// Their schedule.
pub(super) const NO_TASKS_ROWS: &str =
    "run-trace 1\nprocessors 2\nhorizon 1\nscale 1\ntasks 0\nrow 0 0 1 -\nrow 1 0 1 -\nrows 2\n";

/// More work than there is room for.
pub(super) const OVERLOAD: &str =
    "processors = 1\nhorizon = 6\ntask = [{name = \"a\", work = 2, period = 3}, {name = \"b\", work = 1, period = 2}]\n";

/// Nine tasks of a vehicle, in microseconds, over a second.
pub(super) const NINE_TASKS: &str =
    "processors = 4\nhorizon = 1000000\ntask = [{name = \"control\", work = 600, period = 1000}, \
        {name = \"sense\", work = 1200, period = 2000}, {name = \"fuse\", work = 3000, period = 5000}, \
        {name = \"plan\", work = 6000, period = 10000}, {name = \"video\", work = 12000, period = 20000}, \
        {name = \"log\", work = 10000, period = 50000}, {name = \"net\", work = 30000, period = 100000}, \
        {name = \"store\", work = 60000, period = 200000}, {name = \"health\", work = 200000, period = 1000000}]\n";
