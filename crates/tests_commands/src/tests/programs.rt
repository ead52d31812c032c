//! Jobs that run programs.

use super::calls::{JobKinds, Outside, SURE};
use super::cases::{Cases, DoneCase, FaultCase, RefusedCase, Table, assert_tables};
use super::lanes::{Did, Schedule};
use super::stops::THREE_STOPS;
use super::texts::{NINE_TASKS, OVERLOAD, THREE_TASKS, TWO_REDUCTIONS};
use run_tool::Status;

/// Counts every second unit in register 0.
const COUNTS: &str = "set 1 1\nadd 0 1\njump 1\n";

/// One task that runs in each unit, up to unit 6.
const ONE_TASK: &str =
    "processors = 1\nhorizon = 6\ntask = [{name = \"a\", work = 1, period = 1}]\n";

/// One step in each unit of a program of task a.
const DONE: &[DoneCase] = &[
    (
        &[
            "run-jobs 1\nprogram a\nset 0 1\nadd 1 0\njump 1\ntasks\n",
            THREE_TASKS,
        ],
        &[
            "run-jobs 1\njob a 2 2 1 1 0 0 0 0 0 0\njob b 2 0 0 0 0 0 0 0 0 0\njob c 2 0 0 0 0 0 0 0 0 0\n",
        ],
        Did::Ran(Schedule::Three),
    ),
    // Loops count their units.
    (
        &[
            "run-jobs 1\nprogram a\n",
            COUNTS,
            "program c\n",
            COUNTS,
            "program e\n",
            COUNTS,
            "tasks\n",
            TWO_REDUCTIONS,
        ],
        &[
            "run-jobs 1\njob a 3 1 1 1 0 0 0 0 0 0\njob b 3 0 0 0 0 0 0 0 0 0\njob c 3 1 1 1 0 0 0 0 0 0\n\
            job d 3 0 0 0 0 0 0 0 0 0\njob e 3 1 1 1 0 0 0 0 0 0\n",
        ],
        Did::Ran(Schedule::Two),
    ),
];

/// Of a second of a vehicle's tasks, each unit is one step. Every second one counts.
const NINE_PROGRAMS: &[&str] = &[
    "run-jobs 1\n",
    "program control\n",
    COUNTS,
    "program net\n",
    COUNTS,
    "program health\n",
    COUNTS,
    "tasks\n",
    NINE_TASKS,
];

const NINE_LINES: &str =
    "run-jobs 1\njob control 600000 2 300000 1 0 0 0 0 0 0\njob sense 600000 0 0 0 0 0 0 0 0 0\n\
        job fuse 600000 0 0 0 0 0 0 0 0 0\njob plan 600000 0 0 0 0 0 0 0 0 0\njob video 600000 0 0 0 0 0 0 0 0 0\n\
        job log 200000 0 0 0 0 0 0 0 0 0\njob net 300000 2 150000 1 0 0 0 0 0 0\njob store 300000 0 0 0 0 0 0 0 0 0\n\
        job health 200000 2 100000 1 0 0 0 0 0 0\n";

/// A text with a program for task a.
const HALTING: &[&str] = &["run-jobs 1\nprogram a\nhalt\ntasks\n", THREE_TASKS];

/// What is refused of the programs, or of the set behind them.
const REFUSED: &[RefusedCase] = &[
    (
        &[
            "run-jobs 1\n",
            "program a\nadd 0 8\n",
            "tasks\n",
            THREE_TASKS,
        ],
        Status::BadInput,
        "refused 6 BadProgram 3\n",
    ),
    (
        &[
            "run-jobs 1\n",
            "program a\nset 8 0\n",
            "tasks\n",
            THREE_TASKS,
        ],
        Status::BadInput,
        "refused 6 BadProgram 3\n",
    ),
    (
        &[
            "run-jobs 1\n",
            "program a\nset 0 4294967296\n",
            "tasks\n",
            THREE_TASKS,
        ],
        Status::BadInput,
        "refused 6 BadProgram 3\n",
    ),
    (
        &[
            "run-jobs 1\n",
            "program a\njump 2\n",
            "tasks\n",
            THREE_TASKS,
        ],
        Status::BadInput,
        "refused 6 BadProgram 3\n",
    ),
    (
        &[
            "run-jobs 1\n",
            "program a\njump 9\ngarbage\n",
            "tasks\n",
            THREE_TASKS,
        ],
        Status::BadInput,
        "refused 6 BadProgram 3\n",
    ),
    (
        &[
            "run-jobs 1\n",
            "program a\njump 2\ngarbage\n",
            "tasks\n",
            THREE_TASKS,
        ],
        Status::BadInput,
        "refused 6 BadProgram 4\n",
    ),
    (
        &["run-jobs 1\n", "halt\n", "tasks\n", THREE_TASKS],
        Status::BadInput,
        "refused 6 BadProgram 2\n",
    ),
    (
        &[
            "run-jobs 1\n",
            "program a\nhalt\nprogram a\n",
            "tasks\n",
            THREE_TASKS,
        ],
        Status::BadInput,
        "refused 6 BadProgram 4\n",
    ),
    // The first program of no task, which the set's own refusals come before, but not those of its schedule.
    (
        &[
            "run-jobs 1\n",
            "program a\nhalt\nprogram x\nprogram y\n",
            "tasks\n",
            THREE_TASKS,
        ],
        Status::BadInput,
        "refused 6 BadProgram 4\n",
    ),
    (
        &["run-jobs 1\n", "program x\n", "tasks\n", OVERLOAD],
        Status::BadInput,
        "refused 6 BadProgram 2\n",
    ),
    (
        &["run-jobs 1\n", "program x\n", "tasks\n", ""],
        Status::BadInput,
        "refused 6 Missing top processors\n",
    ),
    (
        &[
            "run-jobs 1\n",
            "",
            "tasks\n",
            "processors = 2\nhorizon = 3\n[[task]]\nname = \"a",
        ],
        Status::BadInput,
        "refused 6 NotToml\n",
    ),
    (
        &["run-jobs 1\nprogram a\nhalt\ntasks\n", OVERLOAD],
        Status::Overload,
        "refused 7 Overload total 7 room 6\n",
    ),
];

/// A stream that fails.
const FAULTS: &[FaultCase] = &[(
    Outside { out: &[1], ..SURE },
    Status::WriteFault,
    "",
    "refused 4 WriteFault\n",
    Did::Worked(&[6, 6, 6]),
)];

/// Another list of words.
const OTHER_WORDS: &[FaultCase] = &[(SURE, Status::Usage, "", "refused 2 Usage\n", Did::Nothing)];

/// Gates with room for the rows of a second.
const NINE: &[FaultCase] = &[(
    Outside {
        gate_room: 65_536,
        ..SURE
    },
    Status::Done,
    NINE_LINES,
    "",
    Did::Unseen,
)];

/// The instructions of a program, and what is told after six units.
macro_rules! program {
    ($program:expr, $told:expr) => {
        (
            &["run-jobs 1\nprogram a\n", $program, "tasks\n", ONE_TASK],
            &["run-jobs 1\njob a ", $told, "\n"],
            Did::Worked(&[6]),
        )
    };
}

/// Each instruction does its work.
const PROGRAMS: &[DoneCase] = &[
    program!("", "6 0 0 0 0 0 0 0 0 0"),
    program!("set 7 4294967295\n", "6 1 0 0 0 0 0 0 0 4294967295"),
    // 0 - 1 is the greatest number of 64 bits. Its square is 1, and one more is 0.
    program!(
        "set 1 1\nsub 0 1\n",
        "6 2 18446744073709551615 1 0 0 0 0 0 0"
    ),
    program!("set 1 1\nsub 0 1\nmul 0 0\n", "6 3 1 1 0 0 0 0 0 0"),
    program!("set 1 1\nsub 0 1\nadd 0 1\n", "6 3 0 1 0 0 0 0 0 0"),
    program!(
        "set 2 3\nadd 2 2\nmul 2 2\nsub 2 3\nset 3 1\nsub 2 3\n",
        "6 6 0 0 35 1 0 0 0 0"
    ),
    // A jump to the number of instructions ends the program.
    program!("jz 0 2\nhalt\n", "6 2 0 0 0 0 0 0 0 0"),
    program!("set 0 5\njz 0 0\n", "6 2 5 0 0 0 0 0 0 0"),
    program!("jump 1\n", "6 1 0 0 0 0 0 0 0 0"),
    program!("set 4 9\nhalt\nset 4 8\n", "6 1 0 0 0 0 9 0 0 0"),
    program!(COUNTS, "6 2 3 1 0 0 0 0 0 0"),
];

/// A job without a program tells zeros: that of task a counts its calls, and none of them fails.
const WITHOUT: &[FaultCase] = &[(
    Outside {
        jobs: JobKinds::Fails(0, 1_000_000),
        ..SURE
    },
    Status::Done,
    "run-jobs 1\njob a 6 0 0 0 0 0 0 0 0 0\n",
    "",
    Did::Worked(&[6]),
)];

/// A text that is cut after some bytes.
const CUT: &[RefusedCase] = &[
    (&[""], Status::BadInput, "refused 6 BadProgram 1\n"),
    (&["run-jobs"], Status::BadInput, "refused 6 BadProgram 1\n"),
    (
        &["run-jobs 1"],
        Status::BadInput,
        "refused 6 BadProgram 2\n",
    ),
    (
        &["run-jobs 1\nprogram"],
        Status::BadInput,
        "refused 6 BadProgram 2\n",
    ),
    (
        &["run-jobs 1\nprogram a\n"],
        Status::BadInput,
        "refused 6 BadProgram 3\n",
    ),
    (
        &["run-jobs 1\nprogram a\nset"],
        Status::BadInput,
        "refused 6 BadProgram 3\n",
    ),
    (
        &["run-jobs 1\nprogram a\nset 0 "],
        Status::BadInput,
        "refused 6 BadProgram 3\n",
    ),
    (
        &["run-jobs 1\nprogram a\nset 0 1"],
        Status::BadInput,
        "refused 6 BadProgram 4\n",
    ),
    (
        &["run-jobs 1\nprogram a\nset 0 1\ntask"],
        Status::BadInput,
        "refused 6 BadProgram 4\n",
    ),
    // The last line is `tasks` without its line feed, and an empty set stands behind it.
    (
        &["run-jobs 1\nprogram a\nset 0 1\ntasks"],
        Status::BadInput,
        "refused 6 Missing top processors\n",
    ),
];

const TABLES: &[Table] = &[
    (&["jobs"], Cases::Done(DONE)),
    (&["jobs"], Cases::Refused(REFUSED)),
    (&["jobs"], Cases::Faults(HALTING, FAULTS)),
    (&["jobs"], Cases::Faults(HALTING, THREE_STOPS)),
    (&["jobs", "--met"], Cases::Faults(HALTING, OTHER_WORDS)),
    (&["jobs"], Cases::Faults(NINE_PROGRAMS, NINE)),
    (&["jobs"], Cases::Done(PROGRAMS)),
    (
        &["jobs"],
        Cases::Faults(
            &["run-jobs 1\nprogram a\n", COUNTS, "tasks\n", ONE_TASK],
            WITHOUT,
        ),
    ),
    (&["jobs"], Cases::Refused(CUT)),
];

#[test]
fn programs_give_their_numbers_or_are_refused(rt: HostRuntime) {
    assert_tables(&rt, rt.alloc(), TABLES);
}
