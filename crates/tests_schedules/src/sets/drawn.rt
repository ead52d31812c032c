//! Sets drawn from numbers: values from outside.
use event_core::count_rounds;
use rate_scale::{scale_of, total};
use round_table::{table_law, table_of};
use run_compile::compile;
use sched_base::TaskSet;
use stat_report::{migrations, preemptions};
use std::alloc::Global;
use std::process::Abort;
use task_gen::{make, words_of};
use trace_check::{ReadTrace, Verdict, check_trace};

/// That the set has exactly these tasks, each told by its name, work and period, for 4 processors over 6000 units.
fn assert_tasks(rt: &impl Abort, set: &TaskSet, tasks: &[(&str, u64, u64)]) {
    assert!(rt; (set.processors(), set.horizon()) == (4, 6000));
    assert!(rt; set.tasks().len() == tasks.len());
    for (task, (name, work, period)) in set.tasks().iter().zip(tasks) {
        assert!(rt; task.name.as_slice() == name.as_bytes(), "{name}");
        assert!(rt;
            (task.work, task.period, task.offset) == (*work, *period, 0),
            "{name}"
        );
    }
}

/// A number, and the first and the last of its words. They are those of PCG's C code, seeded as Rust's crates say.
const WORDS: &[(u64, [u32; 4], [u32; 2])] = &[
    (
        0,
        [298703107, 4236525527, 336081875, 1056616254],
        [133860192, 3330168541],
    ),
    (
        1,
        [866585574, 2109535214, 3403630417, 296513984],
        [272776274, 1137219534],
    ),
    (
        u64::MAX,
        [2553256318, 1362994822, 3759657484, 3366838333],
        [3066135070, 2655355098],
    ),
];

/// Of words that are all zero the first 16 candidates fill the processors, and the others are left out.
const OF_ZEROS: &[(&str, u64, u64)] = &[
    ("t0", 1, 4),
    ("t1", 1, 4),
    ("t2", 1, 4),
    ("t3", 1, 4),
    ("t4", 1, 4),
    ("t5", 1, 4),
    ("t6", 1, 4),
    ("t7", 1, 4),
    ("t8", 1, 4),
    ("t9", 1, 4),
    ("t10", 1, 4),
    ("t11", 1, 4),
    ("t12", 1, 4),
    ("t13", 1, 4),
    ("t14", 1, 4),
    ("t15", 1, 4),
];

/// A number, and the tasks that it draws. Candidates that no longer fit are left out, and leave no gap in the names.
const DRAWN: &[(u64, &[(&str, u64, u64)])] = &[
    (
        0,
        &[
            ("t0", 8, 10),
            ("t1", 5, 10),
            ("t2", 10, 10),
            ("t3", 7, 20),
            ("t4", 3, 4),
            ("t5", 1, 5),
            ("t6", 6, 20),
            ("t7", 1, 15),
        ],
    ),
    (
        1,
        &[
            ("t0", 15, 20),
            ("t1", 5, 5),
            ("t2", 1, 10),
            ("t3", 1, 4),
            ("t4", 5, 12),
            ("t5", 7, 10),
            ("t6", 11, 30),
            ("t7", 4, 20),
            ("t8", 2, 10),
        ],
    ),
];

/// Makes sure of the tasks that these words make.
fn assert_made(rt: &impl Abort, alloc: Global, words: &[u32; 128], tasks: &[(&str, u64, u64)]) {
    let set = make(alloc, words).expect(rt, "there is memory");
    assert_tasks(rt, &set, tasks);
}

/// Four packs of four tasks, each with a processor of its own: the scale, the total of the rates, and the rounds, of four ticks each.
const COUNTS_OF_ZEROS: (u128, u128, u64) = (4, 16, 6000);

/// Makes sure of the scale, the total and the rounds of the set that these words make.
fn assert_counts(
    rt: &impl Abort,
    alloc: Global,
    words: &[u32; 128],
    (scale, sum, rounds): (u128, u128, u64),
) {
    let set = make(alloc, words).expect(rt, "there is memory");
    let plan = compile(alloc, set).expect(rt, "a plan");
    plan.know_lawful();
    assert!(rt; (plan.scale(), total(plan.set(), plan.scale())) == (scale, sum));
    assert!(rt; count_rounds(alloc, &plan) == Ok(rounds));
}

/// The trace of the table of the set that these words make.
fn trace_of(rt: &impl Abort, alloc: Global, words: &[u32; 128]) -> ReadTrace {
    let set = make(alloc, words).expect(rt, "there is memory");
    let scale = scale_of(&set).expect(rt, "a scale");
    let plan = compile(alloc, set).expect(rt, "a plan");
    plan.know_lawful();
    let rounds = count_rounds(alloc, &plan).expect(rt, "there is memory");
    let table = table_of(alloc, &plan, rounds).expect(rt, "there is memory");
    table_law();
    ReadTrace::of_table(alloc, plan.set(), scale, &table).expect(rt, "there is memory")
}

/// Makes sure that a trace is valid, of its rows, and that none of its jobs is preempted or moved.
fn assert_unmoved(rt: &impl Abort, trace: &ReadTrace, rows: usize) {
    assert!(rt; trace.rows().len() == rows);
    match check_trace(trace) {
        Verdict::Valid => {
            let trace = trace.checked();
            assert!(rt; (preemptions(trace), migrations(trace)) == (0, 0));
        }
        Verdict::Fault { line, kind: _ } => panic!(rt; "line {line}"),
    }
}

#[test]
fn words_and_sets_of_numbers(rt: HostRuntime) {
    for (number, first, last) in WORDS {
        let words = words_of(*number);
        assert!(rt; &words[..4] == first.as_slice(), "{number}");
        assert!(rt; &words[126..] == last.as_slice(), "{number}");
    }
    assert_made(&rt, rt.alloc(), &[0; 128], OF_ZEROS);
    assert_counts(&rt, rt.alloc(), &[0; 128], COUNTS_OF_ZEROS);
    assert_unmoved(&rt, &trace_of(&rt, rt.alloc(), &[0; 128]), 24000);
    for (number, tasks) in DRAWN {
        assert_made(&rt, rt.alloc(), &words_of(*number), tasks);
    }
}
