//! What programs compute, by hand, and job texts that anybody wrote.
use job_vm::{JobText, JobTextFault, VmJob, read_jobs};
use sched_edges::Job;
use std::alloc::Global;
use std::process::Abort;

/// What a job has computed that works these ticks, one after the other, in units of three.
fn computed(rt: &impl Abort, alloc: Global, code: &[u64], rows: &[u32]) -> [u64; 9] {
    let mut job = VmJob::new(alloc, 5);
    job.load(code, 3).expect(rt, "there is memory");
    for ticks in rows {
        assert!(rt; job.used() < 1000 && job.work(u128::from(*ticks)).is_ok());
    }
    job.state()
}

/// The words of a program, the ticks of the rows, and what is computed.
/// A word in hexadecimal digits: two of the operation, two of the register, eight of the number.
const PROGRAMS: &[(&[u64], &[u32], [u64; 9])] = &[
    // set 0 1, add 1 0, jump 1: counts every second unit.
    (
        &[1, 0x0101_0000_0000, 0x0500_0000_0001],
        &[6],
        [2, 1, 1, 0, 0, 0, 0, 0, 0],
    ),
    (
        &[1, 0x0101_0000_0000, 0x0500_0000_0001],
        &[1, 1, 2, 1, 17, 1, 3],
        [2, 1, 4, 0, 0, 0, 0, 0, 0],
    ),
    // A part of a unit is none.
    (&[1, 0x0101_0000_0000, 0x0500_0000_0001], &[2], [0; 9]),
    // set 1 1, sub 0 1: the greatest number of 64 bits; its square is 1, and one more is 0.
    (
        &[0x0001_0000_0001, 0x0200_0000_0001],
        &[6],
        [2, u64::MAX, 1, 0, 0, 0, 0, 0, 0],
    ),
    (
        &[0x0001_0000_0001, 0x0200_0000_0001, 0x0300_0000_0000],
        &[9],
        [3, 1, 1, 0, 0, 0, 0, 0, 0],
    ),
    (
        &[0x0001_0000_0001, 0x0200_0000_0001, 0x0100_0000_0001],
        &[9],
        [3, 0, 1, 0, 0, 0, 0, 0, 0],
    ),
    // jz 0 2 jumps behind the end; set 0 5, jz 0 0 doesn't jump.
    (
        &[0x0400_0000_0002, 0x0600_0000_0000],
        &[30],
        [2, 0, 0, 0, 0, 0, 0, 0, 0],
    ),
    (&[5, 0x0400_0000_0000], &[30], [2, 5, 0, 0, 0, 0, 0, 0, 0]),
    // set 7 4294967295, halt.
    (
        &[0x0007_ffff_ffff, 0x0600_0000_0000],
        &[300],
        [1, 0, 0, 0, 0, 0, 0, 0, 4_294_967_295],
    ),
    // No instructions: an operation 7, a register 8, a jump with a register, the greatest word.
    (&[0x0700_0000_0000], &[30], [0; 9]),
    (&[0x0100_0000_0008], &[30], [0; 9]),
    (&[0x0501_0000_0001], &[30], [0; 9]),
    (&[u64::MAX], &[30], [0; 9]),
];

/// Programs that stand still: none, and set 0 7, and then a jump to itself.
const STILL: &[&[u64]] = &[&[], &[7, 0x0500_0000_0001]];

/// Standing still costs nothing.
fn compare_still(rt: &impl Abort, alloc: Global) {
    let mut job = VmJob::new(alloc, 5);
    for (number, code) in STILL.iter().enumerate() {
        job.load(code, 1).expect(rt, "there is memory");
        assert!(rt; job.used() == 0, "program {number}");
        assert!(rt;
            job.used() == 0 && job.work(1 << 94).is_ok(),
            "program {number}"
        );
        assert!(rt;
            (job.used(), job.id(), job.faults()) == ((1 << 94, 5, 0)),
            "program {number}"
        );
    }
    assert!(rt; job.state() == [1, 7, 0, 0, 0, 0, 0, 0, 0]);
    job.load(&[], 1).expect(rt, "there is memory");
    assert!(rt; job.state() == [0; 9]);
}

#[test]
fn programs_compute(rt: HostRuntime) {
    for (number, (code, rows, want)) in PROGRAMS.iter().enumerate() {
        assert!(rt;
            computed(&rt, rt.alloc(), code, rows) == *want,
            "program {number}"
        );
    }
    compare_still(&rt, rt.alloc());
}

const TEXT: &[u8] =
    b"run-jobs 1\nprogram a\nset 0 1\nadd 1 0\njump 3\nprogram b2\nprogram c\nsub 1 2\nmul 3 4\njz 5 4\nhalt\ntasks\nno set";

/// Where the set begins.
const SET_START: usize = TEXT.len() - 6;

/// The programs of the text: for whom each is, the line of that, and its words.
const READ: &[(&[u8], u64, &[u64])] = &[
    (b"a", 2, &[1, 0x0101_0000_0000, 0x0500_0000_0003]),
    (b"b2", 6, &[]),
    (
        b"c",
        7,
        &[
            0x0201_0000_0002,
            0x0303_0000_0004,
            0x0405_0000_0004,
            0x0600_0000_0000,
        ],
    ),
];

fn compare_read(rt: &impl Abort, jobs: &JobText) {
    assert!(rt; jobs.count() as usize == READ.len());
    for (j, (name, line, code)) in (0..jobs.count()).zip(READ) {
        assert!(rt; j < jobs.count());
        assert!(rt;
            (jobs.name(j), jobs.line(j)) == (*name, *line),
            "program {j}"
        );
        assert!(rt; jobs.code(j) == *code, "program {j}");
    }
    assert!(rt; jobs.set_start() == SET_START);
}

/// Texts that are refused, and the least line at fault.
const FAULTS: &[(&str, u64)] = &[
    ("", 1),
    ("run-jobs 2\ntasks\n", 1),
    ("run-jobs 1", 2),
    ("run-jobs 1\nhalt\ntasks\n", 2),
    ("run-jobs 1\nprogram\ntasks\n", 2),
    ("run-jobs 1\nprogram 9a\ntasks\n", 2),
    ("run-jobs 1\nprogram a\nhalt\nprogram a\ntasks\n", 4),
    ("run-jobs 1\nprogram a\nadd 0 8\ntasks\n", 3),
    ("run-jobs 1\nprogram a\nset 8 0\ntasks\n", 3),
    ("run-jobs 1\nprogram a\nset 0 4294967296\ntasks\n", 3),
    ("run-jobs 1\nprogram a\nset 0 01\ntasks\n", 3),
    ("run-jobs 1\nprogram a\nset  0 1\ntasks\n", 3),
    ("run-jobs 1\nprogram a\njump 2\ntasks\n", 3),
    ("run-jobs 1\nprogram a\njz 0 2\nprogram b\nhalt\ntasks\n", 3),
    // The instructions are counted whatever their form, so that line 3 is right.
    (
        "run-jobs 1\nprogram a\njump 2\nhalt 1\nprogram a\ntasks\n",
        4,
    ),
    ("run-jobs 1\nprogram a\nhalt\n", 4),
    ("run-jobs 1\nprogram a\nhalt\ntasks \n", 4),
];

#[test]
fn job_texts_are_read_or_refused(rt: HostRuntime) {
    let jobs = read_jobs(rt.alloc(), TEXT).expect(&rt, "a job text");
    compare_read(&rt, &jobs);
    // The text cut after each byte is refused until the line `tasks` is whole.
    for end in 0..TEXT.len() {
        assert!(rt;
            read_jobs(rt.alloc(), &TEXT[..end]).is_ok() == (end + 7 >= TEXT.len()),
            "cut at {end}"
        );
    }
    for (text, want) in FAULTS {
        match read_jobs(rt.alloc(), text.as_bytes()) {
            Err(JobTextFault::BadProgram { line }) => assert!(rt; line == *want, "{text}"),
            _ => assert!(rt; false, "{text} is refused"),
        }
    }
    assert!(rt; read_jobs(rt.alloc(), b"run-jobs 1\ntasks").is_ok());
}
