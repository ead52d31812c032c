//! Rounds told one by one, of sets that are opened, and the statuses of those that aren't.
use round_steps::{NO_TASK, Steps};
use std::alloc::Global;
use std::process::Abort;

/// Three tasks, each of two thirds of a processor, on two processors.
const THREE_TASKS: &[u8] = b"processors = 2\nhorizon = 3\ntask = [
  {name = \"a\", work = 2, period = 3}, {name = \"b\", work = 2, period = 3}, {name = \"c\", work = 2, period = 3}]\n";

/// One task of a quarter of a processor, which is released a unit late.
const ONE_LATE: &[u8] =
    b"processors = 1\nhorizon = 5\ntask = [{name = \"a\", work = 1, period = 4, offset = 1}]\n";

/// The product of the periods, which are primes, passes 2^94.
const LARGE_SCALE: &[u8] = b"processors = 1\nhorizon = 1\ntask = [
  {name = \"a\", work = 1, period = 4294967291}, {name = \"b\", work = 1, period = 4294967279},
  {name = \"c\", work = 1, period = 4294967231}]\n";

const OVERLOAD: &[u8] = b"processors = 1\nhorizon = 1\ntask = [
  {name = \"a\", work = 1, period = 1}, {name = \"b\", work = 1, period = 2}]\n";

/// A round: its start and its end in ticks, and what is told of each processor.
type Told = (u128, u128, &'static [u32]);

/// A set, its rounds, and the status with which it is refused.
const SETS: &[(&[u8], &[Told], u8)] = &[
    (
        THREE_TASKS,
        &[(0, 3, &[1, 2]), (3, 6, &[0, 2]), (6, 9, &[0, 1])],
        0,
    ),
    (
        ONE_LATE,
        &[
            (0, 1, &[NO_TASK]),
            (1, 4, &[NO_TASK]),
            (4, 8, &[0]),
            (8, 20, &[NO_TASK]),
        ],
        0,
    ),
    (b"processors\n", &[], 6),
    (OVERLOAD, &[], 7),
    (LARGE_SCALE, &[], 8),
];

/// Whether the round just gone runs these tasks, one for each processor.
fn runs_tasks(steps: &Steps, tasks: &[u32]) -> bool {
    for q in 0..steps.processors() {
        if tasks.get(q as usize) != Some(&steps.task_on(q)) {
            return false;
        }
    }
    true
}

/// Goes on by these rounds, which must be all that are left.
fn assert_told(rt: &impl Abort, steps: &mut Steps, rounds: &[Told]) {
    for (start, end, tasks) in rounds {
        let from = steps.now();
        let goes_on = steps.go_on();
        assert!(rt;
            goes_on && (from, steps.now()) == (*start, *end),
            "from {start}"
        );
        assert!(rt; runs_tasks(steps, tasks), "from {start}");
    }
    assert!(rt; !steps.go_on());
    assert!(rt; steps.now() == steps.end());
}

/// The status with which a set is refused; 0 where it is opened, and then these must be its rounds.
fn status_of(rt: &impl Abort, alloc: Global, set: &[u8], rounds: &[Told]) -> u8 {
    match Steps::open(alloc, set) {
        Ok(mut steps) => {
            assert_told(rt, &mut steps, rounds);
            0
        }
        Err(fault) => fault.status().code(),
    }
}

#[test]
fn tells_rounds_or_the_status_of_the_program(rt: HostRuntime) {
    for (set, rounds, status) in SETS {
        let found = status_of(&rt, rt.alloc(), set, rounds);
        assert!(rt; found == *status, "{status}");
    }
}

#[test]
fn refuses_a_set_that_is_too_long(rt: HostRuntime) {
    let long = vec![in rt.alloc(); b'\n'; 1_048_577].expect(&rt, "there is memory");
    assert!(rt; status_of(&rt, rt.alloc(), &long, &[]) == 12);
}
