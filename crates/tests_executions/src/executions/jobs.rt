//! Jobs that tests hand in, and a list of them.
ghost use Rattle.sched_edges.specs.Jobs.{JobAt};

use sched_edges::{CountJob, FailJob, Failed, Job, JobList, Jobs};
use std::process::Abort;

/// What each call answers, and the ticks and the faults after it.
const CALLS: &[(Result<(), Failed>, u128, u64)] = &[
    (Ok(()), 5, 0),
    (Err(Failed), 5, 1),
    (Err(Failed), 5, 2),
    (Ok(()), 10, 2),
];

/// Has a job work five ticks at each call.
fn assert_works(rt: &impl Abort, job: &mut FailJob) {
    for (call, (want, used, faults)) in CALLS.iter().enumerate() {
        assert!(rt; job.used() <= 5);
        assert!(rt; job.work(5) == *want, "call {call}");
        assert!(rt;
            job.used() == *used && job.faults() == *faults,
            "call {call}"
        );
    }
}

#[test]
fn fails_at_the_stated_calls(rt: HostRuntime) {
    let mut job = FailJob::new(rt.alloc(), 7, &[2, 3]).expect(&rt, "there is memory");
    assert_works(&rt, &mut job);
    assert!(rt; job.id() == 7);
    assert!(rt; job.load(&[3], 4).is_ok());
    assert!(rt; job.used() == 0 && job.faults() == 2);
    assert!(rt; job.state() == [0; 9]);
}

/// Has the job of place 1 fail and then work, and lays it into its place again.
fn work_in_place<J: Job>(rt: &impl Abort, jobs: &mut JobList<J>)
    requires { (job : J) × JobAt jobs.old.places 1 job }
{
    let mut job = jobs.lift(1);
    assert!(rt; job.used() == 0);
    assert!(rt; job.work(15) == Err(Failed));
    assert!(rt; job.used() == 0);
    assert!(rt; job.work(10) == Ok(()));
    jobs.lay(1, job);
    assert!(rt; jobs.used(1) == 10 && jobs.faults(1) == 1);
    assert!(rt; jobs.faults_are(&[0, 1]) && !jobs.faults_are(&[0, 0]));
}

#[test]
fn works_in_its_place(rt: HostRuntime) {
    let alloc = rt.alloc();
    let mut jobs = Jobs::with_room(alloc, 2).expect(&rt, "there is memory");
    let first = Box::new(alloc, CountJob::new(0)).expect(&rt, "there is memory");
    jobs.add(first);
    let second = FailJob::new(alloc, 1, &[1]).expect(&rt, "there is memory");
    let second = Box::new(alloc, second).expect(&rt, "there is memory");
    jobs.add(second);
    work_in_place(&rt, &mut jobs);
    assert!(rt; jobs.count() == 2 && Jobs::empty(alloc).count() == 0);
}
