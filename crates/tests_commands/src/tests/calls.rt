//! One call of the commands: what is outside, and what it leaves.
ghost use Rattle.std.specs.Prelude.{◌≡◌, ◌<◌, ◌+◌, ℕ, []};
ghost use Rattle.sched_edges.specs.Jobs.{JobAt};
ghost use Rattle.run_tool.specs.Executions.{AreBack, IsFreshCrew, crew_of, gates_of};
ghost use Rattle.run_tool.specs.Ready.{AreFirstGates};

use exec_workers::Kit;
use job_vm::VmJob;
use run_tool::{Status, run};
use sched_edges::{
    BoxedJob, CountJob, FailJob, Gate, Job, JobList, Jobs, ListGate, MemSink, MemSource, read_all,
};
use std::alloc::Global;
use std::process::Abort;
use std::sync::Wait;
use std::thread::Threads;

/// The most processors, each of which has a gate.
const GATES: u32 = 32;

/// The most tasks, each of which has a job.
const JOBS: u32 = 256;

/// What the jobs are.
#[derive(Clone, Copy)]
pub(super) enum JobKinds {
    /// Each runs a program.
    Programs,
    /// Each counts its ticks.
    Counts,
    /// Each counts its ticks and could fail, and none does.
    Sure,
    /// That of this task fails at this call, and each other one runs a program.
    Fails(u32, u64),
}

/// What is outside a call. Calls are numbered from 1.
#[derive(Clone, Copy)]
pub(super) struct Outside {
    /// The calls of the source that fail.
    pub source: &'static [u64],
    /// The calls of `out` that fail.
    pub out: &'static [u64],
    /// The calls of `err` that fail.
    pub err: &'static [u64],
    /// The bytes that `out` has room for.
    pub out_room: usize,
    /// The bytes that `err` has room for.
    pub err_room: usize,
    /// The gate of a processor, and its call that fails.
    pub gate: Option<(u32, u64)>,
    /// The rows that each gate has room for.
    pub gate_room: usize,
    /// What the jobs are.
    pub jobs: JobKinds,
}

/// Nothing fails.
pub(super) const SURE: Outside = Outside {
    source: &[],
    out: &[],
    err: &[],
    out_room: 1_048_576,
    err_room: 4096,
    gate: None,
    gate_room: 16,
    jobs: JobKinds::Programs,
};

/// What a job tells after a call.
#[derive(Clone, Copy)]
pub(super) struct Worked {
    pub id: u32,
    pub ticks: u128,
    pub faults: u64,
}

/// How a call ended, and what its streams hold.
#[derive(Drop)]
pub(super) struct Told {
    pub status: Status,
    pub out: MemSink,
    pub err: MemSink,
    /// How many bytes the source has still to give.
    pub unread: usize,
}

/// What a call left.
#[derive(Drop)]
pub(super) struct Left {
    pub told: Told,
    pub kits: Vec<Kit<ListGate>>,
    /// What each job tells.
    pub jobs: Vec<Worked>,
}

/// Has the gates and the jobs do what the words ask for.
pub(super) fn perform<G: Gate + Send, X: Abort + Threads + Wait + Sync>(
    rt: &X,
    alloc: Global,
    words: &[&str],
    input: &[u8],
    outside: &Outside,
    kits: &mut Vec<Kit<G>>,
    jobs: &mut Jobs,
) -> Told
    requires ready { IsFreshCrew (crew_of G.Gate ⟦<BoxedJob as Job>⟧ kits.old jobs.old) }
    ensures { AreBack (crew_of G.Gate ⟦<BoxedJob as Job>⟧ kits.old jobs.old)
        (crew_of G.Gate ⟦<BoxedJob as Job>⟧ kits.new jobs.new) }
{
    let words = owned(rt, alloc, words);
    let mut source = MemSource::new(alloc, input, outside.source).expect(rt, "there is memory");
    let mut out = MemSink::new(alloc, outside.out_room, outside.out).expect(rt, "there is memory");
    let mut err = MemSink::new(alloc, outside.err_room, outside.err).expect(rt, "there is memory");
    let status = run(
        rt,
        alloc,
        &words,
        &mut source,
        &mut out,
        &mut err,
        kits,
        jobs,
    );
    let unread = unread(alloc, &mut source);
    Told {
        status,
        out,
        err,
        unread,
    }
}

/// Calls the commands with these words, with these gates and a job for each task. What each job tells is told too.
pub(super) fn call_with<G: Gate + Send, X: Abort + Threads + Wait + Sync>(
    rt: &X,
    alloc: Global,
    words: &[&str],
    input: &[u8],
    outside: &Outside,
    kits: &mut Vec<Kit<G>>,
) -> (Told, Vec<Worked>)
    requires { AreFirstGates 32 (gates_of G.ran G.faults kits.old.items) }
{
    let mut jobs = Jobs::with_room(alloc, JOBS).expect(rt, "there is memory");
    for id in 0..JOBS {
        match kind_of(outside, id) {
            JobKind::Fail(call) => {
                let job = failing(rt, alloc, id, call);
                jobs.add(Box::new(alloc, job).expect(rt, "there is memory"));
            }
            JobKind::Program => {
                let job = VmJob::new(alloc, id);
                jobs.add(Box::new(alloc, job).expect(rt, "there is memory"));
            }
            JobKind::Count => {
                let job = CountJob::new(id);
                jobs.add(Box::new(alloc, job).expect(rt, "there is memory"));
            }
        }
    }
    let told = perform(rt, alloc, words, input, outside, kits, &mut jobs);
    (told, told_by(rt, alloc, &mut jobs))
}

/// Calls the commands with these words, with a gate for each processor and a job for each task.
pub(super) fn call<X: Abort + Threads + Wait + Sync>(
    rt: &X,
    alloc: Global,
    words: &[&str],
    input: &[u8],
    outside: &Outside,
) -> Left {
    let mut kits = kits_of(rt, alloc, outside);
    let (told, jobs) = call_with(rt, alloc, words, input, outside, &mut kits);
    Left { told, kits, jobs }
}

fn owned(rt: &impl Abort, alloc: Global, words: &[&str]) -> Vec<String> {
    let mut owned = Vec::new(alloc);
    for word in words {
        let word = String::from_str(alloc, word).expect(rt, "there is memory");
        owned.push(word).expect(rt, "there is memory");
    }
    owned
}

/// A kit for each processor.
pub(super) fn kits_of(rt: &impl Abort, alloc: Global, outside: &Outside) -> Vec<Kit<ListGate>>
    ensures { AreFirstGates 32 (gates_of (λ g. Some g.ran) (λ g. g.faults) result.items) }
{
    let mut kits = Vec::new(alloc);
    for p in 0..GATES {
        let gate = gate_of(rt, alloc, outside, p);
        kits.push(Kit::new(gate)).expect(rt, "there is memory");
    }
    kits
}

// The gate of processor p, which lists its rows.
fn gate_of(rt: &impl Abort, alloc: Global, outside: &Outside, p: u32) -> ListGate
    ensures { result.ran ≡ [] }
{
    match outside.gate {
        Some((failing, call)) if failing == p => {
            ListGate::new(alloc, outside.gate_room, &[call]).expect(rt, "there is memory")
        }
        _ => ListGate::new(alloc, outside.gate_room, &[]).expect(rt, "there is memory"),
    }
}

/// What a job is.
#[derive(Clone, Copy)]
enum JobKind {
    Program,
    Count,
    /// It fails at this call; at none where that is 0.
    Fail(u64),
}

// What the job of this task is.
fn kind_of(outside: &Outside, id: u32) -> JobKind {
    match outside.jobs {
        JobKinds::Counts => JobKind::Count,
        JobKinds::Sure => JobKind::Fail(0),
        JobKinds::Fails(task, call) if task == id => JobKind::Fail(call),
        JobKinds::Programs | JobKinds::Fails(_, _) => JobKind::Program,
    }
}

// The job of a task, which fails at this call, or at none where that is 0.
fn failing(rt: &impl Abort, alloc: Global, id: u32, call: u64) -> FailJob
    ensures id { result.id ≡ id }
    ensures used { result.used ≡ 0 }
{
    let calls = [call];
    let fails = if call > 0 { calls.as_slice() } else { &[] };
    FailJob::new(alloc, id, fails).expect(rt, "there is memory")
}

// How many bytes the source has still to give.
fn unread(alloc: Global, source: &mut MemSource) -> usize {
    match read_all(alloc, source, 2_097_152) {
        Ok(bytes) => bytes.as_slice().len(),
        Err(_) => 0,
    }
}

// What the jobs tell, each lifted out of its place.
fn told_by<J: Job>(rt: &impl Abort, alloc: Global, jobs: &mut JobList<J>) -> Vec<Worked>
    requires { (i : ℕ) → i < 256 → (job : J) × JobAt jobs.old.places i job }
{
    let mut told = Vec::new(alloc);
    for i in 0..JOBS {
        let job = jobs.lift(i);
        let worked = Worked {
            id: job.id(),
            ticks: job.used(),
            faults: job.faults(),
        };
        told.push(worked).expect(rt, "there is memory");
    }
    told
}
