//! Loading the programs of a text into the jobs of a set.
ghost use Rattle.std.specs.Prelude.{◌≡◌, ◌≤◌, ◌<◌, ◌^◌, ℕ, length, slice_set, take, Some, OnOk, OnErr};
ghost use Rattle.sched_edges.specs.Jobs.{JobAt};
ghost use Rattle.job_vm.specs.Loading.{code_of, anew, loaded};
ghost use Rattle.job_vm.specs.Seen.{job_seen, seen};

use crate::job_text::JobText;
use sched_base::{NoMemory, TaskSet};
use sched_edges::{Job, JobList};

/// Lets the job of each task begin anew with its task's program, in units of `scale` ticks. A task that the text has no program
/// for has the empty one. Where memory is refused, the jobs of the first tasks have begun anew, and all others are as before.
pub fn load_programs<J: Job>(
    text: &JobText,
    set: &TaskSet,
    scale: u128,
    jobs: &mut JobList<J>,
) -> Result<(), NoMemory>
    requires low { 1 ≤ scale }
    requires high { scale ≤ 2 ^ 94 }
    requires jobs { (i : ℕ) → i < length set.now.tasks → (job : J) × JobAt jobs.old.places i job }
    ensures loaded { OnOk result (seen J.Job jobs.new.places ≡ loaded scale text.now.programs set.now.tasks (seen J.Job jobs.old.places)) }
    ensures begun { OnErr result ((n : ℕ) × (n < length set.now.tasks)
        × (seen J.Job jobs.new.places ≡ loaded scale text.now.programs (take n set.now.tasks) (seen J.Job jobs.old.places))) }
    ensures room { jobs.new.room ≡ jobs.old.room }
{
    for i in 0..set.count() {
        let task = &set.tasks()[i as usize];
        load(jobs, i, code_of(text, task.name.as_slice()), scale)?;
    }
    Ok(())
}

// Loads a program into the job of place i.
fn load<J: Job>(jobs: &mut JobList<J>, i: u32, code: &[u64], scale: u128) -> Result<(), NoMemory>
    requires low { 1 ≤ scale }
    requires high { scale ≤ 2 ^ 94 }
    requires there { (job : J) × JobAt jobs.old.places i job }
    ensures loaded { OnOk result ((job : J) → JobAt jobs.old.places i job → seen J.Job jobs.new.places
        ≡ slice_set (seen J.Job jobs.old.places) i (Some (anew scale code.now (job_seen J.id J.used J.faults J.made job)))) }
    ensures left { OnErr result (seen J.Job jobs.new.places ≡ seen J.Job jobs.old.places) }
    ensures filled { (k : ℕ) (job : J) → JobAt jobs.old.places k job → (now : J) × JobAt jobs.new.places k now }
    ensures room { jobs.new.room ≡ jobs.old.room }
{
    let mut job = jobs.lift(i);
    let answer = job.load(code, scale);
    jobs.lay(i, job);
    answer
}

// The words of the program of this name.
fn code_of<'a>(text: &'a JobText, name: &[u8]) -> &'a [u64]
    ensures { result.now ≡ code_of text.now.programs name.now }
{
    for program in text.programs() {
        if program.name() == name {
            return program.code();
        }
    }
    &[]
}
