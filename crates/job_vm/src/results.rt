//! The text that tells what the jobs of a set have computed.
ghost use Rattle.std.specs.Prelude.{◌≡◌, ◌≤◌, ◌<◌, ◌/◌, ◌++◌, ◌∷◌, ℕ, length, codes, decimal};
ghost use Rattle.std.specs.List.{flat_map, range_with_len};
ghost use Rattle.sched_base.specs.Bytes.{space};
ghost use Rattle.sched_base.specs.Sets.{task_at};
ghost use Rattle.sched_edges.specs.Causes.{HasCause};
ghost use Rattle.sched_edges.specs.Jobs.{JobAt};
ghost use Rattle.sched_edges.specs.Streams.{Wrote};
ghost use Rattle.job_vm.specs.Results.{told_at, job_line, jobs_text};
ghost use Rattle.job_vm.specs.Seen.{seen};

use sched_base::TaskSet;
use sched_edges::{Failed, Job, JobList, Line, Sink, word_line, write_all};

/// Writes for each task of the set its whole units, of `scale` ticks each, and what its job has computed: the program counter,
/// and the registers 0 to 7.
pub fn write_jobs<W: Sink, J: Job>(
    out: &mut W,
    set: &TaskSet,
    scale: u128,
    jobs: &mut JobList<J>,
) -> Result<(), Failed>
    requires scale { 1 ≤ scale }
    requires jobs { (i : ℕ) → i < length set.now.tasks → (job : J) × JobAt jobs.old.places i job }
    ensures wrote { Wrote (W.taken out.old) (W.taken out.new) (jobs_text (told_at scale (seen J.Job jobs.old.places)) set.now.tasks) result }
    ensures cause { HasCause (W.faults out.old) (W.faults out.new) result }
    ensures same { jobs.new ≡ jobs.old }
{
    write_all(out, word_line(b"run-jobs 1").as_slice())?;
    for i in 0..set.count() {
        let task = &set.tasks()[i as usize];
        let (units, numbers) = told_at(jobs, i, scale);
        write_job(out, task.name.as_slice(), units, &numbers)?;
    }
    Ok(())
}

// The whole units that the job of place i has worked, and what it has computed.
fn told_at<J: Job>(jobs: &mut JobList<J>, i: u32, scale: u128) -> (u128, [u64; 9])
    requires scale { 1 ≤ scale }
    requires there { (job : J) × JobAt jobs.old.places i job }
    ensures told { told_at scale (seen J.Job jobs.old.places) i ≡ record { units = result.0; numbers = result.1 } }
    ensures same { jobs.new ≡ jobs.old }
{
    let job = jobs.lift(i);
    let told = (job.used() / scale, job.state());
    jobs.lay(i, job);
    told
}

// The line of a task.
fn write_job<W: Sink>(out: &mut W, name: &[u8], units: u128, numbers: &[u64]) -> Result<(), Failed>
    requires name { length name.now ≤ 64 }
    ensures wrote { Wrote (W.taken out.old) (W.taken out.new) (job_line name.now (record { units = units; numbers = numbers.now })) result }
    ensures cause { HasCause (W.faults out.old) (W.faults out.new) result }
{
    write_all(out, start_of_line(name, units).as_slice())?;
    write_numbers(out, numbers)?;
    write_all(out, b"\n")
}

fn write_numbers<W: Sink>(out: &mut W, numbers: &[u64]) -> Result<(), Failed>
    ensures wrote { Wrote (W.taken out.old) (W.taken out.new) (flat_map (λ n. space ∷ decimal n) numbers.now) result }
    ensures cause { HasCause (W.faults out.old) (W.faults out.new) result }
{
    for number in numbers {
        write_all(out, word_of(*number).as_slice())?;
    }
    Ok(())
}

// A task's line up to its units.
fn start_of_line(name: &[u8], units: u128) -> Line
    requires name { length name.now ≤ 64 }
    ensures { result ≡ codes "job " ++ (name.now ++ (space ∷ decimal units)) }
{
    let mut line = Line::new();
    line.text(b"job ");
    line.text(name);
    line.space();
    line.number(units);
    line
}

// A further number of a line.
fn word_of(number: u64) -> Line
    ensures { result ≡ space ∷ decimal number }
{
    let mut word = Line::new();
    word.space();
    word.number(u128::from(number));
    word
}
