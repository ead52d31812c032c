//! Jobs, each in a place of its own.
ghost use Rattle.std.specs.Prelude.{◌≡◌, ◌≤◌, ◌+◌, ◌↔◌, [], ◌∷◌, ◌++◌, Some, None, length, slice_get, slice_set, IfOk, IsTrue};
ghost use Rattle.sched_edges.specs.Jobs.{JobAt, FaultsAre};

use crate::jobs::Job;
use sched_base::NoMemory;
use std::alloc::Global;
use std::marker::Model;

/// A list of jobs, each in a place of its own that is filled or empty.
///
/// It is generic in the job, as all that holds jobs is: what a type keeps of its jobs names their ids and ticks, and a
/// type can name those of a type parameter but not those of a boxed job.
#[derive(Drop)]
pub struct JobList<J> {
    places: Vec<Option<J>>,
    room: u32,
}

/// A boxed job.
pub type BoxedJob = Box<dyn Job + Send>;

/// A list of boxed jobs.
pub type Jobs = JobList<BoxedJob>;

impl<J> Model for JobList<J> {
    ghost use Rattle.std.specs.Prelude.{◌≤◌, ◌<◌, ◌+◌, ◌^◌, vec_len, vec_capacity};
    ghost use Rattle.sched_edges.specs.Jobs.{JobPlaces};

    ghost Value = { JobPlaces J };

    ghost view = { λ s. record { places = s.places.items; room = s.room } };

    ghost invariant = { λ s. (vec_len s.places + s.room < 2 ^ 32) × (vec_len s.places + s.room ≤ vec_capacity s.places) };
}

impl<J> JobList<J> {
    /// No job yet, with room for that many. All memory is taken here.
    pub fn with_room(alloc: Global, count: u32) -> Result<JobList<J>, NoMemory>
        ensures none { IfOk result (λ s. s.places ≡ []) }
        ensures room { IfOk result (λ s. s.room ≡ count) }
    {
        Ok(JobList {
            places: Vec::with_capacity(alloc, count as usize)?,
            room: count,
        })
    }

    /// No job, and no room. This takes no memory.
    pub fn empty(alloc: Global) -> JobList<J>
        ensures none { result.places ≡ [] }
        ensures room { result.room ≡ 0 }
    {
        JobList {
            places: Vec::new(alloc),
            room: 0,
        }
    }

    /// The number of places.
    pub fn count(&self) -> u32
        ensures { result ≡ length self.now.places }
    {
        self.places.len() as u32
    }

    // The job of place i.
    fn job(&self, i: u32) -> &J
        requires { (job : J) × JobAt self.now.places i job }
        ensures { JobAt self.now.places i result.now }
    {
        self.places[i as usize].as_ref().unwrap()
    }

    /// Hands the job of place i out, and leaves the place empty.
    pub fn lift(&mut self, i: u32) -> J
        requires { (job : J) × JobAt self.old.places i job }
        ensures job { JobAt self.old.places i result }
        ensures rest { self.new ≡ record self.old { places = slice_set self.old.places i None } }
    {
        let place = &mut self.places[i as usize];
        place.take().unwrap()
    }
}

impl<J: Drop> JobList<J> {
    /// Puts a job into a new place, the next one.
    pub fn add(&mut self, job: J)
        requires { 1 ≤ self.old.room }
        ensures places { self.new.places ≡ self.old.places ++ Some job ∷ [] }
        ensures room { self.new.room + 1 ≡ self.old.room }
    {
        self.places.push_reserved(Some(job));
        self.room -= 1;
    }

    /// Puts a job into place i, which is empty.
    pub fn lay(&mut self, i: u32, job: J)
        requires { slice_get self.old.places i ≡ Some None }
        ensures { self.new ≡ record self.old { places = slice_set self.old.places i (Some job) } }
    {
        self.places[i as usize] = Some(job);
    }
}

impl<J: Job> JobList<J> {
    /// The ticks that the job of place i has worked.
    pub fn used(&self, i: u32) -> u128
        requires { (job : J) × JobAt self.now.places i job }
        ensures { (job : J) → JobAt self.now.places i job → result ≡ J.used job }
    {
        self.job(i).used()
    }

    /// How often the job of place i has failed.
    pub fn faults(&self, i: u32) -> u64
        requires { (job : J) × JobAt self.now.places i job }
        ensures { (job : J) → JobAt self.now.places i job → result ≡ J.faults job }
    {
        self.job(i).faults()
    }

    /// Whether each job that is there has its given count of faults. A place past the counts has none given.
    pub fn faults_are(&self, counts: &[u64]) -> bool
        ensures { IsTrue result ↔ FaultsAre J.faults self.now.places counts.now }
    {
        for i in 0..self.places.len().min(counts.len()) {
            if !tells(&self.places[i], counts[i]) {
                return false;
            }
        }
        true
    }
}

// Whether a job that is there has failed that often.
fn tells<J: Job>(place: &Option<J>, count: u64) -> bool
    ensures { IsTrue result ↔ ((job : J) → place.now ≡ Some job → J.faults job ≡ count) }
{
    match place {
        Some(job) => job.faults() == count,
        None => true,
    }
}
