//! Gates and jobs on their way into a run and back.
ghost use Rattle.std.specs.Prelude.{◌≡◌, ◌≤◌, ◌<◌, ℕ, [], Some, None, length, slice_get, slice_set, slice_index, vec_len, vec_capacity, IfOk};
ghost use Rattle.sched_edges.specs.Jobs.{JobAt};
ghost use Rattle.unit_ledger.specs.Seats.{seat_at_start};
ghost use Rattle.exec_lanes.specs.Lanes.{lane_in};
ghost use Rattle.exec_lanes.specs.Kits.{KitAt, IsLent, AreFilled, IsGateOf, lane_at_start};

use crate::kits::Kit;
use crate::lanes::Lane;
use sched_base::{NoMemory, Totals};
use sched_edges::{Gate, Job, JobList};
use std::alloc::Global;
use unit_ledger::{PostLedger, Seats};

/// Moves the gates of the first m kits, one for each processor, into lanes, each with its seat. Nothing has failed on a lane yet.
pub fn fill_lanes<G: Gate, Q: PostLedger>(
    kits: &mut [Kit<G>],
    seats: &mut Seats<Q>,
    lanes: &mut Vec<Lane<G, Q>>,
    m: u32,
)
    requires none { vec_len lanes.old ≡ 0 }
    requires room { m ≤ vec_capacity lanes.old }
    requires kits { AreFilled m kits.old }
    requires seats { (p : ℕ) → p < m → slice_get seats.old p ≡ Some (seat_at_start p) }
    ensures count { vec_len lanes.new ≡ m }
    ensures lanes { (p : ℕ) (gate : G) → p < m → KitAt kits.old p gate → lane_in lanes.new.items p ≡ lane_at_start G.ran G.faults p gate }
    ensures kits { (p : ℕ) → p < m → IsLent kits.new p }
    ensures other_kits { (p : ℕ) → m ≤ p → slice_get kits.new p ≡ slice_get kits.old p }
    ensures seats { (p : ℕ) → p < m → slice_get seats.new p ≡ Some None }
    ensures all_seats { length seats.new ≡ length seats.old }
{
    for p in 0..m {
        let gate = take_gate(kits, p);
        let seat = seats.lift(p);
        lanes.push_reserved(Lane::new(gate, seat));
    }
}

/// Moves the gates of lanes back into their kits, and their seats into their places. Why a lane ended is let go.
pub fn empty_lanes<G: Gate, Q: PostLedger>(
    kits: &mut [Kit<G>],
    seats: &mut Seats<Q>,
    lanes: Vec<Lane<G, Q>>,
)
    requires own { (p : ℕ) → p < vec_len lanes → (lane_in lanes.items p).seat.lane ≡ p }
    requires kits { (p : ℕ) → p < vec_len lanes → IsLent kits.old p }
    requires seats { (p : ℕ) → p < vec_len lanes → slice_get seats.old p ≡ Some None }
    ensures kits { (p : ℕ) → p < vec_len lanes → (gate : G) × KitAt kits.new p gate × IsGateOf G.ran G.faults (lane_in lanes.items p) gate }
    ensures other_kits { (p : ℕ) → vec_len lanes ≤ p → slice_get kits.new p ≡ slice_get kits.old p }
    ensures seats { (p : ℕ) → p < vec_len lanes → slice_get seats.new p ≡ Some (Some (lane_in lanes.items p).seat) }
    ensures all_seats { length seats.new ≡ length seats.old }
{
    for lane in lanes {
        let (gate, seat) = lane.into_parts();
        put_gate(kits, seat.lane(), gate);
        seats.lay(seat);
    }
}

// Takes the gate out of kit p.
fn take_gate<G>(kits: &mut [Kit<G>], p: u32) -> G
    requires inside { p < length kits.old }
    requires filled { (gate : G) × KitAt kits.old p gate }
    ensures gate { KitAt kits.old p result }
    ensures kits { kits.new ≡ slice_set kits.old p (record { gate = None }) }
{
    kits[p as usize].gate.take().unwrap()
}

// Puts a gate into kit p.
fn put_gate<G: Drop>(kits: &mut [Kit<G>], p: u32, gate: G)
    requires { p < length kits.old }
    ensures { kits.new ≡ slice_set kits.old p (record { gate = Some gate }) }
{
    kits[p as usize].gate = Some(gate);
}

/// Moves the jobs of the first n tasks into an empty list.
pub fn lift_jobs<J: Drop>(jobs: &mut JobList<J>, out: &mut JobList<J>, n: u32)
    requires there { (t : ℕ) → t < n → (job : J) × JobAt jobs.old.places t job }
    requires none { out.old.places ≡ [] }
    requires room { n ≤ out.old.room }
    ensures out { (t : ℕ) → t < n → slice_get out.new.places t ≡ slice_get jobs.old.places t }
    ensures jobs { (t : ℕ) → t < n → slice_get jobs.new.places t ≡ Some None }
    ensures other_jobs { (t : ℕ) → n ≤ t → slice_get jobs.new.places t ≡ slice_get jobs.old.places t }
    ensures room { jobs.new.room ≡ jobs.old.room }
    ensures all { length jobs.new.places ≡ length jobs.old.places }
{
    for t in 0..n {
        out.add(jobs.lift(t));
    }
}

/// Moves the jobs of the first n tasks back into their places.
pub fn lay_jobs<J: Drop>(back: &mut JobList<J>, jobs: &mut JobList<J>, n: u32)
    requires there { (t : ℕ) → t < n → (job : J) × JobAt back.old.places t job }
    requires empty { (t : ℕ) → t < n → slice_get jobs.old.places t ≡ Some None }
    ensures jobs { (t : ℕ) → t < n → slice_get jobs.new.places t ≡ slice_get back.old.places t }
    ensures other_jobs { (t : ℕ) → n ≤ t → slice_get jobs.new.places t ≡ slice_get jobs.old.places t }
    ensures room { jobs.new.room ≡ jobs.old.room }
    ensures all { length jobs.new.places ≡ length jobs.old.places }
{
    for t in 0..n {
        jobs.lay(t, back.lift(t));
    }
}

/// How often the jobs of the first n tasks have failed.
pub(crate) fn fault_counts<J: Job>(
    alloc: Global,
    jobs: &JobList<J>,
    n: u32,
) -> Result<Vec<u64>, NoMemory>
    requires { (t : ℕ) → t < n → (job : J) × JobAt jobs.now.places t job }
    ensures count { IfOk result (λ v. vec_len v ≡ n) }
    ensures counts { IfOk result (λ v. (t : ℕ) (job : J) → t < n → JobAt jobs.now.places t job → slice_index v.items t ≡ J.faults job) }
{
    let mut counts = Vec::with_capacity(alloc, n as usize)?;
    for t in 0..n {
        counts.push(jobs.faults(t))?;
    }
    Ok(counts)
}

/// Appends the ticks that the jobs of the first n tasks have worked.
pub(crate) fn push_totals<J: Job>(jobs: &JobList<J>, totals: &mut Totals, n: u32)
    requires none { totals.old.ticks ≡ [] }
    requires room { n ≤ totals.old.room }
    requires there { (t : ℕ) → t < n → (job : J) × JobAt jobs.now.places t job }
    ensures count { length totals.new.ticks ≡ n }
    ensures ticks { (t : ℕ) (job : J) → t < n → JobAt jobs.now.places t job → slice_index totals.new.ticks t ≡ J.used job }
{
    for t in 0..n {
        totals.push(jobs.used(t));
    }
}
