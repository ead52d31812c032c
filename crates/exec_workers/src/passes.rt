//! Serving all lanes.
ghost use Rattle.std.specs.Prelude.{◌≡◌, ◌≢◌, ◌<◌, ◌⊎◌, ℕ, None, length};
ghost use Rattle.plan_rounds.specs.PlanRows.{plan_rows};
ghost use Rattle.exec_lanes.specs.Lanes.{lane_in, AllServed, NoneFailed, AllAt};
ghost use Rattle.locked_book.specs.Found.{IsAgreed};

use exec_lanes::{Lane, all_at, any_failed};
use lane_worker::serve_lane;
use locked_book::{TURNS, Workplace, wait_for_good};
use run_tree::Plan;
use sched_edges::{Gate, Job};
use std::sync::Wait;
use std::thread;
use std::thread::Threads;
use unit_ledger::PostLedger;

/// Serves the lanes in passes until all have posted that many rows or one has failed.
///
/// The first pass asks for a thread for each lane, and where it gets them it is the last one. Where threads are refused, a lane that
/// must wait gives up, since it may wait for one that isn't served. Most passes after that ask for no thread: in each of them every
/// lane goes on until it must wait, so each posts a round at least. A few ask again, for threads that were only late: the second, and
/// those whose number is a power of 16.
pub(crate) fn serve_passes<
    G: Gate + Send,
    Q: PostLedger + Send + Sync,
    J: Job + Send,
    R: Threads + Wait + Sync,
>(work: &Workplace<'_, Q, J, R>, lanes: &mut [Lane<G, Q>], counts: &[u64], rounds: u64)
    requires counts { length counts.now ≡ length work.now.plan.now.set.tasks }
    requires fresh { NoneFailed lanes.old }
    ensures served { AllServed (plan_rows work.now.plan.now) counts.now lanes.old lanes.new }
    ensures ended { (NoneFailed lanes.new × AllAt rounds lanes.new) ⊎ ((p : ℕ) × (p < length lanes.new) × ((lane_in lanes.new p).cause ≢ None)) }
{
    work.agree();
    for pass in 1..TURNS {
        let threads = threads_of(pass, work.plan, lanes.len());
        serve_all(work, lanes, counts, threads);
        if any_failed(lanes) || all_at(lanes, rounds) {
            return;
        }
    }
    wait_for_good(work.rt)
}

// How many threads a pass asks for. Where there is no task there is no work to share.
fn threads_of(pass: u64, plan: &Plan, lanes: usize) -> usize {
    let asks = pass <= 2 || pass.is_power_of_two() && pass.trailing_zeros() % 4 == 0;
    if asks && plan.set().count() > 0 {
        lanes
    } else {
        1
    }
}

// Serves each lane once, in so many threads, where they can be made.
fn serve_all<G: Gate + Send, Q: PostLedger + Send + Sync, J: Job + Send, R: Threads + Wait + Sync>(
    work: &Workplace<'_, Q, J, R>,
    lanes: &mut [Lane<G, Q>],
    counts: &[u64],
    threads: usize,
)
    requires agreed { IsAgreed work.now.plan.now Q.set }
    requires counts { length counts.now ≡ length work.now.plan.now.set.tasks }
    requires fresh { NoneFailed lanes.old }
    ensures { AllServed (plan_rows work.now.plan.now) counts.now lanes.old lanes.new }
{
    work.begin_pass(threads);
    thread::for_each_mut(
        work.rt,
        lanes,
        threads.max(1),
        &|_, lane: &mut Lane<G, Q>| serve_lane(work, lane, counts),
    );
}
