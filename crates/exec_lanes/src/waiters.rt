//! Where workers sleep that wait. Which of them wait, and for which posted count, stands in the book: a worker that is told to wait is
//! marked there in the same hold of the lock, and whoever posts what it waits for gets its lane to wake. No clause rests on it: a worker
//! that wakes looks into the book again, and no sleep is longer than a twentieth of a second.

use sched_base::NoMemory;
use std::alloc::Global;
use std::hint::spin_loop;
use std::sync::atomic::{AtomicU64, Ordering};
use std::sync::{Mutex, MutexGuard, Wait};
use std::thread;
use std::time::Duration;

/// A worker that waits looks this often before it sleeps: about as long as a row takes, and it has mostly run many since it last slept. To look
/// until it is woken takes more than a sleep, since a lane waits for rows of all others.
const LOOKS: u32 = 20;

/// The longest pause between two tries at a held lock: a worker that has the lock often gets through several rows meanwhile, with the book
/// at hand.
const PAUSE: u32 = 256;

/// A worker that finds the lock held tries this often before it sleeps until it has the lock.
const TRIES: u32 = 48;

/// A worker alone gives up after so many waits in a row.
const PATIENCE: u32 = 10_000;

/// No worker sleeps longer than this many nanoseconds before it looks again. A shorter sleep costs more: its end is before the next tick
/// of the system's clock, so that a timer must be set for it.
const NAP: u64 = 50_000_000;

/// A worker sleeps this many nanoseconds at most until each lane has had a worker.
const SHORT_NAP: u64 = 100_000;

/// After so many short naps in a row a worker gives up: a thread may have been refused. It is longer than many threads take to begin.
const SHORT_NAPS: u32 = 20;

/// The workers of a run, and where each sleeps.
pub struct Waiters {
    /// How many lanes have had a worker in this pass.
    begun: AtomicU64,
    /// 1 where some lane has no worker, as far as is known: then whoever must wait gives up.
    short: AtomicU64,
    sleepers: Vec<Sleeper>,
}

/// Where the worker of one lane sleeps. Each has a line of the processor's cache of its own.
#[derive(Drop)]
struct Sleeper {
    /// How often it was woken. The worker sleeps on it.
    calls: AtomicU64,
    /// How often it had been woken when the worker last looked into the book. Only the lane's own worker changes it.
    seen: AtomicU64,
    _rest_of_line: [u64; 6],
}

impl Drop for Waiters {
    fn drop(self) {
        let Self {
            begun: _,
            short: _,
            sleepers,
        } = self;
        drop(sleepers);
    }
}

impl Waiters {
    /// The lanes have no workers yet.
    pub(crate) fn of_lanes(alloc: Global, lanes: u32) -> Result<Waiters, NoMemory> {
        let mut sleepers = Vec::with_capacity(alloc, lanes as usize)?;
        for _ in 0..lanes {
            sleepers.push(Sleeper {
                calls: AtomicU64::new(0),
                seen: AtomicU64::new(0),
                _rest_of_line: [0; 6],
            })?;
        }
        Ok(Waiters {
            begun: AtomicU64::new(0),
            short: AtomicU64::new(0),
            sleepers,
        })
    }

    /// Tells that a pass over the lanes begins, in so many threads at most. Where lanes share one, whoever must wait gives up at once.
    pub fn begin_pass(&self, threads: usize) {
        self.begun.store(0, Ordering::SeqCst);
        let short = if threads < self.sleepers.len() { 1 } else { 0 };
        self.short.store(short, Ordering::SeqCst);
    }

    /// Tells that a lane has a worker.
    pub fn begin(&self) {
        self.begun.fetch_add(1, Ordering::SeqCst);
    }

    /// Tells that a lane's worker has ended. All that sleep are woken: it may have halted the book.
    pub fn end(&self) {
        if !self.is_short() {
            self.wake_all();
        }
    }

    // Whether some lane has no worker, as far as is known.
    fn is_short(&self) -> bool {
        self.short.load(Ordering::SeqCst) != 0
    }

    // Tells that some lane has no worker.
    fn give_up(&self) {
        self.short.store(1, Ordering::SeqCst);
        self.wake_all();
    }

    fn wake_all(&self) {
        for sleeper in self.sleepers.as_slice() {
            sleeper.wake();
        }
    }

    // Waits until the lane is woken, or for a while: looks for it, and then sleeps. False where it gives up, since some lane seems to have
    // no worker.
    fn sleep<R: Wait>(&self, rt: &R, sleeper: &Sleeper, waits: &mut u32) -> bool {
        if self.is_short() {
            return false;
        }
        if sleeper.is_woken_soon() {
            return true;
        }
        if self.begun.load(Ordering::SeqCst) >= self.sleepers.len() as u64 {
            sleeper.sleep(rt, NAP);
            return true;
        }
        sleeper.sleep(rt, SHORT_NAP);
        *waits = waits.saturating_add(1);
        if *waits < SHORT_NAPS {
            return true;
        }
        self.give_up();
        false
    }
}

impl Sleeper {
    fn wake(&self) {
        self.calls.fetch_add(1, Ordering::SeqCst);
        self.calls.wake_one();
    }

    // Notes how often its worker has been woken. A store costs more than a load, and mostly nobody woke it.
    fn note_calls(&self) {
        let calls = self.calls.load(Ordering::SeqCst);
        if self.seen.load(Ordering::Relaxed) != calls {
            self.seen.store(calls, Ordering::Relaxed);
        }
    }

    // Looks for a moment whether its worker is woken.
    fn is_woken_soon(&self) -> bool {
        let seen = self.seen.load(Ordering::Relaxed);
        for _ in 0..LOOKS {
            if self.calls.load(Ordering::SeqCst) != seen {
                return true;
            }
            spin_loop();
        }
        false
    }

    // Sleeps until its worker is woken, or for so many nanoseconds.
    fn sleep<R: Wait>(&self, rt: &R, long: u64) {
        let seen = self.seen.load(Ordering::Relaxed);
        nap(rt, &self.calls, seen, long);
        if self.calls.load(Ordering::SeqCst) == seen {
            // Nobody woke it: where sleeps end at once, others get on at least.
            thread::yield_now();
        }
    }
}

/// Notes how often the worker of a lane that is told to wait has been woken, while the book is held that told so: it sleeps until it is
/// woken once more.
pub fn note_calls(waiters: Option<&Waiters>, lane: u32) {
    if let Some(waiters) = waiters {
        if let Some(sleeper) = waiters.sleepers.get(lane as usize) {
            sleeper.note_calls();
        }
    }
}

/// Wakes the workers of these lanes, a bit each, by who held the lock.
pub fn wake(waiters: Option<&Waiters>, lanes: u32) {
    if let Some(waiters) = waiters {
        let mut left = lanes;
        for sleeper in waiters.sleepers.as_slice() {
            if left == 0 {
                return;
            }
            if left & 1 == 1 {
                sleeper.wake();
            }
            left >>= 1;
        }
    }
}

/// Gives way until the lane is woken, or for a while: then all rows of earlier rounds are posted, and the lane may take a whole window of
/// rows. `waits` counts waits in a row.
///
/// False where it gives up: beside other workers where some lane seems to have no worker, since that may be the one that it waits for,
/// and alone after 10,000 waits in a row.
pub fn wait<R: Wait>(rt: &R, waiters: Option<&Waiters>, lane: u32, waits: &mut u32) -> bool {
    if let Some(waiters) = waiters {
        if let Some(sleeper) = waiters.sleepers.get(lane as usize) {
            return waiters.sleep(rt, sleeper, waits);
        }
    }
    *waits = waits.saturating_add(1);
    if *waits >= PATIENCE {
        return false;
    }
    thread::yield_now();
    true
}

/// Takes the lock of a book. Whoever holds it holds it for a moment, and a sleep costs as much as many rows: so a worker tries for a
/// while before it sleeps, and gives way to others in between.
#[inline(always)]
pub fn lock_soon<'a, T, R: Wait>(rt: &R, book: &'a Mutex<T>) -> MutexGuard<'a, T> {
    match book.try_lock() {
        Some(guard) => guard,
        None => lock_contended(rt, book),
    }
}

// Takes the lock of a book that was found held. Each pause is twice as long as the one before; once they are long it gives way to others
// after each, since the worker that has the lock may want its processor.
#[inline(never)]
fn lock_contended<'a, T, R: Wait>(rt: &R, book: &'a Mutex<T>) -> MutexGuard<'a, T> {
    let mut pause = 1u32;
    for _ in 0..TRIES {
        pause_for(pause);
        if let Some(guard) = book.try_lock() {
            return guard;
        }
        if pause < PAUSE {
            pause = pause.saturating_mul(2);
        } else {
            thread::yield_now();
        }
    }
    book.lock(rt)
}

// Pauses that often.
#[inline(always)]
fn pause_for(pauses: u32) {
    for _ in 0..pauses {
        spin_loop();
    }
}

// Sleeps while the word is this number, for so many nanoseconds at most.
fn nap<R: Wait>(rt: &R, word: &AtomicU64, seen: u64, long: u64) {
    word.park_timeout(rt, (seen & 0xffff_ffff) as u32, Duration::from_nanos(long));
}
