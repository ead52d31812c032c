//! Which lanes' workers wait, and for which least posted count each does. It stands in the book, and so under the lock: whoever was told
//! to wait is marked in the same hold, and whoever posts what it waits for finds the mark. No clause speaks of it.

use sched_base::PROCESSOR_LIMIT;

/// The count for which a lane waits that doesn't.
const NONE: u32 = u32::MAX;

/// The most lanes that there are.
const LANES: usize = PROCESSOR_LIMIT as usize;

/// Of each lane the least posted count for which it waits.
#[derive(Drop)]
pub(crate) struct Waits {
    counts: [u32; LANES],
    // The least of the counts.
    first: u32,
}

impl Waits {
    /// No lane waits.
    pub(crate) fn none() -> Waits {
        Waits {
            counts: [NONE; LANES],
            first: NONE,
        }
    }

    /// Lane p waits for this count.
    pub(crate) fn mark(&mut self, p: u32, count: u64) {
        if let Some(place) = self.counts.get_mut(p as usize) {
            let count = u32::try_from(count).unwrap_or(NONE);
            *place = count;
            self.first = self.first.min(count);
        }
    }

    /// The lanes that wait for this count or a lower one, a bit each. They wait no more.
    pub(crate) fn reached(&mut self, least: u64) -> u32 {
        if least < u64::from(self.first) {
            return 0;
        }
        let mut lanes = 0u32;
        let mut first = NONE;
        for p in 0..LANES {
            let count = self.counts[p];
            if u64::from(count) <= least {
                self.counts[p] = NONE;
                lanes |= 1 << p;
            } else {
                first = first.min(count);
            }
        }
        self.first = first;
        lanes
    }
}
