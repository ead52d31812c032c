//! Looking again and again.
use std::sync::Wait;

/// A search takes no more turns than these, which no run uses up.
pub const TURNS: u64 = u64::MAX;

/// Waits for good: what a search comes to that has used up its turns.
pub fn wait_for_good<R: Wait>(rt: &R) -> ! {
    for _ in rt.forever() {}
    unreachable!()
}
