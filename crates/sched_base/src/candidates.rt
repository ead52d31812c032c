//! Candidates for the earliest deadline.

/// A member of a server at one tick: where its window ends, and what is left of its due.
#[derive(Clone, Copy)]
pub struct Candidate {
    /// The end of its window. Only the order of ends matters, so units and ticks serve alike.
    pub end: u128,
    /// What is left of its due, in ticks.
    pub remain: u128,
}
