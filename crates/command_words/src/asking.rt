//! What is asked to be seen of a trace.

/// What the user asks to see.
#[derive(Clone, Copy, PartialEq, Eq)]
pub struct Asked {
    /// The first unit.
    pub from: u64,
    /// How many units, at least 1; None for as many as are easily looked at.
    pub units: Option<u64>,
}
