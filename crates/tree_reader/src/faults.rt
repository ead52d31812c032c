//! Why a tree text isn't read.

/// A tree text was refused, or memory was.
#[derive(Clone, Copy)]
pub enum TreeFault {
    /// This line is the first at fault, counted from 1. Where the text ends too soon, it is the line after its last one.
    BadLine { line: u64 },
    /// Memory was refused. No clause says when.
    NoMemory,
}
