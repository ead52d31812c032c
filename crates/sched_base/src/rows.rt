//! Rows of a schedule, and what they name.

/// A task, by its place in its set.
#[derive(Clone, Copy, Debug, PartialEq, Eq)]
pub struct TaskId(pub u32);

/// A processor, by its number from 0.
#[derive(Clone, Copy, PartialEq, Eq)]
pub struct ProcId(pub u32);

/// A node of a tree, by its number in the order in which the nodes were made.
#[derive(Clone, Copy, Default, PartialEq, Eq)]
pub struct NodeId(pub u32);

/// What a processor runs.
#[derive(Clone, Copy, Debug, PartialEq, Eq)]
pub enum Leaf {
    /// A task.
    Task(TaskId),
    /// An idle leaf, by its number in its tree.
    Idle(u32),
    /// A task before its offset: the processor idles for it.
    Wait(TaskId),
    /// Nothing. No row of a schedule has this leaf.
    Empty,
}

/// What one processor runs from a start up to an end, in ticks. The end is excluded.
#[derive(Clone, Copy, Debug, PartialEq, Eq)]
pub struct Row {
    pub processor: u32,
    // beside the processor, where it fits without a gap: a row takes 48 bytes and not 64
    pub leaf: Leaf,
    pub start: u128,
    pub end: u128,
}
