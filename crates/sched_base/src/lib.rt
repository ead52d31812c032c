//! The types of a task set and of the rows of its schedule, and what they mean.
#![tactic(auto)]

mod candidates;
mod columns;
mod limits;
mod memory;
mod names;
mod rows;
mod sets;
mod tables;
mod totals;

pub use candidates::Candidate;
pub use limits::{PROCESSOR_LIMIT, ROW_LIMIT, SET_LIMIT, TASK_LIMIT, UNIT_LIMIT, WINDOW_LIMIT};
pub use memory::NoMemory;
pub use names::{Name, lawful_name};
pub use rows::{Leaf, NodeId, ProcId, Row, TaskId};
pub use sets::{Task, TaskSet};
pub use tables::{RowTable, blank_rows};
pub use totals::Totals;
