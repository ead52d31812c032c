//! The schedule of a task set round by round, for an executive that keeps no table.
#![tactic(auto)]

mod faults;
mod halves;
mod steps;

pub use faults::OpenFault;
pub use halves::{Halves, halves_of};
pub use steps::{NO_TASK, Steps, read_plan, task_shown};
