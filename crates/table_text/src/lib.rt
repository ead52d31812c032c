//! The schedule of a set as a file of C99.
#![tactic(auto)]

mod given;
mod head;
mod lanes;
mod lines;
mod repeat;
mod steps;
mod table;

pub use repeat::repeat_unit;
pub use steps::step_law;
pub use table::write_table;
