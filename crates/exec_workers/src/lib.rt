//! The workers of the executive: one for each lane. They serve the lanes until all rows are posted or one has failed; then the book is closed.
#![tactic(auto)]

mod close;
mod executing;
mod opening;
mod passes;
mod run;

pub use close::close_book;
pub use exec_lanes::{Cause, ExecFault, Executed, Kit, Lane};
pub use executing::{execute, execute_on};
pub use lane_worker::serve;
pub use locked_book::{halt_row, post_row, take_row};
